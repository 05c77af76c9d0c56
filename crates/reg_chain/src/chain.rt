// A log that many write.
ghost use Rattle.std.specs.Prelude.{◌≡◌, ◌++◌, List, IfOk, OnErr, option_to_list};
ghost use Rattle.reg_records.specs.declared.record.Record.{Record};
ghost use Rattle.reg_chain.specs.Chain.{told_after};
ghost use Rattle.reg_chain.specs.declared.chain.ChainAnswer.{ChainAnswer};

use base_text::Listed;
use reg_records::Record;
use std::alloc::AllocError;

/// A chain's answer to an append, or to a check, which is an append without records.
#[derive(Clone, Copy, Debug, PartialEq, Eq)]
pub enum ChainAnswer {
    /// The batch is in the chain, directly behind all that was told. Of a check: at some moment
    /// since it was asked, nothing more was there.
    Kept,
    /// The batch isn't in the chain there and never will be: another writer's batch came first, and
    /// is told next.
    Behind,
    /// The batch isn't in the chain there and never will be, and no other came first: the store
    /// declined it, or can't be reached.
    Declined,
    /// The result can't be known now. Until another batch takes the place, this one may still
    /// appear there; if it does, it is told like any other writer's.
    Unknown,
}

/// A log that many write, as one of its writers sees it: batches in one order, which is the same
/// for all writers.
pub trait Chain {
    // The batches that were told so far, in their order: those that others wrote, and the own ones that were kept.
    ghost told: { Self → List (List Record) };

    // What an answer means in this chain: what it was before, the batch, the answer, what it is then.
    ghost answers: { Self → List Record → ChainAnswer → Self → Type 0 };

    /// Asks to append the batch directly behind all that was told. Without records it is a check,
    /// which appends nothing.
    fn append(&mut self, batch: &[Record]) -> ChainAnswer
        ensures told { told self.new ≡ told_after (told self.old) batch.now result }
        ensures means { answers self.old batch.now result self.new };

    /// Returns the next batch that others wrote, if there is one. The only error is out of memory;
    /// that batch is then returned by a later call.
    fn next(&mut self) -> Result<Option<Listed<Record>>, AllocError>
        ensures told { IfOk result (λ batch. told self.new ≡ told self.old ++ option_to_list batch) }
        ensures refused { OnErr result (told self.new ≡ told self.old) };
}
