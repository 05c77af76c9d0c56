// What makes batches durable outside the process.
ghost use Rattle.std.specs.Prelude.{◌≡◌, List};
ghost use Rattle.reg_records.specs.declared.log.Log.{Log};
ghost use Rattle.reg_records.specs.declared.record.Record.{Record};
ghost use Rattle.reg_pen.specs.Keep.{TakesAll, refusal_of};
ghost use Rattle.reg_pen.specs.declared.keep.Kept.{Kept};

use reg_fold::{Refusal, StoreFault};
use reg_records::Record;

/// Why a batch isn't kept. No part of it is.
#[derive(Clone, Copy, Debug, PartialEq, Eq)]
pub enum Lack {
    /// Memory was refused.
    Memory,
    /// No offset is left for what it writes.
    Numbers,
    /// Somebody else's batch came first, so the command has to be decided again.
    Overtaken,
    /// The store that has the log declined the batch, or can't be reached.
    Store,
}

impl Lack {
    /// Returns the refusal that the client gets.
    pub fn refusal(self) -> Refusal
        ensures { result ≡ refusal_of self }
    {
        match self {
            Lack::Memory => Refusal::Store(StoreFault::Memory),
            Lack::Numbers => Refusal::Store(StoreFault::NumbersUsedUp),
            Lack::Overtaken => Refusal::Store(StoreFault::Overtaken),
            Lack::Store => Refusal::Store(StoreFault::Declined),
        }
    }
}

/// What became of a batch that was lent to a keep.
#[derive(Clone, Copy, Debug, PartialEq, Eq)]
pub enum Kept {
    /// It is kept.
    Taken,
    /// No part of it is kept, for this reason.
    Declined(Lack),
    /// It isn't known whether it is kept, so it stays pending for good.
    Lost,
    /// It can't be known now whether the log has it. If it does, it will be told like a batch that
    /// somebody else wrote.
    Unknown,
}

/// What makes a topic's batches durable, for example a file or a store. Each batch is lent to it
/// before it is published.
pub trait Keep {
    // The state before, the batch, what became of it, the state after.
    ghost keeps: { Self → List Record → Kept → Self → Type 0 };

    // That the keep is at the end of this log: what it keeps is the log, and batches are appended
    // there. For a keep that keeps nothing this says nothing.
    ghost stands: { Self → Log → Type 0 } = { λ _ _. Unit {0} };

    /// Keeps the whole batch or no part of it.
    fn keep(&mut self, batch: &[Record]) -> Kept
        ensures { keeps self.old batch.now result self.new };
}

/// A keep that stores nothing and accepts every batch: what is published ends with the process.
#[derive(Drop)]
pub struct MemoryAlone;

impl Keep for MemoryAlone {
    ghost keeps = { TakesAll };

    fn keep(&mut self, _batch: &[Record]) -> Kept {
        Kept::Taken
    }
}
