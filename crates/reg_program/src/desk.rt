// The desk (request handler) of a fold: one registry, and the next offset.
ghost use Rattle.std.specs.Prelude.{◌≡◌, ◌⊎◌, ◌≤◌, ◌+◌, suc, [], length, OnOk, OnErr};
ghost use Rattle.reg_records.specs.declared.limits.TheConstants.{OFFSET_LIMIT};
ghost use Rattle.reg_program.specs.Desk.{with_batch};

use reg_fold::{Refusal, Registry, StoreFault};
use reg_http::Desk;
use reg_leader::{Command, Decision, Reply, batches_end_by_the_limit, decide};
use reg_lookup::{Answer, Query, answer};
use reg_records::Record;
use std::alloc::{AllocError, Global};

/// A request handler over one registry, which applies what commands write.
#[derive(Debug, Drop)]
pub struct FoldDesk {
    /// The allocator for all that it makes.
    pub alloc: Global,
    /// The registry that answers.
    pub registry: Registry,
    /// The offset of the next record that is written.
    pub next: u64,
}

impl FoldDesk {
    /// Adds the records of a batch, all or none. The only error is out of memory.
    fn write(&mut self, batch: &[Record]) -> Result<(), AllocError>
        requires { (batch.now ≡ []) ⊎ (self.old.next + length batch.now ≤ suc OFFSET_LIMIT) }
        ensures written { OnOk result (self.new ≡ with_batch self.old batch.now) }
        ensures refused { OnErr result (self.new ≡ self.old) }
    {
        if batch.is_empty() {
            return Ok(());
        }
        self.registry.apply_all(batch)?;
        self.next += batch.len() as u64;
        Ok(())
    }
}

impl Desk for FoldDesk {
    ghost use Rattle.reg_program.specs.Desk.{desk_asks, desk_commands};

    ghost asks = { desk_asks };

    ghost commands = { desk_commands };

    fn ask(&mut self, alloc: Global, query: &Query) -> Result<Answer, AllocError> {
        answer(alloc, &self.registry, query)
    }

    fn command(&mut self, command: &Command) -> Reply {
        batches_end_by_the_limit();
        let Decision { batch, reply } = decide(
            self.alloc,
            &self.registry,
            self.next,
            command,
            None,
        );
        match self.write(batch.as_slice()) {
            Ok(()) => reply,
            Err(AllocError) => Reply::Refused(Refusal::Store(StoreFault::Memory)),
        }
    }
}
