// A chain in memory.
ghost use Rattle.std.specs.Prelude.{◌≡◌, ◌++◌, ◌∷◌, [], IfOk, OnErr};
ghost use Rattle.reg_chain.specs.MemoryChain.{Means};

use crate::chain::{Chain, ChainAnswer};
use base_text::Listed;
use reg_records::Record;
use std::alloc::{AllocError, Global};
use std::marker::Model;

/// A chain in memory, as one of its writers sees it. `put` adds the batches of other writers. It
/// ends with the process.
#[derive(Drop)]
pub struct MemoryChain {
    alloc: Global,
    batches: Vec<Listed<Record>>,
    // How many of them were told.
    told: usize,
}

impl Model for MemoryChain {
    ghost use Rattle.std.specs.Prelude.{◌≤◌, drop, length, take};
    ghost use Rattle.reg_chain.specs.MemoryState.{MemoryState};

    ghost Value = { MemoryState };

    ghost view = { λ m. record { told = take m.told m.batches.items; ahead = drop m.told m.batches.items } };

    ghost invariant = { λ m. m.told ≤ length m.batches.items };
}

impl MemoryChain {
    /// Makes a chain without batches.
    pub fn new(alloc: Global) -> MemoryChain
        ensures { result ≡ record { told = []; ahead = [] } }
    {
        MemoryChain {
            alloc,
            batches: Vec::new(alloc),
            told: 0,
        }
    }

    /// Adds another writer's batch at the end. The only error is out of memory, with nothing
    /// changed.
    pub fn put(&mut self, batch: Listed<Record>) -> Result<(), AllocError>
        ensures put { IfOk result (λ _. self.new ≡ record self.old { ahead = self.old.ahead ++ batch ∷ [] }) }
        ensures refused { OnErr result (self.new ≡ self.old) }
    {
        self.batches.push(batch)?;
        Ok(())
    }
}

impl Chain for MemoryChain {
    ghost told = { λ m. m.told };

    ghost answers = { Means };

    fn append(&mut self, batch: &[Record]) -> ChainAnswer {
        if self.told < self.batches.len() {
            return ChainAnswer::Behind;
        }
        if batch.is_empty() {
            return ChainAnswer::Kept;
        }
        let Ok(copies) = copies_of(self.alloc, batch) else {
            return ChainAnswer::Declined;
        };
        if self.batches.push(Listed::from(copies)).is_err() {
            return ChainAnswer::Declined;
        }
        self.told += 1;
        ChainAnswer::Kept
    }

    fn next(&mut self) -> Result<Option<Listed<Record>>, AllocError> {
        if self.told == self.batches.len() {
            return Ok(None);
        }
        let copies = copies_of(self.alloc, self.batches[self.told].as_slice())?;
        self.told += 1;
        Ok(Some(Listed::from(copies)))
    }
}

/// Copies of the records. The only error is out of memory.
fn copies_of(alloc: Global, records: &[Record]) -> Result<Vec<Record>, AllocError>
    ensures { IfOk result (λ copies. copies.items ≡ records.now) }
{
    records.to_vec(alloc)
}
