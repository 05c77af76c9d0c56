// A node of a world.
ghost use Rattle.std.specs.Prelude.{◌≡◌, IfOk};
ghost use Rattle.reg_alike.specs.reg_floored.Floors.{rebased};
ghost use Rattle.reg_world.specs.State.{compacted, no_records, rebasing, taking};

use reg_alike::reg_floored::KeptSet;
use reg_alike::reg_set::RecordSet;
use std::alloc::{AllocError, Global};

/// A node: its set, and all records that joined it since its last restart.
#[derive(Debug, Drop)]
pub struct WorldNode {
    /// Its records, with their floor.
    pub set: KeptSet,
    /// All records that joined it; a rebase of the set rebases these too.
    pub took: RecordSet,
}

impl WorldNode {
    /// Makes a node without records, at the floor 0.
    pub(crate) fn new(alloc: Global) -> WorldNode
        ensures { result ≡ no_records }
    {
        WorldNode {
            set: KeptSet::new(alloc),
            took: RecordSet::new(alloc),
        }
    }

    /// Returns the node with these records added. Its floor stays. The only error is out of memory.
    pub(crate) fn taking(&self, more: &RecordSet) -> Result<WorldNode, AllocError>
        ensures { IfOk result (λ node. node ≡ taking more.now self.now) }
    {
        let mut set = self.set.clone()?;
        set.add(more)?;
        let mut took = self.took.clone()?;
        took.merge(more)?;
        Ok(WorldNode { set, took })
    }

    /// Returns the node with only the last record of each key. Its floor stays. The only error is
    /// out of memory.
    pub(crate) fn compacted(&self) -> Result<WorldNode, AllocError>
        ensures { IfOk result (λ node. node ≡ compacted self.now) }
    {
        let mut set = self.set.clone()?;
        set.compact();
        let took = self.took.clone()?;
        Ok(WorldNode { set, took })
    }

    /// Returns the node at the floor of the kept set, with the kept records below it in place of
    /// its own and of those that it took there. The only error is out of memory.
    pub(crate) fn rebasing(&self, kept: &KeptSet) -> Result<WorldNode, AllocError>
        ensures { IfOk result (λ node. node ≡ rebasing kept.now self.now) }
    {
        let set = rebased(self.set.set(), kept)?;
        let took = rebased(&self.took, kept)?;
        Ok(WorldNode {
            set,
            took: took.set().clone()?,
        })
    }
}

/// Returns these records from the kept set's floor on, and the kept ones below it, at that floor.
/// The only error is out of memory.
fn rebased(own: &RecordSet, kept: &KeptSet) -> Result<KeptSet, AllocError>
    ensures { IfOk result (λ found. found ≡ record { records = rebased own.now kept.now; floor = kept.now.floor }) }
{
    let mut found = KeptSet::of(own.clone()?, 0);
    match found.rebase(kept) {
        Ok(()) => Ok(found),
        // No floor is below 0, so the refusal is of memory.
        Err(_refused) => Err(AllocError),
    }
}
