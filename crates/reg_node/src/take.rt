// What nodes take from the topic.
ghost use Rattle.std.specs.Prelude.{◌≡◌, IfOk, OnErr, OnOk};
ghost use Rattle.std.specs.FinSet.{empty};
ghost use Rattle.reg_floored.specs.Floors.{rebased};
ghost use Rattle.reg_node.specs.Takes.{base_in};
ghost use Rattle.reg_set.specs.LastRecords.{last_records};

use crate::laws::draws_fold_to_last_records;
use base_text::Listed;
use reg_feed::{FeedName, Fold};
use reg_floored::KeptSet;
use reg_fold::{Registry, giving_alike_is_an_equivalence};
use reg_records::Record;
use reg_set::{RecordSet, records_are_ordered};
use reg_view::ShowsRegistry;
use std::alloc::{AllocError, Global};
use std::marker::{Brand, Model};

/// A kept record that a node took.
#[derive(Debug, Drop, Clone)]
pub struct Take {
    /// How many of the topic's items the node had read.
    pub read: u64,
    /// The record.
    pub kept: Record,
}

/// A replacement of a node's records below a floor by the kept ones.
#[derive(Debug, Drop, Clone)]
pub struct Rebase {
    /// How many of the topic's items the node had read.
    pub read: u64,
    /// The kept set's floor.
    pub floor: u64,
    /// The kept records below it.
    pub below: Listed<Record>,
}

/// One thing that a node drew from the topic.
#[derive(Debug, Drop, Clone)]
pub enum Draw {
    Take(Take),
    Rebase(Rebase),
}

/// The value that a node's draws fold to: the last records of all that it took, with the registry
/// over them. Contracts see these records.
#[derive(Drop)]
pub struct Taken {
    // Stored, since `take_item` gets no allocator.
    alloc: Global,
    registry: Registry,
}

impl Model for Taken {
    ghost use Rattle.std.specs.FinSet as sets;
    ghost use Rattle.reg_records.specs.contracts.record.Record as stored;
    ghost use Rattle.reg_set.specs.Records.{Records};

    ghost Value = { Records };

    ghost coded = { sets.code (stored.the_row).coded };

    ghost view = { λ t. t.registry };
}

impl Taken {
    /// Makes the value of a node that took nothing.
    pub fn new(alloc: Global) -> Taken
        ensures { result ≡ empty }
    {
        Taken {
            alloc,
            registry: Registry::empty(alloc),
        }
    }

    /// Makes the value of a registry's records.
    pub(crate) fn of(alloc: Global, registry: Registry) -> Taken
        ensures { result ≡ registry }
    {
        Taken { alloc, registry }
    }

    /// Returns the registry over the records.
    pub(crate) fn registry(&self) -> &Registry
        ensures { result.now ≡ self.now }
    {
        &self.registry
    }

    /// Replaces the records below the rebase's floor by those that it brings. The only error is out
    /// of memory; nothing has changed then.
    fn rebase(&mut self, rebase: &Rebase) -> Result<(), AllocError>
        ensures rebased { OnOk result (self.new ≡ last_records (rebased self.old (base_in rebase.now))) }
        ensures refused { OnErr result (self.new ≡ self.old) }
    {
        let below = RecordSet::of(self.alloc, rebase.below.as_slice())?;
        let mut own = KeptSet::of(set_of(self.alloc, &self.registry)?, 0);
        match own.rebase(&KeptSet::of(below, rebase.floor)) {
            Ok(()) => {}
            Err(_refused) => return Err(AllocError),
        }
        self.registry = Registry::of_set(self.alloc, own.set())?;
        Ok(())
    }
}

/// Makes the set of a registry's last records. The only error is out of memory.
fn set_of(alloc: Global, registry: &Registry) -> Result<RecordSet, AllocError>
    ensures { IfOk result (λ set. set ≡ registry.now) }
{
    records_are_ordered();
    let records = registry.records()?;
    let mut found = RecordSet::new(alloc);
    for record in &records {
        found.take(record)?;
    }
    Ok(found)
}

impl Fold<Draw> for Taken {
    ghost use Rattle.reg_node.specs.Takes.{lasts_with_draw};

    ghost applied = { lasts_with_draw };

    fn take_item(&mut self, item: &Draw, other: &Taken) -> Result<(), AllocError> {
        match item {
            Draw::Take(take) => self
                .registry
                .apply_beside(&take.kept, Some(&other.registry), None),
            Draw::Rebase(rebase) => self.rebase(rebase),
        }
    }

    fn again(&self) -> Result<Taken, AllocError> {
        self.clone()
    }
}

/// A view of a node: a snapshot reader that answers its queries.
pub type NodeView<M, U> = reg_view::View<Draw, Taken, M, U>;

/// A node's list begins with nothing, and comes to all that was taken.
impl ShowsRegistry<Draw> for Taken {
    ghost use Rattle.std.specs.FinSet.{empty};
    ghost use Rattle.std.specs.Prelude.{◌≡◌};
    ghost use Rattle.reg_set.specs.LastRecords.{last_records};
    ghost use Rattle.reg_node.specs.Takes.{taken};

    ghost shows = { λ lasts. lasts };

    ghost begins = { λ first. first ≡ empty };

    ghost comes_to = { λ first draws. taken draws };

    ghost answers_for = { λ first draws. last_records (taken draws) };

    fn registry(&self) -> &Registry {
        self.registry()
    }

    fn folds_show() {
        draws_fold_to_last_records();
        giving_alike_is_an_equivalence();
    }
}

/// A node's feed. A program that makes one picks its book and its first value at the call.
impl FeedName<Draw, Taken> for Brand {
    ghost use Rattle.std.specs.FinSet.{empty};

    ghost book = { record { number = 0; log_name = 0; cells_name = 0 } };

    ghost first = { empty };
}

impl Clone for Taken {
    ghost is_clone = { λ taken copy. copy ≡ taken };

    fn clone(&self) -> Result<Taken, AllocError> {
        Ok(Taken {
            alloc: self.alloc,
            registry: self.registry.clone()?,
        })
    }
}
