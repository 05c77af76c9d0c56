// What a pen counts of its list to decide when old deletes are dropped.
ghost use Rattle.std.specs.Prelude.{◌≡◌, IfOk};
ghost use Rattle.reg_set.specs.Records.{records_of};
ghost use Rattle.reg_shared.specs.Held.{base_of};
ghost use Rattle.reg_pen.specs.Deletes.{are_many, deletes_after, deletes_at_first, deletes_in, is_delete};

use reg_records::Record;
use reg_set::{records_are_listed_in_order, records_are_ordered};
use reg_shared::Shared;
use reg_topic::Item;
use std::alloc::AllocError;

/// At least this many deletes have to be due before they are many.
const MANY: u64 = 1_024;

/// Deletes that are due are many if they are more than one in `PART` kept records.
const PART: u64 = 4;

/// Counts of a topic's list of items. Each count goes up to 2^64-1.
#[derive(Clone, Copy, Debug, PartialEq, Eq)]
pub struct Deletes {
    /// The floor of the kept set.
    pub floor: u64,
    /// How many deletes (records without a value) were written before the last compaction, counted
    /// from the compaction before the one that last raised the floor. Those that the topic began
    /// with count from its first compaction on.
    pub due: u64,
    /// How many deletes were written since the last compaction.
    pub new: u64,
    /// How many records the topic began with or published, without those that compactions dropped.
    pub kept: u64,
}

impl Deletes {
    /// Counts what a topic begins with. The only error is out of memory.
    pub(crate) fn at_first(shared: &Shared) -> Result<Deletes, AllocError>
        ensures { IfOk result (λ deletes. deletes ≡ deletes_at_first (base_of shared.now)) }
    {
        let kept = listed(shared)?;
        Ok(Deletes {
            floor: shared.floor(),
            due: 0,
            new: count_deletes(&kept),
            kept: kept.len() as u64,
        })
    }

    /// Returns the counts after one more item.
    pub(crate) fn after(self, item: &Item) -> Deletes
        ensures { result ≡ deletes_after self item.now }
    {
        match item {
            Item::Commit(commit) => {
                let batch = commit.batch.as_slice();
                Deletes {
                    new: self.new.saturating_add(count_deletes(batch)),
                    kept: self.kept.saturating_add(batch.len() as u64),
                    ..self
                }
            }
            Item::Compaction(compaction) => {
                let before = if self.floor < compaction.floor {
                    0
                } else {
                    self.due
                };
                let dropped = compaction.dropped.as_slice();
                Deletes {
                    floor: compaction.floor,
                    due: before.saturating_add(self.new),
                    new: 0,
                    kept: self.kept.saturating_sub(dropped.len() as u64),
                }
            }
        }
    }

    /// Returns whether so many deletes are due that dropping them pays off: it rebases each node,
    /// which costs as much as all kept records.
    pub(crate) fn are_many(self) -> bool
        ensures { result ≡ are_many self }
    {
        self.due > MANY && self.due > self.kept / PART
    }
}

/// Copies the kept records, each once. The only error is out of memory.
fn listed(shared: &Shared) -> Result<Vec<Record>, AllocError>
    ensures { IfOk result (λ kept. kept.items ≡ records_of shared.now.kept.records) }
{
    records_are_listed_in_order();
    records_are_ordered();
    let found = shared.since(0)?;
    Ok(found)
}

/// Counts the records that have no value.
fn count_deletes(records: &[Record]) -> u64
    ensures { result ≡ deletes_in records.now }
{
    let mut count = 0usize;
    for given in records {
        if is_delete(given) {
            count += 1;
        }
    }
    count as u64
}

fn is_delete(given: &Record) -> bool
    ensures { result ≡ is_delete given.now }
{
    given.value.is_none()
}
