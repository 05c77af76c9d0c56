// The value that a list of the topic's items folds to.
ghost use Rattle.std.specs.Prelude.{◌≡◌, ◌<◌, ◌≤◌, true, false, IfErr, IfOk, IsTrue, OnErr, OnOk};
ghost use Rattle.std.specs.FinSet.{from_list};
ghost use Rattle.std.specs.List.{AllByRecursion};
ghost use Rattle.reg_fold.specs.Closed.{is_closed};
ghost use Rattle.reg_set.specs.LastRecords.{last_records};
ghost use Rattle.reg_set.specs.Records.{is_in_order};
ghost use Rattle.reg_leader.specs.Adoption.{HasPlace, IsAdoptRefusal};
ghost use Rattle.reg_floored.specs.Floors.{compacted_to, may_leave, without};
ghost use Rattle.reg_topic.specs.Topic.{follows, may_compact, owed_by, plain_topic, topic_from};
ghost use Rattle.reg_shared.specs.Held.{IsBelow, IsSince, base_of, held_after_batch, held_after_compaction, held_of};

use crate::kept::{
    are_none, copy_all, copy_below, copy_deletes, copy_left, copy_list, copy_older, copy_since,
    grow, keep_lasts, list_records, may_leave, until,
};
use crate::sought::Sought;
use reg_feed::{FeedName, Fold};
use reg_floored::compacting_drops_what_may_leave;
use reg_fold::Registry;
use reg_fold::avro_schema::SchemaText;
use reg_leader::{AdoptError, Adopted, adopt};
use reg_records::{Log, Record};
use reg_set::{
    RecordSet, last_is_greatest, last_records_are_enough, merging_joins_sets, records_are_ordered,
};
use reg_topic::{Compaction, Item, follows};
use std::alloc::{AllocError, Global};
use std::marker::{Brand, Model};

/// At least this many records have to be dropped before the list by offset is trimmed.
const DROPPED: usize = 64;

/// The published state of a topic: its kept set with the floor (the low-water mark of compaction),
/// the next offset, and the registry over the last records. Applying a commit costs what its batch
/// holds. Contracts see the kept set, the next offset, and what that was at the last compaction.
#[derive(Drop)]
pub struct Shared {
    // Stored, since `take_item` gets no allocator.
    alloc: Global,
    registry: Registry,
    // Holds all kept records that aren't the last of their keys, beside some that are.
    older: Vec<Record>,
    // All kept records by offset, among some that were dropped.
    by_offset: Vec<Record>,
    // How many were dropped since the last trim: 0 if all records in `by_offset` are kept.
    dropped: usize,
    floor: u64,
    next: u64,
    compacted: u64,
}

/// A topic's first state.
#[derive(Drop)]
pub struct Begun {
    /// The published state.
    pub shared: Shared,
    /// The records that the topic begins with beside its log: the id mark (a record of the highest
    /// id ever given) if the log owes one, else none.
    pub due: Vec<Record>,
}

impl Model for Shared {
    ghost use Rattle.reg_shared.specs.Held.{Held, held_code};
    ghost use Rattle.reg_shared.specs.Kept.{IsShared, kept_of};

    ghost Value = { Held };

    ghost coded = { held_code };

    ghost view = { λ s. record { kept = record { records = kept_of s.registry s.older.items; floor = s.floor }; next = s.next; compacted = s.compacted } };

    ghost invariant = { λ s. IsShared s.registry s.older.items s.by_offset.items s.next s.dropped };
}

impl Shared {
    /// Makes the first state of a topic from a log and the id mark that the log owes. Refused if a
    /// version's record can't be read, if an id names two schemas, if no offset is left for a mark
    /// that is due, or if memory is refused.
    pub fn adopt(alloc: Global, base: &Log) -> Result<Begun, AdoptError>
        ensures held { IfOk result (λ begun. begun.shared ≡ held_of (topic_from base.now.records.items base.now.next base.now.floor)) }
        ensures due { IfOk result (λ begun. begun.due.items ≡ owed_by base.now.records.items base.now.next) }
        ensures place { OnOk result (HasPlace (last_records (from_list base.now.records.items)) base.now.next) }
        ensures takes_commands { OnOk result (is_closed (last_records (from_list base.now.records.items)) ≡ false) }
        ensures refused { IfErr result (IsAdoptRefusal (last_records (from_list base.now.records.items)) base.now.next) }
    {
        let log = RecordSet::of(alloc, &base.records)?;
        let Adopted { registry, due } = adopt(alloc, &log, base.next)?;
        let mut shared = Shared::of_log(alloc, base, &log, registry)?;
        shared.take_batch(&due, None, None)?;
        Ok(Begun { shared, due })
    }

    /// Makes the state of a log's records alone; `log` is their set and `registry` their registry.
    /// The only error is out of memory.
    fn of_log(
        alloc: Global,
        base: &Log,
        log: &RecordSet,
        registry: Registry,
    ) -> Result<Shared, AllocError>
        requires log { log.now ≡ from_list base.now.records.items }
        requires registry { registry ≡ last_records log.now }
        ensures { IfOk result (λ shared. shared ≡ held_of (plain_topic base.now.records.items base.now.next base.now.floor)) }
    {
        records_are_ordered();
        last_records_are_enough();
        let by_offset = list_records(log)?;
        let older = copy_older(alloc, &registry, &by_offset)?;
        Ok(Shared {
            alloc,
            registry,
            older,
            by_offset,
            dropped: 0,
            floor: base.floor,
            next: base.next,
            compacted: base.floor,
        })
    }

    /// Returns the registry over the last records.
    pub fn registry(&self) -> &Registry
        ensures { result.now ≡ last_records self.now.kept.records }
    {
        &self.registry
    }

    /// Returns the offset of the next record.
    pub fn next(&self) -> u64
        ensures { result ≡ self.now.next }
    {
        self.next
    }

    /// Returns the floor of the kept set.
    pub fn floor(&self) -> u64
        ensures { result ≡ self.now.kept.floor }
    {
        self.floor
    }

    /// Returns what the next offset was at the last compaction, or the floor that the topic began
    /// with if there was none.
    pub fn compacted(&self) -> u64
        ensures { result ≡ self.now.compacted }
    {
        self.compacted
    }

    /// Copies the kept records at or above the offset `from`, in their order. The only error is out
    /// of memory.
    pub fn since(&self, from: u64) -> Result<Vec<Record>, AllocError>
        ensures all { IfOk result (λ found. IsSince self.now.kept.records from found.items) }
        ensures in_order { IfOk result (λ found. IsTrue (is_in_order found.items)) }
        ensures below { IfOk result (λ found. AllByRecursion (λ r. r.offset < self.now.next) found.items) }
    {
        records_are_ordered();
        let found = copy_since(
            self.alloc,
            &self.registry,
            &self.older,
            &self.by_offset,
            from,
            self.dropped,
        )?;
        Ok(found)
    }

    /// Copies the kept records below the offset `upto`. The only error is out of memory.
    pub fn below(&self, upto: u64) -> Result<Vec<Record>, AllocError>
        ensures { IfOk result (λ found. IsBelow self.now.kept.records upto found.items) }
    {
        records_are_ordered();
        let found = copy_below(
            self.alloc,
            &self.registry,
            &self.older,
            &self.by_offset,
            upto,
        )?;
        Ok(found)
    }

    /// Copies the kept records that a compaction to `floor` drops: those that aren't the last of
    /// their keys, and last ones that delete their keys below the floor. The only error is out of
    /// memory.
    pub fn dropped_to(&self, floor: u64) -> Result<Vec<Record>, AllocError>
        ensures may_go { IfOk result (λ found. may_leave floor self.now.kept.records found.items ≡ true) }
        ensures rest { IfOk result (λ found. without self.now.kept.records found.items ≡ compacted_to floor self.now.kept.records) }
    {
        records_are_ordered();
        compacting_drops_what_may_leave();
        let mut found = copy_older(self.alloc, &self.registry, &self.older)?;
        let below = until(&self.by_offset, floor);
        let mut deletes = copy_deletes(self.alloc, &self.registry, below, floor)?;
        found.append(&mut deletes)?;
        Ok(found)
    }

    /// Applies a batch. A batch that doesn't follow on the next offset changes nothing. If `other`
    /// is a registry that has read the batch, or `known` is its schema, texts aren't read again.
    /// The only error is out of memory; nothing has changed then.
    fn take_batch(
        &mut self,
        batch: &[Record],
        other: Option<&Registry>,
        known: Option<&SchemaText>,
    ) -> Result<(), AllocError>
        ensures taken { OnOk result (self.new ≡ held_after_batch (follows self.old.next batch.now) self.old batch.now) }
        ensures refused { OnErr result (self.new ≡ self.old) }
    {
        records_are_ordered();
        last_is_greatest();
        last_records_are_enough();
        merging_joins_sets();
        if !follows(self.next, batch) {
            return Ok(());
        }
        grow(
            self.alloc,
            &mut self.registry,
            &mut self.older,
            &mut self.by_offset,
            batch,
            other,
            known,
        )?;
        self.next += batch.len() as u64;
        Ok(())
    }

    /// Applies a compaction. One that isn't allowed changes nothing. The only error is out of
    /// memory; nothing has changed then.
    fn take_compaction(&mut self, compaction: &Compaction) -> Result<(), AllocError>
        ensures taken { OnOk result (self.new
            ≡ held_after_compaction (may_compact (base_of self.old) compaction.now) self.old compaction.now) }
        ensures refused { OnErr result (self.new ≡ self.old) }
    {
        if compaction.floor < self.floor || self.next < compaction.floor {
            return Ok(());
        }
        self.drop_records(compaction)
    }

    /// Applies a compaction whose floor is allowed. One that drops records that have to stay
    /// changes nothing. The only error is out of memory; nothing has changed then.
    fn drop_records(&mut self, compaction: &Compaction) -> Result<(), AllocError>
        requires rises { self.old.kept.floor ≤ compaction.now.floor }
        requires ahead { compaction.now.floor ≤ self.old.next }
        ensures taken { OnOk result (self.new
            ≡ held_after_compaction (may_compact (base_of self.old) compaction.now) self.old compaction.now) }
        ensures refused { OnErr result (self.new ≡ self.old) }
    {
        records_are_ordered();
        last_is_greatest();
        let dropped = compaction.dropped.as_slice();
        let older = Sought::of(self.alloc, &self.older)?;
        let gone = Sought::of(self.alloc, dropped)?;
        let left = copy_left(self.alloc, &self.registry, &self.older, &gone)?;
        let rest = RecordSet::of(self.alloc, &left)?;
        if !may_leave(&self.registry, &older, &rest, compaction.floor, dropped) {
            return Ok(());
        }
        self.older = left;
        self.registry.forget_all(dropped);
        // Counted as one at least, since `by_offset` wasn't searched for dropped records.
        self.dropped = self.dropped.saturating_add(dropped.len()).max(1);
        self.floor = compaction.floor;
        self.compacted = self.next;
        Ok(())
    }

    /// Removes the dropped records from the list by offset once they are more than half of it and
    /// no older record is kept. So each dropped record pays for one that is looked at.
    fn trim(&mut self)
        ensures { self.new ≡ self.old }
    {
        records_are_ordered();
        let few = self.dropped <= DROPPED || self.dropped <= self.by_offset.len() / 2;
        if few || !are_none(&self.older) {
            return;
        }
        keep_lasts(&self.registry, &mut self.by_offset);
        self.dropped = 0;
    }
}

impl Fold<Item> for Shared {
    ghost use Rattle.reg_topic.specs.Topic.{IsLawful};
    ghost use Rattle.reg_shared.specs.Held.{base_of, held_after};

    ghost applied = { held_after };

    // Each published item may follow on those before it.
    ghost publishes = { λ first list. IsLawful (base_of first) list };

    fn take_item(&mut self, item: &Item, other: &Shared) -> Result<(), AllocError> {
        match item {
            Item::Commit(commit) => {
                let known = commit.command.schema();
                self.take_batch(commit.batch.as_slice(), Some(&other.registry), known)
            }
            Item::Compaction(compaction) => {
                self.take_compaction(compaction)?;
                self.trim();
                Ok(())
            }
        }
    }

    fn again(&self) -> Result<Shared, AllocError> {
        self.clone()
    }
}

/// The topic's feed. A program that makes one picks its book and its first value at the call.
impl FeedName<Item, Shared> for Brand {
    ghost use Rattle.std.specs.FinSet.{empty};

    ghost book = { record { number = 0; log_name = 0; cells_name = 0 } };

    ghost first = { record { kept = record { records = empty; floor = 0 }; next = 0; compacted = 0 } };
}

impl Clone for Shared {
    ghost is_clone = { λ shared copy. copy ≡ shared };

    fn clone(&self) -> Result<Shared, AllocError> {
        Ok(Shared {
            alloc: self.alloc,
            registry: self.registry.clone()?,
            older: copy_all(self.alloc, &self.older)?,
            by_offset: copy_list(self.alloc, &self.by_offset)?,
            dropped: self.dropped,
            floor: self.floor,
            next: self.next,
            compacted: self.compacted,
        })
    }
}
