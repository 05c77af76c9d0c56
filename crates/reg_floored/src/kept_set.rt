// A set of records with a floor.
ghost use Rattle.std.specs.Prelude.{◌≡◌, ◌≢◌, ◌↔◌, ◌<◌, ◌≤◌, ◌&&◌, Some, None, IfOk, IsErrOf, IsOkUnless, IsTrue, OnErr, OnOk, nat_le, option_map, if◌then◌else◌};
ghost use Rattle.std.specs.FinSet as set;
ghost use Rattle.reg_floored.specs.Compaction.{IsCompactionOf};
ghost use Rattle.reg_floored.specs.Floored.{Floored};
ghost use Rattle.reg_floored.specs.Floors.{compacted_to, may_leave, merged, rebased, without};
ghost use Rattle.reg_set.specs.LastRecords.{last, last_records};
ghost use Rattle.reg_set.specs.Records.{is_in_order, records_of};

use crate::dropping::{may_leave, without};
use crate::errors::{FloorError, MergeError};
use crate::laws::last_records_are_compactions;
use crate::parts::{below, compacted_to, from_floor};
use reg_records::{Key, Record};
use reg_set::{RecordSet, TakeOutcome, is_compaction_below};
use std::alloc::{AllocError, Global};
use std::marker::Model;

/// A finite set of records with a floor: an offset below which tombstones (records without a value)
/// may have been dropped.
///
/// A key whose last record is a tombstone below the floor may be missing as a whole. The floor is 0
/// at first, and never falls.
#[derive(Debug, Drop)]
pub struct KeptSet {
    set: RecordSet,
    floor: u64,
}

impl Model for KeptSet {
    ghost use Rattle.reg_floored.specs.Floored.{Floored, floored_code};

    ghost Value = { Floored };

    ghost coded = { floored_code };

    ghost view = { λ s. record { records = s.set; floor = s.floor } };
}

impl Clone for KeptSet {
    ghost is_clone = { λ s copy. copy ≡ s };

    fn clone(&self) -> Result<KeptSet, AllocError> {
        Ok(KeptSet {
            set: self.set.clone()?,
            floor: self.floor,
        })
    }
}

impl KeptSet {
    /// Makes the empty set, with the floor 0.
    pub fn new(alloc: Global) -> KeptSet
        ensures { result ≡ record { records = set.empty; floor = 0 } }
    {
        KeptSet {
            set: RecordSet::new(alloc),
            floor: 0,
        }
    }

    /// Makes a set of those records with that floor. It isn't checked whether tombstones below it
    /// were dropped.
    pub fn of(records: RecordSet, floor: u64) -> KeptSet
        ensures { result ≡ record { records = records; floor = floor } }
    {
        KeptSet {
            set: records,
            floor,
        }
    }

    /// Returns the floor: the offset below which tombstones may have been dropped.
    pub fn floor(&self) -> u64
        ensures { result ≡ self.now.floor }
    {
        self.floor
    }

    /// Returns the records as a plain set.
    pub fn set(&self) -> &RecordSet
        ensures { result.now ≡ self.now.records }
    {
        &self.set
    }

    /// Returns the last record of the key: the greatest of its records.
    pub fn last(&self, key: &Key) -> Option<&Record>
        ensures { option_map (λ found. found.now) result ≡ last self.now.records key.now }
    {
        self.set.last(key)
    }

    /// Returns whether the record is in the set.
    pub fn contains(&self, given: &Record) -> bool
        ensures { result ≡ set.contains self.now.records given.now }
    {
        self.set.contains(given)
    }

    /// Copies the records, each once: by offset, then by the bytes of the text that is written for
    /// the key, then no value before a text, then by the text's bytes. The only error is out of
    /// memory.
    pub fn records(&self) -> Result<Vec<Record>, AllocError>
        ensures all { IfOk result (λ found. found.items ≡ records_of self.now.records) }
        ensures in_order { IfOk result (λ found. IsTrue (is_in_order found.items)) }
        ensures members { IfOk result (λ found. self.now.records ≡ set.from_list found.items) }
    {
        self.set.records()
    }

    /// Adds the record, and returns what that did. It doesn't look at the floor: a record below it
    /// may bring back what a dropped tombstone had deleted. The only error is out of memory; the
    /// set is then unchanged.
    pub fn take(&mut self, given: &Record) -> Result<TakeOutcome, AllocError>
        ensures added { OnOk result
            (self.new ≡ record self.old { records = set.insert self.old.records given.now }) }
        ensures fresh { IfOk result (λ taken. (taken ≡ TakeOutcome.Fresh)
            ↔ (last self.new.records given.now.key ≢ last self.old.records given.now.key)) }
        ensures repeat { IfOk result (λ taken.
            (taken ≡ TakeOutcome.Repeat) ↔ IsTrue (set.contains self.old.records given.now)) }
        ensures refused { OnErr result (self.new ≡ self.old) }
    {
        self.set.take(given)
    }

    /// Adds the records of a plain set. The floor stays; like `take`, this doesn't look at it. The
    /// only error is out of memory; the set is then unchanged.
    pub fn add(&mut self, more: &RecordSet) -> Result<(), AllocError>
        ensures added { OnOk result
            (self.new ≡ record self.old { records = set.union self.old.records more.now }) }
        ensures refused { OnErr result (self.new ≡ self.old) }
    {
        self.set.merge(more)
    }

    /// Adds the records of the other set. Errors: `FloorsDiffer` if the floors differ, or out of
    /// memory. After an error the set is unchanged.
    pub fn merge(&mut self, other: &KeptSet) -> Result<(), MergeError>
        ensures merged { OnOk result (self.new ≡ merged self.old other.now) }
        ensures at_one_floor { self.old.floor ≡ other.now.floor
            → IsOkUnless result MergeError.OutOfMemory }
        ensures floors_differ { self.old.floor ≢ other.now.floor
            → IsErrOf result (MergeError.FloorsDiffer self.old.floor other.now.floor) }
        ensures refused { OnErr result (self.new ≡ self.old) }
    {
        if self.floor != other.floor {
            return Err(MergeError::FloorsDiffer {
                mine: self.floor,
                other: other.floor,
            });
        }
        self.set.merge(&other.set)?;
        Ok(())
    }

    /// Removes all records but the last of each key; tombstones stay, and so does the floor. Takes
    /// no memory.
    pub fn compact(&mut self)
        ensures left { self.new ≡ record self.old { records = last_records self.old.records } }
        ensures compaction { IsCompactionOf self.new self.old }
    {
        self.set.compact();
    }

    /// Removes all records but the last of each key, and also those that are tombstones below the
    /// floor, which becomes the set's. Errors: `FloorBelow` if the floor is below the set's own, or
    /// out of memory. After an error the set is unchanged.
    pub fn compact_to(&mut self, floor: u64) -> Result<(), FloorError>
        ensures left { OnOk result
            (self.new ≡ record { records = compacted_to floor self.old.records; floor = floor }) }
        ensures compaction { OnOk result (IsCompactionOf self.new self.old) }
        ensures floor_rises { self.old.floor ≤ floor → IsOkUnless result FloorError.OutOfMemory }
        ensures floor_below { floor < self.old.floor
            → IsErrOf result (FloorError.FloorBelow self.old.floor) }
        ensures refused { OnErr result (self.new ≡ self.old) }
    {
        if floor < self.floor {
            return Err(FloorError::FloorBelow(self.floor));
        }
        last_records_are_compactions();
        self.set = compacted_to(&self.set, floor)?;
        self.floor = floor;
        Ok(())
    }

    /// Returns the set without those records and with that floor, a compaction of the set.
    ///
    /// `None` if the floor is below the set's own, if a record isn't in the set, or if one is the
    /// last of its key and isn't a tombstone below that floor of whose key nothing else stays. The
    /// only error is out of memory.
    pub fn without(&self, floor: u64, dropped: &[Record]) -> Result<Option<KeptSet>, AllocError>
        ensures { IfOk result (λ left. left
            ≡ (if nat_le self.now.floor floor && may_leave floor self.now.records dropped.now
            then Some (record { records = without self.now.records dropped.now; floor = floor }) else None)) }
    {
        if floor < self.floor {
            return Ok(None);
        }
        let left = without(&self.set, dropped)?;
        if !may_leave(floor, &self.set, &left, dropped) {
            return Ok(None);
        }
        Ok(Some(KeptSet { set: left, floor }))
    }

    /// Takes on the floor of the other set, and replaces the records below it by the other set's.
    /// Errors: `FloorBelow` if that floor is below the set's own, or out of memory. After an error
    /// the set is unchanged.
    pub fn rebase(&mut self, other: &KeptSet) -> Result<(), FloorError>
        ensures rebased { OnOk result (self.new
            ≡ record { records = rebased self.old.records other.now; floor = other.now.floor }) }
        ensures floor_rises { self.old.floor ≤ other.now.floor
            → IsOkUnless result FloorError.OutOfMemory }
        ensures floor_below { other.now.floor < self.old.floor
            → IsErrOf result (FloorError.FloorBelow self.old.floor) }
        ensures refused { OnErr result (self.new ≡ self.old) }
    {
        if other.floor < self.floor {
            return Err(FloorError::FloorBelow(self.floor));
        }
        let mut rebased = from_floor(&self.set, other.floor)?;
        rebased.merge(&below(&other.set, other.floor)?)?;
        self.set = rebased;
        self.floor = other.floor;
        Ok(())
    }
}

/// Returns whether `compaction` is a compaction of `whole`: its floor is no lower, it has records
/// of `whole` alone, and of each key of `whole` it has the last record, or no record if that one is
/// a tombstone below the floor of `compaction`. Takes no memory.
pub fn is_compaction_of(compaction: &KeptSet, whole: &KeptSet) -> bool
    ensures { IsTrue result ↔ IsCompactionOf compaction.now whole.now }
{
    whole.floor <= compaction.floor
        && is_compaction_below(compaction.floor, &compaction.set, &whole.set)
}
