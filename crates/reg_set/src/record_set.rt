// A set of records, and the last record of each key in it.
ghost use Rattle.std.specs.Prelude.{◌≡◌, ◌≢◌, ◌↔◌, [], true, OnOk, OnErr, IfOk, IsTrue, map, option_map};
ghost use Rattle.std.specs.FinSet as set;
ghost use Rattle.std.specs.List.{list_all};
ghost use Rattle.std.specs.Option.{option_map_or};
ghost use Rattle.reg_records.specs.declared.key.Key.{Key};
ghost use Rattle.reg_set.specs.Compaction.{IsCompactionBelow, KeepsLasts, is_kept_or_gone};
ghost use Rattle.reg_set.specs.Join.{later};
ghost use Rattle.reg_set.specs.LastRecords.{last, last_records};
ghost use Rattle.reg_set.specs.Records.{records_of, is_in_order};

use crate::by_key::{
    add_all, are_all_in, are_kept_or_gone, copy_all, has_lasts_of_keys, lasts_of, leave_lasts,
    list_lasts, take_in,
};
use crate::last_records::LastRecords;
use crate::order::is_among;
use crate::turns::{put_in_order, put_in_turn};
use reg_records::{Key, Record};
use std::alloc::{AllocError, Global};
use std::collections::BTreeMap;
use std::marker::Model;

/// The outcome of taking a record into a set.
#[derive(Clone, Copy, Debug, PartialEq, Eq)]
pub enum TakeOutcome {
    /// The record is now the last of its key, and wasn't before.
    Fresh,
    /// The record was already in the set.
    Repeat,
    /// The record is new, and its key has a later one.
    Older,
}

/// A finite set of records.
///
/// Records of one key are ordered by offset, then no value before a text, then by the text's bytes.
/// The greatest is the last record of the key; a last record without a value (a tombstone) deletes
/// the key.
#[derive(Debug, Drop)]
pub struct RecordSet {
    alloc: Global,
    // Those of each key, in order: by offset, then by value. None stands twice.
    by_key: BTreeMap<Key, Vec<Record>>,
}

impl Model for RecordSet {
    ghost use Rattle.std.specs.FinSet as set;
    ghost use Rattle.reg_records.specs.contracts.record.Record as stored;
    ghost use Rattle.reg_set.specs.ByKey.{AreByKey, set_of};
    ghost use Rattle.reg_set.specs.Records.{Records};

    ghost Value = { Records };

    ghost coded = { set.code (stored.the_row).coded };

    ghost view = { λ s. set_of s.by_key };

    ghost invariant = { λ s. AreByKey s.by_key };
}

impl Clone for RecordSet {
    ghost is_clone = { λ s copy. copy ≡ s };

    fn clone(&self) -> Result<RecordSet, AllocError> {
        Ok(RecordSet {
            alloc: self.alloc,
            by_key: self.by_key.clone()?,
        })
    }
}

impl RecordSet {
    /// Makes the empty set.
    pub fn new(alloc: Global) -> RecordSet
        ensures empty { result ≡ set.empty }
        ensures no_records { records_of result ≡ [] }
    {
        RecordSet {
            alloc,
            by_key: BTreeMap::new(alloc),
        }
    }

    /// Makes the set of those records. The only error is out of memory.
    pub fn of(alloc: Global, records: &[Record]) -> Result<RecordSet, AllocError>
        ensures { IfOk result (λ found. found ≡ set.from_list records.now) }
    {
        let found: Vec<&Record> = records.iter().collect(alloc)?;
        set_of(alloc, found)
    }

    /// Adds the record, and returns what that did. The only error is out of memory; the set is then
    /// unchanged.
    pub fn take(&mut self, given: &Record) -> Result<TakeOutcome, AllocError>
        ensures added { OnOk result (self.new ≡ set.insert self.old given.now) }
        ensures fresh { IfOk result (λ taken.
            (taken ≡ TakeOutcome.Fresh) ↔ (last self.new given.now.key ≢ last self.old given.now.key)) }
        ensures repeat { IfOk result (λ taken.
            (taken ≡ TakeOutcome.Repeat) ↔ IsTrue (set.contains self.old given.now)) }
        ensures refused { OnErr result (self.new ≡ self.old) }
    {
        let taken = take_in(self.alloc, &mut self.by_key, given)?;
        Ok(taken)
    }

    /// Returns the last record of the key: the greatest of its records.
    pub fn last(&self, key: &Key) -> Option<&Record>
        ensures { option_map (λ found. found.now) result ≡ last self.now key.now }
    {
        match self.by_key.get(key) {
            Some(records) => records.last(),
            None => None,
        }
    }

    /// Collects the last record of each key. The only error is out of memory.
    pub(crate) fn lasts(&self) -> Result<LastRecords, AllocError>
        ensures { IfOk result (λ lasts. lasts ≡ last_records self.now) }
    {
        let found = lasts_of(self.alloc, &self.by_key)?;
        Ok(found)
    }

    /// Lists the last record of each key, by the derived order of keys. The only error is out of
    /// memory.
    pub fn last_of_each(&self) -> Result<Vec<&Record>, AllocError>
        ensures { IfOk result (λ found. KeepsLasts (set.from_list (map (λ r. r.now) found.items)) self.now) }
    {
        let found = list_lasts(self.alloc, &self.by_key)?;
        Ok(found)
    }

    /// Copies the records, each once: by offset, then by the bytes of the text that is written for
    /// the key, then no value before a text, then by the text's bytes. The only error is out of
    /// memory.
    pub fn records(&self) -> Result<Vec<Record>, AllocError>
        ensures all { IfOk result (λ found. found.items ≡ records_of self.now) }
        ensures in_order { IfOk result (λ found. IsTrue (is_in_order found.items)) }
        ensures members { IfOk result (λ found. self.now ≡ set.from_list found.items) }
    {
        let found = copy_all(self.alloc, &self.by_key)?;
        let listed = put_in_order(self.alloc, found)?;
        Ok(listed)
    }

    /// Returns whether the record is in the set.
    pub fn contains(&self, given: &Record) -> bool
        ensures { result ≡ set.contains self.now given.now }
    {
        match self.by_key.get(&given.key) {
            Some(records) => is_among(records, given),
            None => false,
        }
    }

    /// Adds the records of the other set. The only error is out of memory; the set is then
    /// unchanged.
    pub fn merge(&mut self, other: &RecordSet) -> Result<(), AllocError>
        ensures merged { OnOk result (self.new ≡ set.union self.old other.now) }
        ensures lasts { OnOk result
            ((key : Key) → last self.new key ≡ later (last self.old key) (last other.now key)) }
        ensures refused { OnErr result (self.new ≡ self.old) }
    {
        let mut both = self.clone()?;
        add_all(&mut both, &other.by_key)?;
        *self = both;
        Ok(())
    }

    /// Removes all records but the last of each key. Tombstones (last records without a value)
    /// stay.
    pub fn compact(&mut self)
        ensures left { self.new ≡ last_records self.old }
        ensures lasts { (key : Key) → last self.new key ≡ last self.old key }
        ensures kept { KeepsLasts self.new self.old }
    {
        leave_lasts(&mut self.by_key);
    }
}

/// Makes the set of those records. The only error is out of memory.
fn set_of(alloc: Global, records: Vec<&Record>) -> Result<RecordSet, AllocError>
    ensures { IfOk result (λ found. found ≡ set.from_list (map (λ r. r.now) records.entry.items)) }
{
    // In their order each record comes after all before it, and is put at the end.
    let mut records = records;
    put_in_turn(&mut records);
    let mut found = RecordSet::new(alloc);
    for record in &records {
        found.take(record)?;
    }
    Ok(found)
}

/// Returns whether `part` is a subset of `whole` that keeps the last record of each key of `whole`.
/// Takes no memory.
pub fn keeps_lasts(part: &RecordSet, whole: &RecordSet) -> bool
    ensures { IsTrue result ↔ KeepsLasts part.now whole.now }
{
    is_part_of(part, whole) && has_lasts_of(part, whole)
}

fn is_part_of(part: &RecordSet, whole: &RecordSet) -> bool
    ensures { result ≡ list_all (set.contains whole.now) (records_of part.now) }
{
    are_all_in(&part.by_key, whole)
}

fn has_lasts_of(part: &RecordSet, whole: &RecordSet) -> bool
    ensures { result ≡ list_all (λ r. option_map_or (set.contains part.now) (last whole.now r.key) true)
        (records_of whole.now) }
{
    has_lasts_of_keys(&whole.by_key, part, whole)
}

/// Returns whether the part has the last record of the key in the whole set, if there is one.
pub(crate) fn has_last_of(part: &RecordSet, whole: &RecordSet, key: &Key) -> bool
    ensures { result ≡ option_map_or (set.contains part.now) (last whole.now key.now) true }
{
    match whole.last(key) {
        Some(record) => part.contains(record),
        None => true,
    }
}

/// Returns whether `compaction` is a subset of `whole` that has the last record of each key of
/// `whole`, or no record of the key if that last one is a tombstone (has no value) below `floor`.
/// Takes no memory.
pub fn is_compaction_below(floor: u64, compaction: &RecordSet, whole: &RecordSet) -> bool
    ensures { IsTrue result ↔ IsCompactionBelow floor compaction.now whole.now }
{
    is_part_of(compaction, whole) && has_lasts_below(floor, compaction, whole)
}

fn has_lasts_below(floor: u64, part: &RecordSet, whole: &RecordSet) -> bool
    ensures { result ≡ list_all (λ r. option_map_or (is_kept_or_gone floor part.now) (last whole.now r.key) true)
        (records_of whole.now) }
{
    are_kept_or_gone(&whole.by_key, floor, part, whole)
}

/// Returns whether the part has the last record of the key in the whole set, if there is one, or
/// that record is a tombstone below the floor and the part has none of the key.
pub(crate) fn has_last_or_none(floor: u64, part: &RecordSet, whole: &RecordSet, key: &Key) -> bool
    ensures { result ≡ option_map_or (is_kept_or_gone floor part.now) (last whole.now key.now) true }
{
    match whole.last(key) {
        Some(record) => is_kept_or_gone(floor, part, record),
        None => true,
    }
}

/// Returns whether the part has the record, or the record is a tombstone below the floor and the
/// part has none of the key.
fn is_kept_or_gone(floor: u64, part: &RecordSet, given: &Record) -> bool
    ensures { result ≡ is_kept_or_gone floor part.now given.now }
{
    let is_below = given.value.is_none() && given.offset < floor;
    part.contains(given) || is_below && part.last(&given.key).is_none()
}
