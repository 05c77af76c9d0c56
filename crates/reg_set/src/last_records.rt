// The last record of each key.
ghost use Rattle.std.specs.Prelude.{◌≡◌, ◌≢◌, false, Some, None, OnOk, OnErr, IfOk, IsTrue, IfSome, IsSome, map, option_map};
ghost use Rattle.std.specs.BTreeMap.{IsOrdered, IsUnchanged, Updates};
ghost use Rattle.std.specs.FinSet as set;
ghost use Rattle.std.specs.List.Sorted.{IsStrictlySortedBy};
ghost use Rattle.std.specs.Ordering.{is_lt};
ghost use Rattle.reg_set.specs.Index.{last_at};
ghost use Rattle.reg_set.specs.LastRecords.{LosesAtMost, last, last_records, with_last};
ghost use Rattle.reg_set.specs.RecordOrder.{age_cmp, key_cmp};

use crate::record_set::RecordSet;
use packed_trees::copy_map;
use reg_records::{Key, Record};
use std::alloc::{AllocError, Global};
use std::collections::BTreeMap;
use std::marker::Model;
use std::mem;

/// The last record of each key, and no other: what a compaction leaves of a set of records.
///
/// Contracts see it as the set of these records.
#[derive(Debug, Drop)]
pub struct LastRecords {
    alloc: Global,
    by_key: BTreeMap<Key, Record>,
}

impl Model for LastRecords {
    ghost use Rattle.std.specs.BTreeMap.{values};
    ghost use Rattle.std.specs.FinSet as set;
    ghost use Rattle.reg_records.specs.contracts.record.Record as stored;
    ghost use Rattle.reg_set.specs.Index.{IsByKey};
    ghost use Rattle.reg_set.specs.Records.{Records};

    ghost Value = { Records };

    ghost coded = { set.code (stored.the_row).coded };

    ghost view = { λ s. set.from_list (values s.by_key) };

    ghost invariant = { λ s. IsByKey s.by_key };
}

impl Clone for LastRecords {
    ghost is_clone = { λ s copy. copy ≡ s };

    fn clone(&self) -> Result<LastRecords, AllocError> {
        Ok(LastRecords {
            alloc: self.alloc,
            by_key: copy_map(self.alloc, &self.by_key)?,
        })
    }
}

impl LastRecords {
    /// Makes the set without records.
    pub fn new(alloc: Global) -> LastRecords
        ensures { result ≡ set.empty }
    {
        LastRecords {
            alloc,
            by_key: BTreeMap::new(alloc),
        }
    }

    /// Collects the last record of each key of a set. The only error is out of memory.
    pub fn of(set: &RecordSet) -> Result<LastRecords, AllocError>
        ensures { IfOk result (λ found. found ≡ last_records set.now) }
    {
        set.lasts()
    }

    /// Returns the last record of the key.
    pub fn last(&self, key: &Key) -> Option<&Record>
        ensures { option_map (λ found. found.now) result ≡ last self.now key.now }
    {
        self.by_key.get(key)
    }

    /// Returns whether the record is the last of its key.
    pub fn contains(&self, given: &Record) -> bool
        ensures { result ≡ set.contains self.now given.now }
    {
        match self.by_key.get(&given.key) {
            Some(last) => *last == *given,
            None => false,
        }
    }

    /// Returns whether the record is later than the last of its key, or its key has none. Takes no
    /// memory.
    pub fn is_news(&self, given: &Record) -> bool
        ensures news { IsTrue result → last_records (set.insert self.now given.now) ≢ self.now }
        ensures no_news { result ≡ false → last_records (set.insert self.now given.now) ≡ self.now }
    {
        match self.by_key.get(&given.key) {
            Some(last) => is_older(last, given),
            None => true,
        }
    }

    /// Adds the record, unless its key has that one or a later one, and returns the record that it
    /// replaced. The only error is out of memory; the set is then unchanged.
    pub fn put(&mut self, given: &Record) -> Result<Option<Record>, AllocError>
        ensures added { OnOk result (self.new ≡ last_records (set.insert self.old given.now)) }
        ensures there { OnOk result (IsSome (last self.new given.now.key)) }
        ensures of_key { IfOk result (λ before. IfSome before (λ r. r.key ≡ given.now.key)) }
        ensures before { IfOk result (λ before. self.new ≢ self.old
            → before ≡ last self.old given.now.key) }
        ensures taken_back { IfOk result (λ before. self.new ≢ self.old
            → with_last self.new given.now.key before ≡ self.old) }
        ensures kept { IfOk result (λ before. self.new ≡ self.old → before ≡ None) }
        ensures refused { OnErr result (self.new ≡ self.old) }
    {
        if !self.is_news(given) {
            return Ok(None);
        }
        let before = self.put_news(given)?;
        Ok(before)
    }

    /// Adds a copy of a record that is later than the last of its key, and returns the record that
    /// it replaced. The only error is out of memory; the set is then unchanged.
    pub fn put_news(&mut self, given: &Record) -> Result<Option<Record>, AllocError>
        requires { last_records (set.insert self.old given.now) ≢ self.old }
        ensures added { OnOk result (self.new ≡ last_records (set.insert self.old given.now)) }
        ensures there { OnOk result (IsSome (last self.new given.now.key)) }
        ensures of_key { IfOk result (λ before. IfSome before (λ r. r.key ≡ given.now.key)) }
        ensures before { IfOk result (λ before. before ≡ last self.old given.now.key) }
        ensures taken_back { IfOk result (λ before. with_last self.new given.now.key before ≡ self.old) }
        ensures refused { OnErr result (self.new ≡ self.old) }
    {
        let before = insert_copy(&mut self.by_key, given)?;
        Ok(before)
    }

    /// Replaces the last record of a key, which has one, by a later record, and returns the one
    /// before. Takes no memory.
    pub fn put_over(&mut self, given: Record) -> Record
        requires news { last_records (set.insert self.old given) ≢ self.old }
        requires there { IsSome (last self.old given.key) }
        ensures added { self.new ≡ last_records (set.insert self.old given) }
        ensures of_key { result.key ≡ given.key }
        ensures before { last self.old given.key ≡ Some result }
    {
        exchange(&mut self.by_key, given)
    }

    /// Sets the last record of the key, which has one; `None` leaves the key without one. Takes no
    /// memory, so a `put` can be undone with what it returned.
    pub fn put_back(&mut self, key: &Key, before: Option<Record>)
        requires there { IsSome (last self.old key.now) }
        requires of_key { IfSome before (λ r. r.key ≡ key.now) }
        ensures { self.new ≡ with_last self.old key.now before }
    {
        replace(&mut self.by_key, key, before);
    }

    /// Removes the record if it is the last of its key, which then has none. Any other record
    /// changes nothing. Takes no memory.
    pub fn remove(&mut self, given: &Record)
        ensures removed { self.new ≡ set.remove self.old given.now }
        ensures lasts { LosesAtMost given.now self.old self.new }
    {
        if self.contains(given) {
            self.is_compact();
            self.put_back(&given.key, None);
        }
    }

    /// Lists the records, one for each key, by the derived order of keys. The only error is out of
    /// memory.
    pub fn records(&self, alloc: Global) -> Result<Vec<&Record>, AllocError>
        ensures all { IfOk result (λ found. self.now
            ≡ set.from_list (map (λ r. r.now) found.items)) }
        ensures one_a_key { IfOk result (λ found.
            IsStrictlySortedBy key_cmp (map (λ r. r.now.key) found.items)) }
    {
        let found: Vec<&Record> = self.by_key.values().collect(alloc)?;
        Ok(found)
    }

    /// Proves that compacting the set changes nothing. It costs nothing at run time.
    pub fn is_compact(&self)
        ensures { last_records self.now ≡ self.now }
    {
        let _by_key = &self.by_key;
    }
}

/// Puts a copy of the record at its key, and returns the one before.
fn insert_copy(
    by_key: &mut BTreeMap<Key, Record>,
    given: &Record,
) -> Result<Option<Record>, AllocError>
    ensures put { OnOk result (Updates key_cmp by_key.old by_key.new given.now.key (Some given.now)) }
    ensures before { IfOk result (λ before. before ≡ last_at by_key.old given.now.key) }
    ensures in_order { OnOk result (IsOrdered key_cmp by_key.new) }
    ensures refused { OnErr result (IsUnchanged by_key.old by_key.new) }
{
    let key = given.key.clone()?;
    let last = given.clone()?;
    Ok(by_key.insert(key, last)?)
}

/// Puts the record at its key, which has one, and returns that one.
fn exchange(by_key: &mut BTreeMap<Key, Record>, given: Record) -> Record
    requires { IsSome (last_at by_key.old given.key) }
    ensures put { Updates key_cmp by_key.old by_key.new given.key (Some given) }
    ensures before { last_at by_key.old given.key ≡ Some result }
    ensures in_order { IsOrdered key_cmp by_key.new }
{
    match by_key.get_mut(&given.key) {
        Some(last) => mem::replace(last, given),
        None => unreachable!(),
    }
}

/// Sets the record of the key, which has one; `None` leaves the key without one.
fn replace(by_key: &mut BTreeMap<Key, Record>, key: &Key, given: Option<Record>)
    requires { IsSome (last_at by_key.old key.now) }
    ensures replaced { Updates key_cmp by_key.old by_key.new key.now given }
    ensures in_order { IsOrdered key_cmp by_key.new }
{
    match given {
        Some(record) => {
            if let Some(last) = by_key.get_mut(key) {
                *last = record;
            }
        }
        None => {
            by_key.remove(key);
        }
    }
}

/// Returns whether the first of two records of one key is the older one.
fn is_older(one: &Record, other: &Record) -> bool
    ensures { result ≡ is_lt (age_cmp one.now other.now) }
{
    one.offset
        .cmp(&other.offset)
        .then(one.value.cmp(&other.value))
        .is_lt()
}
