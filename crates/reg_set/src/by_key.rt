// The records of each key, in a map by key.
ghost use Rattle.std.specs.Prelude.{◌≡◌, ◌++◌, ◌↔◌, [], true, OnOk, OnErr, IfOk, IsTrue, map};
ghost use Rattle.std.specs.BTreeMap.{IsOrdered, keys, values};
ghost use Rattle.std.specs.FinSet as set;
ghost use Rattle.std.specs.List.{list_any, list_all};
ghost use Rattle.std.specs.Option.{option_map_or};
ghost use Rattle.std.specs.Ordering.{eq_by_cmp, is_lt};
ghost use Rattle.reg_set.specs.ByKey.{AreByKey, AreSame, IsTakenIn, IsLastsOf, all_records, records_at};
ghost use Rattle.reg_set.specs.Compaction.{KeepsLasts, is_kept_or_gone};
ghost use Rattle.reg_set.specs.LastRecords.{last, last_records};
ghost use Rattle.reg_set.specs.RecordOrder.{key_cmp, record_cmp};

use crate::last_records::LastRecords;
use crate::of_one_key::{leave_last, push_last, put_last, take_among};
use crate::record_set::{RecordSet, TakeOutcome, has_last_of, has_last_or_none};
use reg_records::{Key, Record};
use std::alloc::{AllocError, Global};
use std::collections::BTreeMap;

/// Adds the record to those of its key, and returns what that did. The only error is out of memory;
/// each key then has the records that it had.
pub(crate) fn take_in(
    alloc: Global,
    by_key: &mut BTreeMap<Key, Vec<Record>>,
    given: &Record,
) -> Result<TakeOutcome, AllocError>
    requires { AreByKey by_key.old }
    ensures added { OnOk result (IsTakenIn by_key.old by_key.new given.now) }
    ensures fresh { IfOk result (λ taken. (taken ≡ TakeOutcome.Fresh)
        ↔ IsTrue (list_all (λ q. is_lt (record_cmp q given.now)) (records_at by_key.old given.now.key))) }
    ensures repeat { IfOk result (λ taken. (taken ≡ TakeOutcome.Repeat)
        ↔ IsTrue (list_any (eq_by_cmp record_cmp given.now) (records_at by_key.old given.now.key))) }
    ensures refused { OnErr result (AreSame by_key.old by_key.new) }
    ensures in_order { IsOrdered key_cmp by_key.new }
{
    match by_key.get_mut(&given.key) {
        Some(records) => {
            let taken = take_among(records, given)?;
            Ok(taken)
        }
        None => {
            add_key(alloc, by_key, given)?;
            Ok(TakeOutcome::Fresh)
        }
    }
}

/// Adds the record at its key, which has none. The only error is out of memory; the map is then
/// unchanged.
fn add_key(
    alloc: Global,
    by_key: &mut BTreeMap<Key, Vec<Record>>,
    given: &Record,
) -> Result<(), AllocError>
    requires none { records_at by_key.old given.now.key ≡ [] }
    requires in_order { IsOrdered key_cmp by_key.old }
    ensures added { OnOk result (IsTakenIn by_key.old by_key.new given.now) }
    ensures refused { OnErr result (AreSame by_key.old by_key.new) }
    ensures in_order { IsOrdered key_cmp by_key.new }
{
    let key = given.key.clone()?;
    let mut records = Vec::new(alloc);
    records.push(given.clone()?)?;
    by_key.insert(key, records)?;
    Ok(())
}

/// Removes all records but the last of each key.
pub(crate) fn leave_lasts(by_key: &mut BTreeMap<Key, Vec<Record>>)
    ensures left { IsLastsOf by_key.old by_key.new }
    ensures in_order { IsOrdered key_cmp by_key.new }
{
    by_key.retain(|_, records| {
        leave_last(records);
        true
    });
}

/// Copies of all records, key by key. The only error is out of memory.
pub(crate) fn copy_all(
    alloc: Global,
    by_key: &BTreeMap<Key, Vec<Record>>,
) -> Result<Vec<Record>, AllocError>
    ensures { IfOk result (λ found. found.items ≡ all_records by_key.now) }
{
    let mut found = Vec::new(alloc);
    for records in by_key.values() {
        push_copies(&mut found, records)?;
    }
    Ok(found)
}

fn push_copies(found: &mut Vec<Record>, records: &[Record]) -> Result<(), AllocError>
    ensures { OnOk result (found.new.items ≡ found.old.items ++ records.now) }
{
    found.extend_from_slice(records)
}

/// The last record of each key. The only error is out of memory.
pub(crate) fn lasts_of(
    alloc: Global,
    by_key: &BTreeMap<Key, Vec<Record>>,
) -> Result<LastRecords, AllocError>
    requires { AreByKey by_key.now }
    ensures { IfOk result (λ lasts. lasts ≡ last_records (set.from_list (all_records by_key.now))) }
{
    let mut lasts = LastRecords::new(alloc);
    for (key, records) in by_key {
        put_last(&mut lasts, key, records)?;
    }
    Ok(lasts)
}

/// The last record of each key, lent. The only error is out of memory.
pub(crate) fn list_lasts(
    alloc: Global,
    by_key: &BTreeMap<Key, Vec<Record>>,
) -> Result<Vec<&Record>, AllocError>
    requires { AreByKey by_key.now }
    ensures { IfOk result (λ found. KeepsLasts (set.from_list (map (λ r. r.now) found.items)) (set.from_list (all_records by_key.now))) }
{
    let mut found = Vec::new(alloc);
    for (key, records) in by_key {
        push_last(&mut found, key, records)?;
    }
    Ok(found)
}

/// Adds the records to the set. The only error is out of memory; some may then have been added.
pub(crate) fn add_all(
    into: &mut RecordSet,
    by_key: &BTreeMap<Key, Vec<Record>>,
) -> Result<(), AllocError>
    ensures { OnOk result (into.new ≡ set.union into.old (set.from_list (all_records by_key.now))) }
{
    for records in by_key.values() {
        add_each(into, records)?;
    }
    Ok(())
}

fn add_each(into: &mut RecordSet, records: &[Record]) -> Result<(), AllocError>
    ensures { OnOk result (into.new ≡ set.union into.old (set.from_list records.now)) }
{
    for record in records {
        into.take(record)?;
    }
    Ok(())
}

/// Returns whether the set has all of the records.
pub(crate) fn are_all_in(by_key: &BTreeMap<Key, Vec<Record>>, whole: &RecordSet) -> bool
    ensures { result ≡ list_all (λ v. list_all (set.contains whole.now) v.items) (values by_key.now) }
{
    by_key.values().all(|records| are_in(records, whole))
}

fn are_in(records: &[Record], whole: &RecordSet) -> bool
    ensures { result ≡ list_all (set.contains whole.now) records.now }
{
    records.iter().all(|record| whole.contains(record))
}

/// Returns whether the part has the last record of the whole set of each key that has records here.
pub(crate) fn has_lasts_of_keys(
    by_key: &BTreeMap<Key, Vec<Record>>,
    part: &RecordSet,
    whole: &RecordSet,
) -> bool
    ensures { result ≡ list_all (λ key. option_map_or (set.contains part.now) (last whole.now key) true) (keys by_key.now) }
{
    by_key.keys().all(|key| has_last_of(part, whole, key))
}

/// Returns whether the part has the last record of the whole set of each key that has records here,
/// or that record is a tombstone below the floor and the part has none of the key.
pub(crate) fn are_kept_or_gone(
    by_key: &BTreeMap<Key, Vec<Record>>,
    floor: u64,
    part: &RecordSet,
    whole: &RecordSet,
) -> bool
    ensures { result ≡ list_all (λ key. option_map_or (is_kept_or_gone floor part.now) (last whole.now key) true) (keys by_key.now) }
{
    by_key
        .keys()
        .all(|key| has_last_or_none(floor, part, whole, key))
}
