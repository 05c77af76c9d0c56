// The kept records: the last record of each key, which the registry holds, and older ones beside
// them.
ghost use Rattle.std.specs.Prelude.{[], true, ◌≡◌, ◌++◌, ◌&&◌, ◌||◌, IfOk, IfSome, IsTrue, OnErr, OnOk, not, nat_le, nat_lt};
ghost use Rattle.std.specs.FinSet.{contains, from_list, union};
ghost use Rattle.std.specs.List.{filter, list_all};
ghost use Rattle.reg_set.specs.Compaction.{deletes_below};
ghost use Rattle.reg_set.specs.LastRecords.{last_records};
ghost use Rattle.reg_set.specs.RecordOrder.{record_cmp};
ghost use Rattle.reg_set.specs.Records.{Records, is_in_order};
ghost use Rattle.reg_shared.specs.Kept.{IsRising, lasts_at, may_go};

use crate::sought::Sought;
use reg_floored::{deletes_below, is_gone};
use reg_fold::Registry;
use reg_fold::avro_schema::SchemaText;
use reg_records::Record;
use reg_set::{RecordSet, records_are_ordered};
use std::alloc::{AllocError, Global};

/// Lists of at most this many records are searched one by one; longer ones by their set.
const FEW: usize = 8;

/// A list gets room for one more record for every `PART` that it has, and for `LEAST` more at
/// least.
const PART: usize = 8;

const LEAST: usize = 64;

/// Returns the records at or above the offset `from`.
pub(crate) fn since(by_offset: &[Record], from: u64) -> &[Record]
    requires { IsRising by_offset.now }
    ensures { result.now ≡ filter (λ r. nat_le from r.offset) by_offset.now }
{
    let start = by_offset.partition_point(
        |record: &Record| -> bool
            ensures { result ≡ nat_lt record.now.offset from }
        { record.offset < from },
    );
    &by_offset[start..]
}

/// Returns the records below the offset `upto`.
pub(crate) fn until(by_offset: &[Record], upto: u64) -> &[Record]
    requires { IsRising by_offset.now }
    ensures { result.now ≡ filter (λ r. nat_lt r.offset upto) by_offset.now }
{
    let end = by_offset.partition_point(
        |record: &Record| -> bool
            ensures { result ≡ nat_lt record.now.offset upto }
        { record.offset < upto },
    );
    &by_offset[..end]
}

/// Returns the set of the older records if more than `FEW` records will be looked up in it, else
/// `None`. The only error is out of memory.
fn sought_among(alloc: Global, older: &[Record], count: usize) -> Result<Option<Sought>, AllocError>
    ensures { IfOk result (λ found. IfSome found (λ set. set ≡ from_list older.now)) }
{
    if count <= FEW {
        return Ok(None);
    }
    Ok(Some(Sought::of(alloc, older)?))
}

/// Returns whether the record is the last of its key, or among the older ones. `set` may hold the
/// set of the older ones.
fn is_kept(registry: &Registry, older: &[Record], set: &Option<Sought>, given: &Record) -> bool
    requires { IfSome set.now (λ set. set ≡ from_list older.now) }
    ensures { result ≡ (contains registry.now given.now || contains (from_list {R = record_cmp} older.now) given.now) }
{
    let last = registry.contains(given);
    let among = is_among(older, set, given);
    last || among
}

/// Returns whether the record is among the older ones. `set` may hold their set.
fn is_among(older: &[Record], set: &Option<Sought>, given: &Record) -> bool
    requires { IfSome set.now (λ set. set ≡ from_list older.now) }
    ensures { result ≡ contains (from_list {R = record_cmp} older.now) given.now }
{
    match set {
        Some(set) => set.contains(given),
        None => is_listed(older, given),
    }
}

/// Returns whether the record is in the list, by comparing it with each of them.
pub(crate) fn is_listed(older: &[Record], given: &Record) -> bool
    ensures { result ≡ contains (from_list {R = record_cmp} older.now) given.now }
{
    records_are_ordered();
    older.contains(given)
}

/// Copies the kept ones among the records by offset, from the offset `from` on. If all are asked
/// for and none was dropped, nothing is looked up, and the copies share no text with the registry:
/// a caller that asks for all copies the registry too. The only error is out of memory.
pub(crate) fn copy_since(
    alloc: Global,
    registry: &Registry,
    older: &[Record],
    by_offset: &[Record],
    from: u64,
    dropped: usize,
) -> Result<Vec<Record>, AllocError>
    requires rising { IsRising by_offset.now }
    requires all_kept { dropped ≡ 0 → (r : Record) → contains (from_list {R = record_cmp} by_offset.now) r ≡ true
        → (contains registry.now r || contains (from_list {R = record_cmp} older.now) r) ≡ true }
    ensures { IfOk result (λ found. found.items
        ≡ filter (λ r. contains registry.now r || contains (from_list {R = record_cmp} older.now) r) (filter (λ q. nat_le from q.offset) by_offset.now)) }
{
    records_are_ordered();
    if from == 0 && dropped == 0 {
        let all = copy_all(alloc, by_offset)?;
        return Ok(all);
    }
    let later = since(by_offset, from);
    let found = copy_kept(alloc, registry, older, later)?;
    Ok(found)
}

/// Copies the kept ones among the records; the copies share texts with the registry. The only error
/// is out of memory.
fn copy_kept(
    alloc: Global,
    registry: &Registry,
    older: &[Record],
    records: &[Record],
) -> Result<Vec<Record>, AllocError>
    ensures { IfOk result (λ found. found.items
        ≡ filter (λ r. contains registry.now r || contains (from_list {R = record_cmp} older.now) r) records.now) }
{
    let set = sought_among(alloc, older, records.len())?;
    let mut found = Vec::new(alloc);
    for record in records {
        if is_kept(registry, older, &set, record) {
            found.push(registry.copy_of(record)?)?;
        }
    }
    Ok(found)
}

/// Copies the kept ones among the records that are below the offset `upto`. The only error is out
/// of memory.
pub(crate) fn copy_below(
    alloc: Global,
    registry: &Registry,
    older: &[Record],
    records: &[Record],
    upto: u64,
) -> Result<Vec<Record>, AllocError>
    ensures { IfOk result (λ found. found.items
        ≡ filter (λ r. nat_lt r.offset upto && (contains registry.now r || contains (from_list {R = record_cmp} older.now) r)) records.now) }
{
    let set = sought_among(alloc, older, records.len())?;
    let mut found = Vec::new(alloc);
    for record in records {
        if record.offset < upto && is_kept(registry, older, &set, record) {
            found.push(registry.copy_of(record)?)?;
        }
    }
    Ok(found)
}

/// Copies the records that aren't the last of their keys. The only error is out of memory.
pub(crate) fn copy_older(
    alloc: Global,
    registry: &Registry,
    records: &[Record],
) -> Result<Vec<Record>, AllocError>
    ensures { IfOk result (λ found. found.items ≡ filter (λ r. not (contains registry.now r)) records.now) }
{
    let mut found = Vec::new(alloc);
    for record in records {
        if !registry.contains(record) {
            found.push(record.clone()?)?;
        }
    }
    Ok(found)
}

/// Copies the records that are the last of their keys and delete them below the floor. The only
/// error is out of memory.
pub(crate) fn copy_deletes(
    alloc: Global,
    registry: &Registry,
    records: &[Record],
    floor: u64,
) -> Result<Vec<Record>, AllocError>
    ensures { IfOk result (λ found. found.items ≡ filter (λ r. deletes_below floor r && contains registry.now r) records.now) }
{
    let mut found = Vec::new(alloc);
    for record in records {
        if deletes_below(record, floor) && registry.contains(record) {
            found.push(record.clone()?)?;
        }
    }
    Ok(found)
}

/// Copies the older records that aren't in `gone` and aren't the last of their keys. The only error
/// is out of memory.
pub(crate) fn copy_left(
    alloc: Global,
    registry: &Registry,
    older: &[Record],
    gone: &Sought,
) -> Result<Vec<Record>, AllocError>
    ensures { IfOk result (λ left. left.items ≡ filter (λ r. not (contains gone.now r) && not (contains registry.now r)) older.now) }
{
    let mut left = Vec::new(alloc);
    for record in older {
        if !gone.contains(record) && !registry.contains(record) {
            left.push(record.clone()?)?;
        }
    }
    Ok(left)
}

/// Returns whether a compaction to this floor may drop the records, if `left` are the older ones
/// that remain.
pub(crate) fn may_leave(
    registry: &Registry,
    older: &Sought,
    left: &RecordSet,
    floor: u64,
    dropped: &[Record],
) -> bool
    ensures { result ≡ list_all (may_go registry.now older.now left.now floor) dropped.now }
{
    dropped
        .iter()
        .all(|given| may_go(registry, older, left, floor, given))
}

/// Returns whether a compaction may drop the record: it is an older one, or the last of its key,
/// deletes it below the floor, and no record of that key is left.
fn may_go(registry: &Registry, older: &Sought, left: &RecordSet, floor: u64, given: &Record) -> bool
    ensures { result ≡ may_go registry.now older.now left.now floor given.now }
{
    if registry.contains(given) {
        return is_gone(floor, left, given);
    }
    older.contains(given)
}

/// Removes all records but the last ones of their keys.
pub(crate) fn keep_lasts(registry: &Registry, by_offset: &mut Vec<Record>)
    ensures { by_offset.new.items ≡ filter (contains registry.now) by_offset.old.items }
{
    by_offset.retain(|record| registry.contains(record));
}

/// Returns whether the list is empty.
pub(crate) fn are_none(records: &[Record]) -> bool
    ensures { result ≡ true → records.now ≡ [] }
{
    records.is_empty()
}

/// Appends copies of all records of the batch, or of none. The only error is out of memory.
pub(crate) fn push_all(records: &mut Vec<Record>, batch: &[Record]) -> Result<(), AllocError>
    ensures added { OnOk result (records.new.items ≡ records.old.items ++ batch.now) }
    ensures refused { OnErr result (records.new.items ≡ records.old.items) }
{
    records.extend_from_slice(batch)
}

/// Returns how many more records a list of `count` gets room for, so that appends rarely copy it.
fn spare(count: usize) -> usize {
    (count / PART).saturating_add(LEAST)
}

/// Lists the records of a set in their order, with room for more. The only error is out of memory.
pub(crate) fn list_records(set: &RecordSet) -> Result<Vec<Record>, AllocError>
    ensures in_order { IfOk result (λ found. IsTrue (is_in_order found.items)) }
    ensures members { IfOk result (λ found. set.now ≡ from_list found.items) }
{
    let mut records = set.records()?;
    records.reserve_exact(spare(records.len()))?;
    Ok(records)
}

/// Copies a list, with room for more. The only error is out of memory.
pub(crate) fn copy_list(alloc: Global, records: &[Record]) -> Result<Vec<Record>, AllocError>
    ensures { IfOk result (λ copy. copy.items ≡ records.now) }
{
    let mut copy = Vec::new(alloc);
    copy.reserve_exact(records.len().saturating_add(spare(records.len())))?;
    push_all(&mut copy, records)?;
    Ok(copy)
}

/// Copies all records. The only error is out of memory.
pub(crate) fn copy_all(alloc: Global, records: &[Record]) -> Result<Vec<Record>, AllocError>
    ensures { IfOk result (λ copy. copy.items ≡ records.now) }
{
    let mut copy = Vec::new(alloc);
    push_all(&mut copy, records)?;
    Ok(copy)
}

/// Copies the last record of each key in the batch. The only error is out of memory.
fn copy_lasts(
    alloc: Global,
    registry: &Registry,
    batch: &[Record],
) -> Result<Vec<Record>, AllocError>
    ensures { IfOk result (λ found. found.items ≡ lasts_at registry.now batch.now) }
{
    let mut found = Vec::new(alloc);
    for record in batch {
        if let Some(last) = registry.last(&record.key) {
            found.push(last.clone()?)?;
        }
    }
    Ok(found)
}

/// Adds the batch to all three, or to none; a record that was the last of its key joins the older
/// ones. If `other` is a registry that has read the batch, or `known` is its schema, texts aren't
/// read again. The only error is out of memory.
pub(crate) fn grow(
    alloc: Global,
    registry: &mut Registry,
    older: &mut Vec<Record>,
    by_offset: &mut Vec<Record>,
    batch: &[Record],
    other: Option<&Registry>,
    known: Option<&SchemaText>,
) -> Result<(), AllocError>
    ensures registry { OnOk result ((whole : Records) → registry.old ≡ last_records whole
        → registry.new ≡ last_records (union whole (from_list batch.now))) }
    ensures older { OnOk result (older.new.items ≡ older.old.items ++ (lasts_at registry.old batch.now ++ batch.now)) }
    ensures by_offset { OnOk result (by_offset.new.items ≡ by_offset.old.items ++ batch.now) }
    ensures registry_stays { OnErr result (registry.new ≡ registry.old) }
    ensures older_stay { OnErr result (older.new.items ≡ older.old.items) }
    ensures by_offset_stay { OnErr result (by_offset.new.items ≡ by_offset.old.items) }
{
    let mut added = copy_lasts(alloc, registry, batch)?;
    push_all(&mut added, batch)?;
    let before = older.len();
    let places = by_offset.len();
    older.append(&mut added)?;
    if let Err(refused) = push_all(by_offset, batch) {
        older.truncate(before);
        return Err(refused);
    }
    if let Err(refused) = registry.apply_all_beside(batch, other, known) {
        older.truncate(before);
        by_offset.truncate(places);
        return Err(refused);
    }
    Ok(())
}
