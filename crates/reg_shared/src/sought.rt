// A set of records for lookups, by offset.
ghost use Rattle.std.specs.Prelude.{◌≡◌, IfOk, IfSome, nat_le};
ghost use Rattle.std.specs.FinSet.{contains, from_list};
ghost use Rattle.std.specs.List.{filter};
ghost use Rattle.std.specs.List.Sorted.{IsPermutation};
ghost use Rattle.reg_set.specs.RecordOrder.{record_cmp};
ghost use Rattle.reg_shared.specs.Kept.{IsRising};

use crate::kept::{copy_all, is_listed, since};
use reg_records::Record;
use reg_set::{RecordSet, records_are_ordered};
use std::alloc::{AllocError, Global};
use std::marker::Model;

/// Up to this many records at one offset are compared one by one.
const FEW: usize = 8;

/// A set of records, sorted by offset. A lookup compares numbers first, and keys only at the same
/// offset. Contracts see the set.
#[derive(Drop)]
pub(crate) struct Sought {
    by_offset: Vec<Record>,
    // The set, if more than `FEW` records have the same offset, so that lookups stay fast.
    many: Option<RecordSet>,
}

impl Model for Sought {
    ghost use Rattle.std.specs.FinSet as set;
    ghost use Rattle.std.specs.Prelude.{◌≡◌, IfSome};
    ghost use Rattle.reg_records.specs.contracts.record.Record as stored;
    ghost use Rattle.reg_set.specs.RecordOrder.{record_cmp};
    ghost use Rattle.reg_set.specs.Records.{Records};
    ghost use Rattle.reg_shared.specs.Kept.{IsRising};

    ghost Value = { Records };

    ghost coded = { set.code (stored.the_row).coded };

    ghost view = { λ s. set.from_list {R = record_cmp} s.by_offset.items };

    ghost invariant = { λ s. IsRising s.by_offset.items × IfSome s.many (λ all. all ≡ set.from_list s.by_offset.items) };
}

impl Sought {
    /// Makes the set of the records. The only error is out of memory.
    pub(crate) fn of(alloc: Global, records: &[Record]) -> Result<Sought, AllocError>
        ensures { IfOk result (λ found. found ≡ from_list records.now) }
    {
        records_are_ordered();
        let mut by_offset = copy_all(alloc, records)?;
        put_by_offset(&mut by_offset);
        let many = set_of_many(alloc, &by_offset)?;
        Ok(Sought { by_offset, many })
    }

    /// Returns whether the record is in the set.
    pub(crate) fn contains(&self, given: &Record) -> bool
        ensures { result ≡ contains self.now given.now }
    {
        match &self.many {
            Some(set) => set.contains(given),
            None => is_at_its_offset(&self.by_offset, given),
        }
    }
}

/// Returns the set of the records if more than `FEW` of them have the same offset. The only error
/// is out of memory.
fn set_of_many(alloc: Global, by_offset: &[Record]) -> Result<Option<RecordSet>, AllocError>
    ensures { IfOk result (λ found. IfSome found (λ set. set ≡ from_list by_offset.now)) }
{
    if are_few_at_each(by_offset) {
        return Ok(None);
    }
    Ok(Some(RecordSet::of(alloc, by_offset)?))
}

/// Returns whether at most `FEW` records have the same offset. It affects speed only; no contract
/// depends on it.
fn are_few_at_each(by_offset: &[Record]) -> bool {
    let mut offset = 0;
    let mut count: usize = 0;
    for record in by_offset {
        if record.offset != offset {
            offset = record.offset;
            count = 0;
        }
        count = count.saturating_add(1);
        if count > FEW {
            return false;
        }
    }
    true
}

/// Returns whether the record is among those at its offset.
fn is_at_its_offset(by_offset: &[Record], given: &Record) -> bool
    requires { IsRising by_offset.now }
    ensures { result ≡ contains (from_list {R = record_cmp} by_offset.now) given.now }
{
    records_are_ordered();
    let above = since(by_offset, given.offset);
    let there = up_to(above, given.offset);
    is_listed(there, given)
}

/// Sorts the records by offset.
fn put_by_offset(records: &mut Vec<Record>)
    ensures moved { IsPermutation records.old.items records.new.items }
    ensures rising { IsRising records.new.items }
{
    records.sort_unstable_by_key(|record| record.offset);
}

/// Returns the records at or below the offset.
fn up_to(by_offset: &[Record], offset: u64) -> &[Record]
    requires { IsRising by_offset.now }
    ensures { result.now ≡ filter (λ r. nat_le r.offset offset) by_offset.now }
{
    let end = by_offset.partition_point(
        |record: &Record| -> bool
            ensures { result ≡ nat_le record.now.offset offset }
        { record.offset <= offset },
    );
    &by_offset[..end]
}
