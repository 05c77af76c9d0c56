// Parts of a set of records, by offset.
ghost use Rattle.std.specs.Prelude.{◌≡◌, IfOk, not, nat_le, nat_lt};
ghost use Rattle.std.specs.FinSet.{from_list};
ghost use Rattle.std.specs.List.{filter};
ghost use Rattle.reg_floored.specs.Floors.{below, compacted_to, from_floor};
ghost use Rattle.reg_set.specs.Compaction.{deletes_below};

use reg_records::Record;
use reg_set::{RecordSet, records_are_ordered};
use std::alloc::AllocError;

/// Returns the last records without tombstones below the floor. The only error is out of memory.
pub(crate) fn compacted_to(set: &RecordSet, floor: u64) -> Result<RecordSet, AllocError>
    ensures { IfOk result (λ found. found ≡ compacted_to floor set.now) }
{
    records_are_ordered();
    let mut lasts = set.clone()?;
    lasts.compact();
    let mut found = lasts.records()?;
    drop_deletes_below(&mut found, floor);
    set_of(&found)
}

/// Returns the records below the floor. The only error is out of memory.
pub(crate) fn below(set: &RecordSet, floor: u64) -> Result<RecordSet, AllocError>
    ensures { IfOk result (λ found. found ≡ below floor set.now) }
{
    records_are_ordered();
    let mut found = set.records()?;
    keep_below(&mut found, floor);
    set_of(&found)
}

/// Returns the records at the floor and above. The only error is out of memory.
pub(crate) fn from_floor(set: &RecordSet, floor: u64) -> Result<RecordSet, AllocError>
    ensures { IfOk result (λ found. found ≡ from_floor floor set.now) }
{
    records_are_ordered();
    let mut found = set.records()?;
    keep_from(&mut found, floor);
    set_of(&found)
}

fn drop_deletes_below(records: &mut Vec<Record>, floor: u64)
    ensures { records.new.items ≡ filter (λ r. not (deletes_below floor r)) records.old.items }
{
    records.retain(|record| !deletes_below(record, floor));
}

fn keep_below(records: &mut Vec<Record>, floor: u64)
    ensures { records.new.items ≡ filter (λ r. nat_lt r.offset floor) records.old.items }
{
    records.retain(|record| record.offset < floor);
}

fn keep_from(records: &mut Vec<Record>, floor: u64)
    ensures { records.new.items ≡ filter (λ r. nat_le floor r.offset) records.old.items }
{
    records.retain(|record| floor <= record.offset);
}

/// Returns whether the record is a tombstone (has no value) below the floor.
pub fn deletes_below(given: &Record, floor: u64) -> bool
    ensures { result ≡ deletes_below floor given.now }
{
    given.value.is_none() && given.offset < floor
}

/// Makes the set of those records. The only error is out of memory.
fn set_of(records: &Vec<Record>) -> Result<RecordSet, AllocError>
    ensures { IfOk result (λ found. found ≡ from_list records.now.items) }
{
    RecordSet::of(*records.allocator(), records)
}
