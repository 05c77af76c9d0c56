// Records that leave a set.
ghost use Rattle.std.specs.Prelude.{◌≡◌, ◌&&◌, ◌||◌, IfOk, OnOk, not, if◌then◌else◌};
ghost use Rattle.std.specs.FinSet.{contains, insert};
ghost use Rattle.reg_floored.specs.Floors.{may_leave, without};
ghost use Rattle.reg_set.specs.Compaction.{is_gone};
ghost use Rattle.reg_set.specs.LastRecords.{is_last};

use crate::parts::deletes_below;
use reg_records::Record;
use reg_set::{RecordSet, records_are_ordered};
use std::alloc::AllocError;

/// Returns the set without those records. The only error is out of memory.
pub(crate) fn without(set: &RecordSet, dropped: &[Record]) -> Result<RecordSet, AllocError>
    ensures { IfOk result (λ left. left ≡ without set.now dropped.now) }
{
    records_are_ordered();
    let records = set.records()?;
    let alloc = *records.allocator();
    let gone = RecordSet::of(alloc, dropped)?;
    let mut left = RecordSet::new(alloc);
    for record in &records {
        take_unless_gone(&mut left, &gone, record)?;
    }
    Ok(left)
}

fn take_unless_gone(
    left: &mut RecordSet,
    gone: &RecordSet,
    given: &Record,
) -> Result<(), AllocError>
    ensures { OnOk result (left.new ≡ (if contains gone.now given.now then left.old else insert left.old given.now)) }
{
    if !gone.contains(given) {
        left.take(given)?;
    }
    Ok(())
}

/// Returns whether the records may be dropped from a set with that floor; `left` is the set without
/// them.
pub(crate) fn may_leave(floor: u64, set: &RecordSet, left: &RecordSet, dropped: &[Record]) -> bool
    requires { left.now ≡ without set.now dropped.now }
    ensures { result ≡ may_leave floor set.now dropped.now }
{
    dropped.iter().all(|given| may_go(floor, set, left, given))
}

/// Returns whether the record is in the set, and isn't the last of its key or is gone.
fn may_go(floor: u64, set: &RecordSet, left: &RecordSet, given: &Record) -> bool
    ensures { result ≡ (contains set.now given.now && (not (is_last set.now given.now) || is_gone floor left.now given.now)) }
{
    set.contains(given) && (!is_last(set, given) || is_gone(floor, left, given))
}

/// Returns whether the record is a tombstone below the floor, and no record of its key is left.
pub fn is_gone(floor: u64, left: &RecordSet, given: &Record) -> bool
    ensures { result ≡ is_gone floor left.now given.now }
{
    deletes_below(given, floor) && left.last(&given.key).is_none()
}

/// Returns whether the record is the last of its key.
fn is_last(set: &RecordSet, given: &Record) -> bool
    ensures { result ≡ is_last set.now given.now }
{
    records_are_ordered();
    match set.last(&given.key) {
        Some(last) => *last == *given,
        None => false,
    }
}
