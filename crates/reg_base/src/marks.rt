// Whether a log may begin anew at an offset.
ghost use Rattle.std.specs.Prelude.{◌≡◌, IfOk};
ghost use Rattle.std.specs.List.{list_any};
ghost use Rattle.reg_base.specs.Base.{may_cross, owes_mark};

use reg_compaction::mark_of;
use reg_fold::Registry;
use reg_fold::reg_records::{Key, Record};
use reg_fold::reg_set::RecordSet;
use std::alloc::{AllocError, Global};

/// Returns whether the records of one command may be on both sides of the offset.
pub(crate) fn is_crossed(records: &[Record], below: u64) -> bool
    ensures { result ≡ list_any (may_cross below) records.now }
{
    records.iter().any(|record| may_cross(below, record))
}

fn may_cross(below: u64, given: &Record) -> bool
    ensures { result ≡ may_cross below given.now }
{
    match &given.key {
        Key::IdMark => given.offset < below && below - given.offset == 1,
        Key::Schema { .. } => given.value.is_none() && given.offset == below,
        Key::Config(_) | Key::Mode(_) | Key::DeleteSubject(_) | Key::Noop => false,
    }
}

/// Returns whether a mark of ids (a record of the highest id ever given) is due behind those
/// records, and compacting them doesn't write it. The only error is out of memory.
pub(crate) fn owes_mark(alloc: Global, records: &[Record]) -> Result<bool, AllocError>
    ensures { IfOk result (λ owes. owes ≡ owes_mark records.now) }
{
    let set = RecordSet::of(alloc, records)?;
    let registry = Registry::of_set(alloc, &set)?;
    if registry.mark() >= registry.greatest_id().unwrap_or(0) {
        return Ok(false);
    }
    Ok(mark_of(alloc, records, None)?.is_none())
}
