// The records of one key, which stand in order.
ghost use Rattle.std.specs.Prelude.{◌≡◌, ◌↔◌, OnOk, OnErr, IfOk, IsTrue, map};
ghost use Rattle.std.specs.FinSet as set;
ghost use Rattle.std.specs.List.{list_any, list_all};
ghost use Rattle.std.specs.Ordering.{eq_by_cmp, is_lt};
ghost use Rattle.reg_set.specs.ByKey.{AreOf, last_alone};
ghost use Rattle.reg_set.specs.Compaction.{KeepsLasts};
ghost use Rattle.reg_set.specs.LastRecords.{last_records};
ghost use Rattle.reg_set.specs.RecordOrder.{record_cmp};
ghost use Rattle.reg_set.specs.Records.{Records, placed};

use crate::last_records::LastRecords;
use crate::order::{count_before, stands_at};
use crate::record_set::TakeOutcome;
use reg_records::{Key, Record};
use std::alloc::AllocError;

/// Adds the record to those of its key, and returns what that did. The only error is out of memory;
/// the records are then unchanged.
pub(crate) fn take_among(
    records: &mut Vec<Record>,
    given: &Record,
) -> Result<TakeOutcome, AllocError>
    requires { AreOf given.now.key records.old.items }
    ensures added { OnOk result (records.new.items ≡ placed given.now records.old.items) }
    ensures fresh { IfOk result (λ taken. (taken ≡ TakeOutcome.Fresh)
        ↔ IsTrue (list_all (λ q. is_lt (record_cmp q given.now)) records.old.items)) }
    ensures repeat { IfOk result (λ taken. (taken ≡ TakeOutcome.Repeat)
        ↔ IsTrue (list_any (eq_by_cmp record_cmp given.now) records.old.items)) }
    ensures refused { OnErr result (records.new.items ≡ records.old.items) }
{
    let seen: &[Record] = records;
    let place = count_before(seen, given);
    if stands_at(seen, place, given) {
        return Ok(TakeOutcome::Repeat);
    }
    let is_last = place == seen.len();
    records.insert(place, given.clone()?)?;
    if is_last {
        return Ok(TakeOutcome::Fresh);
    }
    Ok(TakeOutcome::Older)
}

/// Removes all records but the last. Takes no memory.
pub(crate) fn leave_last(records: &mut Vec<Record>)
    ensures { records.new.items ≡ last_alone records.old.items }
{
    if let Some(place) = records.len().checked_sub(1) {
        records.swap(0, place);
        records.truncate(1);
    }
}

/// Adds the last of a key's records to the last ones. The only error is out of memory.
pub(crate) fn put_last(
    lasts: &mut LastRecords,
    _key: &Key,
    records: &[Record],
) -> Result<(), AllocError>
    requires compact { last_records lasts.old ≡ lasts.old }
    requires of_key { AreOf _key.now records.now }
    ensures { OnOk result (lasts.new ≡ last_records (set.union lasts.old (set.from_list records.now))) }
{
    if let Some(last) = records.last() {
        lasts.put(last)?;
    }
    Ok(())
}

/// Puts the last of a key's records behind others. The only error is out of memory.
pub(crate) fn push_last<'a>(
    found: &mut Vec<&'a Record>,
    _key: &Key,
    records: &'a [Record],
) -> Result<(), AllocError>
    requires { AreOf _key.now records.now }
    ensures { OnOk result ((whole : Records) → KeepsLasts (set.from_list (map (λ r. r.now) found.old.items)) whole
        → KeepsLasts (set.from_list (map (λ r. r.now) found.new.items)) (set.union whole (set.from_list records.now))) }
{
    if let Some(latest) = records.last() {
        found.push(latest)?;
    }
    Ok(())
}
