// Records in the order of a set.
ghost use Rattle.std.specs.Prelude.{◌≡◌, ◌||◌, IfOk, IsTrue, nat_lt};
ghost use Rattle.std.specs.List.{IsAllAdjacentAnswer, IsDistinct};
ghost use Rattle.std.specs.List.Sorted.{IsPermutation, IsSortedBy};
ghost use Rattle.std.specs.Ordering.{eq_by_cmp, is_eq, is_lt};
ghost use Rattle.reg_set.specs.RecordOrder.{age_cmp, key_cmp, record_cmp};
ghost use Rattle.reg_set.specs.Records.{is_in_order};

use crate::order::compare;
use crate::with_text::{WithText, with_texts, without_texts};
use reg_records::Record;
use std::alloc::{AllocError, Global};

/// Sorts distinct records into the order of a set. The only error is out of memory.
pub(crate) fn put_in_order(alloc: Global, records: Vec<Record>) -> Result<Vec<Record>, AllocError>
    requires { IsDistinct (eq_by_cmp record_cmp) records.items }
    ensures moved { IfOk result (λ found. IsPermutation records.items found.items) }
    ensures in_order { IfOk result (λ found. IsTrue (is_in_order found.items)) }
{
    let mut records = records;
    put_by_age(&mut records);
    // Texts of keys are written only where records of one offset have several keys.
    if has_one_key_at_each(&records) {
        return Ok(records);
    }
    let mut written = with_texts(alloc, records)?;
    put_by_text(&mut written);
    let found = without_texts(alloc, written)?;
    Ok(found)
}

/// Sorts the records by offset, then by value.
fn put_by_age(records: &mut Vec<Record>)
    ensures moved { IsPermutation records.old.items records.new.items }
    ensures sorted { IsSortedBy (λ a b. is_lt (age_cmp a b)) records.new.items }
{
    records.sort_unstable_by(|one, other| compare(one, other));
}

/// Sorts the records into the order of a set.
fn put_by_text(written: &mut Vec<WithText>)
    ensures moved { IsPermutation written.old.items written.new.items }
    ensures sorted { IsSortedBy (λ a b. is_lt (record_cmp a b)) written.new.items }
{
    written.sort_unstable_by(|one, other| one.compare(other));
}

/// Returns whether each record has a lower offset than the next, or the same key.
fn has_one_key_at_each(records: &[Record]) -> bool
    ensures { IsAllAdjacentAnswer (λ a b answer. answer
        ≡ (nat_lt a.offset b.offset || is_eq (key_cmp a.key b.key))) records.now result }
{
    records.is_sorted_by(|one, next| are_apart(one, next))
}

fn are_apart(one: &Record, next: &Record) -> bool
    ensures { result ≡ (nat_lt one.now.offset next.now.offset || is_eq (key_cmp one.now.key next.now.key)) }
{
    one.offset < next.offset || one.key == next.key
}

/// Sorts the records so that a set is made of them without moving any: each comes after all earlier
/// ones of its key.
pub(crate) fn put_in_turn(records: &mut Vec<&Record>)
    ensures { IsPermutation records.old.items records.new.items }
{
    records.sort_unstable_by(|one, other| compare(one, other));
}
