// The order of records of one key, and where a record stands among others.
ghost use Rattle.std.specs.Prelude.{◌≡◌, ◌≤◌, true, false, IsTrue, take, drop, length};
ghost use Rattle.std.specs.List.{list_any, list_all};
ghost use Rattle.std.specs.Ordering.{eq_by_cmp, is_lt};
ghost use Rattle.reg_set.specs.ByKey.{AreOf};
ghost use Rattle.reg_set.specs.RecordOrder.{age_cmp, record_cmp};
ghost use Rattle.reg_set.specs.Records.{is_in_order};

use reg_records::Record;
use std::cmp::Ordering;

/// Compares records of one key: by offset, then no value before a text, then by the text's bytes.
pub(crate) fn compare(one: &Record, other: &Record) -> Ordering
    ensures { result ≡ age_cmp one.now other.now }
{
    match one.offset.cmp(&other.offset) {
        Ordering::Equal => one.value.cmp(&other.value),
        order => order,
    }
}

/// Returns how many of the records, which are of that record's key and in order, come before it.
pub(crate) fn count_before(records: &[Record], given: &Record) -> usize
    requires { AreOf given.now.key records.now }
    ensures within { result ≤ length records.now }
    ensures before { list_all (λ q. is_lt (record_cmp q given.now)) (take result records.now) ≡ true }
    ensures not_before { list_any (λ q. is_lt (record_cmp q given.now)) (drop result records.now) ≡ false }
{
    // Most records come in order, after all others.
    if let Some(last) = records.last() {
        if compare(last, given) == Ordering::Less {
            return records.len();
        }
    }
    let mut low = 0;
    let mut high = records.len();
    while low < high {
        let middle = low + (high - low) / 2;
        if compare(&records[middle], given) == Ordering::Less {
            low = middle + 1;
        } else {
            high = middle;
        }
    }
    low
}

/// Returns whether the record is among the records, which are in order, at its place.
pub(crate) fn stands_at(records: &[Record], place: usize, given: &Record) -> bool
    requires in_order { IsTrue (is_in_order records.now) }
    requires before { list_all (λ q. is_lt (record_cmp q given.now)) (take place records.now) ≡ true }
    requires not_before { list_any (λ q. is_lt (record_cmp q given.now)) (drop place records.now) ≡ false }
    ensures { result ≡ list_any (eq_by_cmp record_cmp given.now) records.now }
{
    match records.get(place) {
        Some(other) => *other == *given,
        None => false,
    }
}

/// Returns whether the record is among the records, which are of its key and in order.
pub(crate) fn is_among(records: &[Record], given: &Record) -> bool
    requires { AreOf given.now.key records.now }
    ensures { result ≡ list_any (eq_by_cmp record_cmp given.now) records.now }
{
    let place = count_before(records, given);
    stands_at(records, place, given)
}
