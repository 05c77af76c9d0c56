// Sets that take thousands of records, and hold them all, and copies of last records.
use super::side_by_side::wide;
use reg_records::{LogError, Record};
use reg_set::{LastRecords, RecordSet, TakeOutcome};
use std::alloc::Global;
use test_tools::Made;

/// Takes records in turn, and tells whether that is said of each.
fn are_taken(set: &mut RecordSet, records: &[Record], taken: TakeOutcome) -> Made<bool> {
    for record in records {
        if set.take(record)? != taken {
            return Ok(false);
        }
    }
    Ok(true)
}

/// Whether each record is in the set, and is the last of its key.
fn has_each(set: &RecordSet, records: &[Record]) -> bool {
    for record in records {
        if !set.contains(record) || set.last(&record.key) != Some(record) {
            return false;
        }
    }
    true
}

/// Whether records of as many keys are fresh, and then repeats, and the set has them in their order.
fn hold(alloc: Global, records: &[Record], in_order: &[Record]) -> Made<bool> {
    let mut set = RecordSet::new(alloc);
    Ok(
        are_taken(&mut set, records, TakeOutcome::Fresh)?
            && are_taken(&mut set, records, TakeOutcome::Repeat)?
            && set.records()?.as_slice() == in_order
            && has_each(&set, records),
    )
}

/// Whether that is so of so many records, in rising order and in falling order.
fn are_held(alloc: Global, count: u64) -> Result<bool, LogError> {
    let rising = wide(alloc, count, 1, true)?.records(alloc)?;
    let falling = wide(alloc, count, 1, false)?.records(alloc)?;
    Ok(
        rising.len() as u64 == count
            && hold(alloc, &rising, &rising)?
            && hold(alloc, &falling, &rising)?,
    )
}

#[test]
fn a_set_takes_thousands_of_records(rt: HostRuntime) {
    assert!(rt; are_held(rt.alloc(), 2_000) == Ok(true));
}

/// Whether each record is the last of its key, and there are no others.
fn are_lasts(alloc: Global, lasts: &LastRecords, records: &[Record]) -> Made<bool> {
    for record in records {
        if !lasts.contains(record) {
            return Ok(false);
        }
    }
    Ok(lasts.records(alloc)?.len() == records.len())
}

/// Whether a copy of so many last records has these, and still does where the original loses them.
fn is_copied(alloc: Global, count: u64) -> Result<bool, LogError> {
    let records = wide(alloc, count, 1, true)?.records(alloc)?;
    let mut lasts = LastRecords::new(alloc);
    for record in &records {
        lasts.put(record)?;
    }
    let copy = lasts.clone()?;
    for record in &records {
        lasts.remove(record);
    }
    Ok(are_lasts(alloc, &copy, &records)? && are_lasts(alloc, &lasts, &[])?)
}

#[test]
fn copies_of_last_records_have_them_all(rt: HostRuntime) {
    for count in [0, 1, 15, 16, 17, 255, 256, 271, 2_000] {
        assert!(rt; is_copied(rt.alloc(), count) == Ok(true), "{count}");
    }
}
