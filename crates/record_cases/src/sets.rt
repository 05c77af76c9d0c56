// Sets of records: what they take, their order, their last records.
use crate::named::{push_names, records_of};
use crate::rows::Row;
use reg_records::{Key, Record};
use reg_set::{RecordSet, TakeOutcome, keeps_lasts};
use test_tools::{Made, Said};

pub(crate) fn outcome_name(outcome: TakeOutcome) -> &'static str {
    match outcome {
        TakeOutcome::Fresh => "fresh",
        TakeOutcome::Repeat => "repeat",
        TakeOutcome::Older => "older",
    }
}

/// Takes records one after the other.
fn take_all(told: &mut String, set: &mut RecordSet, records: &[Record]) -> Made<()> {
    let mut space = "";
    for record in records {
        let outcome = outcome_name(set.take(record)?);
        write!(told, "{space}{outcome}")?;
        space = " ";
    }
    Ok(())
}

/// Whether each of the records is the last one of its key, and no other key has one.
fn has_lasts(set: &RecordSet, lasts: &[Record]) -> bool {
    for record in lasts {
        if set.last(&record.key) != Some(record) {
            return false;
        }
    }
    set.last(&Key::Noop).is_none()
}

/// Whether the set keeps its last records, its first record alone doesn't, the compacted set does, and the set keeps those of the compacted
/// one exactly if it is no larger.
fn keep_lasts(front: &RecordSet, set: &RecordSet, compacted: &RecordSet, is_whole: bool) -> bool {
    keeps_lasts(set, set)
        && !keeps_lasts(front, set)
        && keeps_lasts(compacted, set)
        && keeps_lasts(set, compacted) == is_whole
}

/// Adds the records of a set, and its last ones.
fn push_records(told: &mut String, row: Row, set: &RecordSet, compacted: &RecordSet) -> Made<()> {
    let (records, lasts) = (set.records()?, compacted.records()?);
    for part in [&records, &lasts] {
        told.push_str("; ")?;
        push_names(told, row.named, part)?;
    }
    let front = RecordSet::of(row.alloc, records.get(..1).unwrap_or(&[]))?;
    let is_whole = records.len() == lasts.len();
    if !has_lasts(set, &lasts) || !keep_lasts(&front, set, compacted, is_whole) {
        told.push_str("; and keeps others")?;
    }
    Ok(())
}

fn compact(set: &RecordSet) -> Made<RecordSet> {
    let mut compacted = set.clone()?;
    compacted.compact();
    Ok(compacted)
}

/// Adds what a set of records answers.
pub(crate) fn push_set(told: &mut String, row: Row) -> Said<()> {
    let (taken, merged) = row.asked.split_once(" and ").unwrap_or((row.asked, ""));
    let taken = records_of(row, taken)?;
    let merged = records_of(row, merged)?;
    let mut set = RecordSet::new(row.alloc);
    take_all(told, &mut set, &taken)?;
    set.merge(&RecordSet::of(row.alloc, &merged)?)?;
    let compacted = compact(&set)?;
    Ok(push_records(told, row, &set, &compacted)?)
}
