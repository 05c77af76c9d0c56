// Sets with a floor.
use crate::named::{Named, push_names, records_of};
use crate::rows::{Row, parts_of};
use crate::sets::outcome_name;
use reg_floored::{KeptSet, is_compaction_of};
use reg_records::Record;
use reg_set::RecordSet;
use test_tools::{Made, Said, number_of};

/// The set of some records, as `A B at 3`.
fn kept_of(row: Row, written: &str) -> Said<KeptSet> {
    let (names, floor) = parts_of(written, " at ")?;
    let floor = number_of(floor)?;
    let records = records_of(row, names)?;
    Ok(KeptSet::of(RecordSet::of(row.alloc, &records)?, floor))
}

fn push_set(told: &mut String, named: &[Named], set: &KeptSet) -> Made<()> {
    push_names(told, named, set.records()?.as_slice())?;
    write!(told, " at {}", set.floor())
}

/// Adds a new set.
pub(crate) fn push_new(told: &mut String, row: Row) -> Said<()> {
    Ok(push_set(told, row.named, &KeptSet::new(row.alloc))?)
}

/// Compacts a set to some floors in turn, and adds which are refused.
fn compact(told: &mut String, set: &mut KeptSet, floors: &str) -> Said<()> {
    let whole = set.clone()?;
    for floor in floors.split_whitespace() {
        if let Err(error) = set.compact_to(number_of(floor)?) {
            write!(told, "{error}; ")?;
        }
    }
    if !is_compaction_of(set, &whole) {
        told.push_str("no compaction; ")?;
    }
    Ok(())
}

/// Adds what a set is compacted to.
pub(crate) fn push_compacted(told: &mut String, row: Row) -> Said<()> {
    let (set, floors) = parts_of(row.asked, " to ")?;
    let mut set = kept_of(row, set)?;
    compact(told, &mut set, floors)?;
    Ok(push_set(told, row.named, &set)?)
}

/// Adds what a set is merged to.
pub(crate) fn push_merged(told: &mut String, row: Row) -> Said<()> {
    let (set, other) = parts_of(row.asked, " with ")?;
    let other = kept_of(row, other)?;
    let mut set = kept_of(row, set)?;
    if let Err(error) = set.merge(&other) {
        write!(told, "{error}; ")?;
    }
    Ok(push_set(told, row.named, &set)?)
}

/// Rebases a set, which then takes some records and is compacted, and adds what is refused, and what is answered.
fn rebase(told: &mut String, set: &mut KeptSet, other: &KeptSet, taken: &[Record]) -> Made<()> {
    if let Err(error) = set.rebase(other) {
        write!(told, "{error}; ")?;
    }
    for record in taken {
        let outcome = outcome_name(set.take(record)?);
        set.compact();
        let is_found = set.contains(record)
            && set.set().contains(record)
            && set.last(&record.key) == Some(record);
        write!(told, "{}; ", if is_found { outcome } else { "not found" })?;
    }
    Ok(())
}

/// Adds what a set is rebased to, which may then take records.
pub(crate) fn push_rebased(told: &mut String, row: Row) -> Said<()> {
    let (asked, taken) = row
        .asked
        .split_once(" and take ")
        .unwrap_or((row.asked, ""));
    let (set, other) = parts_of(asked, " on ")?;
    let taken = records_of(row, taken)?;
    let other = kept_of(row, other)?;
    let mut set = kept_of(row, set)?;
    rebase(told, &mut set, &other, &taken)?;
    Ok(push_set(told, row.named, &set)?)
}

/// Adds whether a set is a compaction of another.
pub(crate) fn push_is_part(told: &mut String, row: Row) -> Said<()> {
    let (part, whole) = parts_of(row.asked, " of ")?;
    let part = kept_of(row, part)?;
    let is_part = is_compaction_of(&part, &kept_of(row, whole)?);
    Ok(told.push_str(if is_part { "yes" } else { "no" })?)
}
