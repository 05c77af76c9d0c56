// Records with names, by which the rows of sets speak of them.
use crate::rows::{Row, bytes_in};
use reg_records::{Read, Record, read_line};
use std::alloc::Global;
use test_tools::{CaseError, Made, Said};

/// A record, and its name.
#[derive(Drop)]
pub(crate) struct Named<'t> {
    name: &'t str,
    record: Record,
}

/// The record of a line, which is written without its LF.
fn record_of(alloc: Global, line: &str) -> Made<Option<Record>> {
    let mut bytes = bytes_in(alloc, line)?;
    bytes.push(b'\n')?;
    match read_line(alloc, &bytes) {
        Ok(Read::Record(record)) => Ok(Some(record)),
        _ => Ok(None),
    }
}

/// What a row `let NAME = LINE` names.
pub(crate) fn named_of<'t>(alloc: Global, row: &'t str) -> Made<Option<Named<'t>>> {
    let Some((name, line)) = row
        .strip_prefix("let ")
        .and_then(|told| told.split_once(" = "))
    else {
        return Ok(None);
    };
    let record = record_of(alloc, line)?;
    Ok(record.map(|record| Named { name, record }))
}

fn find<'n>(named: &'n [Named], name: &str) -> Said<&'n Record> {
    for one in named {
        if one.name == name {
            return Ok(&one.record);
        }
    }
    Err(CaseError::NotUnderstood)
}

fn push_copy(records: &mut Vec<Record>, record: &Record) -> Made<()> {
    Ok(records.push(record.clone()?)?)
}

/// The records of some names; of `none` there are none.
pub(crate) fn records_of(row: Row, names: &str) -> Said<Vec<Record>> {
    let mut records = Vec::new(row.alloc);
    for name in names.split_whitespace() {
        if name != "none" {
            push_copy(&mut records, find(row.named, name)?)?;
        }
    }
    Ok(records)
}

fn name_of<'n>(named: &'n [Named], record: &Record) -> &'n str {
    for one in named {
        if one.record == *record {
            return one.name;
        }
    }
    "unnamed"
}

/// Adds the names of some records.
pub(crate) fn push_names(told: &mut String, named: &[Named], records: &[Record]) -> Made<()> {
    if records.is_empty() {
        return told.push_str("none");
    }
    let mut space = "";
    for record in records {
        write!(told, "{space}{}", name_of(named, record))?;
        space = " ";
    }
    Ok(())
}
