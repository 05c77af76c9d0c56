// Rows: a word with what it asks, and what is wanted.
use crate::kept::{push_compacted, push_is_part, push_merged, push_new, push_rebased};
use crate::lines::{
    push_begins, push_floor, push_log, push_read, push_rest, push_shared, push_written,
};
use crate::named::{Named, named_of};
use crate::sets::push_set;
use std::alloc::Global;
use test_tools::{CaseError, Made, Said, Tally, bytes_of, cut, halves, rows_of};

/// What a row asks, behind its first word, and the records that it may name.
#[derive(Clone, Copy)]
pub(crate) struct Row<'r> {
    pub alloc: Global,
    pub named: &'r [Named<'r>],
    pub asked: &'r str,
}

/// The bytes that a text stands for, in which `|` is a TAB.
pub(crate) fn bytes_in(alloc: Global, text: &str) -> Made<Vec<u8>> {
    let text = text.replace(alloc, "|", "^t")?;
    bytes_of(alloc, text.as_str())
}

/// The two parts of what is asked, between which that word stands.
pub(crate) fn parts_of<'a>(asked: &'a str, word: &str) -> Said<(&'a str, &'a str)> {
    asked.split_once(word).ok_or(CaseError::NotUnderstood)
}

/// Adds what comes of a row of sets.
fn push_of_sets(told: &mut String, word: &str, row: Row) -> Said<()> {
    match word {
        "set" => push_set(told, row),
        "compact" => push_compacted(told, row),
        "merge" => push_merged(told, row),
        "rebase" => push_rebased(told, row),
        "part" => push_is_part(told, row),
        "new" => push_new(told, row),
        _ => Err(CaseError::NotUnderstood),
    }
}

/// Adds what comes of a row.
fn push_answer(told: &mut String, word: &str, row: Row) -> Said<()> {
    let Row { alloc, asked, .. } = row;
    let bytes = bytes_in(alloc, asked)?;
    match word {
        "read" => push_read(alloc, told, &bytes)?,
        "log" => push_log(alloc, told, &bytes)?,
        "rest" => push_rest(alloc, told, &bytes)?,
        "begins" => push_begins(told, &bytes)?,
        "share" => push_shared(alloc, told, asked)?,
        "write" => push_written(alloc, told, asked)?,
        "floor" => push_floor(alloc, told, asked)?,
        _ => push_of_sets(told, word, row)?,
    }
    Ok(())
}

/// What comes of a row.
fn came_of(alloc: Global, named: &[Named], row: &str) -> Said<String> {
    let (words, _wanted) = row.split_once(" => ").ok_or(CaseError::NotUnderstood)?;
    let (word, asked) = cut(words);
    let mut told = String::new(alloc);
    let row = Row {
        alloc,
        named,
        asked,
    };
    push_answer(&mut told, word, row)?;
    Ok(told)
}

/// Tries the rows, and adds the records that they name.
fn try_all<'t>(tally: &mut Tally, named: &mut Vec<Named<'t>>, text: &'t str) -> Made<()> {
    let alloc = tally.alloc;
    for row in &rows_of(alloc, text)? {
        if let Some(one) = named_of(alloc, *row)? {
            named.push(one)?;
        } else {
            let (_words, wanted) = halves(row);
            let wanted = bytes_in(alloc, wanted)?;
            let wanted = String::from_utf8_lossy(alloc, &wanted)?;
            tally.tell(row, wanted.as_str(), came_of(alloc, named, row))?;
        }
    }
    Ok(())
}

/// Tries each row of a file; one that names a record is no case.
pub(crate) fn try_rows(tally: &mut Tally, text: &str) -> Made<()> {
    let mut named = Vec::new(tally.alloc);
    try_all(tally, &mut named, text)
}
