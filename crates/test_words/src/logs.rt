// Logs, records and registries, of words and of lines.
use reg_fold::Registry;
use reg_records::{Device, Log, Read, Record, has_line, read_line, read_log, write_line};
use std::alloc::{AllocError, Global};
use test_tools::{CaseError, Made, Said, log_text, rows_of};

/// The log of the records of those words.
pub fn log_of(alloc: Global, records: &[&str]) -> Said<Log> {
    let log = log_text(alloc, records)?;
    let read = read_log(alloc, &mut Device::new(log.as_bytes()));
    read.ok().ok_or(CaseError::NotUnderstood)
}

/// The log without records.
pub fn empty_log(alloc: Global) -> Made<Log> {
    log_of(alloc, &[]).ok().ok_or(AllocError)
}

/// A registry over records.
pub fn registry_of(alloc: Global, records: &[Record]) -> Made<Registry> {
    let mut registry = Registry::empty(alloc);
    registry.apply_all(records)?;
    Ok(registry)
}

/// The lines of a paragraph, without its remarks, with a TAB in the place of each `|` and a LF between two lines.
pub fn lines_in(alloc: Global, paragraph: &str) -> Made<String> {
    let mut lines = String::new(alloc);
    for row in &rows_of(alloc, paragraph)? {
        if !lines.is_empty() {
            lines.push('\n')?;
        }
        lines.push_str(row.replace(alloc, "|", "\t")?.as_str())?;
    }
    Ok(lines)
}

/// The record of a line, which has no LF here.
pub fn record_of(alloc: Global, line: &str) -> Said<Record> {
    let text = format!(in alloc; "{line}\n")?;
    match read_line(alloc, text.as_bytes()) {
        Ok(Read::Record(record)) => Ok(record),
        _ => Err(CaseError::NotUnderstood),
    }
}

/// Adds the lines of records, each with a LF before it and none behind it.
pub fn push_lines(alloc: Global, out: &mut String, records: &[Record]) -> Said<()> {
    for record in records {
        if !has_line(record) {
            return Err(CaseError::NotUnderstood);
        }
        let bytes = write_line(alloc, record)
            .ok()
            .ok_or(CaseError::OutOfMemory)?;
        let line = String::from_utf8_lossy(alloc, bytes.as_slice())?;
        out.push('\n')?;
        out.push_str(
            line.as_str()
                .strip_suffix("\n")
                .unwrap_or("a line without LF"),
        )?;
    }
    Ok(())
}
