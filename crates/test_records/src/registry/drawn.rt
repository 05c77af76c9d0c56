// Logs of lines that are drawn.
use super::plain::{NUMBERS, SUBJECTS};
use reg_records::{Device, LogError, Record, read_log};
use std::alloc::Global;
use test_tools::{Draws, Made};

/// The normal texts of the schemas, as a value's text has them.
static SCHEMAS: [&str; 3] = ["\\\"int\\\"", "\\\"long\\\"", "\\\"string\\\""];

fn one_of(draws: &mut Draws, words: &'static [&'static str]) -> &'static str {
    let place = draws.place(words.len());
    words.get(place).copied().unwrap_or("")
}

/// Adds the end of a line's key, and its value, by what the line is of. Where a number is 0, the value can't be read.
fn push_rest(log: &mut String, draws: &mut Draws, subject: &str) -> Made<()> {
    let version = draws.number(NUMBERS - 1).saturating_add(1);
    let number = draws.number(NUMBERS);
    let schema = one_of(draws, &SCHEMAS);
    let kind = draws.below(19);
    match kind {
        0 | 1 => log.push_str("\"CONFIG\",\"subject\":null}\t")?,
        2 | 4 | 5 => write!(log, "\"DELETE_SUBJECT\",\"subject\":\"{subject}\"}}\t")?,
        3 => log.push_str("\"NOOP\",\"magic\":0}\t")?,
        11..=13 => log.push_str("\"ID_MARK\",\"magic\":0}\t")?,
        _ => write!(
            log,
            "\"SCHEMA\",\"subject\":\"{subject}\",\"version\":{version}}}\t"
        )?,
    }
    match kind {
        0 => log.push_str("{\"compatibilityLevel\":\"FULL\"}\n"),
        4 | 5 => writeln!(log, "{{\"subject\":\"{subject}\",\"version\":{number}}}"),
        8 => log.push_str("{}\n"),
        11 | 12 => writeln!(log, "{{\"id\":{number}}}"),
        9 | 10 | 14..=18 => {
            let deleted = kind < 11;
            writeln!(
                log,
                "{{\"subject\":\"{subject}\",\"version\":{version},\"id\":{number},\"schema\":\"{schema}\",\"deleted\":{deleted}}}"
            )
        }
        _ => log.push_str("null\n"),
    }
}

/// The records of so many lines with offsets below the limit: of a version mostly, or of a soft delete.
pub(crate) fn drawn(
    alloc: Global,
    draws: &mut Draws,
    count: u64,
    offsets: u64,
) -> Result<Vec<Record>, LogError> {
    let mut log = String::new(alloc);
    for _line in 0..count {
        let offset = draws.below(offsets);
        let subject = one_of(draws, &SUBJECTS);
        write!(log, "{offset}\t{{\"keytype\":")?;
        push_rest(&mut log, draws, subject)?;
    }
    Ok(read_log(alloc, &mut Device::new(log.as_bytes()))?.records)
}
