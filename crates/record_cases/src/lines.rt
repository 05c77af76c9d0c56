// What lines and logs say, and how records are written.
use crate::rows::bytes_in;
use base_text::Text;
use reg_records::{
    Device, Key, OFFSET_LIMIT, Read, Record, Value, ValueText, has_line, is_floor_line, read_line,
    read_log, write_floor, write_line,
};
use reg_values::decode_value;
use std::alloc::Global;
use test_tools::{CaseError, Made, Said, cut, number_of};

/// Whether that is the line that is written for a record.
fn is_written(alloc: Global, line: &[u8], record: &Record) -> bool {
    has_line(record) && matches!(write_line(alloc, record), Ok(text) if text.as_slice() == line)
}

/// Adds what the value of a record says.
fn push_value(alloc: Global, told: &mut String, record: &Record) -> Made<()> {
    match decode_value(alloc, record)? {
        Some(Value::Noop) => told.push_str("no operation"),
        Some(value) => match value.written(alloc)? {
            Some(text) => told.push_str(text.as_str()),
            None => told.push_str("not written"),
        },
        None => told.push_str("nothing"),
    }
}

/// Whether a log of that line alone has that record alone.
fn is_in_log(alloc: Global, line: &[u8], record: &Record) -> bool {
    match read_log(alloc, &mut Device::new(line)) {
        Ok(log) => matches!(log.records.as_slice(), [found] if found == record),
        Err(_) => false,
    }
}

fn push_record(alloc: Global, told: &mut String, line: &[u8], record: &Record) -> Made<()> {
    if is_written(alloc, line, record) {
        told.push('=')?;
    } else {
        told.push_str(record.key.written(alloc)?.as_str())?;
    }
    told.push('\t')?;
    push_value(alloc, told, record)?;
    if !is_in_log(alloc, line, record) {
        told.push_str(", and another record in a log")?;
    }
    Ok(())
}

/// Adds what a line reads as.
pub(crate) fn push_read(alloc: Global, told: &mut String, line: &[u8]) -> Made<()> {
    match read_line(alloc, line) {
        Ok(Read::Record(record)) => push_record(alloc, told, line, &record),
        Ok(Read::Foreign(offset)) => write!(told, "foreign {offset}"),
        Err(error) => write!(told, "{error}"),
    }
}

/// The key of that version of the subject `s`, or that of no operation.
fn key_of(alloc: Global, version: &str) -> Said<Key> {
    if version == "-" {
        return Ok(Key::Noop);
    }
    let Ok(version) = u32::try_from(number_of(version)?) else {
        return Err(CaseError::NotUnderstood);
    };
    let subject = Text::copy_of(alloc, "s")?;
    Ok(Key::Schema { subject, version })
}

fn value_of(alloc: Global, written: &str) -> Made<ValueText> {
    let bytes = bytes_in(alloc, written)?;
    let text = String::from_utf8_lossy(alloc, bytes.as_slice())?;
    Ok(ValueText::from(Text::of_string(text)?))
}

fn record_in(alloc: Global, asked: &str) -> Said<Record> {
    let (offset, rest) = cut(asked);
    let (version, value) = cut(rest);
    let offset = number_of(offset)?;
    let key = key_of(alloc, version)?;
    let value = Some(value_of(alloc, value)?);
    Ok(Record { offset, key, value })
}

fn push_line(alloc: Global, told: &mut String, record: &Record) -> Made<()> {
    if !has_line(record) {
        return told.push_str("no line");
    }
    match write_line(alloc, record) {
        Ok(line) => {
            let again = read_line(alloc, &line);
            let is_again = matches!(&again, Ok(Read::Record(found)) if found == record);
            told.push_str(if is_again {
                "a line"
            } else {
                "a line of another record"
            })
        }
        Err(error) => write!(told, "{error}"),
    }
}

/// Adds whether a record has a line.
pub(crate) fn push_written(alloc: Global, told: &mut String, asked: &str) -> Said<()> {
    let record = record_in(alloc, asked)?;
    push_line(alloc, told, &record)?;
    Ok(())
}

/// The text of a word, which is empty for `-`.
fn text_of(word: &str) -> &str {
    if word == "-" { "" } else { word }
}

/// Adds the schema that a value shares that brings one along.
pub(crate) fn push_shared(alloc: Global, told: &mut String, asked: &str) -> Made<()> {
    let (brought, read) = cut(asked);
    let plain = value_of(alloc, "value")?;
    let value = plain.bringing(&Text::copy_of(alloc, text_of(brought))?)?;
    let shared = value.share(alloc, text_of(read))?;
    if value != plain || value.as_str() != "value" {
        told.push_str("another value, ")?;
    }
    told.push_str(if shared.as_str().is_empty() {
        "-"
    } else {
        shared.as_str()
    })
}

/// Adds what a log says of itself, or its fault.
pub(crate) fn push_log(alloc: Global, told: &mut String, log: &[u8]) -> Made<()> {
    match read_log(alloc, &mut Device::new(log)) {
        Ok(log) => {
            let records = log.records.len();
            write!(told, "floor {}, next {}, ", log.floor, log.next)?;
            write!(told, "records {records}, foreign {}", log.foreign)
        }
        Err(error) => write!(told, "{error}"),
    }
}

/// Adds the fault of a log, and what its reader has left.
pub(crate) fn push_rest(alloc: Global, told: &mut String, log: &[u8]) -> Made<()> {
    let mut reader = Device::new(log);
    match read_log(alloc, &mut reader) {
        Ok(_log) => told.push_str("no fault, ")?,
        Err(error) => write!(told, "{error}, ")?,
    }
    let rest = String::from_utf8_lossy(alloc, reader.into_inner())?;
    told.push_str(if rest.is_empty() {
        "nothing"
    } else {
        rest.as_str()
    })
}

/// Adds the line of a floor.
pub(crate) fn push_floor(alloc: Global, told: &mut String, asked: &str) -> Said<()> {
    let floor = number_of(asked)?;
    if floor > OFFSET_LIMIT {
        return Err(CaseError::NotUnderstood);
    }
    let line = write_floor(alloc, floor)?;
    Ok(told.push_str(String::from_utf8_lossy(alloc, &line)?.as_str())?)
}

/// Adds whether a line begins as one of a floor.
pub(crate) fn push_begins(told: &mut String, line: &[u8]) -> Made<()> {
    told.push_str(if is_floor_line(line) { "yes" } else { "no" })
}
