// The line that says where a log ends, behind its empty line.
ghost use Rattle.std.specs.Prelude.{◌≡◌, ◌++◌, ◌∷◌, List, ℕ, Ok, Some, true, IfErr, IfOk, OnOk};
ghost use Rattle.std.specs.Io.KnownBytes.{Appends};
ghost use Rattle.reg_journal.specs.Found.{HasFault};
ghost use Rattle.reg_records.specs.Log.{LogText, log_of};
ghost use Rattle.reg_compaction.specs.Filter.{IsFilterRefusal, IsFlushed, IsNoReading};
ghost use Rattle.reg_compaction.specs.Whole.{IsNotCut, end_line, end_of, is_end, whole_text};

use crate::filter::{FilterError, filter_error, write_output};
use reg_journal::lines_are_logs;
use reg_records::{Device, LogError, Output, read_log};
use std::alloc::{AllocError, AllocFailed, Global};

/// The beginning of a line that says where a log ends.
const END_MARK: &[u8] = b"end ";

/// An LF and that beginning.
const LINE_MARK: &[u8] = b"\nend ";

/// Writes a log, which must have no empty line yet, then an empty line, and then `end COUNT NEXT`:
/// the number of its lines without the floor's, and its next offset. Flushes the writer.
pub fn write_whole_log<W: Output>(
    alloc: Global,
    log: Vec<u8>,
    writer: &mut W,
) -> Result<(), FilterError>
    ensures written { OnOk result ((found : LogText) × (log_of log.items ≡ Ok found)
        × Appends (W.contents writer.old) (W.contents writer.new) (whole_text log.items found)) }
    ensures flushed { OnOk result (IsFlushed W.contents W.flushes writer.new) }
    ensures refused { IfErr result (IsFilterRefusal (Some log.items) (W.contents writer.old) (W.contents writer.new)) }
{
    match with_end(alloc, log) {
        Ok(text) => write_output(writer, &text),
        Err(e) => Err(filter_error(e)),
    }
}

/// Returns whether the bytes behind a log's empty line are a line that says where the log ends.
pub fn is_end(behind: &[u8]) -> bool
    ensures { result ≡ is_end behind.now }
{
    behind.starts_with(END_MARK)
}

/// Checks the line that says where a log ends, behind the log's empty line. Returns `Cut` if it
/// says another end than the log has; a text without such a line passes. Also returns a fault of
/// the log that it meets.
pub fn check_end(alloc: Global, text: &[u8]) -> Result<(), FilterError>
    ensures not_cut { OnOk result (IsNotCut text.now) }
    ensures refused { IfErr result (IsNoReading (Some text.now)) }
{
    lines_are_logs();
    if !has_end(text) {
        return Ok(());
    }
    match found_end(alloc, text) {
        Ok((behind, end)) => {
            if is_end(behind) && behind != end.as_slice() {
                Err(FilterError::Cut)
            } else {
                Ok(())
            }
        }
        Err(e) => Err(filter_error(e)),
    }
}

/// Returns whether some line behind the first may be one that says where a log ends. Looks at the
/// bytes alone.
fn has_end(text: &[u8]) -> bool
    ensures { (front behind : List ℕ) → text.now ≡ front ++ 10 ∷ behind → is_end behind ≡ true → result ≡ true }
{
    for place in 0..text.len() {
        if text[place..].starts_with(LINE_MARK) {
            return true;
        }
    }
    false
}

/// Appends an empty line and the line that says where the log ends.
fn with_end(alloc: Global, log: Vec<u8>) -> Result<Vec<u8>, LogError>
    ensures whole { IfOk result (λ text. (found : LogText) × (log_of log.items ≡ Ok found) × (text.items ≡ whole_text log.items found)) }
    ensures fault { IfErr result (HasFault log.items) }
{
    let (_behind, end) = found_end(alloc, &log)?;
    Ok(joined(log, end)?)
}

/// Joins a log, an empty line, and what follows it.
fn joined(log: Vec<u8>, end: Vec<u8>) -> Result<Vec<u8>, AllocError>
    ensures { IfOk result (λ text. text.items ≡ log.items ++ 10 ∷ end.items) }
{
    let mut text = log;
    text.push(b'\n')?;
    text.extend_from_slice(&end)?;
    Ok(text)
}

/// Reads a log. Returns what is behind its empty line, and the right line for where it ends.
fn found_end<'a>(alloc: Global, text: &'a [u8]) -> Result<(&'a [u8], Vec<u8>), LogError>
    ensures found { IfOk result (λ it. (log : LogText) × (log_of text.now ≡ Ok log) × (it.0.now ≡ log.rest) × (it.1.items ≡ end_of log)) }
    ensures fault { IfErr result (HasFault text.now) }
{
    lines_are_logs();
    let mut reader = Device::new(text);
    let log = read_log(alloc, &mut reader)?;
    let behind = reader.into_inner();
    let records = log.records.len() as u64 + log.foreign;
    let end = end_line(alloc, records, log.next)?;
    Ok((behind, end))
}

/// Returns the line that says where a log ends, with its LF: `end RECORDS NEXT`.
fn end_line(alloc: Global, records: u64, next: u64) -> Result<Vec<u8>, AllocError>
    ensures { IfOk result (λ line. line.items ≡ end_line records next) }
{
    Ok(format!(in alloc; "end {records} {next}\n")?.into_bytes())
}
