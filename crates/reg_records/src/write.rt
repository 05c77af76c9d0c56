// Written lines of a topic: `offset TAB key TAB value LF`.
ghost use Rattle.std.specs.Prelude.{◌≡◌, ◌↔◌, ◌++◌, ◌<◌, ◌≤◌, ℕ, List, [], ◌∷◌, Ok, IfOk, OnOk, IsErrOf, IsTrue, codes, decimal, length, string_bytes, unwrap_or};
ghost use Rattle.reg_records.specs.declared.record.Read.TheVariants as reads;
ghost use Rattle.std.specs.Option.{ForSome};
ghost use Rattle.reg_records.specs.Line.{line_of, reading_at_front};
ghost use Rattle.reg_records.specs.Written.{HasLine, IsValueField, line_text};

use crate::limits::{LINE_LIMIT, OFFSET_LIMIT};
use crate::line::{LineError, is_free_of};
use crate::record::Record;
use crate::value_text::ValueText;
use std::alloc::{AllocError, Global};
use std::error::Error;
use std::fmt;

/// An error of writing a line.
#[derive(Clone, Copy, Debug, PartialEq, Eq)]
pub enum WriteLineError {
    /// The line would have more than `LINE_LIMIT` bytes before its LF.
    TooLong,
    OutOfMemory,
}

impl fmt::Display for WriteLineError {
    ghost use Rattle.std.specs.Prelude.{Some};
    ghost use Rattle.reg_records.specs.Errors.{write_line_error_text};

    ghost output = { λ e. Some (write_line_error_text e) };

    fn fmt<W: fmt::Write>(&self, f: &mut fmt::Formatter<W>) -> fmt::Result {
        f.write_str(match self {
            WriteLineError::TooLong => LineError::TooLong.name(),
            WriteLineError::OutOfMemory => "out of memory",
        })
    }
}

impl Error for WriteLineError {}

impl From<AllocError> for WriteLineError {
    ghost use Rattle.reg_records.specs.declared.write.WriteLineError.TheVariants.{OutOfMemory};

    ghost from_gives = { λ _ e. e ≡ OutOfMemory };

    fn from(_refused: AllocError) -> WriteLineError {
        WriteLineError::OutOfMemory
    }
}

/// Returns whether a record can be written as a line: its offset and its version are within their
/// limits, and its value has no TAB and no LF and isn't the text `null`.
pub fn has_line(given: &Record) -> bool
    ensures { IsTrue result ↔ HasLine given.now }
{
    given.offset <= OFFSET_LIMIT && given.key.is_in_limits() && has_value_field(&given.value)
}

/// Writes the line of a record, with its LF; `read_line` gives the record back, whatever follows
/// the line.
///
/// The key is JSON (RFC 8259) without spaces, its members in a fixed order; no value is `null`.
/// Errors: `TooLong`, or out of memory.
pub fn write_line(alloc: Global, given: &Record) -> Result<Vec<u8>, WriteLineError>
    requires { HasLine given.now }
    ensures line { IfOk result (λ line. line.items ≡ line_text given.now ++ 10 ∷ []) }
    ensures reads_back { IfOk result
        (λ line. (rest : List ℕ) → reading_at_front (line.items ++ rest) ≡ Ok (reads.Record given.now)) }
    ensures within { OnOk result (length (line_text given.now) ≤ LINE_LIMIT) }
    ensures too_long { IsErrOf result WriteLineError.TooLong → LINE_LIMIT < length (line_text given.now) }
{
    let mut line = line_text(alloc, given)?;
    if line.len() > LINE_LIMIT {
        return Err(WriteLineError::TooLong);
    }
    line.push('\n')?;
    Ok(line.into_bytes())
}

fn line_text(alloc: Global, given: &Record) -> Result<String, AllocError>
    ensures { IfOk result (λ line. string_bytes line ≡ line_text given.now) }
{
    let key = given.key.written(alloc)?;
    joined(alloc, given.offset, key.as_str(), value_field(&given.value))
}

/// Returns the text of a value, or `null` if there is none.
fn value_field(value: &Option<ValueText>) -> &str
    ensures { result.now ≡ unwrap_or value.now (codes "null") }
{
    match value {
        Some(text) => text.as_str(),
        None => "null",
    }
}

fn joined(alloc: Global, offset: u64, key: &str, value: &str) -> Result<String, AllocError>
    ensures { IfOk result (λ line. string_bytes line ≡ line_of (decimal offset) key.now value.now) }
{
    format!(in alloc; "{offset}\t{key}\t{value}")
}

fn has_value_field(value: &Option<ValueText>) -> bool
    ensures { IsTrue result ↔ ForSome value.now IsValueField }
{
    match value {
        Some(text) => is_value_field(text.as_str()),
        None => true,
    }
}

fn is_value_field(text: &str) -> bool
    ensures { IsTrue result ↔ IsValueField text.now }
{
    let bytes = text.as_bytes();
    is_free_of(bytes, b'\t') && is_free_of(bytes, b'\n') && text != "null"
}
