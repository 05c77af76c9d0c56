// Lines of a topic: `offset TAB key TAB value LF`.
ghost use Rattle.std.specs.Prelude.{◌≡◌, ◌≤◌, ◌==◌, ℕ, List, [], ◌∷◌, ◌++◌, length, true, false, IfOk, IfErr, IfSome, Ok, Err, MatchOption, MatchResult, position};
ghost use Rattle.std.specs.Char.{is_ascii_digit};
ghost use Rattle.std.specs.List.{list_all, slice_split};
ghost use Rattle.std.specs.Str.{is_utf8};
ghost use Rattle.reg_records.specs.Log.{offset_in};
ghost use Rattle.reg_records.specs.Pieces.{HasNoLineFeed};
ghost use Rattle.reg_records.specs.Line.{is_line_feed, is_tab, is_free_of, is_decimal, offset_of, read_at, reading_of, reading, reading_at_front, IsFaultOf, Spells};
ghost use Rattle.reg_records.specs.declared.record.Read.{Read};

use crate::key::key_of;
use crate::limits::{LINE_LIMIT, OFFSET_LIMIT};
use crate::record::{Read, Record};
use crate::value_text::ValueText;
use base_text::Text;
use std::alloc::{AllocError, Global};
use std::error::Error;
use std::fmt;

/// A fault of a line. Of several, the first in this order is reported.
#[derive(Clone, Copy, Debug, PartialEq, Eq)]
pub enum LineError {
    /// The input ends before the line's LF.
    Truncated,
    /// More than `LINE_LIMIT` bytes stand before the LF.
    TooLong,
    /// The line isn't UTF-8.
    BadUtf8,
    /// The line doesn't have exactly two TABs.
    BadTabs,
    /// The offset isn't in decimal digits without a leading zero, or is past its limit.
    BadOffset,
}

/// An error of reading a line.
#[derive(Clone, Copy, Debug, PartialEq, Eq)]
pub enum ReadLineError {
    Line(LineError),
    OutOfMemory,
}

impl LineError {
    ghost use Rattle.reg_records.specs.Errors.{line_error_name};

    /// Returns the fault's name, as it is reported.
    pub fn name(self) -> &'static str
        ensures { result.now ≡ line_error_name self }
    {
        match self {
            LineError::Truncated => "Truncated",
            LineError::TooLong => "TooLong",
            LineError::BadUtf8 => "BadUtf8",
            LineError::BadTabs => "BadTabs",
            LineError::BadOffset => "BadOffset",
        }
    }
}

impl fmt::Display for LineError {
    ghost use Rattle.std.specs.Prelude.{Some};
    ghost use Rattle.reg_records.specs.Errors.{line_error_name};

    ghost output = { λ e. Some (line_error_name e) };

    fn fmt<W: fmt::Write>(&self, f: &mut fmt::Formatter<W>) -> fmt::Result {
        f.write_str(self.name())
    }
}

impl Error for LineError {}

impl fmt::Display for ReadLineError {
    ghost use Rattle.std.specs.Prelude.{Some};
    ghost use Rattle.reg_records.specs.Errors.{read_line_error_text};

    ghost output = { λ e. Some (read_line_error_text e) };

    fn fmt<W: fmt::Write>(&self, f: &mut fmt::Formatter<W>) -> fmt::Result {
        f.write_str(match self {
            ReadLineError::Line(e) => e.name(),
            ReadLineError::OutOfMemory => "out of memory",
        })
    }
}

impl Error for ReadLineError {}

impl From<LineError> for ReadLineError {
    ghost use Rattle.reg_records.specs.declared.line.ReadLineError.TheVariants.{Line};

    ghost from_gives = { λ fault e. e ≡ Line fault };

    fn from(fault: LineError) -> ReadLineError {
        ReadLineError::Line(fault)
    }
}

impl From<AllocError> for ReadLineError {
    ghost use Rattle.reg_records.specs.declared.line.ReadLineError.TheVariants.{OutOfMemory};

    ghost from_gives = { λ _ e. e ≡ OutOfMemory };

    fn from(_refused: AllocError) -> ReadLineError {
        ReadLineError::OutOfMemory
    }
}

/// Reads the line at the front of `bytes`, up to its LF; what follows isn't looked at.
///
/// The line is `offset TAB key TAB value` in UTF-8: the offset in decimal digits without a leading
/// zero, the key and the value as JSON (RFC 8259), with `null` for no value. A key of no known kind
/// gives [`Read::Foreign`]. Errors: the line's fault, or out of memory.
pub fn read_line(alloc: Global, bytes: &[u8]) -> Result<Read, ReadLineError>
    ensures record { IfOk result (λ read. reading_at_front bytes.now ≡ Ok read) }
    ensures fault { IfErr result (IsFaultOf (reading_at_front bytes.now)) }
    ensures at_once { (fault : LineError) → reading_at_front bytes.now ≡ Err fault → result ≡ Err (ReadLineError.Line fault) }
{
    match line_len(bytes) {
        Some(end) => read_whole_line(alloc, &bytes[..end]),
        None => Err(ReadLineError::Line(LineError::Truncated)),
    }
}

/// Returns the number of bytes before the first LF; `None` if there is no LF.
pub fn line_len(bytes: &[u8]) -> Option<usize>
    ensures place { result ≡ position is_line_feed bytes.now }
    ensures parts { MatchOption result (HasNoLineFeed bytes.now) (λ len. (line : List ℕ) × (rest : List ℕ)
        × (bytes.now ≡ line ++ 10 ∷ rest) × HasNoLineFeed line × (len ≡ length line)) }
{
    first_line_feed(bytes)
}

fn first_line_feed(bytes: &[u8]) -> Option<usize>
    ensures { result ≡ position is_line_feed bytes.now }
{
    bytes.iter().position(|b| *b == b'\n')
}

/// Reads a line without its LF.
pub(crate) fn read_whole_line(alloc: Global, line: &[u8]) -> Result<Read, ReadLineError>
    ensures record { IfOk result (λ read. reading line.now ≡ Ok read) }
    ensures fault { IfErr result (IsFaultOf (reading line.now)) }
    ensures at_once { (fault : LineError) → reading line.now ≡ Err fault → result ≡ Err (ReadLineError.Line fault) }
    ensures within { IfOk result (λ read. offset_in read ≤ OFFSET_LIMIT) }
{
    match parts_of(line) {
        Ok((offset, key, value)) => Ok(read_at(alloc, offset, key, value)?),
        Err(fault) => Err(ReadLineError::Line(fault)),
    }
}

/// Splits a line without its LF into offset, key and value.
fn parts_of(line: &[u8]) -> Result<(u64, &str, &str), LineError>
    ensures parts { MatchResult result
        (λ parts. reading line.now ≡ Ok (read_at parts.0 parts.1.now parts.2.now)) (λ fault. reading line.now ≡ Err fault) }
    ensures within { IfOk result (λ parts. parts.0 ≤ OFFSET_LIMIT) }
{
    if line.len() > LINE_LIMIT {
        return Err(LineError::TooLong);
    }
    let Some(text) = text_of(line) else {
        return Err(LineError::BadUtf8);
    };
    let Some((offset, key, value)) = fields_of(text) else {
        return Err(LineError::BadTabs);
    };
    match offset_of(offset) {
        Some(offset) => Ok((offset, key, value)),
        None => Err(LineError::BadOffset),
    }
}

/// Returns the bytes as a text; `None` if they aren't UTF-8.
pub(crate) fn text_of(line: &[u8]) -> Option<&str>
    ensures { MatchOption result (is_utf8 line.now ≡ false)
        (λ text. (is_utf8 line.now ≡ true) × (text.now ≡ line.now)) }
{
    match str::from_utf8(line) {
        Ok(text) => Some(text),
        Err(_) => None,
    }
}

/// Splits a line at its TABs; `None` unless there are exactly two.
fn fields_of(text: &str) -> Option<(&str, &str, &str)>
    ensures { MatchOption result (reading_of (slice_split is_tab text.now) ≡ Err LineError.BadTabs)
        (λ fields. slice_split is_tab text.now ≡ fields.0.now ∷ fields.1.now ∷ fields.2.now ∷ []) }
{
    let (offset, rest) = text.split_once('\t')?;
    let (key, value) = rest.split_once('\t')?;
    if is_free_of(value.as_bytes(), b'\t') {
        Some((offset, key, value))
    } else {
        None
    }
}

/// Returns whether no byte is that one.
pub(crate) fn is_free_of(bytes: &[u8], byte: u8) -> bool
    ensures { result ≡ is_free_of (λ b. b == byte) bytes.now }
{
    !bytes.contains(&byte)
}

/// Parses an offset: decimal digits without a leading zero, except `0` itself. `None` past
/// `OFFSET_LIMIT` and for any other text.
pub fn offset_of(field: &str) -> Option<u64>
    ensures value { result ≡ offset_of field.now }
    ensures within { IfSome result (λ offset. offset ≤ OFFSET_LIMIT) }
{
    if !is_decimal(field) {
        return None;
    }
    match field.parse::<u64>() {
        Ok(offset) if offset <= OFFSET_LIMIT => Some(offset),
        _ => None,
    }
}

/// Returns whether a field is decimal digits without a leading zero, except `0` itself.
fn is_decimal(field: &str) -> bool
    ensures { result ≡ is_decimal field.now }
{
    let digits = field.as_bytes();
    if digits.is_empty() || (digits.len() > 1 && digits[0] == b'0') {
        return false;
    }
    has_only_digits(digits)
}

/// Returns whether each byte is an ASCII digit; true if there is no byte.
pub fn has_only_digits(bytes: &[u8]) -> bool
    ensures { result ≡ list_all is_ascii_digit bytes.now }
{
    bytes.iter().all(|b| b.is_ascii_digit())
}

fn read_at(alloc: Global, offset: u64, key: &str, value: &str) -> Result<Read, AllocError>
    ensures record { IfOk result (λ read. read ≡ read_at offset key.now value.now) }
    ensures offset { IfOk result (λ read. offset_in read ≡ offset) }
{
    let Some(key) = key_of(alloc, key)? else {
        return Ok(Read::Foreign(offset));
    };
    let value = match value {
        "null" => None,
        text => Some(ValueText::from(Text::copy_of(alloc, text)?)),
    };
    Ok(Read::Record(Record { offset, key, value }))
}

/// Proves that the lines that can be read are those of the grammar, and that each is read as its
/// fields say.
pub fn lines_are_of_the_grammar()
    ensures read { (line : List ℕ) (read : Read) → reading line ≡ Ok read → Spells line read }
    ensures spelled { (line : List ℕ) (read : Read) → Spells line read → reading line ≡ Ok read }
{}
