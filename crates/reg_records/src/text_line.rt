// Lines that are texts.
ghost use Rattle.std.specs.Prelude.{◌≡◌, ◌≤◌, ℕ, List, IfOk, IfErr, IfSome, MatchOption, MatchResult, OnOk, Ok, Err, Some, length, string_bytes};
ghost use Rattle.reg_records.specs.Device.{KeepsReads, bytes_in, faults_of, reads_of};
ghost use Rattle.reg_records.specs.Log.{ReadsFewTimes};
ghost use Rattle.reg_records.specs.Pieces.{Holds};
ghost use Rattle.reg_records.specs.TextLine.{after_front, front_text, text_in, IsTextRefusal};

use crate::device::Device;
use crate::limits::{LINE_LIMIT, LINE_READS};
use crate::line::LineError;
use crate::line_reader::{NextLine, take_line};
use crate::pieces::LineBuffer;
use base_text::Text;
use std::alloc::{AllocError, Global};
use std::io::BufRead;

/// An error of reading a line of text.
#[derive(Clone, Copy, Debug, PartialEq, Eq)]
pub enum TextLineError {
    /// The line's fault: `Truncated`, `TooLong` or `BadUtf8`.
    Line(LineError),
    /// The reader failed, or `LINE_READS` reads didn't complete the line.
    ReadFault,
    OutOfMemory,
}

impl From<AllocError> for TextLineError {
    ghost use Rattle.reg_records.specs.declared.text_line.TextLineError.TheVariants.{OutOfMemory};

    ghost from_gives = { λ _ e. e ≡ OutOfMemory };

    fn from(_refused: AllocError) -> TextLineError {
        TextLineError::OutOfMemory
    }
}

/// Reads the line at the front of `reader`, a UTF-8 text of at most `LINE_LIMIT` bytes before its
/// LF. What follows the LF stays unread.
///
/// A line past its limit is read to its LF, its bytes dropped, before its fault is reported. The
/// count of reads restarts.
pub fn read_text_line<R: BufRead>(
    alloc: Global,
    reader: &mut Device<R>,
) -> Result<Text, TextLineError>
    ensures text { IfOk result (λ text. IfSome (bytes_in R.remaining reader.old) (λ input.
        (front_text input ≡ Ok text) × (bytes_in R.remaining reader.new ≡ Some (after_front input)))) }
    ensures refused { IfErr result
        (IsTextRefusal reader.old reader.new (bytes_in R.remaining reader.old) (bytes_in R.remaining reader.new)) }
    ensures faults { OnOk result (faults_of reader.new ≡ faults_of reader.old) }
    ensures bound { reads_of reader.new ≤ LINE_READS }
    ensures reads { KeepsReads reader.old reader.new }
    ensures few { ReadsFewTimes reader.old reader.new 1 }
{
    let Some(next) = take_line(alloc, reader)? else {
        return Err(TextLineError::ReadFault);
    };
    match next {
        NextLine::End => Err(TextLineError::Line(LineError::Truncated)),
        NextLine::Unended => Err(TextLineError::Line(LineError::Truncated)),
        NextLine::Line(line) => match string_in(line) {
            Ok(string) => Ok(Text::of_string(string)?),
            Err(fault) => Err(TextLineError::Line(fault)),
        },
    }
}

/// Returns the text in a line that was taken.
fn string_in(line: LineBuffer) -> Result<String, LineError>
    ensures { (bytes : List ℕ) → Holds line bytes
        → MatchResult result
        (λ string. text_in bytes ≡ Ok (string_bytes string)) (λ fault. text_in bytes ≡ Err fault) }
{
    match line.into_bytes() {
        Some(bytes) => string_of(bytes),
        None => Err(LineError::TooLong),
    }
}

/// Returns the bytes as a text.
fn string_of(bytes: Vec<u8>) -> Result<String, LineError>
    ensures { MatchResult result
        (λ string. text_in bytes.items ≡ Ok (string_bytes string)) (λ fault. text_in bytes.items ≡ Err fault) }
{
    if bytes.len() > LINE_LIMIT {
        return Err(LineError::TooLong);
    }
    match String::from_utf8(bytes) {
        Ok(string) => Ok(string),
        Err(_) => Err(LineError::BadUtf8),
    }
}
