// The line at the front of a text.
ghost use Rattle.std.specs.Prelude.{◌≡◌, ◌≤◌, ◌+◌, ◌∷◌, ℕ, List, IfErr, IfOk, MatchOption};
ghost use Rattle.reg_tail.specs.Line.{IsFront, IsPieceRefusal};

use crate::error::TailError;
use reg_records::{LOG_LINES, LineError, LogFault, Read, ReadLineError, line_len, read_line};
use std::alloc::Global;

/// Reads the line of that number at the front of a text. Returns its length in bytes, with its LF,
/// and what it says; `None` at an empty line.
pub(crate) fn line_at(
    alloc: Global,
    number: u64,
    text: &[u8],
) -> Result<Option<(usize, Read)>, TailError>
    requires { number ≤ LOG_LINES + 1 }
    ensures line { IfOk result (λ found. MatchOption found
        ((behind : List ℕ) × (text.now ≡ 10 ∷ behind)) (λ it. IsFront number text.now it.0 it.1)) }
    ensures refused { IfErr result (IsPieceRefusal number text.now) }
{
    if text.is_empty() {
        return Err(TailError::NoEmptyLine);
    }
    if text[0] == b'\n' {
        return Ok(None);
    }
    if number > LOG_LINES {
        return Err(fault_at(number, LogFault::TooManyLines));
    }
    let Some(end) = line_len(text) else {
        return Err(fault_at(number, LogFault::Line(LineError::Truncated)));
    };
    match read_line(alloc, text) {
        Ok(read) => Ok(Some((end + 1, read))),
        Err(ReadLineError::Line(fault)) => Err(fault_at(number, LogFault::Line(fault))),
        Err(ReadLineError::OutOfMemory) => Err(TailError::OutOfMemory),
    }
}

fn fault_at(line: u64, fault: LogFault) -> TailError
    ensures { result ≡ TailError.Line line fault }
{
    TailError::Line { line, fault }
}
