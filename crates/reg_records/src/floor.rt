// Floors: the first line of a log may be `floor TAB offset LF`.
ghost use Rattle.std.specs.Prelude.{◌≡◌, ◌≤◌, ◌++◌, ℕ, List, [], ◌∷◌, true, false, IfOk, Ok, codes, decimal, string_bytes};
ghost use Rattle.std.specs.List.{slice_split};
ghost use Rattle.reg_records.specs.Floor.{floor_reading, floor_text, is_floor_line};
ghost use Rattle.reg_records.specs.Line.{is_line_feed, reading};
ghost use Rattle.reg_records.specs.Log.{floor_then, log_from, log_of};
ghost use Rattle.reg_records.specs.Pieces.{HasNoLineFeed};
ghost use Rattle.reg_records.specs.declared.record.Read.{Read};

use crate::limits::{LINE_LIMIT, OFFSET_LIMIT};
use crate::line::{LineError, offset_of, text_of};
use crate::log::LogFault;
use std::alloc::{AllocError, Global};

/// The beginning of a floor line.
const FLOOR_MARK: &[u8] = b"floor\t";

/// Returns whether a line, or a text by its first line, begins with `floor TAB`.
pub fn is_floor_line(line: &[u8]) -> bool
    ensures { result ≡ is_floor_line line.now }
{
    line.starts_with(FLOOR_MARK)
}

/// Reads the offset in a floor line, without its LF.
///
/// Errors, of which the first that applies is reported: `TooLong`; `BadUtf8`; `BadFloor` if no
/// offset within the limit follows the TAB.
pub fn read_floor(line: &[u8]) -> Result<u64, LogFault>
    requires { is_floor_line line.now ≡ true }
    ensures { result ≡ floor_reading line.now }
{
    if line.len() > LINE_LIMIT {
        return Err(LogFault::Line(LineError::TooLong));
    }
    let Some(field) = text_of(&line[FLOOR_MARK.len()..]) else {
        return Err(LogFault::Line(LineError::BadUtf8));
    };
    match offset_of(field) {
        Some(floor) => Ok(floor),
        None => Err(LogFault::BadFloor),
    }
}

/// Writes a floor line, `floor TAB offset LF`: a log that begins with it has that floor. The only
/// error is out of memory.
pub fn write_floor(alloc: Global, floor: u64) -> Result<Vec<u8>, AllocError>
    requires { floor ≤ OFFSET_LIMIT }
    ensures line { IfOk result (λ line. line.items ≡ floor_text floor ++ 10 ∷ []) }
    ensures reads_back { IfOk result
        (λ line. (rest : List ℕ) → log_of (line.items ++ rest) ≡ floor_then (Ok floor) (log_from 2 (slice_split is_line_feed rest))) }
{
    Ok(format!(in alloc; "floor\t{floor}\n")?.into_bytes())
}

/// Proves that floor lines are those of the grammar, that each is one line, and that no other line
/// that can be read begins so.
pub fn floors_are_of_the_grammar()
    ensures read { (line : List ℕ) (floor : ℕ) → is_floor_line line ≡ true → floor_reading line ≡ Ok floor
        → (line ≡ floor_text floor) × (floor ≤ OFFSET_LIMIT) }
    ensures written { (floor : ℕ) → floor ≤ OFFSET_LIMIT
        → (is_floor_line (floor_text floor) ≡ true) × (floor_reading (floor_text floor) ≡ Ok floor) }
    ensures one_line { (floor : ℕ) → floor ≤ OFFSET_LIMIT → HasNoLineFeed (floor_text floor) }
    ensures text { (line rest : List ℕ) → is_floor_line (line ++ 10 ∷ rest) ≡ is_floor_line line }
    ensures apart { (line : List ℕ) (read : Read) → reading line ≡ Ok read → is_floor_line line ≡ false }
{}
