// One line of a text.
ghost use Rattle.std.specs.Prelude.{◌≡◌, ◌≤◌, ◌<◌, ◌+◌, ◌++◌, ◌∷◌, ℕ, List, Ok, Some, IfOk, IfSome, count_by, length};
ghost use Rattle.reg_records.specs.Line.{is_line_feed, reading};
ghost use Rattle.reg_records.specs.Pieces.{HasNoLineFeed};
ghost use Rattle.reg_records.specs.declared.record.Read.{Read};
ghost use Rattle.reg_compaction.specs.Fronts.{floor_len};

use reg_records::{Read, ReadLineError, is_floor_line, line_len, read_line};
use std::alloc::{AllocError, Global};

/// Reads the line at the front of a text: returns its length in bytes, with its LF, and what it
/// says; `None` if it has no LF or a fault. The only error is out of memory.
pub fn line_at(alloc: Global, text: &[u8]) -> Result<Option<(usize, Read)>, AllocError>
    ensures some { IfOk result (λ found. IfSome found (λ it. 0 < it.0)) }
    ensures within { IfOk result (λ found. IfSome found (λ it. it.0 ≤ length text.now)) }
    ensures line { (line more : List ℕ) (read : Read) → text.now ≡ line ++ 10 ∷ more → HasNoLineFeed line → reading line ≡ Ok read
        → IfOk result (λ found. found ≡ Some (length line + 1, read)) }
{
    let Some(end) = line_len(text) else {
        return Ok(None);
    };
    match read_line(alloc, text) {
        Ok(read) => Ok(Some((end + 1, read))),
        Err(ReadLineError::Line(_)) => Ok(None),
        Err(ReadLineError::OutOfMemory) => Err(AllocError),
    }
}

/// Returns the length in bytes of the line that says a log's floor, with its LF; 0 if the first
/// line says none.
pub fn floor_len(log: &[u8]) -> usize
    ensures len { result ≡ floor_len log.now }
    ensures within { result ≤ length log.now }
{
    if !is_floor_line(log) {
        return 0;
    }
    match line_len(log) {
        Some(end) => end + 1,
        None => 0,
    }
}

/// Returns how many LFs a text has.
pub(crate) fn count_lines(text: &[u8]) -> u64
    ensures { result ≡ count_by is_line_feed text.now }
{
    let mut count: u64 = 0;
    for b in text {
        if *b == b'\n' {
            count += 1;
        }
    }
    count
}
