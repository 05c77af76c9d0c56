// The lines of a log below an offset.
ghost use Rattle.std.specs.Prelude.{◌≡◌, ◌≤◌, ◌+◌, ◌++◌, ◌∷◌, [], ℕ, List, Ok, Some, IfOk, IfSome, OnOk, length};
ghost use Rattle.reg_journal.specs.Lines.{text_of};
ghost use Rattle.reg_fold.specs.reg_records.Log.{IsLogOf, LogText, log_of};
ghost use Rattle.reg_fold.specs.reg_records.declared.record.Read.{Read};
ghost use Rattle.reg_compaction.specs.Fronts.{Front, HasLines};
ghost use Rattle.reg_base.specs.Base.{is_below, lines_below, log_below};

use reg_compaction::{floor_len, line_at};
use reg_fold::reg_records::{Log, Read};
use reg_journal::lines_are_logs;
use std::alloc::{AllocError, Global};

/// Returns the lines of a text below an offset, behind its floor's line. `log` was read from the
/// text.
pub(crate) fn part_below(
    alloc: Global,
    text: &[u8],
    log: &Log,
    below: u64,
) -> Result<Vec<u8>, AllocError>
    ensures { (found : LogText) → log_of text.now ≡ Ok found → IsLogOf found.floor found.reads log.now
        → IfOk result (λ part. log_of part.items ≡ Ok (log_below below found)) }
{
    lines_are_logs();
    let count = (log.records.len() as u64).saturating_add(log.foreign);
    let (front, lines) = text.split_at(floor_len(text));
    let mut part = front.to_vec(alloc)?;
    push_below(alloc, &mut part, lines, count, below)?;
    Ok(part)
}

/// Adds those of the first `count` lines of a text that are below the offset.
fn push_below(
    alloc: Global,
    part: &mut Vec<u8>,
    text: &[u8],
    count: u64,
    below: u64,
) -> Result<(), AllocError>
    ensures { (lines : List (List ℕ)) (read : List Read) → HasLines text.now lines read count
        → OnOk result (part.new.items ≡ part.old.items ++ text_of (lines_below below lines read)) }
{
    let mut rest = text;
    for _line in 0..count {
        let Some(len) = push_front(alloc, part, rest, below)? else {
            return Ok(());
        };
        rest = &rest[len..];
    }
    Ok(())
}

/// Adds the line at the front of a text if it is below the offset. Returns its length in bytes,
/// with its LF; `None` if it has a fault.
fn push_front(
    alloc: Global,
    part: &mut Vec<u8>,
    text: &[u8],
    below: u64,
) -> Result<Option<usize>, AllocError>
    ensures within { IfOk result (λ len. IfSome len (λ n. n ≤ length text.now)) }
    ensures pushed { (f : Front text.now) → IfOk result (λ len. (len ≡ Some (length f.line + 1))
        × (part.new.items ≡ part.old.items ++ text_of (lines_below below (f.line ∷ []) (f.read ∷ [])))) }
{
    let Some((len, read)) = line_at(alloc, text)? else {
        return Ok(None);
    };
    if is_below(below, &read) {
        part.extend_from_slice(&text[..len])?;
    }
    Ok(Some(len))
}

/// Returns whether what a line says is below the offset.
fn is_below(below: u64, read: &Read) -> bool
    ensures { result ≡ is_below below read.now }
{
    match read {
        Read::Record(record) => record.offset < below,
        Read::Foreign(offset) => *offset < below,
    }
}
