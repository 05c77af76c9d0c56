// The lines of a text in the order of their offsets.
ghost use Rattle.std.specs.Prelude.{◌≡◌, ◌↔◌, ◌≤◌, ◌++◌, ℕ, List, All, IsTrue, IfErr, IfOk, OnOk, length, map};
ghost use Rattle.std.specs.List.Sorted.{IsNonDecreasingBy, IsPermutation};
ghost use Rattle.std.specs.Option.{option_map_or};
ghost use Rattle.reg_journal.specs.Found.{HasFault};
ghost use Rattle.reg_journal.specs.Lines.{Say, SaysFloor, text_of};
ghost use Rattle.reg_records.specs.declared.record.Read.{Read};
ghost use Rattle.reg_records.specs.declared.limits.TheConstants.{OFFSET_LIMIT};
ghost use Rattle.reg_compaction.specs.CompactedTo.{IsToFloorRefusal};
ghost use Rattle.reg_compaction.specs.Sorted.{HasOffset, IsSortedCompaction, IsSortedCompactionTo, Reorders};

use crate::compacting::compacted;
use crate::cutting::{floor_len, line_at};
use crate::to_floor::{ToFloorError, compacted_to};
use reg_journal::lines_are_logs;
use reg_records::LogError;
use reg_set::records_are_ordered;
use std::alloc::{AllocError, Global};

/// A line without its LF, and its offset.
#[derive(Clone, Copy)]
pub(crate) struct Piece<'a> {
    pub offset: u64,
    pub line: &'a [u8],
}

/// Compacts a log at its own floor, as `compacted` does, and puts its lines in the order of their
/// offsets, behind the floor's line.
pub fn compacted_in_order(alloc: Global, log: &[u8]) -> Result<Vec<u8>, LogError>
    ensures compacted { IfOk result (λ text. IsSortedCompaction log.now text.items) }
    ensures fault { IfErr result (HasFault log.now) }
{
    lines_are_logs();
    records_are_ordered();
    let text = compacted(alloc, log)?;
    Ok(in_order(alloc, text)?)
}

/// Compacts a log to a floor, as `compacted_to` does, and puts its lines in the order of their
/// offsets, behind the floor's line.
pub fn compacted_to_in_order(alloc: Global, log: &[u8], floor: u64) -> Result<Vec<u8>, ToFloorError>
    requires { floor ≤ OFFSET_LIMIT }
    ensures compacted { IfOk result (λ text. IsSortedCompactionTo floor log.now text.items) }
    ensures refused { IfErr result (IsToFloorRefusal log.now floor) }
{
    lines_are_logs();
    records_are_ordered();
    let text = compacted_to(alloc, log, floor)?;
    Ok(in_order(alloc, text)?)
}

/// A text with its lines in the order of their offsets, behind a floor's.
fn in_order(alloc: Global, text: Vec<u8>) -> Result<Vec<u8>, AllocError>
    ensures { (front lines : List (List ℕ)) (floor : ℕ) (read : List Read) → text.items ≡ text_of (front ++ lines) → SaysFloor front floor → Say lines read
        → IfOk result (λ sorted. Reorders front lines sorted.items) }
{
    match reordered(alloc, &text)? {
        Some(sorted) => Ok(sorted),
        None => Ok(text),
    }
}

/// The lines of a text in the order of their offsets, behind a floor's, unless they stand so already.
fn reordered(alloc: Global, text: &[u8]) -> Result<Option<Vec<u8>>, AllocError>
    ensures { (front lines : List (List ℕ)) (floor : ℕ) (read : List Read) → text.now ≡ text_of (front ++ lines) → SaysFloor front floor → Say lines read
        → IfOk result (λ found. Reorders front lines (option_map_or (λ v. v.items) found text.now)) }
{
    let (front, lines) = text.split_at(floor_len(text));
    let mut pieces = pieces_of(alloc, lines, lines.len())?;
    if rise(&pieces) {
        return Ok(None);
    }
    sort(&mut pieces)?;
    Ok(Some(joined(alloc, front, &pieces)?))
}

/// The lines of a text of no more bytes than that.
fn pieces_of<'a>(alloc: Global, text: &'a [u8], count: usize) -> Result<Vec<Piece<'a>>, AllocError>
    ensures { (lines : List (List ℕ)) (read : List Read) → length text.now ≤ count → text.now ≡ text_of lines → Say lines read
        → IfOk result (λ pieces. (map (λ p. p.line.now) pieces.items ≡ lines) × All HasOffset pieces.items) }
{
    let mut pieces = Vec::new(alloc);
    let mut rest = text;
    for _line in 0..count {
        let Some((len, read)) = line_at(alloc, rest)? else {
            return Ok(pieces);
        };
        pieces.push(Piece {
            offset: read.offset(),
            line: &rest[..len - 1],
        })?;
        rest = &rest[len..];
    }
    Ok(pieces)
}

/// Whether the offsets don't fall.
fn rise(pieces: &[Piece<'_>]) -> bool
    ensures { IsTrue result ↔ IsNonDecreasingBy (λ p. p.offset) pieces.now }
{
    pieces.is_sorted_by_key(|piece| piece.offset)
}

fn sort(pieces: &mut Vec<Piece<'_>>) -> Result<(), AllocError>
    ensures permutation { IsPermutation pieces.old.items pieces.new.items }
    ensures sorted { OnOk result (IsNonDecreasingBy (λ p. p.offset) pieces.new.items) }
{
    pieces.sort_by_key(|piece| piece.offset)?;
    Ok(())
}

/// The lines behind that front, each with its LF.
fn joined(alloc: Global, front: &[u8], pieces: &[Piece<'_>]) -> Result<Vec<u8>, AllocError>
    ensures { IfOk result (λ text. text.items ≡ front.now ++ text_of (map (λ p. p.line.now) pieces.now)) }
{
    let mut text = front.to_vec(alloc)?;
    for piece in pieces {
        text.extend_from_slice(piece.line)?;
        text.push(b'\n')?;
    }
    Ok(text)
}
