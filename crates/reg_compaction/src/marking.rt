// Compactions with the mark of ids that their log lacks.
ghost use Rattle.std.specs.Prelude.{◌≡◌, ◌≤◌, Ok, Some, IfErr, IfOk, IfSome, option_map};
ghost use Rattle.reg_journal.specs.Found.{HasFault};
ghost use Rattle.reg_records.specs.Log.{LogText, log_of, records_in};
ghost use Rattle.reg_records.specs.Written.{HasLine};
ghost use Rattle.reg_records.specs.declared.limits.TheConstants.{NUMBER_LIMIT, OFFSET_LIMIT};
ghost use Rattle.reg_compaction.specs.CompactedTo.{IsToFloorRefusal};
ghost use Rattle.reg_compaction.specs.Marked.{IsMarkedCompaction, IsMarkedCompactionTo, IsWithMark, dropped_mark, dropped_offset, greater_of, kept_by, mark_in};

use crate::compacting::{compacted, lasts_of};
use crate::cutting::count_lines;
use crate::lacking::{mark_at, unmarked_id};
use crate::sorting::{compacted_in_order, compacted_to_in_order};
use crate::to_floor::{ToFloorError, compacted_to, lasts_to};
use reg_records::{Device, LOG_LINES, LogError, OFFSET_LIMIT, Record, read_log, write_line};
use reg_set::LastRecords;
use std::alloc::{AllocError, Global};

/// Makes what compacting leaves of a log, with its lines in the order of their offsets, behind the line of its floor. If
/// the log has no mark of ids and names some, a mark of the greatest is written at the greatest offset of the records that
/// are dropped; if none is, no mark is written.
pub fn compacted_with_mark(alloc: Global, log: &[u8]) -> Result<Vec<u8>, LogError>
    ensures compacted { IfOk result (λ text. IsMarkedCompaction log.now text.items) }
    ensures fault { IfErr result (HasFault log.now) }
{
    let Some(mark) = dropped_mark(alloc, log, None)? else {
        return compacted_in_order(alloc, log);
    };
    let plain = compacted(alloc, log)?;
    match with_mark(alloc, plain, &mark)? {
        Some(text) => Ok(text),
        None => compacted_in_order(alloc, log),
    }
}

/// Does the same where the log is compacted to a floor.
pub fn compacted_to_with_mark(
    alloc: Global,
    log: &[u8],
    floor: u64,
) -> Result<Vec<u8>, ToFloorError>
    requires { floor ≤ OFFSET_LIMIT }
    ensures compacted { IfOk result (λ text. IsMarkedCompactionTo floor log.now text.items) }
    ensures refused { IfErr result (IsToFloorRefusal log.now floor) }
{
    let Some(mark) = dropped_mark(alloc, log, Some(floor))? else {
        return compacted_to_in_order(alloc, log, floor);
    };
    let plain = compacted_to(alloc, log, floor)?;
    match with_mark(alloc, plain, &mark)? {
        Some(text) => Ok(text),
        None => compacted_to_in_order(alloc, log, floor),
    }
}

/// Adds a mark to a compaction, whose lines are in the order of their offsets then; `None` if the compaction has as many
/// lines as a log may have.
fn with_mark(alloc: Global, plain: Vec<u8>, mark: &Record) -> Result<Option<Vec<u8>>, AllocError>
    requires { HasLine mark.now }
    ensures { IfOk result (λ found. IsWithMark plain.items mark.now (option_map (λ text. text.items) found)) }
{
    if count_lines(&plain) >= LOG_LINES {
        return Ok(None);
    }
    let mut text = plain;
    // No line of a mark is too long, and the text with it has no fault: only memory may be refused.
    let Ok(line) = write_line(alloc, mark) else {
        return Err(AllocError);
    };
    text.extend_from_slice(&line)?;
    match compacted_in_order(alloc, &text) {
        Ok(text) => Ok(Some(text)),
        Err(_) => Err(AllocError),
    }
}

/// Reads a log, and returns the mark of [`mark_of`].
fn dropped_mark(alloc: Global, log: &[u8], floor: Option<u64>) -> Result<Option<Record>, LogError>
    ensures mark { IfOk result (λ mark. (found : LogText) × (log_of log.now ≡ Ok found) × (mark ≡ dropped_mark floor (records_in found.reads))) }
    ensures line { IfOk result (λ mark. IfSome mark HasLine) }
    ensures fault { IfErr result (HasFault log.now) }
{
    let read = read_log(alloc, &mut Device::new(log))?;
    Ok(mark_of(alloc, &read.records, floor)?)
}

/// Returns the mark that a log's records lack, at the greatest offset of those that compacting drops, to that floor or to
/// the log's own; `None` if they lack none, or none is dropped. The only error is out of memory.
pub fn mark_of(
    alloc: Global,
    records: &[Record],
    floor: Option<u64>,
) -> Result<Option<Record>, AllocError>
    ensures mark { IfOk result (λ mark. mark ≡ dropped_mark floor records.now) }
    ensures line { IfOk result (λ mark. IfSome mark HasLine) }
{
    let id = unmarked_id(alloc, records)?;
    if id == 0 {
        return Ok(None);
    }
    let kept = kept_by(alloc, records, floor)?;
    match dropped_offset(&kept, records) {
        Some(offset) => mark_in(alloc, id, offset),
        None => Ok(None),
    }
}

/// Returns the records that stay.
fn kept_by(alloc: Global, records: &[Record], floor: Option<u64>) -> Result<LastRecords, AllocError>
    ensures { IfOk result (λ kept. kept ≡ kept_by floor records.now) }
{
    match floor {
        Some(floor) => lasts_to(alloc, records, floor),
        None => lasts_of(alloc, records),
    }
}

/// Returns the greatest offset of the records that don't stay.
fn dropped_offset(kept: &LastRecords, records: &[Record]) -> Option<u64>
    ensures { result ≡ dropped_offset kept.now records.now }
{
    let mut found = None;
    for record in records {
        if !kept.contains(record) {
            found = Some(greater_of(found, record.offset));
        }
    }
    found
}

fn greater_of(found: Option<u64>, offset: u64) -> u64
    ensures { Some result ≡ greater_of found offset }
{
    match found {
        Some(greatest) => greatest.max(offset),
        None => offset,
    }
}

fn mark_in(alloc: Global, id: u32, offset: u64) -> Result<Option<Record>, AllocError>
    requires { id ≤ NUMBER_LIMIT }
    ensures mark { IfOk result (λ mark. mark ≡ mark_in id offset) }
    ensures line { IfOk result (λ mark. IfSome mark HasLine) }
{
    if id == 0 || offset > OFFSET_LIMIT {
        return Ok(None);
    }
    Ok(Some(mark_at(alloc, offset, id)?))
}
