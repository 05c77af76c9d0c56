// What compacting a log to a floor leaves of it.
ghost use Rattle.std.specs.Prelude.{◌≡◌, ◌≤◌, ◌&&◌, ℕ, List, IfErr, IfOk, IfSome, MatchOption};
ghost use Rattle.std.specs.FinSet.{from_list};
ghost use Rattle.reg_journal.specs.Found.{HasFault};
ghost use Rattle.reg_journal.specs.Lines.{text_of};
ghost use Rattle.reg_floored.specs.Floors.{compacted_to};
ghost use Rattle.reg_records.specs.declared.limits.TheConstants.{OFFSET_LIMIT};
ghost use Rattle.reg_set.specs.LastRecords.{last_records};
ghost use Rattle.reg_compaction.specs.Begun.{BeginsTo};
ghost use Rattle.reg_compaction.specs.Compacted.{IsLines};
ghost use Rattle.reg_compaction.specs.CompactedTo.{IsCompactedBy, IsCompactedTo, IsToFloorRefusal, LacksFloor, floor_lines};

use crate::compacting::{Begun, compacted, lasts_of};
use crate::cutting::{count_lines, floor_len};
use crate::walk::Walk;
use reg_floored::deletes_below;
use reg_journal::lines_are_logs;
use reg_records::{
    Device, LOG_LINES, LogError, Record, floors_are_of_the_grammar, read_log, write_floor,
};
use reg_set::{LastRecords, last_is_greatest, last_records_are_enough, records_are_ordered};
use std::alloc::{AllocError, Global};

/// An error of compacting a log to a floor.
#[derive(Clone, Copy, Debug, PartialEq, Eq)]
pub enum ToFloorError {
    /// The log has a fault, or memory was refused.
    Log(LogError),
    /// The floor is below the log's own, which is given.
    FloorBelow(u64),
    /// The floor is above the log's next offset, which is given.
    FloorAhead(u64),
    /// With the floor's line the log would have more lines than a log may have.
    NoRoom,
}

impl From<LogError> for ToFloorError {
    ghost use Rattle.std.specs.Prelude.{◌≡◌};
    ghost use Rattle.reg_compaction.specs.declared.to_floor.ToFloorError.TheVariants.{Log};

    ghost from_gives = { λ error e. e ≡ Log error };

    fn from(error: LogError) -> ToFloorError {
        ToFloorError::Log(error)
    }
}

impl From<AllocError> for ToFloorError {
    ghost use Rattle.std.specs.Prelude.{◌≡◌};
    ghost use Rattle.reg_records.specs.declared.log.LogError.TheVariants.{OutOfMemory};
    ghost use Rattle.reg_compaction.specs.declared.to_floor.ToFloorError.TheVariants.{Log};

    ghost from_gives = { λ _ e. e ≡ Log OutOfMemory };

    fn from(_refused: AllocError) -> ToFloorError {
        ToFloorError::Log(LogError::OutOfMemory)
    }
}

/// Compacts a log to a floor (the low-water mark), up to `OFFSET_LIMIT`: returns the floor's line,
/// unless it is 0, and the lines of the log's last records, without tombstones below the floor,
/// unchanged and in their order. A foreign line (one of a kind unknown here) is kept if it alone
/// has the offset before the log's next one. What follows the empty line is left out.
pub fn compacted_to(alloc: Global, log: &[u8], floor: u64) -> Result<Vec<u8>, ToFloorError>
    requires { floor ≤ OFFSET_LIMIT }
    ensures compacted { IfOk result (λ text. IsCompactedTo floor log.now text.items) }
    ensures lines { IfOk result (λ text. IsLines text.items) }
    ensures refused { IfErr result (IsToFloorRefusal log.now floor) }
{
    lines_are_logs();
    records_are_ordered();
    last_records_are_enough();
    last_is_greatest();
    let Begun {
        waiting,
        top,
        count,
    } = begin_to(alloc, log, floor)?;
    let (_own, lines) = log.split_at(floor_len(log));
    let mut walk = Walk {
        waiting,
        text: floor_line(alloc, floor)?,
        has_top: false,
        carried: None,
    };
    walk.take_lines(alloc, lines, count, top)?;
    let text = walk.finish()?;
    if count_lines(&text) > LOG_LINES {
        return Err(ToFloorError::NoRoom);
    }
    Ok(text)
}

/// Compacts a log to a floor, or at its own floor if none is asked for or the log can't have it.
pub(crate) fn compacted_by(
    alloc: Global,
    log: &[u8],
    floor: Option<u64>,
) -> Result<Vec<u8>, LogError>
    requires { IfSome floor (λ f. f ≤ OFFSET_LIMIT) }
    ensures compacted { IfOk result (λ text. IsCompactedBy floor log.now text.items) }
    ensures lines { IfOk result (λ text. IsLines text.items) }
    ensures fault { IfErr result (HasFault log.now) }
{
    let Some(floor) = floor else {
        return compacted(alloc, log);
    };
    match compacted_to(alloc, log, floor) {
        Ok(text) => Ok(text),
        Err(error) => match log_error(error) {
            Some(error) => Err(error),
            None => compacted(alloc, log),
        },
    }
}

/// Returns the error of the log itself; `None` if it only can't have the floor.
fn log_error(error: ToFloorError) -> Option<LogError>
    ensures { (text : List ℕ) (floor : ℕ) → IsToFloorRefusal text floor error
        → MatchOption result (LacksFloor text floor) (HasFault text) }
{
    match error {
        ToFloorError::Log(error) => Some(error),
        ToFloorError::FloorBelow(_) => None,
        ToFloorError::FloorAhead(_) => None,
        ToFloorError::NoRoom => None,
    }
}

fn begin_to(alloc: Global, log: &[u8], floor: u64) -> Result<Begun, ToFloorError>
    ensures begun { IfOk result (BeginsTo floor log.now) }
    ensures refused { IfErr result (IsToFloorRefusal log.now floor) }
{
    lines_are_logs();
    let read = read_log(alloc, &mut Device::new(log))?;
    if floor < read.floor {
        return Err(ToFloorError::FloorBelow(read.floor));
    }
    if floor > read.next {
        return Err(ToFloorError::FloorAhead(read.next));
    }
    let waiting = lasts_to(alloc, &read.records, floor)?;
    Ok(Begun {
        waiting,
        top: read.next.checked_sub(1),
        count: read.records.len() as u64 + read.foreign,
    })
}

/// Returns the records that compacting to a floor keeps.
pub(crate) fn lasts_to(
    alloc: Global,
    records: &[Record],
    floor: u64,
) -> Result<LastRecords, AllocError>
    ensures { IfOk result (λ lasts. lasts ≡ compacted_to floor (from_list records.now)) }
{
    records_are_ordered();
    last_records_are_enough();
    let mut lasts = lasts_of(alloc, records)?;
    for record in records {
        if deletes_below(record, floor) {
            lasts.remove(record);
        }
    }
    Ok(lasts)
}

/// The line of a floor with its LF, or nothing for 0.
fn floor_line(alloc: Global, floor: u64) -> Result<Vec<u8>, AllocError>
    requires { floor ≤ OFFSET_LIMIT }
    ensures { IfOk result (λ line. line.items ≡ text_of (floor_lines floor)) }
{
    if floor == 0 {
        return Ok(Vec::new(alloc));
    }
    write_floor(alloc, floor)
}
