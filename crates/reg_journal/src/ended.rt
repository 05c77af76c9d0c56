// The log of a file that has an empty line, and what stands behind that line.
ghost use Rattle.std.specs.Prelude.{◌≡◌, ◌≢◌, ◌^◌, ◌<◌, IfErr, IfOk, if◌then◌else◌};
ghost use Rattle.reg_records.specs.Floor.{is_floor_line};
ghost use Rattle.reg_journal.specs.Found.{IsFound, IsLookRefusal};

use crate::opening::{Found, JournalOpenError};
use reg_records::{Device, Log, LogError, is_floor_line, read_log};
use std::alloc::{AllocFailed, Global};

/// Reads the log of a file, and finds the empty line behind it.
pub(crate) fn read_ended(alloc: Global, bytes: Vec<u8>) -> Result<Found, JournalOpenError>
    ensures found { IfOk result (IsFound bytes.items) }
    ensures within { IfOk result (λ found. found.end < 2 ^ 63) }
    ensures refused { IfErr result (IsLookRefusal bytes.items) }
    ensures itself { IfErr result (λ e. e ≢ JournalOpenError.Failed) }
{
    // With an LF more at the end, what is left unread behind an empty line isn't empty.
    let mut bytes = bytes;
    bytes.push(b'\n')?;
    let mut reader = Device::new(&bytes[..]);
    let log = read_log(alloc, &mut reader)?;
    let left = reader.into_inner();
    if left.is_empty() {
        return Err(JournalOpenError::NoEmptyLine);
    }
    let behind = left[..left.len() - 1].to_vec(alloc)?;
    let end = bytes.len() - left.len() - 1;
    let lines = log.records.len() as u64 + log.foreign + floor_lines(&bytes);
    Ok(Found {
        log,
        end,
        lines,
        behind,
    })
}

/// Returns how many lines say the floor in a text that begins with a log: one or none.
fn floor_lines(text: &[u8]) -> u64
    ensures { result ≡ (if is_floor_line text.now then 1 else 0) }
{
    if is_floor_line(text) { 1 } else { 0 }
}
