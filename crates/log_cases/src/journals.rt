// Journals of files in memory.
ghost use Rattle.std.specs.Prelude.{◌≡◌, All, IfOk};
ghost use Rattle.reg_records.specs.Written.{HasLine};
ghost use Rattle.reg_journal.specs.Lines.{said, with_batch};
ghost use Rattle.reg_journal.specs.Memory.{memory_bytes};

use crate::batches::batch_of;
use crate::form::{Came, Form, shown};
use reg_compaction::{Aside, Opens, compact_superseded, open_aside};
use reg_journal::{AppendError, DiskError, Journal, JournalOpenError, Memory, open_journal};
use reg_records::{OFFSET_LIMIT, Record, has_line};
use std::alloc::Global;
use test_tools::{CaseError, bytes_of, cut, number_of};

/// Opens a file in memory that has something, once.
#[derive(Drop)]
struct Other {
    alloc: Global,
    is_opened: bool,
}

impl Opens<Memory> for Other {
    fn open_disk(&mut self) -> Result<Memory, DiskError> {
        if self.is_opened {
            return Err(DiskError::Failed);
        }
        self.is_opened = true;
        Ok(Memory::new(self.alloc, b"old".to_vec(self.alloc)?))
    }

    fn put_in_place(&mut self, _disk: &Memory) -> Result<(), DiskError> {
        Ok(())
    }
}

/// What the other file has, a `-` if it wasn't opened.
fn put_aside(alloc: Global, aside: &Aside<Memory, Other>) -> Came {
    match &aside.disk {
        Some(disk) => shown(alloc, disk.bytes()),
        None if aside.opener.is_opened => Ok(String::from_str(alloc, "opened")?),
        None => shown(alloc, b""),
    }
}

/// Opens a file whose end is put aside: how many lines are found, or why none.
fn open_over(alloc: Global, disk: &mut Memory, aside: &mut Aside<Memory, Other>) -> Came {
    Ok(match open_aside(alloc, disk, aside) {
        Ok(found) => format!(in alloc; "{} lines", found.lines)?,
        Err(JournalOpenError::Log(_)) => String::from_str(alloc, "refused")?,
        Err(error) => format!(in alloc; "{error:?}")?,
    })
}

fn opened(alloc: Global, file: &str) -> Came {
    let mut disk = Memory::new(alloc, bytes_of(alloc, file)?);
    let opener = Other {
        alloc,
        is_opened: false,
    };
    let mut aside = Aside { opener, disk: None };
    let found = open_over(alloc, &mut disk, &mut aside)?;
    let (left, put) = (shown(alloc, disk.bytes())?, put_aside(alloc, &aside)?);
    Ok(format!(in alloc; "{} & {} & {}", found.as_str(), left.as_str(), put.as_str())?)
}

/// Opens a file in memory, which keeps its name or not, and appends a batch behind which so many lines stay free: then it says what it
/// said, and the batch.
fn appended(
    alloc: Global,
    bytes: Vec<u8>,
    batch: &[Record],
    free: u64,
    is_named: bool,
) -> Result<Journal<Memory>, AppendError>
    requires { All HasLine batch.now }
    ensures { IfOk result (λ journal. said (memory_bytes journal.disk) ≡ with_batch batch.now (said bytes.items)) }
{
    let mut disk = Memory::new(alloc, bytes);
    disk.rename(is_named);
    let (_log, journal) = match open_journal(alloc, disk) {
        Ok(found) => found,
        Err(_) => return Err(AppendError::Failed),
    };
    let mut journal = journal;
    match journal.append(alloc, batch, free) {
        Ok(()) => Ok(journal),
        Err(error) => Err(error),
    }
}

/// A file with a batch.
fn grown(alloc: Global, file: Vec<u8>, batch: &[Record], free: u64, is_named: bool) -> Came {
    if batch.iter().all(|record| has_line(record)) {
        return match appended(alloc, file, batch, free, is_named) {
            Ok(journal) => shown(alloc, journal.disk().bytes()),
            Err(error) => Ok(format!(in alloc; "{error:?}")?),
        };
    }
    Err(CaseError::NotUnderstood)
}

fn grown_by(alloc: Global, asked: &str, free: u64, is_named: bool) -> Came {
    let (first, rest) = cut(asked);
    let (count, file) = cut(rest);
    let batch = batch_of(alloc, number_of(first)?, number_of(count)?, Some("1"))?;
    grown(alloc, bytes_of(alloc, file)?, &batch, free, is_named)
}

/// What a file's log is like.
fn found(alloc: Global, file: &str) -> Came {
    Ok(
        match open_journal(alloc, Memory::new(alloc, bytes_of(alloc, file)?)) {
            Ok((log, journal)) => {
                let (floor, next, records) = (log.floor, log.next, log.records.len());
                let lines = journal.lines();
                format!(in alloc; "floor {floor}, next {next}, {records} records, {lines} lines")?
            }
            Err(error) => format!(in alloc; "{error:?}")?,
        },
    )
}

/// How many lines the journal of a file has, and the file.
fn stands(alloc: Global, journal: &Journal<Memory>) -> Came {
    let bytes = journal.disk().bytes();
    if journal.is_broken() || journal.end() != bytes.len().saturating_sub(1) {
        return Ok(String::from_str(alloc, "broken")?);
    }
    let file = shown(alloc, bytes)?;
    Ok(format!(in alloc; "{} lines & {}", journal.lines(), file.as_str())?)
}

/// Compacts a file in its place, where so many lines are superseded.
fn shrunk(alloc: Global, floor: Option<u64>, asked: &str) -> Came {
    let (least, file) = cut(asked);
    let least = number_of(least)?;
    let disk = Memory::new(alloc, bytes_of(alloc, file)?);
    let Ok((_log, journal)) = open_journal(alloc, disk) else {
        return Err(CaseError::NotUnderstood);
    };
    let mut journal = journal;
    let floor = match floor {
        Some(floor) => Some(floor.min(OFFSET_LIMIT)),
        None => None,
    };
    let kept = compact_superseded(alloc, &mut journal, least, floor);
    let left = stands(alloc, &journal)?;
    Ok(match kept {
        Ok(kept) => format!(in alloc; "{kept} of {}", left.as_str())?,
        Err(error) => format!(in alloc; "{error:?}: {}", left.as_str())?,
    })
}

/// Files.
#[derive(Drop)]
pub(crate) struct Journals;

impl Form for Journals {
    fn came(&mut self, alloc: Global, asked: &str) -> Came {
        let (command, rest) = cut(asked);
        let (number, counted) = cut(rest);
        match command {
            "open" => opened(alloc, rest),
            "find" => found(alloc, rest),
            "append" => grown_by(alloc, rest, 0, true),
            "append-unnamed" => grown_by(alloc, rest, 0, false),
            "append-leaving" => grown_by(alloc, counted, number_of(number)?, true),
            "shrink" => shrunk(alloc, None, rest),
            "shrink-to" => shrunk(alloc, Some(number_of(number)?), counted),
            _ => Err(CaseError::NotUnderstood),
        }
    }
}
