// Each crash at each step, and a second one while the file is opened again.
ghost use Rattle.std.specs.Prelude.{All};
ghost use Rattle.reg_records.specs.Written.{HasLine};

use super::torn::{NEVER, Torn, journal_of};
use crate::batches::{batch_of, file_of};
use reg_journal::{AppendError, Journal, JournalOpenError, recover, write_end};
use reg_records::Record;
use std::alloc::Global;
use std::process::Abort;
use std::test::Fail;

/// Whether the records stand for the front of that many of `all`.
fn is_front(records: &[Record], all: &[Record], count: usize) -> bool {
    records.len() == count && count <= all.len() && records == &all[..count]
}

/// How many records a file has, which are the front of `all`.
fn front_in(
    rt: &impl Abort,
    alloc: Global,
    disk: &mut Torn,
    all: &[Record],
) -> Result<usize, Fail> {
    let Ok(found) = recover(alloc, disk) else {
        return Err(Fail::from("refused"));
    };
    let count = found.log.records.len();
    assert!(rt; is_front(&found.log.records, all, count));
    Ok(count)
}

/// Whether a file that a crash left while another was opened has as many records.
fn has_count(
    rt: &impl Abort,
    alloc: Global,
    image: &[u8],
    all: &[Record],
    count: usize,
) -> Result<bool, Fail> {
    let mut disk = Torn::new(alloc, image, NEVER)?;
    Ok(front_in(rt, alloc, &mut disk, all)? == count)
}

/// Opens the files that a crash leaves after some steps of opening another.
fn open_each(
    rt: &impl Abort,
    alloc: Global,
    images: &[Vec<u8>],
    all: &[Record],
    count: usize,
) -> Result<(), Fail> {
    for image in images {
        assert!(rt; has_count(rt, alloc, image, all, count)?);
    }
    Ok(())
}

/// Crashes at each step of opening a file that has so many records, and opens what that leaves.
fn open_again(
    rt: &impl Abort,
    alloc: Global,
    disk: &Torn,
    all: &[Record],
    count: usize,
) -> Result<(), Fail> {
    for k in 0..=disk.steps() {
        open_each(rt, alloc, &disk.images(k)?, all, count)?;
    }
    Ok(())
}

/// A batch that was appended, or was to be.
#[derive(Clone, Copy)]
struct Trial<'a> {
    /// The records that the file has with the batch, and how many it had before.
    all: &'a [Record],
    before: usize,
    /// Whether opening crashes too.
    is_twice: bool,
}

/// Opens a file that a crash left, and tells how many records it has.
fn reopened(rt: &impl Abort, alloc: Global, image: &[u8], trial: Trial) -> Result<usize, Fail> {
    let mut disk = Torn::new(alloc, image, NEVER)?;
    let count = front_in(rt, alloc, &mut disk, trial.all)?;
    if trial.is_twice {
        open_again(rt, alloc, &disk, trial.all, count)?;
    }
    Ok(count)
}

/// Opens files that a crash left, in which the batch is whole or absent, or surely whole.
fn open_all(
    rt: &impl Abort,
    alloc: Global,
    images: &[Vec<u8>],
    trial: Trial,
    is_sure: bool,
) -> Result<(), Fail> {
    for image in images {
        let count = reopened(rt, alloc, image, trial)?;
        assert!(rt; count == trial.all.len() || (count == trial.before && !is_sure));
    }
    Ok(())
}

/// Crashes at each of the four steps of an append.
fn crash(
    rt: &impl Abort,
    alloc: Global,
    disk: &Torn,
    trial: Trial,
    is_taken: bool,
) -> Result<(), Fail> {
    for k in 0..=disk.steps().min(4) {
        open_all(rt, alloc, &disk.images(k)?, trial, is_taken && k == 4)?;
    }
    Ok(())
}

/// Appends a batch twice, and tells whether it was taken; where it wasn't, the journal is broken.
fn is_taken(rt: &impl Abort, alloc: Global, journal: &mut Journal<Torn>, batch: &[Record]) -> bool
    requires { All HasLine batch.now }
{
    let answer = journal.append(alloc, batch, 0);
    let again = journal.append(alloc, batch, 0);
    if answer.is_ok() {
        return true;
    }
    assert!(rt; matches!(answer, Err(AppendError::Failed)));
    assert!(rt; matches!(again, Err(AppendError::Broken)));
    false
}

/// Appends a batch behind others, the step of that number refused, and crashes at each step.
fn try_batch(
    rt: &impl Abort,
    alloc: Global,
    before: u64,
    more: u64,
    fails_at: usize,
) -> Result<(), Fail> {
    let all = batch_of(alloc, 0, before.saturating_add(more))?;
    let batch = batch_of(alloc, before, more)?;
    let mut journal = journal_of(alloc, &batch_of(alloc, 0, before)?, fails_at)?;
    let is_taken = is_taken(rt, alloc, &mut journal, &batch);
    assert_eq!(rt; is_taken, fails_at >= 4);
    let trial = Trial {
        all: &all,
        before: all.len().saturating_sub(batch.len()),
        is_twice: all.len() < 2 && fails_at == 4,
    };
    crash(rt, alloc, journal.disk(), trial, is_taken)
}

#[test]
fn a_batch_is_whole_or_absent_after_each_crash(rt: HostRuntime) -> Result<(), Fail> {
    let alloc = rt.alloc();
    for before in 0..2 {
        for more in 1..3 {
            for fails_at in 0..5 {
                try_batch(&rt, alloc, before, more, fails_at)?;
            }
        }
    }
    Ok(())
}

#[test]
fn a_file_without_an_empty_line_gets_one(rt: HostRuntime) -> Result<(), Fail> {
    let alloc = rt.alloc();
    let mut disk = Torn::new(alloc, b"", NEVER)?;
    assert!(rt;
        matches!(
            recover(alloc, &mut disk),
            Err(JournalOpenError::NoEmptyLine)
        )
    );
    assert!(rt; write_end(alloc, &mut disk).is_ok());
    assert!(rt;
        matches!(recover(alloc, &mut disk), Ok(found) if found.end == 0 && found.lines == 0)
    );
    Ok(())
}

/// Whether opening a file with those lines cuts off what stands behind the empty line.
fn is_cut_off(alloc: Global, lines: &[u8], behind: &[u8]) -> Result<bool, Fail> {
    let mut file = lines.to_vec(alloc)?;
    file.extend_from_slice(behind)?;
    let mut disk = Torn::new(alloc, &file, NEVER)?;
    let Ok(found) = recover(alloc, &mut disk) else {
        return Ok(false);
    };
    let has_two = found.lines == 2 && found.log.next == 2;
    let has_lines = found.behind.as_slice() == behind && disk.bytes() == lines;
    Ok(has_two && has_lines && disk.images(3)?.len() == 1)
}

#[test]
fn what_stands_behind_the_empty_line_is_cut_off(rt: HostRuntime) -> Result<(), Fail> {
    let alloc = rt.alloc();
    let lines = file_of(alloc, &batch_of(alloc, 0, 2)?)?;
    assert!(rt; is_cut_off(alloc, &lines, b"2\tx")?);
    Ok(())
}
