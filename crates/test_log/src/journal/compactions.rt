// Each crash while a journal's file is compacted in its place.
use super::torn::{NEVER, Torn, journal_of};
use crate::batches::batch_of;
use reg_compaction::{JournalCompactError, compact_journal};
use reg_journal::{AppendError, Journal, recover};
use reg_records::Record;
use std::alloc::Global;
use std::process::Abort;
use std::test::Fail;

/// The steps of a renewal: the new file is written, it is renamed, the folder is synced.
const STEPS: usize = 3;

/// Whether a file is opened with just these records.
fn opens_with(alloc: Global, image: &[u8], records: &[Record]) -> Result<bool, Fail> {
    let mut disk = Torn::new(alloc, image, NEVER)?;
    match recover(alloc, &mut disk) {
        Ok(found) => Ok(found.log.records.as_slice() == records && found.log.next == 3),
        Err(_) => Err(Fail::from("refused")),
    }
}

/// A file that is compacted: its records, those that are left, and whether it was.
#[derive(Clone, Copy)]
struct Trial<'a> {
    all: &'a [Record],
    left: &'a [Record],
    is_compacted: bool,
}

/// Whether a file that a crash left after that many steps is the old one or the new one: before the second step the old one, at
/// the end the new one.
fn is_old_or_new(alloc: Global, image: &[u8], trial: Trial, steps: usize) -> Result<bool, Fail> {
    let is_old = opens_with(alloc, image, trial.all)?;
    let is_new = opens_with(alloc, image, trial.left)?;
    let is_over = trial.is_compacted && steps == STEPS;
    Ok((is_old || is_new) && (is_old || steps >= 2) && (is_new || !is_over))
}

fn are_old_or_new(
    alloc: Global,
    images: &[Vec<u8>],
    trial: Trial,
    steps: usize,
) -> Result<bool, Fail> {
    for image in images {
        if !is_old_or_new(alloc, image, trial, steps)? {
            return Ok(false);
        }
    }
    Ok(true)
}

/// Whether that is so after each step.
fn crashes_hold(alloc: Global, disk: &Torn, trial: Trial) -> Result<bool, Fail> {
    for steps in 0..=disk.steps() {
        if !are_old_or_new(alloc, &disk.images(steps)?, trial, steps)? {
            return Ok(false);
        }
    }
    Ok(true)
}

/// Whether compacting answers so where the step of that number is refused.
fn is_answer(answer: Result<u64, JournalCompactError>, fails_at: usize) -> bool {
    match answer {
        Ok(lines) => fails_at >= STEPS && lines == 1,
        Err(JournalCompactError::Failed) => fails_at == 0,
        Err(JournalCompactError::Lost) => fails_at == 1 || fails_at == 2,
        Err(_) => false,
    }
}

/// Whether a journal goes on after such an answer, unless its file is lost.
fn goes_on(
    alloc: Global,
    journal: &mut Journal<Torn>,
    answer: Result<u64, JournalCompactError>,
) -> Result<bool, Fail> {
    let more = journal.append(alloc, &batch_of(alloc, 3, 1)?, 0);
    Ok(match answer {
        Err(JournalCompactError::Lost) => matches!(more, Err(AppendError::Broken)),
        Err(_) => more.is_ok() && journal.lines() == 4,
        Ok(_) => more.is_ok() && journal.lines() == 2,
    })
}

/// Compacts the file of a journal, the step of that number refused, and crashes at each step.
fn tried_in(
    rt: &impl Abort,
    alloc: Global,
    journal: &mut Journal<Torn>,
    all: &[Record],
    fails_at: usize,
) -> Result<(), Fail> {
    let answer = compact_journal(alloc, journal);
    assert!(rt; is_answer(answer, fails_at));
    assert_eq!(rt;
        journal.is_broken(),
        matches!(answer, Err(JournalCompactError::Lost))
    );
    let trial = Trial {
        all,
        left: &all[all.len().saturating_sub(1)..],
        is_compacted: answer.is_ok(),
    };
    assert!(rt; crashes_hold(alloc, journal.disk(), trial)?);
    assert!(rt; goes_on(alloc, journal, answer)?);
    Ok(())
}

/// So of a file of three records of one key.
fn tried(rt: &impl Abort, alloc: Global, fails_at: usize) -> Result<(), Fail> {
    let all = batch_of(alloc, 0, 3)?;
    let mut journal = journal_of(alloc, &all, fails_at)?;
    tried_in(rt, alloc, &mut journal, &all, fails_at)
}

#[test]
fn a_compacted_file_is_the_old_one_or_the_new_one_after_each_crash(
    rt: HostRuntime,
) -> Result<(), Fail> {
    let alloc = rt.alloc();
    for fails_at in [0, 1, 2, NEVER] {
        tried(&rt, alloc, fails_at)?;
    }
    Ok(())
}

/// Files that aren't what was left, an empty line at 6: of another length, or with a fault.
const CHANGED: [&str; 4] = ["0\tx\ty\n", "0\tx\ty\n\n0\tx\ty\n", "0\tx\ty", "0\txyz\n\n"];

#[test]
fn a_file_that_another_has_changed_breaks_the_journal(rt: HostRuntime) -> Result<(), Fail> {
    let alloc = rt.alloc();
    for file in CHANGED {
        let mut journal = Journal::over(Torn::new(alloc, file.as_bytes(), NEVER)?, 6, 1);
        assert!(rt;
            matches!(
                compact_journal(alloc, &mut journal),
                Err(JournalCompactError::Changed)
            )
        );
        assert!(rt; journal.is_broken() && journal.disk().bytes() == file.as_bytes());
        assert!(rt;
            matches!(
                compact_journal(alloc, &mut journal),
                Err(JournalCompactError::Broken)
            )
        );
        assert!(rt; journal.disk().steps() == 0);
    }
    Ok(())
}
