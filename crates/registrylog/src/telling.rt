// Reports what goes wrong with a keep, and counts what becomes of batches.
use crate::metered::MeteredFile;
use crate::watching::SharedBoard;
use reg_compaction::JournalCompactError;
use reg_file_keep::{FileKeep, LogKeep};
use reg_journal::Trouble;
use reg_pen::{Kept, Lack, Tell};
use reg_records::{LOG_LINES, Record};
use std::fmt;
use std::fs::{File, Files};
use std::io::{Eprint, ErrorKind};
use std::time::Clock;

/// Reports on the error output that a batch is lost, and that a compaction failed, each once. The
/// board shows both too.
#[derive(Drop)]
pub(crate) struct Telling<R: Eprint + Drop> {
    rt: R,
    board: SharedBoard,
    has_told_loss: bool,
    has_told_fault: bool,
}

impl<R: Eprint + Drop> Telling<R> {
    pub(crate) fn new(rt: R, board: SharedBoard) -> Telling<R> {
        Telling {
            rt,
            board,
            has_told_loss: false,
            has_told_fault: false,
        }
    }
}

impl<R: Files<File = File> + Clock + Eprint + Drop> Telling<R> {
    /// Reports that a compaction failed, if one did.
    pub(crate) fn tell_fault(&mut self, keep: &FileKeep<MeteredFile<R>>) {
        let fault = keep.compaction_fault();
        self.board.file.is_uncompacted.set(fault.is_some());
        if self.has_told_fault {
            return;
        }
        if let Some(fault) = fault {
            self.has_told_fault = true;
            let why = Uncompacted {
                fault,
                trouble: keep.journal().disk().unrenewed(),
            };
            let _told = self.rt.eprintln(format_args!("log not compacted: {why}"));
        }
    }

    /// Reports that a batch is lost, unless one was before.
    fn tell_loss(&mut self, keep: &FileKeep<MeteredFile<R>>, batch: &[Record]) {
        if self.has_told_loss {
            return;
        }
        self.has_told_loss = true;
        let disk = keep.journal().disk();
        let trouble = disk.trouble();
        if self.is_short_at_start(trouble) {
            return;
        }
        self.board.marks.is_lost.set(true);
        let offset = batch.first().map_or(0, |first| first.offset);
        let loss = Loss {
            path: disk.path(),
            trouble,
            is_cut: disk.len() <= keep.journal().end(),
        };
        let _told = self
            .rt
            .eprintln(format_args!("log lost at offset {offset}: {loss}"));
    }

    /// Returns whether the disk was full for the id mark before nodes listen: then only lookups are
    /// served, and nothing that was acknowledged is lost.
    fn is_short_at_start(&self, trouble: Option<Trouble>) -> bool {
        match trouble {
            Some(Trouble::Refused(error)) if error.is_of_full_disk() => {
                self.board.ran_out(error);
                !self.board.marks.listens.is_set()
            }
            _ => false,
        }
    }
}

impl<R: Files<File = File> + Clock + Eprint + Drop> Tell<LogKeep<MeteredFile<R>>> for Telling<R> {
    fn tell(&mut self, keep: &LogKeep<MeteredFile<R>>, batch: &[Record], kept: Kept) {
        match keep {
            LogKeep::Open(keep) => {
                self.tell_fault(keep);
                count(&self.board, keep, batch, kept);
                if kept == Kept::Lost {
                    self.tell_loss(keep, batch);
                }
            }
            LogKeep::Closed => {
                if kept != Kept::Taken {
                    self.board.batches.declined.add(1);
                }
            }
        }
    }
}

/// Why a compaction failed.
#[derive(Clone, Copy)]
struct Uncompacted {
    fault: JournalCompactError,
    trouble: Option<Trouble>,
}

impl fmt::Display for Uncompacted {
    fn fmt<W: fmt::Write>(&self, f: &mut fmt::Formatter<W>) -> fmt::Result {
        let fault = self.fault;
        match (fault, self.trouble) {
            (JournalCompactError::Failed, Some(Trouble::Refused(error))) => write!(f, "{error}"),
            _ => write!(f, "{fault:?}"),
        }
    }
}

/// Why a log is lost, and what to do.
#[derive(Clone, Copy)]
struct Loss<'a> {
    path: &'a str,
    trouble: Option<Trouble>,
    /// The file is shorter than it was left.
    is_cut: bool,
}

impl fmt::Display for Loss<'_> {
    fn fmt<W: fmt::Write>(&self, f: &mut fmt::Formatter<W>) -> fmt::Result {
        let path = self.path;
        match self.trouble {
            Some(Trouble::Unnamed) => write!(
                f,
                "{path} was renamed, removed or replaced: put back the file that was kept, then restart"
            ),
            Some(Trouble::Refused(error)) if error.is_of_full_disk() => {
                write!(f, "{error}: make room on the disk, then restart")
            }
            Some(Trouble::Refused(error)) if error.kind == ErrorKind::FileTooLarge => {
                write!(
                    f,
                    "{error}: raise the limit of the file's size, then restart"
                )
            }
            Some(Trouble::Refused(error)) => write!(
                f,
                "{error}: restart the machine, or serve a copy of the file"
            ),
            None if self.is_cut => write!(
                f,
                "another program cut {path}: only this process has all that was acknowledged, so copy it before you stop it"
            ),
            None => write!(
                f,
                "another program changed the length of {path}: stop it, then restart"
            ),
        }
    }
}

/// Counts what became of a batch, and notes whether the log is full.
fn count<R: Files<File = File> + Clock + Drop>(
    board: &SharedBoard,
    keep: &FileKeep<MeteredFile<R>>,
    batch: &[Record],
    kept: Kept,
) {
    let meters = &board.batches;
    match kept {
        Kept::Taken => {
            let journal = keep.journal();
            meters.kept.add(1);
            meters.seconds.count(journal.disk().took());
            board.marks.is_full.set(false);
            board.file.records.add(batch.len() as u64);
            if let Some(last) = batch.last() {
                board.file.next.set(last.offset.saturating_add(1));
            }
            board.file.lines.set(journal.lines());
            board
                .file
                .bytes
                .set((journal.end() as u64).saturating_add(1));
        }
        Kept::Declined(lack) => {
            meters.declined.add(1);
            let left = LOG_LINES.saturating_sub(keep.journal().lines());
            if lack == Lack::Numbers && left <= batch.len() as u64 {
                board.marks.is_full.set(true);
            }
        }
        Kept::Lost => meters.lost.add(1),
        Kept::Unknown => meters.unknown.add(1),
    }
}
