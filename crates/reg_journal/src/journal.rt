// Lines and an empty one behind them, to which batches are added.
ghost use Rattle.std.specs.Prelude.{◌≡◌, ◌≤◌, ◌<◌, ◌-◌, ◌⊎◌, All, length, true, false, Err, OnOk, IfErr, IfOk};
ghost use Rattle.reg_records.specs.Written.{HasLine, line_text};
ghost use Rattle.reg_records.specs.declared.limits.TheConstants.{LINE_LIMIT, LOG_LINES};
ghost use Rattle.reg_journal.specs.Disk.{LeavesOnly};
ghost use Rattle.reg_journal.specs.Lines.{said, with_batch, IsBeforeOrAfter};
ghost use Rattle.reg_journal.specs.Journal.{IsEndedLog, IsReady, IsSteady};
ghost use Rattle.reg_journal.specs.Refusals.{HasCause, is_refusal};
ghost use Rattle.reg_journal.specs.Renewal.{IsLostOrKept};

use crate::batch::lines_of;
use crate::disk::{Disk, DiskError};
use crate::gate::{PutError, put_named};
use crate::opening::Found;
use crate::renewal::{RenewError, Renewable};
use reg_records::{LOG_LINES, Record, WriteLineError};
use std::alloc::{AllocFailed, Global};
use std::marker::Model;

/// An error of [`Journal::append`]: the reason why the batch isn't acknowledged.
#[derive(Clone, Copy, Debug, PartialEq, Eq)]
pub enum AppendError {
    /// A record's line is longer than a line may be. Nothing was written.
    LineTooLong,
    /// The log would have more lines than a log may. Nothing was written.
    TooManyLines,
    /// Memory was refused. Nothing was written.
    OutOfMemory,
    /// The file's length isn't the one that the journal left, or is too large to append to. The
    /// journal is broken.
    Changed,
    /// The path doesn't name the file any more: it was renamed, removed or replaced. The batch is
    /// in a file that a restart may not find. The journal is broken.
    Unnamed,
    /// The disk failed or is full: the batch may be in the file or not. The journal is broken.
    Failed,
    /// The journal was broken before the call. Nothing was written.
    Broken,
}

impl From<PutError> for AppendError {
    ghost use Rattle.std.specs.Prelude.{◌≡◌, false};
    ghost use Rattle.reg_journal.specs.Loss.{loss_of};
    ghost use Rattle.reg_journal.specs.Refusals.{is_refusal};

    ghost from_gives = { λ error e. (e ≡ loss_of error) × (is_refusal e ≡ false) };

    fn from(error: PutError) -> AppendError {
        match error {
            PutError::Changed => AppendError::Changed,
            PutError::Unnamed => AppendError::Unnamed,
            PutError::Failed => AppendError::Failed,
        }
    }
}

impl From<WriteLineError> for AppendError {
    ghost use Rattle.std.specs.Prelude.{◌≡◌, true};
    ghost use Rattle.reg_journal.specs.Refusals.{is_refusal, refusal_of};

    ghost from_gives = { λ error e. (e ≡ refusal_of error) × (is_refusal e ≡ true) };

    fn from(error: WriteLineError) -> AppendError {
        match error {
            WriteLineError::TooLong => AppendError::LineTooLong,
            WriteLineError::OutOfMemory => AppendError::OutOfMemory,
        }
    }
}

impl<T: Drop> From<AllocFailed<T>> for AppendError {
    ghost use Rattle.std.specs.Prelude.{◌≡◌};
    ghost use Rattle.reg_journal.specs.declared.journal.AppendError.TheVariants.{OutOfMemory};

    ghost from_gives = { λ _ e. e ≡ OutOfMemory };

    fn from(_refused: AllocFailed<T>) -> AppendError {
        AppendError::OutOfMemory
    }
}

/// The log of a file, to which batches are appended. A *broken* journal takes no batch any more.
///
/// Contracts see its disk, the offset of the file's empty line in bytes, the number of lines before
/// it, and whether it is broken. Until it is, its file is those lines and the empty one, all of it
/// on the disk.
#[derive(Drop)]
pub struct Journal<D: Disk> {
    disk: D,
    end: usize,
    lines: u64,
    is_broken: bool,
}

impl<D: Disk> Model for Journal<D> {
    ghost use Rattle.reg_journal.specs.Journal.{IsReady};
    ghost use Rattle.reg_journal.specs.JournalState.{JournalState};

    ghost Value = { JournalState D };

    ghost view = { λ j. record { disk = j.disk; «end» = j.end; lines = j.lines; is_broken = j.is_broken } };

    ghost invariant = { λ j. D.is_modelled → IsReady D.known D.seen D.may_leave (record { disk = j.disk; «end» = j.end; lines = j.lines; is_broken = j.is_broken }) };
}

impl<D: Disk> Journal<D> {
    /// Makes the journal of a file whose log was found, with nothing behind its empty line: `end`
    /// is the empty line's place in bytes, `lines` the number of lines before it.
    pub fn over(disk: D, end: usize, lines: u64) -> Journal<D>
        requires known { D.is_modelled → D.known disk }
        requires steady { D.is_modelled → IsSteady D.seen D.may_leave disk end lines }
        ensures { result ≡ record { disk = disk; «end» = end; lines = lines; is_broken = false } }
    {
        Journal {
            disk,
            end,
            lines,
            is_broken: false,
        }
    }

    /// Returns its disk.
    pub fn disk(&self) -> &D
        ensures { result.now ≡ self.now.disk }
    {
        &self.disk
    }

    /// Returns its disk and drops the journal.
    pub fn into_disk(self) -> D
        ensures { result ≡ self.disk }
    {
        let Journal {
            disk,
            end: _,
            lines: _,
            is_broken: _,
        } = self;
        disk
    }

    /// Returns the place of the file's empty line, in bytes from the file's start.
    pub fn end(&self) -> usize
        ensures { result ≡ self.now.end }
    {
        self.end
    }

    /// Returns the number of lines before the empty one.
    pub fn lines(&self) -> u64
        ensures { result ≡ self.now.lines }
    {
        self.lines
    }

    /// Returns whether it is broken: it takes no batch any more.
    pub fn is_broken(&self) -> bool
        ensures { result ≡ self.now.is_broken }
    {
        self.is_broken
    }

    /// States that its file is so many lines and an empty one, all of it on the disk, unless it is
    /// broken. Costs nothing at run time.
    pub fn is_steady(&self)
        ensures { D.is_modelled → IsReady D.known D.seen D.may_leave self.now }
    {
        let _sound = !self.is_broken;
    }

    /// Appends the batch's lines, all of them or none, and syncs them. `Ok` acknowledges the batch:
    /// from then on each crash leaves a file that has it, and the path named that file after the
    /// sync. `free` lines of the limit stay unused (`TooManyLines` otherwise).
    ///
    /// After `LineTooLong`, `TooManyLines` and `OutOfMemory` the journal is as it was; after
    /// `Changed`, `Unnamed` and `Failed` it is broken; a broken one returns `Broken`.
    pub fn append(&mut self, alloc: Global, batch: &[Record], free: u64) -> Result<(), AppendError>
        requires { All HasLine batch.now }

        ensures acknowledged { D.is_modelled → OnOk result (said (D.seen self.new.disk) ≡ with_batch batch.now (said (D.seen self.old.disk))) }
        ensures named { D.is_modelled → OnOk result (D.named self.new.disk true) }
        ensures goes_on { OnOk result (self.new.is_broken ≡ false) }

        // A crash at any moment of the call leaves a file that says what it said before, or that with the whole batch.
        ensures any_moment { D.is_modelled → self.old.is_broken ≡ false → LeavesOnly D.moment D.left_since D.may_leave self.old.disk self.new.disk
            (IsBeforeOrAfter (said (D.seen self.old.disk)) batch.now) }

        ensures refused { IfErr result (λ e. is_refusal e ≡ true → self.new ≡ self.old) }
        ensures then_broken { IfErr result (λ e. is_refusal e ≡ false → self.new.is_broken ≡ true) }
        ensures broken { self.old.is_broken ≡ true → (result ≡ Err AppendError.Broken) × (self.new ≡ self.old) }

        // Each refusal comes only where its cause stands; that for too many lines wherever it does, and no batch is taken
        // that has a line which is too long.
        ensures cause { IfErr result (λ e. HasCause D.is_modelled D.faults D.named self.old batch.now free e self.new) }
        ensures many { self.old.is_broken ≡ false → LOG_LINES - free - self.old.lines < length batch.now → result ≡ Err AppendError.TooManyLines }
        ensures short { OnOk result (All (λ r. length (line_text r) ≤ LINE_LIMIT) batch.now) }
    {
        if self.is_broken {
            return Err(AppendError::Broken);
        }
        let count = batch.len() as u64;
        if count > LOG_LINES.saturating_sub(free).saturating_sub(self.lines) {
            return Err(AppendError::TooManyLines);
        }
        let mut text = lines_of(alloc, batch)?;
        text.push(b'\n')?;
        self.is_broken = true;
        put_named(&mut self.disk, self.end, &text)?;
        self.end += text.len() - 1;
        self.lines += count;
        self.is_broken = false;
        Ok(())
    }

    /// Returns all bytes of the file. Changes nothing, even if it fails.
    pub fn read(&mut self, alloc: Global) -> Result<Vec<u8>, DiskError>
        ensures bytes { D.is_modelled → self.old.is_broken ≡ false → IfOk result (λ bytes. bytes.items ≡ D.seen self.old.disk) }
        ensures same { self.new ≡ record self.old { disk = self.new.disk } }
        ensures seen { D.is_modelled → self.old.is_broken ≡ false → D.seen self.new.disk ≡ D.seen self.old.disk }
        ensures any_moment { D.is_modelled → self.old.is_broken ≡ false → LeavesOnly D.moment D.left_since D.may_leave self.old.disk self.new.disk (λ c. c ≡ D.seen self.old.disk) }
        ensures fault { IfErr result (λ e. D.faults self.old.disk e self.new.disk) }
    {
        self.disk.read(alloc)
    }

    /// Breaks the journal: it takes no batch any more.
    pub fn give_up(&mut self)
        ensures { self.new ≡ record self.old { is_broken = true } }
    {
        self.is_broken = true;
    }
}

impl<D: Renewable> Journal<D> {
    /// Replaces the file by a new one of these bytes: `lines` lines and an empty one behind them.
    /// After `Kept` the journal is as it was. After `Lost` the new file may be in place or not, and
    /// the journal is broken.
    pub fn renew(&mut self, bytes: &[u8], lines: u64) -> Result<(), RenewError>
        requires sound { self.old.is_broken ≡ false }
        requires some { 0 < length bytes.now }
        requires log { D.is_modelled → IsEndedLog bytes.now lines }
        ensures renewed { D.is_modelled → OnOk result (D.seen self.new.disk ≡ bytes.now) }
        ensures lines { OnOk result (self.new ≡ record { disk = self.new.disk; «end» = length bytes.now - 1; lines = lines; is_broken = false }) }
        ensures refused { IfErr result (λ e. IsLostOrKept D.is_modelled D.seen self.old e self.new) }

        // A crash at any moment leaves the file as it was, or the new one.
        ensures any_moment { D.is_modelled → LeavesOnly D.moment D.left_since D.may_leave self.old.disk self.new.disk
            (λ c. (c ≡ D.seen self.old.disk) ⊎ (c ≡ bytes.now)) }

        ensures fault { IfErr result (λ e. D.renewals self.old.disk e self.new.disk) }
    {
        self.is_broken = true;
        match self.disk.renew(bytes) {
            Ok(()) => {
                self.end = bytes.len() - 1;
                self.lines = lines;
                self.is_broken = false;
                Ok(())
            }
            Err(RenewError::Kept(error)) => {
                self.is_broken = false;
                Err(RenewError::Kept(error))
            }
            Err(RenewError::Lost) => Err(RenewError::Lost),
        }
    }
}
