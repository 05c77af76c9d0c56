// A keep that appends each batch to a log in a file.
ghost use Rattle.std.specs.Prelude.{◌≡◌, ◌↔◌, ◌≤◌, All, IsTrue, None, true, false};
ghost use Rattle.reg_records.specs.Written.{HasLine};
ghost use Rattle.reg_journal.specs.Disk.{LeavesOnly};
ghost use Rattle.reg_journal.specs.Lines.{said};
ghost use Rattle.reg_file_keep.specs.Keeping.{HasFloorUpTo, KeepsFile, MakesRoom, free_behind, is_mark, kept_of, says_compaction};
ghost use Rattle.reg_file_keep.specs.Starting.{StandsAt};

use crate::room::Room;
use crate::upkeep::{Upkeep, make_room};
use reg_compaction::{JournalCompactError, compactions_stand_for_logs};
use reg_journal::{AppendError, Journal, Renewable, lines_are_logs};
use reg_pen::{Keep, Kept, Lack};
use reg_records::{Key, Record, has_line};
use std::alloc::Global;
use std::marker::Model;

/// A keep (what makes a pen's batches durable) over a log in a file: a batch that it takes is
/// appended to the file and is on the disk. The file is compacted if that drops many of its lines:
/// superseded records, and deletes older than the compaction before. Contracts see the journal, the
/// floor of the next compaction, the next offset, and whether the last compaction failed.
#[derive(Drop)]
pub struct FileKeep<D: Renewable + Drop> {
    alloc: Global,
    journal: Journal<D>,
    upkeep: Upkeep,
}

impl<D: Renewable + Drop> Model for FileKeep<D> {
    ghost use Rattle.reg_file_keep.specs.KeepState.{KeepState};

    ghost Value = { KeepState D };

    ghost use Rattle.reg_file_keep.specs.Keeping.{HasFloorUpTo};
    ghost use Rattle.reg_file_keep.specs.Upkeep.{state_of};

    ghost view = { λ k. state_of k.journal k.upkeep };

    ghost invariant = { λ k. D.is_modelled → HasFloorUpTo D.seen k.upkeep.floor k.journal };
}

impl<D: Renewable + Drop> FileKeep<D> {
    /// Makes a keep over a journal whose file has this floor and this next offset; `room` is what
    /// is known of its lines. Only [`crate::start_file_keep`] makes one.
    pub(crate) fn new(
        alloc: Global,
        journal: Journal<D>,
        floor: u64,
        next: u64,
        room: Room,
    ) -> FileKeep<D>
        requires floor { D.is_modelled → HasFloorUpTo D.seen floor journal }
        requires room { room.patience ≡ 0 }
        ensures { result ≡ record { journal = journal; floor = floor; next = next; patience = 0; fault = None } }
    {
        FileKeep {
            alloc,
            journal,
            upkeep: Upkeep::new(floor, next, room),
        }
    }

    /// Returns the journal.
    pub fn journal(&self) -> &Journal<D>
        ensures { result.now ≡ self.now.journal }
    {
        &self.journal
    }

    /// Gives back the disk.
    pub(crate) fn into_disk(self) -> D
        ensures { result ≡ self.journal.disk }
    {
        let FileKeep {
            alloc: _,
            journal,
            upkeep: _,
        } = self;
        journal.into_disk()
    }

    /// Returns why the file couldn't be compacted at the last try; `None` if it could.
    pub fn compaction_fault(&self) -> Option<JournalCompactError>
        ensures { result ≡ self.now.fault }
    {
        self.upkeep.fault
    }

    /// Compacts the file if that is due before a batch of `lines` lines is appended. A crash at any
    /// moment leaves a file that says what it said, or a compaction of that.
    pub(crate) fn make_room(&mut self, lines: u64)
        ensures room { self.old.journal.is_broken ≡ false → MakesRoom D.is_modelled D.seen D.faults D.renewals self.old self.new }
        ensures any_moment { D.is_modelled → self.old.journal.is_broken ≡ false → LeavesOnly D.moment D.left_since D.may_leave self.old.journal.disk self.new.journal.disk (says_compaction (said (D.seen self.old.journal.disk))) }
        ensures broken { self.old.journal.is_broken ≡ true → self.new ≡ self.old }
    {
        make_room(self.alloc, &mut self.journal, &mut self.upkeep, lines);
    }
}

impl<D: Renewable + Drop> Keep for FileKeep<D> {
    ghost keeps = { KeepsFile D.is_modelled D.moment D.left_since D.may_leave D.seen D.faults D.renewals D.named };

    ghost stands = { StandsAt D.is_modelled D.may_leave D.seen };

    fn keep(&mut self, batch: &[Record]) -> Kept {
        compactions_stand_for_logs();
        lines_are_logs();
        if self.journal.is_broken() {
            return Kept::Lost;
        }
        self.journal.is_steady();
        if !can_stand(batch, self.upkeep.floor) {
            return Kept::Declined(Lack::Numbers);
        }
        let free = free_behind(batch);
        let lines = (batch.len() as u64).saturating_add(free);
        make_room(self.alloc, &mut self.journal, &mut self.upkeep, lines);
        match self.journal.append(self.alloc, batch, free) {
            Ok(()) => {
                self.upkeep.append(batch);
                self.journal.is_steady();
                Kept::Taken
            }
            Err(error) => {
                self.journal.is_steady();
                kept_of(error)
            }
        }
    }
}

/// Returns how many lines have to stay free after a batch: one, for the id mark that the next start
/// may owe; none after that mark itself.
fn free_behind(batch: &[Record]) -> u64
    ensures { result ≡ free_behind batch.now }
{
    if is_mark(batch) { 0 } else { 1 }
}

/// Returns whether the batch is an id mark and nothing else, as a start may owe it. No command
/// writes such a batch.
pub(crate) fn is_mark(batch: &[Record]) -> bool
    ensures { result ≡ is_mark batch.now }
{
    match batch {
        [record] => matches!(record.key, Key::IdMark),
        _ => false,
    }
}

/// Returns whether each record fits into a line and none is below the floor.
fn can_stand(batch: &[Record], floor: u64) -> bool
    ensures { IsTrue result ↔ (All HasLine batch.now × All (λ r. floor ≤ r.offset) batch.now) }
{
    have_lines(batch) && are_from(batch, floor)
}

/// Returns whether each record fits into a line.
fn have_lines(batch: &[Record]) -> bool
    ensures { IsTrue result ↔ All HasLine batch.now }
{
    batch.iter().all(|given| has_line(given))
}

/// Returns whether no record is below the floor.
fn are_from(batch: &[Record], floor: u64) -> bool
    ensures { IsTrue result ↔ All (λ r. floor ≤ r.offset) batch.now }
{
    batch.iter().all(|given| floor <= given.offset)
}

/// Returns what became of a batch that the journal didn't acknowledge.
fn kept_of(error: AppendError) -> Kept
    ensures { result ≡ kept_of error }
{
    match error {
        AppendError::OutOfMemory => Kept::Declined(Lack::Memory),
        AppendError::LineTooLong | AppendError::TooManyLines => Kept::Declined(Lack::Numbers),
        AppendError::Changed | AppendError::Unnamed | AppendError::Failed | AppendError::Broken =>
            Kept::Lost,
    }
}
