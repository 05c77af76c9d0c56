// What a keep knows of its file, and making room in the file.
ghost use Rattle.std.specs.Prelude.{◌≡◌, ◌⊎◌, ◌<◌, ◌≤◌, ◌-◌, max, None, Some, true, false};
ghost use Rattle.reg_journal.specs.Disk.{GaveFault, LeavesOnly};
ghost use Rattle.reg_journal.specs.Lines.{said};
ghost use Rattle.reg_compaction.specs.Said.{SaysCompaction};
ghost use Rattle.reg_file_keep.specs.Keeping.{HasFloorUpTo, Tries, WasCompacted, says_compaction};
ghost use Rattle.reg_file_keep.specs.Next.{next_behind};
ghost use Rattle.reg_file_keep.specs.Upkeep.{after_count, state_of};

use crate::room::Room;
use reg_compaction::{JournalCompactError, compact_superseded, compactions_stand_for_logs};
use reg_journal::{Journal, Renewable, lines_are_logs};
use reg_records::{OFFSET_LIMIT, Record};
use std::alloc::Global;

/// What a keep knows of its file.
#[derive(Clone, Copy, Debug, PartialEq, Eq)]
pub(crate) struct Upkeep {
    /// What is known of the file's lines.
    pub room: Room,
    /// The floor of the next compaction of the file: the next offset at its last compaction, or at
    /// first the file's own floor. So each delete survives at least one compaction.
    pub floor: u64,
    /// The next offset.
    pub next: u64,
    /// Why the file couldn't be compacted at the last try; `None` if it could.
    pub fault: Option<JournalCompactError>,
}

impl Upkeep {
    /// Makes what is known of a file with this floor and this next offset.
    pub(crate) fn new(floor: u64, next: u64, room: Room) -> Upkeep
        ensures { result ≡ record { room = room; floor = floor; next = next; fault = None } }
    {
        Upkeep {
            room,
            floor,
            next,
            fault: None,
        }
    }

    /// Notes that the batch was appended.
    pub(crate) fn append(&mut self, batch: &[Record])
        ensures { self.new ≡ record self.old { next = next_behind self.old.next batch.now } }
    {
        for given in batch {
            self.next = self.next.max(given.offset.saturating_add(1));
        }
    }

    /// Notes a count: `kept` of the file's `lines` lines stay, and the file was compacted if at
    /// least `least` lines were dropped.
    fn count(&mut self, kept: u64, lines: u64, least: u64)
        ensures count { self.new ≡ after_count self.old kept lines least }
        ensures patience { self.new.room.patience ≡ 0 }
        ensures floor { (self.new.floor ≡ self.old.floor) ⊎ ((self.new.floor ≡ max self.old.floor self.old.next) × (least ≤ lines - kept)) }
        ensures rises { self.old.floor ≤ self.new.floor }
        ensures next { self.new.next ≡ self.old.next }
        ensures fault { self.new.fault ≡ None }
    {
        self.fault = None;
        if lines.saturating_sub(kept) < least {
            self.room = Room::counted(kept, lines);
            return;
        }
        self.room = Room::left(kept);
        self.floor = self.floor.max(self.next);
    }

    /// Notes that the file couldn't be compacted.
    fn fail(&mut self, error: JournalCompactError)
        ensures { self.new ≡ record self.old { room = record self.old.room { patience = 1000 }; fault = Some error } }
    {
        self.room.wait();
        self.fault = Some(error);
    }
}

/// Compacts the file of a journal if that is due before a batch of `lines` lines is appended.
pub(crate) fn make_room<D: Renewable>(
    alloc: Global,
    journal: &mut Journal<D>,
    upkeep: &mut Upkeep,
    lines: u64,
)
    requires { D.is_modelled → HasFloorUpTo D.seen upkeep.old.floor journal.old }
    ensures says { D.is_modelled → journal.new.is_broken ≡ false → SaysCompaction (said (D.seen journal.old.disk)) (said (D.seen journal.new.disk)) }
    ensures low { D.is_modelled → HasFloorUpTo D.seen upkeep.old.floor journal.new }
    ensures still { 0 < upkeep.old.room.patience → journal.new ≡ journal.old }
    ensures next { upkeep.new.next ≡ upkeep.old.next }
    ensures tries { journal.old.is_broken ≡ false → Tries (WasCompacted D.is_modelled D.seen (state_of journal.old upkeep.old) (state_of journal.new upkeep.new))
        (GaveFault D.faults journal.new.disk ⊎ GaveFault D.renewals journal.new.disk) (state_of journal.old upkeep.old) (state_of journal.new upkeep.new) }
    ensures lost { D.is_modelled → journal.old.is_broken ≡ false → journal.new.is_broken ≡ true → GaveFault D.renewals journal.new.disk }
    ensures any_moment { D.is_modelled → journal.old.is_broken ≡ false → LeavesOnly D.moment D.left_since D.may_leave journal.old.disk journal.new.disk (says_compaction (said (D.seen journal.old.disk))) }
    ensures rises { upkeep.old.floor ≤ upkeep.new.floor }
    ensures broken { journal.old.is_broken ≡ true → (journal.new ≡ journal.old) × (upkeep.new ≡ upkeep.old) }
{
    if journal.is_broken() {
        return;
    }
    journal.is_steady();
    lines_are_logs();
    compactions_stand_for_logs();
    if upkeep.room.waits() {
        return;
    }
    let before = journal.lines();
    let Some(least) = upkeep.room.due(before, lines) else {
        return;
    };
    let floor = Some(upkeep.floor.min(OFFSET_LIMIT));
    match compact_superseded(alloc, journal, least, floor) {
        Ok(kept) => upkeep.count(kept, before, least),
        Err(error) => upkeep.fail(error),
    }
}
