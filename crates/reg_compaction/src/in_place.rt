// Compacting the file of a journal, in its place.
ghost use Rattle.std.specs.Prelude.{◌≡◌, ◌≢◌, ◌⊎◌, ◌≤◌, ◌<◌, ◌-◌, true, false, None, Err, IfErr, IfOk, IfSome, OnOk};
ghost use Rattle.reg_journal.specs.Disk.{GaveFault, LeavesOnly};
ghost use Rattle.reg_records.specs.declared.limits.TheConstants.{OFFSET_LIMIT};
ghost use Rattle.reg_compaction.specs.Compacted.{IsCompacted};
ghost use Rattle.reg_compaction.specs.CompactedTo.{HasKept};
ghost use Rattle.reg_compaction.specs.InPlace.{IsAsItWas, IsBeforeOrCompacted, IsShrunk, breaks};

use crate::shrinking::{Shrunk, read_shrunk};
use reg_journal::{DiskError, Journal, RenewError, Renewable, lines_are_logs};
use std::alloc::{AllocFailed, Global};

/// An error of compacting a journal's file. A *broken* journal takes no batch any more.
#[derive(Clone, Copy, Debug, PartialEq, Eq)]
pub enum JournalCompactError {
    /// Memory was refused. The journal is as it was, and goes on.
    OutOfMemory,
    /// The disk failed: the file couldn't be read, or the new one couldn't be finished. The journal
    /// is as it was, and goes on.
    Failed,
    /// Reading the bytes of the file in memory failed, which bytes in memory don't do. The journal
    /// is as it was, and goes on.
    Unread,
    /// The file isn't what the journal left, which no modelled disk causes. The journal is broken.
    Changed,
    /// The new file may be in place or not. The journal is broken.
    Lost,
    /// The journal was broken before.
    Broken,
}

impl From<DiskError> for JournalCompactError {
    ghost use Rattle.std.specs.Prelude.{◌≡◌};
    ghost use Rattle.reg_compaction.specs.InPlace.{disk_refusal};

    ghost from_gives = { λ error e. e ≡ disk_refusal error };

    fn from(error: DiskError) -> JournalCompactError {
        match error {
            DiskError::OutOfMemory => JournalCompactError::OutOfMemory,
            DiskError::Failed => JournalCompactError::Failed,
        }
    }
}

impl From<RenewError> for JournalCompactError {
    ghost use Rattle.std.specs.Prelude.{◌≡◌};
    ghost use Rattle.reg_compaction.specs.InPlace.{renew_refusal};

    ghost from_gives = { λ error e. e ≡ renew_refusal error };

    fn from(error: RenewError) -> JournalCompactError {
        match error {
            RenewError::Kept(error) => JournalCompactError::from(error),
            RenewError::Lost => JournalCompactError::Lost,
        }
    }
}

impl<T: Drop> From<AllocFailed<T>> for JournalCompactError {
    ghost use Rattle.std.specs.Prelude.{◌≡◌};
    ghost use Rattle.reg_compaction.specs.declared.in_place.JournalCompactError.TheVariants.{OutOfMemory};

    ghost from_gives = { λ _ e. e ≡ OutOfMemory };

    fn from(_refused: AllocFailed<T>) -> JournalCompactError {
        JournalCompactError::OutOfMemory
    }
}

impl JournalCompactError {
    /// Returns whether this error leaves the journal broken: it takes no batch any more.
    pub fn breaks(self) -> bool
        ensures { result ≡ breaks self }
    {
        match self {
            JournalCompactError::OutOfMemory
            | JournalCompactError::Failed
            | JournalCompactError::Unread => false,
            JournalCompactError::Changed
            | JournalCompactError::Lost
            | JournalCompactError::Broken => true,
        }
    }
}

/// Compacts the file of a journal in its place, at its own floor, and returns how many lines it
/// then has. A crash during the call leaves a file that says what it said before, or its
/// compaction.
pub fn compact_journal<D: Renewable>(
    alloc: Global,
    journal: &mut Journal<D>,
) -> Result<u64, JournalCompactError>
    ensures compacted { D.is_modelled → IfOk result (λ lines. IsCompacted (D.seen journal.old.disk) (D.seen journal.new.disk) × (journal.new.lines ≡ lines)) }

    // A crash at any moment of the call leaves a file that says what it said before, or a compaction of it.
    ensures any_moment { D.is_modelled → journal.old.is_broken ≡ false → LeavesOnly D.moment D.left_since D.may_leave journal.old.disk journal.new.disk
        (IsBeforeOrCompacted None (D.seen journal.old.disk)) }

    ensures refused { IfErr result (λ e. breaks e ≡ false → IsAsItWas D.is_modelled D.seen journal.old journal.new) }
    ensures then_broken { IfErr result (λ e. breaks e ≡ true → journal.new.is_broken ≡ true) }
    ensures changed { D.is_modelled → IfErr result (λ e. e ≢ JournalCompactError.Changed) }
    ensures sound { OnOk result (journal.new.is_broken ≡ false) }
    ensures was_broken { D.is_modelled → IfErr result (λ e. e ≡ JournalCompactError.Broken → journal.old.is_broken ≡ true) }

    // It is lost only where a renewal gave a fault, and failed only where the disk or a renewal gave one.
    ensures lost { D.is_modelled → IfErr result (λ e. e ≡ JournalCompactError.Lost → GaveFault D.renewals journal.new.disk) }
    ensures failed { IfErr result (λ e. e ≡ JournalCompactError.Failed → GaveFault D.faults journal.new.disk ⊎ GaveFault D.renewals journal.new.disk) }
    ensures broken { journal.old.is_broken ≡ true → (result ≡ Err JournalCompactError.Broken) × (journal.new ≡ journal.old) }
{
    compact_superseded(alloc, journal, 0, None)
}

/// Compacts the file of a journal in its place if that drops at least `least` lines, and returns
/// how many lines a compaction keeps. It compacts to `floor`, or at the file's own floor if `floor`
/// is `None` or the file can't have it. A crash during the call leaves a file that says what it
/// said before, or its compaction.
pub fn compact_superseded<D: Renewable>(
    alloc: Global,
    journal: &mut Journal<D>,
    least: u64,
    floor: Option<u64>,
) -> Result<u64, JournalCompactError>
    requires { IfSome floor (λ f. f ≤ OFFSET_LIMIT) }
    ensures kept { D.is_modelled → IfOk result (HasKept floor (D.seen journal.old.disk)) }
    ensures few { IfOk result (λ kept. journal.old.lines - kept < least → IsAsItWas D.is_modelled D.seen journal.old journal.new) }
    ensures many { IfOk result (λ kept. least ≤ journal.old.lines - kept → IsShrunk D.is_modelled D.seen floor journal.old kept journal.new) }

    // Unless the journal is broken then, its file says what it said before, or a compaction of it; a crash at any moment
    // of the call leaves such a file.
    ensures left { D.is_modelled → journal.new.is_broken ≡ false → IsBeforeOrCompacted floor (D.seen journal.old.disk) (D.seen journal.new.disk) }
    ensures any_moment { D.is_modelled → journal.old.is_broken ≡ false → LeavesOnly D.moment D.left_since D.may_leave journal.old.disk journal.new.disk
        (IsBeforeOrCompacted floor (D.seen journal.old.disk)) }

    ensures refused { IfErr result (λ e. breaks e ≡ false → IsAsItWas D.is_modelled D.seen journal.old journal.new) }
    ensures then_broken { IfErr result (λ e. breaks e ≡ true → journal.new.is_broken ≡ true) }
    ensures changed { D.is_modelled → IfErr result (λ e. e ≢ JournalCompactError.Changed) }
    ensures sound { OnOk result (journal.new.is_broken ≡ false) }
    ensures was_broken { D.is_modelled → IfErr result (λ e. e ≡ JournalCompactError.Broken → journal.old.is_broken ≡ true) }

    // It is lost only where a renewal gave a fault, and failed only where the disk or a renewal gave one.
    ensures lost { D.is_modelled → IfErr result (λ e. e ≡ JournalCompactError.Lost → GaveFault D.renewals journal.new.disk) }
    ensures failed { IfErr result (λ e. e ≡ JournalCompactError.Failed → GaveFault D.faults journal.new.disk ⊎ GaveFault D.renewals journal.new.disk) }
    ensures broken { journal.old.is_broken ≡ true → (result ≡ Err JournalCompactError.Broken) × (journal.new ≡ journal.old) }
{
    if journal.is_broken() {
        return Err(JournalCompactError::Broken);
    }
    journal.is_steady();
    lines_are_logs();
    let Shrunk { bytes, kept } = match read_shrunk(alloc, journal, floor) {
        Ok(shrunk) => shrunk,
        Err(error) => return Err(error),
    };
    if journal.lines().saturating_sub(kept) < least {
        return Ok(kept);
    }
    if let Err(error) = journal.renew(&bytes, kept) {
        return Err(JournalCompactError::from(error));
    }
    Ok(kept)
}
