// What compacting makes of the file of a journal.
ghost use Rattle.std.specs.Prelude.{◌≡◌, ◌≢◌, ◌≤◌, ◌<◌, ◌++◌, ◌∷◌, [], false, length, count_by, IfErr, IfOk, IfSome, OnOk};
ghost use Rattle.reg_journal.specs.Disk.{GaveFault, LeavesOnly};
ghost use Rattle.reg_records.specs.Line.{is_line_feed};
ghost use Rattle.reg_records.specs.declared.limits.TheConstants.{OFFSET_LIMIT};
ghost use Rattle.reg_compaction.specs.InPlace.{breaks};
ghost use Rattle.reg_compaction.specs.Shrunk.{IsNoShrinking, ShrinksTo};
ghost use Rattle.reg_compaction.specs.declared.in_place.JournalCompactError.TheVariants.{OutOfMemory};

use crate::cutting::count_lines;
use crate::in_place::JournalCompactError;
use crate::to_floor::compacted_by;
use reg_journal::{Disk, Journal};
use reg_records::LogError;
use std::alloc::Global;

/// The bytes of a compacted file, with its empty line, and the number of lines before that.
#[derive(Drop)]
pub(crate) struct Shrunk {
    pub bytes: Vec<u8>,
    pub kept: u64,
}

/// Reads the file of a journal and compacts those bytes. If the file isn't what the journal left,
/// the journal is broken.
pub(crate) fn read_shrunk<D: Disk>(
    alloc: Global,
    journal: &mut Journal<D>,
    floor: Option<u64>,
) -> Result<Shrunk, JournalCompactError>
    requires sound { journal.old.is_broken ≡ false }
    requires floor { IfSome floor (λ f. f ≤ OFFSET_LIMIT) }
    ensures shrinks { D.is_modelled → IfOk result (ShrinksTo floor (D.seen journal.old.disk) journal.old.end) }
    ensures some { IfOk result (λ shrunk. 0 < length shrunk.bytes.items) }
    ensures refused { D.is_modelled → IfErr result (IsNoShrinking (D.seen journal.old.disk) journal.old.end) }
    ensures goes_on { OnOk result (journal.new.is_broken ≡ false) }
    ensures broken { IfErr result (λ e. journal.new.is_broken ≡ breaks e) }
    ensures end { journal.new.end ≡ journal.old.end }
    ensures lines { journal.new.lines ≡ journal.old.lines }
    ensures seen { D.is_modelled → D.seen journal.new.disk ≡ D.seen journal.old.disk }
    ensures any_moment { D.is_modelled → LeavesOnly D.moment D.left_since D.may_leave journal.old.disk journal.new.disk (λ c. c ≡ D.seen journal.old.disk) }

    // It failed only where the disk gave a fault.
    ensures fault { IfErr result (λ e. e ≡ JournalCompactError.Failed → GaveFault D.faults journal.new.disk) }
{
    let file = journal.read(alloc)?;
    match shrink(alloc, &file, journal.end(), floor) {
        Ok(shrunk) => Ok(shrunk),
        Err(error) => {
            give_up_at(journal, error);
            Err(error)
        }
    }
}

/// Breaks the journal if the error does.
fn give_up_at<D: Disk>(journal: &mut Journal<D>, error: JournalCompactError)
    requires { journal.old.is_broken ≡ false }
    ensures { journal.new ≡ record journal.old { is_broken = breaks error } }
{
    if error.breaks() {
        journal.give_up();
    }
}

fn shrink(
    alloc: Global,
    file: &[u8],
    end: usize,
    floor: Option<u64>,
) -> Result<Shrunk, JournalCompactError>
    requires { IfSome floor (λ f. f ≤ OFFSET_LIMIT) }
    ensures shrinks { IfOk result (ShrinksTo floor file.now end) }
    ensures some { IfOk result (λ shrunk. 0 < length shrunk.bytes.items) }
    ensures refused { IfErr result (IsNoShrinking file.now end) }
    ensures itself { IfErr result (λ e. e ≢ JournalCompactError.Failed) }
{
    if end >= file.len() || file.len() - end != 1 {
        return Err(JournalCompactError::Changed);
    }
    match compacted_by(alloc, &file[..end], floor) {
        Ok(text) => ended(text),
        Err(LogError::OutOfMemory) => Err(JournalCompactError::OutOfMemory),
        Err(LogError::ReadFault { line: _ }) => Err(JournalCompactError::Unread),
        Err(LogError::Fault { line: _, fault: _ }) => Err(JournalCompactError::Changed),
    }
}

/// The text with an empty line behind it, and how many lines it has.
fn ended(text: Vec<u8>) -> Result<Shrunk, JournalCompactError>
    ensures bytes { IfOk result (λ shrunk. shrunk.bytes.items ≡ text.items ++ 10 ∷ []) }
    ensures kept { IfOk result (λ shrunk. shrunk.kept ≡ count_by is_line_feed text.items) }
    ensures refused { IfErr result (λ e. e ≡ OutOfMemory) }
{
    let kept = count_lines(&text);
    let mut bytes = text;
    bytes.push(b'\n')?;
    Ok(Shrunk { bytes, kept })
}
