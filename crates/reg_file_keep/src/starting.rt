// Starting over the log of a file.
ghost use Rattle.std.specs.Prelude.{◌≡◌, IfErr, IfOk, false};
ghost use Rattle.reg_journal.specs.Disk.{LeavesOnly, Only};
ghost use Rattle.reg_journal.specs.Lines.{said};
ghost use Rattle.reg_compaction.specs.Aside.{GaveFaultAside};
ghost use Rattle.reg_compaction.specs.Said.{SaysCompaction};
ghost use Rattle.reg_file_keep.specs.LogKeep.{IsOpen};
ghost use Rattle.reg_file_keep.specs.Marked.{IsLogSaid, MarkCovers, marked};
ghost use Rattle.reg_file_keep.specs.NotStarted.{HasStartCause};
ghost use Rattle.reg_file_keep.specs.Starting.{LosesNothing};

use crate::keeping::FileKeep;
use crate::laws::marks_cover_ids;
use crate::log_keep::LogKeep;
use crate::marking::{Marked, open_marked};
use crate::room::Room;
use reg_compaction::{Aside, Opens, compactions_stand_for_logs};
use reg_journal::{AppendError, Disk, JournalOpenError, Renewable};
use reg_pen::KeptLog;
use std::alloc::Global;

/// The start makes room for this many lines, so that the first commands don't wait for a
/// compaction.
const FIRST_LINES: u64 = 1_000;

/// The result of a start over a file.
#[derive(Drop)]
pub struct Started<D: Renewable + Drop> {
    /// The log of the file, and the open keep at its end.
    pub kept: KeptLog<LogKeep<D>>,
    /// The position of the file's empty line before the file was compacted, in bytes.
    pub end: usize,
    /// How many bytes followed the log; they are in the other file now.
    pub cut: usize,
    /// The id of the mark that the log lacked and that was appended to it, if one was.
    pub mark: Option<u32>,
}

/// Why nothing was started.
#[derive(Clone, Copy, Debug, PartialEq, Eq)]
pub enum StartFault {
    /// The file isn't a log, or the disk failed, or memory was refused.
    Log(JournalOpenError),
    /// The mark of ids that the log lacks wasn't acknowledged.
    Mark(AppendError),
}

/// Why nothing was started, and the disk.
#[derive(Drop)]
pub struct NotStarted<D: Drop> {
    /// The disk, for the caller to go on with.
    pub disk: D,
    /// The error.
    pub error: StartFault,
}

/// Reads the log of a file, ends it with an empty line, and moves what follows to `aside`. If the
/// log has no mark of ids, can be served, and any record names an id above all that its versions
/// have, a mark of the greatest such id is appended. Compacts the file if that is due.
///
/// Fails if the file isn't a log, if the disk fails, if no line is left for the mark, or if memory is
/// refused; nothing is lost then.
pub fn start_file_keep<D: Renewable + Drop, A: Disk + Drop, O: Opens<A>>(
    alloc: Global,
    disk: D,
    aside: &mut Aside<A, O>,
) -> Result<Started<D>, NotStarted<D>>
    requires { D.is_modelled → D.known disk }

    // The log is what the file said, with the mark of ids that it lacked behind it. If the file has no mark, each id that a
    // record of it names is at most the greatest that the log marks or a version has: no such id is given to a new schema.
    ensures log { D.is_modelled → IfOk result (λ it. IsLogSaid (marked (said (D.seen disk))) it.kept.log) }
    ensures covers { D.is_modelled → IfOk result (λ it. MarkCovers (said (D.seen disk)) it.kept.log) }

    // The keep is at its end and isn't broken: its file says a compaction of it, all of it on the
    // disk.
    ensures kept { D.is_modelled → IfOk result (λ it. IsOpen it.kept.keep (λ keep. SaysCompaction (marked (said (D.seen disk))) (said (D.seen keep.journal.disk)))) }
    ensures durable { D.is_modelled → IfOk result (λ it. IsOpen it.kept.keep (λ keep. Only (D.seen keep.journal.disk) (D.may_leave keep.journal.disk))) }
    ensures sound { IfOk result (λ it. IsOpen it.kept.keep (λ keep. keep.journal.is_broken ≡ false)) }
    ensures next { IfOk result (λ it. IsOpen it.kept.keep (λ keep. keep.next ≡ it.kept.log.next)) }

    // A crash at any moment leaves what it might have left before, a file with all bytes that were
    // there, one that says the same, or one that says a compaction of what it said with that mark.
    ensures any_moment { D.is_modelled → IfOk result (λ it. IsOpen it.kept.keep (λ keep. LeavesOnly D.moment D.left_since D.may_leave disk keep.journal.disk
        (LosesNothing (D.may_leave disk) (D.seen disk)))) }

    // If nothing is started, nothing is lost.
    ensures left { D.is_modelled → IfErr result (λ it. LeavesOnly D.moment D.left_since D.may_leave disk it.disk
        (LosesNothing (D.may_leave disk) (D.seen disk))) }

    // The log has the fault that is told, the mark that it lacks wasn't acknowledged, for a cause that the journal gives, or memory was refused;
    // it failed only if the disk, or the other disk or its opener, gave a fault.
    ensures cause { D.is_modelled → IfErr result (λ it. HasStartCause D.is_modelled D.known D.seen D.may_leave D.faults D.renewals D.named
        (GaveFaultAside A.faults O.failures aside.new.opener aside.new.disk) disk it.error it.disk) }
{
    compactions_stand_for_logs();
    marks_cover_ids();
    let Marked {
        log,
        journal,
        end,
        cut,
        mark,
    } = match open_marked(alloc, disk, aside) {
        Ok(opened) => opened,
        Err(fault) => return Err(fault),
    };
    let room = Room::of_log(alloc, &log, journal.lines(), FIRST_LINES);
    let mut keep = FileKeep::new(alloc, journal, log.floor, log.next, room);
    keep.make_room(FIRST_LINES);
    if keep.journal().is_broken() {
        return Err(NotStarted {
            disk: keep.into_disk(),
            error: StartFault::Log(JournalOpenError::Failed),
        });
    }
    keep.journal().is_steady();
    let kept = KeptLog::new(log, LogKeep::Open(keep));
    Ok(Started {
        kept,
        end,
        cut,
        mark,
    })
}
