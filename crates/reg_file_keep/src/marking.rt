// Opening the log of a file, with the mark of ids that it lacks.
ghost use Rattle.std.specs.Prelude.{◌≡◌, ◌⊎◌, ◌∷◌, [], ◌++◌, Ok, IfErr, IfOk, IfSome, OnOk, false, ◌&&◌, nat_lt, not, option_map, option_to_list, suc};
ghost use Rattle.std.specs.FinSet.{from_list};
ghost use Rattle.reg_compaction.specs.Aside.{GaveFaultAside, HasAll};
ghost use Rattle.reg_leader.specs.reg_fold.Closed.{is_closed};
ghost use Rattle.reg_leader.specs.reg_fold.IdMark.{last_id};
ghost use Rattle.reg_journal.specs.Disk.{LeavesOnly};
ghost use Rattle.reg_journal.specs.Lines.{IsBeforeOrAfter, said, with_batch};
ghost use Rattle.reg_journal.specs.Refusals.{HasCause};
ghost use Rattle.reg_records.specs.Written.{HasLine};
ghost use Rattle.reg_leader.specs.reg_set.LastRecords.{last_records};
ghost use Rattle.reg_file_keep.specs.Marked.{IsLogSaid, SaysMarkedOrNot, lacked, marked};
ghost use Rattle.reg_file_keep.specs.NotStarted.{HasStartCause, IsMarkRefusal};

use crate::starting::{NotStarted, StartFault};
use reg_compaction::{Aside, Opens, mark_at, open_aside, unmarked_id};
use reg_journal::{AppendError, Disk, Found, Journal, Renewable, batches_add_records};
use reg_leader::reg_fold::Registry;
use reg_leader::reg_set::RecordSet;
use reg_records::{Log, OFFSET_LIMIT, Record};
use std::alloc::{AllocError, Global};
use std::slice;

/// A log that was opened, and the journal at its end.
#[derive(Drop)]
pub(crate) struct Marked<D: Renewable + Drop> {
    pub log: Log,
    pub journal: Journal<D>,
    /// The position of the file's empty line, in bytes.
    pub end: usize,
    /// How many bytes followed the log; they are in the other file now.
    pub cut: usize,
    /// The id of the mark that was appended, if one was.
    pub mark: Option<u32>,
}

/// Reads the log of a file, ends it with an empty line, moves what follows to `aside`, and appends the mark of ids that
/// the log lacks, if it can be served and names an id above all that its versions have.
pub(crate) fn open_marked<D: Renewable + Drop, A: Disk + Drop, O: Opens<A>>(
    alloc: Global,
    disk: D,
    aside: &mut Aside<A, O>,
) -> Result<Marked<D>, NotStarted<D>>
    requires { D.is_modelled → D.known disk }
    ensures log { D.is_modelled → IfOk result (λ it. IsLogSaid (marked (said (D.seen disk))) it.log) }
    ensures said { D.is_modelled → IfOk result (λ it. said (D.seen it.journal.disk) ≡ marked (said (D.seen disk))) }
    ensures sound { IfOk result (λ it. it.journal.is_broken ≡ false) }
    ensures any_moment { D.is_modelled → IfOk result (λ it. LeavesOnly D.moment D.left_since D.may_leave disk it.journal.disk
        (λ c. HasAll (D.may_leave disk) (D.seen disk) c ⊎ SaysMarkedOrNot (said (D.seen disk)) c)) }
    ensures left { D.is_modelled → IfErr result (λ it. LeavesOnly D.moment D.left_since D.may_leave disk it.disk
        (λ c. HasAll (D.may_leave disk) (D.seen disk) c ⊎ SaysMarkedOrNot (said (D.seen disk)) c)) }
    ensures cause { D.is_modelled → IfErr result (λ it. HasStartCause D.is_modelled D.known D.seen D.may_leave D.faults D.renewals D.named
        (GaveFaultAside A.faults O.failures aside.new.opener aside.new.disk) disk it.error it.disk) }
{
    let mut disk = disk;
    let found = match open_aside(alloc, &mut disk, aside) {
        Ok(found) => found,
        Err(error) => {
            let error = StartFault::Log(error);
            return Err(NotStarted { disk, error });
        }
    };
    let Found {
        log,
        end,
        lines,
        behind,
    } = found;
    let opened = Marked {
        log,
        journal: Journal::over(disk, end, lines),
        end,
        cut: behind.len(),
        mark: None,
    };
    append_lacked(alloc, opened)
}

/// Appends the mark of ids that a log lacks, if any.
fn append_lacked<D: Renewable + Drop>(
    alloc: Global,
    opened: Marked<D>,
) -> Result<Marked<D>, NotStarted<D>>
    requires sound { opened.journal.is_broken ≡ false }
    requires log { D.is_modelled → IsLogSaid (said (D.seen opened.journal.disk)) opened.log }
    ensures log { D.is_modelled → IfOk result (λ it. IsLogSaid (marked (said (D.seen opened.journal.disk))) it.log) }
    ensures said { D.is_modelled → IfOk result (λ it. said (D.seen it.journal.disk) ≡ marked (said (D.seen opened.journal.disk))) }
    ensures sound { IfOk result (λ it. it.journal.is_broken ≡ false) }
    ensures any_moment { D.is_modelled → IfOk result (λ it. (it.journal ≡ opened.journal) ⊎ LeavesOnly D.moment D.left_since D.may_leave
        opened.journal.disk it.journal.disk (SaysMarkedOrNot (said (D.seen opened.journal.disk)))) }
    ensures left { D.is_modelled → IfErr result (λ it. (it.disk ≡ opened.journal.disk) ⊎ LeavesOnly D.moment D.left_since D.may_leave
        opened.journal.disk it.disk (SaysMarkedOrNot (said (D.seen opened.journal.disk)))) }
    ensures cause { D.is_modelled → IfErr result (λ it. (error : AppendError) × (it.error ≡ StartFault.Mark error)
        × IsMarkRefusal D.is_modelled D.known D.seen D.may_leave D.faults D.named opened.journal.disk error it.disk) }
{
    batches_add_records();
    opened.journal.is_steady();
    let Ok(lacked) = lacked_mark(alloc, &opened.log) else {
        return Err(NotStarted {
            disk: opened.journal.into_disk(),
            error: StartFault::Mark(AppendError::OutOfMemory),
        });
    };
    let Some((id, mark)) = lacked else {
        return Ok(opened);
    };
    let Marked {
        log,
        mut journal,
        end: _,
        cut,
        mark: _,
    } = opened;
    match put_mark(alloc, log, &mut journal, mark) {
        Ok(log) => {
            let end = journal.end();
            Ok(Marked {
                log,
                journal,
                end,
                cut,
                mark: Some(id),
            })
        }
        Err(error) => Err(NotStarted {
            disk: journal.into_disk(),
            error: StartFault::Mark(error),
        }),
    }
}

/// Appends a mark to a log and its file.
fn put_mark<D: Disk>(
    alloc: Global,
    log: Log,
    journal: &mut Journal<D>,
    mark: Record,
) -> Result<Log, AppendError>
    requires line { HasLine mark }
    requires place { mark.offset ≡ log.next }
    requires sound { journal.old.is_broken ≡ false }
    ensures appended { D.is_modelled → OnOk result (said (D.seen journal.new.disk) ≡ with_batch (mark ∷ []) (said (D.seen journal.old.disk))) }
    ensures sound { OnOk result (journal.new.is_broken ≡ false) }
    ensures any_moment { D.is_modelled → LeavesOnly D.moment D.left_since D.may_leave journal.old.disk journal.new.disk
        (IsBeforeOrAfter (said (D.seen journal.old.disk)) (mark ∷ [])) }
    ensures cause { IfErr result (λ e. (e ≡ AppendError.OutOfMemory) ⊎ HasCause D.is_modelled D.faults D.named journal.old (mark ∷ []) 0 e journal.new) }
    ensures records { IfOk result (λ it. it.records.items ≡ log.records.items ++ mark ∷ []) }
    ensures next { IfOk result (λ it. it.next ≡ suc log.next) }
    ensures foreign { IfOk result (λ it. it.foreign ≡ log.foreign) }
    ensures floor { IfOk result (λ it. it.floor ≡ log.floor) }
{
    journal.append(alloc, slice::from_ref(&mark), 0)?;
    let Log {
        mut records,
        foreign,
        floor,
        next,
    } = log;
    records.push(mark)?;
    Ok(Log {
        records,
        foreign,
        floor,
        next: next + 1,
    })
}

/// Returns the mark that a log lacks, with its id; `None` if it lacks none that the pen won't write by itself, can't be
/// served, or has no offset left.
fn lacked_mark(alloc: Global, log: &Log) -> Result<Option<(u32, Record)>, AllocError>
    ensures mark { IfOk result (λ found. lacked log.now.records.items log.now.next ≡ option_to_list (option_map (λ it. it.1) found)) }
    ensures line { IfOk result (λ found. IfSome found (λ it. HasLine it.1)) }
    ensures place { IfOk result (λ found. IfSome found (λ it. it.1.offset ≡ log.now.next)) }
{
    let id = unmarked_id(alloc, &log.records)?;
    if id == 0 || log.next > OFFSET_LIMIT || !is_above(alloc, &log.records, id)? {
        return Ok(None);
    }
    Ok(Some((id, mark_at(alloc, log.next, id)?)))
}

/// Returns whether the registry over some records takes commands, and an id is above all that it has.
fn is_above(alloc: Global, records: &[Record], id: u32) -> Result<bool, AllocError>
    ensures { IfOk result (λ above. above ≡ (not (is_closed (last_records (from_list records.now))) && nat_lt (last_id (last_records (from_list records.now))) id)) }
{
    let set = RecordSet::of(alloc, records)?;
    let registry = Registry::of_set(alloc, &set)?;
    let greatest = registry.greatest_id().unwrap_or(0);
    Ok(!registry.is_closed() && registry.mark().max(greatest) < id)
}
