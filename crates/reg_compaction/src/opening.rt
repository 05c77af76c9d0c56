// Opening a log in a file, where nothing is cut off that isn't kept elsewhere.
ghost use Rattle.std.specs.Prelude.{◌≡◌, ◌⊎◌, ◌<◌, ◌^◌, ◌++◌, ◌∷◌, [], List, Ok, length, IfErr, IfOk, OnOk};
ghost use Rattle.reg_records.specs.Log.{IsLogOf};
ghost use Rattle.reg_journal.specs.Disk.{GaveFault, LeavesOnly, Only};
ghost use Rattle.reg_journal.specs.Found.{IsDiskRefusal, IsFound};
ghost use Rattle.reg_journal.specs.Journal.{IsSteady};
ghost use Rattle.reg_journal.specs.Lines.{Said, said};
ghost use Rattle.reg_compaction.specs.Aside.{GaveFaultAside, HasAll, HasAside, HasBehind, IsEnded, IsOpenRefusal, StandsBehind};

use reg_journal::{
    Disk, DiskError, Found, JournalOpenError, cut_behind, lines_are_logs, look, write_end,
};
use std::alloc::Global;

/// An opener of the file to which the bytes behind a log are moved.
pub trait Opens<A: Disk> {
    ghost use Rattle.reg_journal.specs.declared.disk.DiskError.{DiskError};
    ghost use Rattle.std.specs.Prelude.{IfErr};

    /// The opener before a call, the error that the call returned, and the opener after. A function
    /// over any opener knows nothing of this relation, so it can't make a fault up.
    ghost failures: { Self → DiskError → Self → Type 0 } = { λ _ _ _. Unit {0} };

    /// Opens a disk under a name of its own, so that no existing file is changed.
    fn open_disk(&mut self) -> Result<A, DiskError>
        ensures known { A.is_modelled → IfOk result A.known }
        ensures fault { IfErr result (λ e. failures self.old e self.new) };

    /// Renames the disk's file to its final name, over an older file, once all its bytes are on the
    /// disk. Returns once the name is on the disk too, so that no crash can take the file away.
    fn put_in_place(&mut self, disk: &A) -> Result<(), DiskError>
        ensures fault { IfErr result (λ e. failures self.old e self.new) };
}

/// The place to which the bytes behind a log are moved: a disk that is opened only if there are
/// any.
#[derive(Drop)]
pub struct Aside<A: Disk + Drop, O> {
    pub opener: O,
    /// The disk, once it was opened.
    pub disk: Option<A>,
}

/// Opens a log file without losing bytes: reads its log, adds an empty line if it has none, and
/// cuts off what is behind that line once another disk has it. A crash during the call leaves a
/// file with all bytes that were there, one that says the same, or what it might have left before.
/// Errors: a faulty line, a disk or an opener that failed, or no memory.
pub fn open_aside<D: Disk, A: Disk + Drop, O: Opens<A>>(
    alloc: Global,
    disk: &mut D,
    aside: &mut Aside<A, O>,
) -> Result<Found, JournalOpenError>
    requires { D.is_modelled → D.known disk.old }
    ensures log { D.is_modelled → IfOk result (λ found. (says : Said) × (said (D.seen disk.old) ≡ Ok says) × IsLogOf says.floor says.reads found.log) }
    ensures same { D.is_modelled → OnOk result (D.known disk.new × (said (D.seen disk.new) ≡ said (D.seen disk.old))) }
    ensures steady { D.is_modelled → IfOk result (λ found. IsSteady D.seen D.may_leave disk.new found.end found.lines) }

    // A crash leaves what it might have left before the call, a file with all bytes that were there, or one that says the
    // same.
    ensures any_moment { D.is_modelled → LeavesOnly D.moment D.left_since D.may_leave disk.old disk.new
        (λ c. HasAll (D.may_leave disk.old) (D.seen disk.old) c ⊎ (said c ≡ said (D.seen disk.old))) }

    // What was cut off is on the other disk.
    ensures aside { A.is_modelled → IfOk result (λ found. HasAside A.seen A.may_leave found.behind.items aside.new.disk) }

    // However the call ends: at any moment a crash leaves what it might have left before, or all bytes that were there; or the
    // other disk has what stood behind, for good.
    ensures order { D.is_modelled → A.is_modelled → LeavesOnly D.moment D.left_since D.may_leave disk.old disk.new (HasAll (D.may_leave disk.old) (D.seen disk.old))
        ⊎ HasBehind A.seen A.may_leave (D.seen disk.old) aside.new.disk }

    // No disk is opened unless something stands behind.
    ensures idle { D.is_modelled → (aside.new ≡ aside.old) ⊎ StandsBehind (D.seen disk.old) }

    // A fault that is told stands in the log, and it failed only where a disk or the opener gave a fault.
    ensures refused { D.is_modelled → IfErr result (IsOpenRefusal (D.seen disk.old)) }
    ensures fault { IfErr result (λ e. e ≡ JournalOpenError.Failed → GaveFault D.faults disk.new ⊎ GaveFaultAside A.faults O.failures aside.new.opener aside.new.disk) }
{
    lines_are_logs();
    let found = look_or_end(alloc, disk)?;
    put_aside(aside, &found.behind)?;
    cut_behind(disk, &found)?;
    Ok(found)
}

/// Reads the log of a file, and adds an empty line if it has none.
fn look_or_end<D: Disk>(alloc: Global, disk: &mut D) -> Result<Found, JournalOpenError>
    requires { D.is_modelled → D.known disk.old }
    ensures found { D.is_modelled → IfOk result (IsFound (D.seen disk.new)) }
    ensures log { D.is_modelled → IfOk result (λ found. (says : Said) × (said (D.seen disk.old) ≡ Ok says) × IsLogOf says.floor says.reads found.log) }
    ensures within { IfOk result (λ found. found.end < 2 ^ 63) }
    ensures same { D.is_modelled → OnOk result (D.known disk.new × (said (D.seen disk.new) ≡ said (D.seen disk.old))) }
    ensures durable { D.is_modelled → OnOk result (Only (D.seen disk.new) (D.may_leave disk.new)) }
    ensures bytes { D.is_modelled → OnOk result (IsEnded (D.seen disk.old) (D.seen disk.new)) }
    ensures refused { D.is_modelled → IfErr result (IsOpenRefusal (D.seen disk.old)) }
    ensures fault { IfErr result (λ e. e ≡ JournalOpenError.Failed → GaveFault D.faults disk.new) }
    ensures any_moment { D.is_modelled → LeavesOnly D.moment D.left_since D.may_leave disk.old disk.new (HasAll (D.may_leave disk.old) (D.seen disk.old)) }
{
    match look(alloc, disk) {
        Err(JournalOpenError::NoEmptyLine) => end_and_look(alloc, disk),
        other => other,
    }
}

/// Writes an empty line behind the lines of a file, and reads its log.
fn end_and_look<D: Disk>(alloc: Global, disk: &mut D) -> Result<Found, JournalOpenError>
    requires { D.is_modelled → D.known disk.old }
    ensures found { D.is_modelled → IfOk result (IsFound (D.seen disk.new)) }
    ensures log { D.is_modelled → IfOk result (λ found. (says : Said) × (said (D.seen disk.old) ≡ Ok says) × IsLogOf says.floor says.reads found.log) }
    ensures within { IfOk result (λ found. found.end < 2 ^ 63) }
    ensures same { D.is_modelled → OnOk result (D.known disk.new × (said (D.seen disk.new) ≡ said (D.seen disk.old))) }
    ensures durable { D.is_modelled → OnOk result (Only (D.seen disk.new) (D.may_leave disk.new)) }
    ensures bytes { D.is_modelled → OnOk result (D.seen disk.new ≡ D.seen disk.old ++ 10 ∷ []) }
    ensures refused { D.is_modelled → IfErr result (IsOpenRefusal (D.seen disk.old)) }
    ensures fault { IfErr result (λ e. e ≡ JournalOpenError.Failed → GaveFault D.faults disk.new) }
    ensures any_moment { D.is_modelled → LeavesOnly D.moment D.left_since D.may_leave disk.old disk.new (HasAll (D.may_leave disk.old) (D.seen disk.old)) }
{
    write_end(alloc, disk)?;
    look(alloc, disk)
}

/// Opens the other disk and makes the bytes all that it has, unless there are none.
fn put_aside<A: Disk + Drop, O: Opens<A>>(
    aside: &mut Aside<A, O>,
    bytes: &[u8],
) -> Result<(), JournalOpenError>
    ensures put { A.is_modelled → OnOk result (HasAside A.seen A.may_leave bytes.now aside.new.disk) }
    ensures idle { (aside.new ≡ aside.old) ⊎ (0 < length bytes.now) }
    ensures refused { IfErr result (λ e. (e ≡ JournalOpenError.OutOfMemory) ⊎ ((e ≡ JournalOpenError.Failed) × GaveFaultAside A.faults O.failures aside.new.opener aside.new.disk)) }
{
    if bytes.is_empty() {
        return Ok(());
    }
    let mut disk = aside.opener.open_disk()?;
    let written = write_and_put(&mut aside.opener, &mut disk, bytes);
    aside.disk = Some(disk);
    written
}

/// Makes the bytes all that a disk has, and gives its file its name.
fn write_and_put<A: Disk, O: Opens<A>>(
    opener: &mut O,
    disk: &mut A,
    bytes: &[u8],
) -> Result<(), JournalOpenError>
    ensures put { A.known disk.old → OnOk result ((A.seen disk.new ≡ bytes.now) × Only bytes.now (A.may_leave disk.new)) }
    ensures refused { IfErr result (λ e. (e ≡ JournalOpenError.OutOfMemory) ⊎ ((e ≡ JournalOpenError.Failed) × (GaveFault O.failures opener.new ⊎ GaveFault A.faults disk.new))) }
{
    write_whole(disk, bytes)?;
    Ok(opener.put_in_place(disk)?)
}

/// Makes the bytes all that a disk has.
fn write_whole<A: Disk>(disk: &mut A, bytes: &[u8]) -> Result<(), JournalOpenError>
    ensures written { A.known disk.old → OnOk result ((A.seen disk.new ≡ bytes.now) × Only bytes.now (A.may_leave disk.new)) }
    ensures refused { IfErr result (IsDiskRefusal A.faults disk.new) }
{
    disk.cut(0)?;
    disk.write_at(0, bytes)?;
    Ok(disk.sync()?)
}
