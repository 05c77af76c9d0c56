// Opening a file that a crash may have left.
ghost use Rattle.std.specs.Prelude.{◌≡◌, ◌⊎◌, ◌++◌, ◌^◌, ◌<◌, [], ◌∷◌, List, ℕ, Ok, length, false, IfErr, IfOk, OnOk};
ghost use Rattle.reg_records.specs.Log.{IsLogOf};
ghost use Rattle.reg_journal.specs.Disk.{GaveFault, Only, Keeps, LeavesOnly};
ghost use Rattle.reg_journal.specs.Found.{IsDiskRefusal, IsFound, IsLookRefusal, IsReadRefusal, IsUnchanged, LeavesFile};
ghost use Rattle.reg_journal.specs.Lines.{Said, said};
ghost use Rattle.reg_journal.specs.Journal.{IsSteady};

use crate::disk::{Disk, DiskError};
use crate::ended::read_ended;
use crate::journal::Journal;
use reg_records::{Device, Log, LogError, read_log};
use std::alloc::{AllocError, AllocFailed, Global};

/// An error of opening a log file.
#[derive(Clone, Copy, Debug, PartialEq, Eq)]
pub enum JournalOpenError {
    /// A line has a fault. Nothing was changed.
    Log(LogError),
    /// The log has no empty line at its end; `write_end` writes one. Nothing was changed.
    NoEmptyLine,
    Failed,
    OutOfMemory,
}

impl From<DiskError> for JournalOpenError {
    ghost use Rattle.std.specs.Prelude.{◌≡◌};
    ghost use Rattle.reg_journal.specs.Opening.{disk_refusal};

    ghost from_gives = { λ error e. e ≡ disk_refusal error };

    fn from(error: DiskError) -> JournalOpenError {
        match error {
            DiskError::OutOfMemory => JournalOpenError::OutOfMemory,
            DiskError::Failed => JournalOpenError::Failed,
        }
    }
}

impl From<LogError> for JournalOpenError {
    ghost use Rattle.std.specs.Prelude.{◌≡◌};
    ghost use Rattle.reg_journal.specs.declared.opening.JournalOpenError.TheVariants.{Log};

    ghost from_gives = { λ error e. e ≡ Log error };

    fn from(error: LogError) -> JournalOpenError {
        JournalOpenError::Log(error)
    }
}

impl From<AllocError> for JournalOpenError {
    ghost use Rattle.std.specs.Prelude.{◌≡◌};
    ghost use Rattle.reg_journal.specs.declared.opening.JournalOpenError.TheVariants.{OutOfMemory};

    ghost from_gives = { λ _ e. e ≡ OutOfMemory };

    fn from(_refused: AllocError) -> JournalOpenError {
        JournalOpenError::OutOfMemory
    }
}

impl<T: Drop> From<AllocFailed<T>> for JournalOpenError {
    ghost use Rattle.std.specs.Prelude.{◌≡◌};
    ghost use Rattle.reg_journal.specs.declared.opening.JournalOpenError.TheVariants.{OutOfMemory};

    ghost from_gives = { λ _ e. e ≡ OutOfMemory };

    fn from(_refused: AllocFailed<T>) -> JournalOpenError {
        JournalOpenError::OutOfMemory
    }
}

/// A log that was read from a file, and the bytes behind it.
#[derive(Debug, Drop)]
pub struct Found {
    pub log: Log,
    /// The place of its empty line, in bytes from the file's start.
    pub end: usize,
    /// The number of lines before the empty one, the floor's among them.
    pub lines: u64,
    /// The bytes behind the empty line. A crash has left them, or somebody has put them there.
    pub behind: Vec<u8>,
}

/// Reads the log of a file, and what is behind its empty line. Syncs the file first, so what it
/// returns is on the disk. Errors: a faulty line, no empty line, a disk that failed, or no memory.
pub fn look<D: Disk>(alloc: Global, disk: &mut D) -> Result<Found, JournalOpenError>
    requires { D.is_modelled → D.known disk.old }
    ensures found { D.is_modelled → IfOk result (IsFound (D.seen disk.old)) }
    ensures log { D.is_modelled → IfOk result (λ found. (says : Said) × (said (D.seen disk.old) ≡ Ok says) × IsLogOf says.floor says.reads found.log) }
    ensures within { IfOk result (λ found. found.end < 2 ^ 63) }
    ensures same { D.is_modelled → OnOk result (IsUnchanged D.known D.seen disk.old disk.new) }
    ensures durable { D.is_modelled → OnOk result (Only (D.seen disk.new) (D.may_leave disk.new)) }
    ensures refused { D.is_modelled → IfErr result (IsLookRefusal (D.seen disk.old)) }
    ensures untouched { D.is_modelled → IfErr result (LeavesFile D.known D.seen disk.old disk.new) }
    ensures fault { IfErr result (λ e. e ≡ JournalOpenError.Failed → GaveFault D.faults disk.new) }

    // A crash leaves what it might have left before the call.
    ensures any_moment { D.is_modelled → LeavesOnly D.moment D.left_since D.may_leave disk.old disk.new (D.may_leave disk.old) }
{
    // What is read has to be on the disk: another process may have been killed before its sync.
    disk.sync()?;
    let bytes = disk.read(alloc)?;
    read_ended(alloc, bytes)
}

/// Cuts the file behind the empty line of a log that [`look`] found, and syncs it. A crash leaves a
/// file that says the same.
pub fn cut_behind<D: Disk>(disk: &mut D, found: &Found) -> Result<(), JournalOpenError>
    requires within { found.now.end < 2 ^ 63 }
    requires known { D.is_modelled → D.known disk.old }
    requires found { D.is_modelled → IsFound (D.seen disk.old) found.now }
    requires durable { D.is_modelled → Only (D.seen disk.old) (D.may_leave disk.old) }
    ensures same { D.is_modelled → OnOk result (D.known disk.new × (said (D.seen disk.new) ≡ said (D.seen disk.old))) }
    ensures steady { D.is_modelled → OnOk result (IsSteady D.seen D.may_leave disk.new found.now.end found.now.lines) }
    ensures refused { IfErr result (IsDiskRefusal D.faults disk.new) }
    ensures any_moment { D.is_modelled → LeavesOnly D.moment D.left_since D.may_leave disk.old disk.new (λ c. said c ≡ said (D.seen disk.old)) }
{
    disk.cut(found.end + 1)?;
    Ok(disk.sync()?)
}

/// Reads the log of a file, cuts off what is behind its empty line, and syncs: `look` and then
/// `cut_behind`. A crash during the call leaves what it might have left before, or a file that says
/// the same.
pub fn recover<D: Disk>(alloc: Global, disk: &mut D) -> Result<Found, JournalOpenError>
    requires { D.is_modelled → D.known disk.old }
    ensures log { D.is_modelled → IfOk result (λ found. (says : Said) × (said (D.seen disk.old) ≡ Ok says) × IsLogOf says.floor says.reads found.log) }
    ensures same { D.is_modelled → OnOk result (D.known disk.new × (said (D.seen disk.new) ≡ said (D.seen disk.old))) }
    ensures steady { D.is_modelled → IfOk result (λ found. IsSteady D.seen D.may_leave disk.new found.end found.lines) }

    // A crash leaves what it might have left before the call, or a file that says the same.
    ensures any_moment { D.is_modelled → LeavesOnly D.moment D.left_since D.may_leave disk.old disk.new
        (λ c. D.may_leave disk.old c ⊎ (said c ≡ said (D.seen disk.old))) }
{
    let found = look(alloc, disk)?;
    cut_behind(disk, &found)?;
    Ok(found)
}

/// Opens a file after a restart: returns its log, and the journal that appends to it. What is
/// behind the empty line is cut off. Errors as of [`recover`].
pub fn open_journal<D: Disk + Drop>(
    alloc: Global,
    disk: D,
) -> Result<(Log, Journal<D>), JournalOpenError>
    requires { D.is_modelled → D.known disk }
    ensures log { D.is_modelled → IfOk result (λ found. (says : Said) × (said (D.seen disk) ≡ Ok says) × IsLogOf says.floor says.reads found.0) }
    ensures same { D.is_modelled → IfOk result (λ found. D.known found.1.disk × (said (D.seen found.1.disk) ≡ said (D.seen disk))) }
    ensures sound { IfOk result (λ found. found.1.is_broken ≡ false) }
    ensures any_moment { D.is_modelled → IfOk result (λ found. LeavesOnly D.moment D.left_since D.may_leave disk found.1.disk
        (λ c. D.may_leave disk c ⊎ (said c ≡ said (D.seen disk)))) }
{
    let mut disk = disk;
    let found = recover(alloc, &mut disk)?;
    let journal = Journal::over(disk, found.end, found.lines);
    Ok((found.log, journal))
}

/// Writes an empty line behind a file's lines, which have none, such as in a new file. A crash
/// leaves the bytes that were there, or what it might have left before. Errors: a faulty line, a
/// disk that failed, or no memory.
pub fn write_end<D: Disk>(alloc: Global, disk: &mut D) -> Result<(), JournalOpenError>
    requires { D.is_modelled → D.known disk.old }
    ensures same { D.is_modelled → OnOk result (D.known disk.new × (said (D.seen disk.new) ≡ said (D.seen disk.old))) }
    ensures written { D.is_modelled → OnOk result (D.seen disk.new ≡ D.seen disk.old ++ 10 ∷ []) }
    ensures durable { D.is_modelled → OnOk result (Only (D.seen disk.new) (D.may_leave disk.new)) }
    ensures any_moment { D.is_modelled → LeavesOnly D.moment D.left_since D.may_leave disk.old disk.new
        (λ c. D.may_leave disk.old c ⊎ Keeps (length (D.seen disk.old)) (D.seen disk.old) c) }
    ensures refused { D.is_modelled → IfErr result (IsReadRefusal (D.seen disk.old)) }
    ensures fault { IfErr result (λ e. e ≡ JournalOpenError.Failed → GaveFault D.faults disk.new) }
{
    disk.sync()?;
    let bytes = disk.read(alloc)?;
    let mut reader = Device::new(&bytes[..]);
    let _log = read_log(alloc, &mut reader)?;
    disk.write_at(bytes.len(), b"\n")?;
    disk.sync()?;
    Ok(())
}
