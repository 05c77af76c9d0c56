// Reading a log from a file that won't be written.
ghost use Rattle.std.specs.Prelude.{◌≡◌, Ok, IfOk, OnOk};
ghost use Rattle.reg_records.specs.Log.{IsLogOf};
ghost use Rattle.reg_journal.specs.Disk.{Only};
ghost use Rattle.reg_journal.specs.Lines.{Said, said};

use crate::log_keep::LogKeep;
use reg_journal::{JournalOpenError, Renewable};
use reg_pen::KeptLog;
use reg_records::{Device, read_log};
use std::alloc::Global;

/// Reads the log of a file, with a keep that is closed: nothing is ever written to the file. What
/// was read is on the disk, since the file is synced first. Fails if the file can't be synced or
/// read, if it isn't a log, or if memory is refused.
pub fn start_closed<D: Renewable + Drop>(
    alloc: Global,
    disk: &mut D,
) -> Result<KeptLog<LogKeep<D>>, JournalOpenError>
    requires { D.is_modelled → D.known disk.old }
    ensures log { D.is_modelled → IfOk result (λ it. (says : Said) × (said (D.seen disk.old) ≡ Ok says) × IsLogOf says.floor says.reads it.log) }
    ensures closed { IfOk result (λ it. it.keep ≡ LogKeep.Closed) }
    ensures same { D.is_modelled → OnOk result (D.known disk.new × (D.seen disk.new ≡ D.seen disk.old)) }
    ensures durable { D.is_modelled → OnOk result (Only (D.seen disk.new) (D.may_leave disk.new)) }
{
    // What is read has to be on the disk: another process may have been killed before its sync.
    disk.sync()?;
    let bytes = disk.read(alloc)?;
    let mut reader = Device::new(&bytes[..]);
    let log = read_log(alloc, &mut reader)?;
    Ok(KeptLog::new(log, LogKeep::Closed))
}
