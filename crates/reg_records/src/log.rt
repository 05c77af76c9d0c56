// Logs: the lines of a topic, up to an empty line or the end of the input.
ghost use Rattle.std.specs.Prelude.{◌≡◌, All, ◌<◌, ◌≤◌};

use crate::limits::{LOG_LINES, OFFSET_LIMIT};
use crate::line::LineError;
use crate::record::{Read, Record};
use std::alloc::{AllocError, Global};
use std::error::Error;
use std::fmt;

/// A log that was read: its records, its floor and its next offset.
#[derive(Debug, Drop)]
pub struct Log {
    /// The records of its lines, in their order.
    pub records: Vec<Record>,
    /// The number of its lines whose key is of no known kind.
    pub foreign: u64,
    /// The offset in its floor line, or 0 if it has none.
    pub floor: u64,
    /// The next offset: the greater of the floor and one more than the greatest offset of its
    /// lines.
    pub next: u64,
    pub ghost ahead: { All (λ r. r.offset < next) records.items },
    pub ghost above: { floor ≤ next },
}

/// A fault of a line of a log.
#[derive(Clone, Copy, Debug, PartialEq, Eq)]
pub enum LogFault {
    Line(LineError),
    /// The first line begins with `floor TAB`, and what follows isn't an offset alone.
    BadFloor,
    /// The log has more than `LOG_LINES` lines.
    TooManyLines,
}

/// An error of reading a log.
#[derive(Clone, Copy, Debug, PartialEq, Eq)]
pub enum LogError {
    /// The first line that has a fault; lines count from 1.
    Fault { line: u64, fault: LogFault },
    /// The reader failed, or `LINE_READS` reads didn't complete one line; lines count from 1.
    ReadFault { line: u64 },
    OutOfMemory,
}

impl LogFault {
    ghost use Rattle.std.specs.Prelude.{◌≡◌};
    ghost use Rattle.reg_records.specs.Errors.{log_fault_name};

    /// Returns the fault's name, as it is reported.
    pub fn name(self) -> &'static str
        ensures { result.now ≡ log_fault_name self }
    {
        match self {
            LogFault::Line(e) => e.name(),
            LogFault::BadFloor => "BadFloor",
            LogFault::TooManyLines => "TooManyLines",
        }
    }
}

impl fmt::Display for LogFault {
    ghost use Rattle.std.specs.Prelude.{Some};
    ghost use Rattle.reg_records.specs.Errors.{log_fault_name};

    ghost output = { λ e. Some (log_fault_name e) };

    fn fmt<W: fmt::Write>(&self, f: &mut fmt::Formatter<W>) -> fmt::Result {
        f.write_str(self.name())
    }
}

impl Error for LogFault {}

impl fmt::Display for LogError {
    ghost use Rattle.std.specs.Prelude.{Some};
    ghost use Rattle.reg_records.specs.Errors.{log_error_text};

    ghost output = { λ e. Some (log_error_text e) };

    fn fmt<W: fmt::Write>(&self, f: &mut fmt::Formatter<W>) -> fmt::Result {
        match self {
            LogError::Fault { line, fault } => write!(f, "line {line}: {fault}"),
            LogError::ReadFault { line } => write!(f, "line {line}: ReadFault"),
            LogError::OutOfMemory => f.write_str("out of memory"),
        }
    }
}

impl Error for LogError {}

impl From<AllocError> for LogError {
    ghost use Rattle.reg_records.specs.declared.log.LogError.TheVariants.{OutOfMemory};

    ghost from_gives = { λ _ e. e ≡ OutOfMemory };

    fn from(_refused: AllocError) -> LogError {
        LogError::OutOfMemory
    }
}

impl Log {
    ghost use Rattle.std.specs.Prelude.{[], OnOk};
    ghost use Rattle.reg_records.specs.Log.{IsLogOf, offset_in};
    ghost use Rattle.reg_records.specs.LogSteps.{AddsRead};

    /// Makes a log without lines.
    pub(crate) fn new(alloc: Global) -> Log
        ensures { IsLogOf 0 [] result }
    {
        Log {
            records: Vec::new(alloc),
            foreign: 0,
            floor: 0,
            next: 0,
        }
    }

    /// Sets the floor of a log without lines.
    pub(crate) fn begin_at(&mut self, floor: u64)
        requires { IsLogOf 0 [] self.old }
        ensures { IsLogOf floor [] self.new }
    {
        self.next = floor;
        self.floor = floor;
    }

    /// Adds a line that was read.
    pub(crate) fn add(&mut self, read: Read) -> Result<(), AllocError>
        requires counted { self.old.foreign ≤ LOG_LINES }
        requires within { offset_in read ≤ OFFSET_LIMIT }
        ensures { OnOk result (AddsRead self.old read self.new) }
    {
        match read {
            Read::Record(record) => {
                self.next = self.next.max(record.offset + 1);
                self.records.push(record)?;
            }
            Read::Foreign(offset) => {
                self.next = self.next.max(offset + 1);
                self.foreign += 1;
            }
        }
        Ok(())
    }
}
