// Why a file isn't followed any more.
use reg_records::LogFault;
use std::alloc::{AllocError, AllocFailed};
use std::error::Error;
use std::fmt;

/// An error that ends the following of a file.
#[derive(Clone, Copy, Debug, PartialEq, Eq)]
pub enum TailError {
    /// The first line of the file that has a fault; lines count from 1.
    Line { line: u64, fault: LogFault },
    /// The file has no empty line behind its lines.
    NoEmptyLine,
    /// The file's floor, which is given, is above the offset to go on from: lines from there on may
    /// be missing.
    Floor(u64),
    /// A read failed, or the file doesn't exist.
    ReadFault,
    /// A sync failed: a crash might take back lines that were read. Those weren't written out.
    SyncFault,
    /// The writer failed. A part of the last text may have been written.
    WriteFault,
    OutOfMemory,
}

impl TailError {
    ghost use Rattle.std.specs.Prelude.{◌≡◌};
    ghost use Rattle.reg_tail.specs.Errors.{exit_status};

    /// Returns the exit status of a program that ends with this error: 2 for a fault of the file's
    /// lines or floor, 1 for the others.
    pub fn status(self) -> u8
        ensures { result ≡ exit_status self }
    {
        match self {
            TailError::Line { line: _, fault: _ } | TailError::NoEmptyLine | TailError::Floor(_) =>
                2,
            TailError::ReadFault
            | TailError::SyncFault
            | TailError::WriteFault
            | TailError::OutOfMemory => 1,
        }
    }
}

impl fmt::Display for TailError {
    ghost use Rattle.std.specs.Prelude.{Some};
    ghost use Rattle.reg_tail.specs.Errors.{tail_error_text};

    ghost output = { λ error. Some (tail_error_text error) };

    fn fmt<W: fmt::Write>(&self, f: &mut fmt::Formatter<W>) -> fmt::Result {
        match *self {
            TailError::Line { line, fault } => write!(f, "line {line}: {fault}"),
            TailError::NoEmptyLine => write!(f, "no empty line"),
            TailError::Floor(floor) => write!(f, "floor is {floor}"),
            TailError::ReadFault => write!(f, "ReadFault"),
            TailError::SyncFault => write!(f, "SyncFault"),
            TailError::WriteFault => write!(f, "WriteFault"),
            TailError::OutOfMemory => write!(f, "OutOfMemory"),
        }
    }
}

impl Error for TailError {}

impl From<AllocError> for TailError {
    ghost use Rattle.std.specs.Prelude.{◌≡◌};
    ghost use Rattle.reg_tail.specs.declared.error.TailError.TheVariants.{OutOfMemory};

    ghost from_gives = { λ _ e. e ≡ OutOfMemory };

    fn from(_refused: AllocError) -> TailError {
        TailError::OutOfMemory
    }
}

impl<T: Drop> From<AllocFailed<T>> for TailError {
    ghost use Rattle.std.specs.Prelude.{◌≡◌};
    ghost use Rattle.reg_tail.specs.declared.error.TailError.TheVariants.{OutOfMemory};

    ghost from_gives = { λ _ e. e ≡ OutOfMemory };

    fn from(_refused: AllocFailed<T>) -> TailError {
        TailError::OutOfMemory
    }
}
