// Why lines that come aren't read any more.
use reg_records::LogFault;
use std::alloc::AllocError;
use std::error::Error;
use std::fmt;

/// An error of reading a log's lines as they come.
#[derive(Clone, Copy, Debug, PartialEq, Eq)]
pub enum IntakeError {
    /// The first line that has a fault; lines count from 1, up to `u64::MAX`.
    Fault { line: u64, fault: LogFault },
    OutOfMemory,
}

impl fmt::Display for IntakeError {
    ghost use Rattle.std.specs.Prelude.{Some};
    ghost use Rattle.reg_intake.specs.Intake.{intake_error_text};

    ghost output = { λ error. Some (intake_error_text error) };

    fn fmt<W: fmt::Write>(&self, f: &mut fmt::Formatter<W>) -> fmt::Result {
        match *self {
            IntakeError::Fault { line, fault } => write!(f, "line {line}: {fault}"),
            IntakeError::OutOfMemory => write!(f, "OutOfMemory"),
        }
    }
}

impl Error for IntakeError {}

impl From<AllocError> for IntakeError {
    ghost use Rattle.std.specs.Prelude.{◌≡◌};
    ghost use Rattle.reg_intake.specs.declared.fault.IntakeError.TheVariants.{OutOfMemory};

    ghost from_gives = { λ _ error. error ≡ OutOfMemory };

    fn from(_refused: AllocError) -> IntakeError {
        IntakeError::OutOfMemory
    }
}
