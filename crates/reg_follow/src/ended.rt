// Where lines end, and why they aren't followed any more.
use reg_intake::{GiveError, IntakeError};
use reg_records::LogFault;
use reg_service::ServiceError;
use thiserror::Error;

/// Where the lines of a log end.
#[derive(Clone, Copy, Debug, PartialEq, Eq)]
pub enum LinesEnd {
    /// The input ended after a whole line.
    Input,
    /// The input ended inside a line. That line isn't taken.
    Unfinished,
    /// An empty line ended the log. What follows it isn't taken.
    EmptyLine,
}

/// Why lines aren't followed, or no longer are.
#[derive(Clone, Copy, Debug, PartialEq, Eq, Error)]
pub enum FollowError {
    /// The first faulty line; lines count from 1.
    #[error("line {line}: {fault}")]
    Fault { line: u64, fault: LogFault },
    /// The reader failed.
    #[error("ReadFault")]
    ReadFault,
    /// Memory was refused, or ports can't be served.
    #[error(transparent)]
    Service(#[from] ServiceError),
}

impl FollowError {
    /// Returns the exit status of a program that ends with this error: 2 for a faulty line, else 1.
    pub fn status(self) -> u8 {
        match self {
            FollowError::Fault { line: _, fault: _ } => 2,
            FollowError::ReadFault | FollowError::Service(_) => 1,
        }
    }
}

impl From<IntakeError> for FollowError {
    ghost use Rattle.std.specs.Prelude.{◌≡◌};
    ghost use Rattle.reg_follow.specs.Following.{follow_error_of};

    ghost from_gives = { λ error e. e ≡ follow_error_of error };

    fn from(error: IntakeError) -> FollowError {
        match error {
            IntakeError::Fault { line, fault } => FollowError::Fault { line, fault },
            IntakeError::OutOfMemory => FollowError::Service(ServiceError::OutOfMemory),
        }
    }
}

impl From<GiveError> for FollowError {
    ghost use Rattle.std.specs.Prelude.{◌≡◌};
    ghost use Rattle.reg_follow.specs.Following.{follow_error_of_read};

    ghost from_gives = { λ error e. e ≡ follow_error_of_read error };

    fn from(error: GiveError) -> FollowError {
        match error {
            GiveError::Read(_) => FollowError::ReadFault,
            GiveError::OutOfMemory => FollowError::Service(ServiceError::OutOfMemory),
        }
    }
}
