// Why a log isn't served.
use reg_file_keep::StartFault;
use reg_journal::{AppendError, JournalOpenError, SystemError, Trouble};
use reg_records::{LogError, LogFault};
use reg_service::ServiceError;
use std::alloc::{AllocError, AllocFailed};
use std::io::{self, ErrorKind};
use thiserror::Error;

/// Why a log isn't served. It is shown as one line.
#[derive(Clone, Copy, Debug, PartialEq, Eq, Error)]
pub(crate) enum KeepError {
    /// Another process serves it.
    #[error("log is in use")]
    InUse,
    /// The file is missing or empty, and no new log was asked for.
    #[error("no log is there. Is its disk mounted, its name right? With --new a new one is made")]
    Missing,
    /// A new log was asked for, and there is one already.
    #[error("a log is there already. Without --new it is served")]
    Exists,
    /// The first faulty line; lines count from 1.
    #[error("line {line}: {fault}")]
    Line { line: u64, fault: LogFault },
    /// The file or one beside it failed.
    #[error("log file: {0}")]
    File(SystemError),
    /// While the log was opened, its path named another file, or none.
    #[error("log file: renamed, removed or replaced")]
    Unnamed,
    /// The file in which the output would be written first exists already.
    #[error("there is a file with .new behind the name of the output already")]
    Unfinished,
    /// A line behind the log says where it ends.
    #[error("a line behind the log says where it ends, as --whole writes it: registrylog compact leaves it out")]
    Whole,
    /// Memory was refused.
    #[error("OutOfMemory")]
    OutOfMemory,
    /// The service couldn't start.
    #[error("{0}")]
    Start(ServiceError),
}

impl KeepError {
    /// Returns the refusal of a full disk, if this is one.
    pub(crate) fn of_full_disk(self) -> Option<SystemError> {
        match self {
            KeepError::File(error) if error.is_of_full_disk() => Some(error),
            _ => None,
        }
    }

    /// Returns the exit status of a program that ends with this error: 2 if the log is in use,
    /// missing, there already, faulty or can't be served, else 1.
    pub(crate) fn status(self) -> u8 {
        match self {
            KeepError::InUse | KeepError::Missing | KeepError::Exists | KeepError::Whole => 2,
            KeepError::Line { line: _, fault: _ } => 2,
            KeepError::Start(ServiceError::Closed(_)) => 2,
            KeepError::File(_)
            | KeepError::Unnamed
            | KeepError::Unfinished
            | KeepError::OutOfMemory
            | KeepError::Start(_) => 1,
        }
    }
}

impl From<io::Error> for KeepError {
    fn from(error: io::Error) -> KeepError {
        match error.kind() {
            ErrorKind::OutOfMemory => KeepError::OutOfMemory,
            _ => KeepError::File(SystemError::of(&error)),
        }
    }
}

impl From<AllocError> for KeepError {
    fn from(_refused: AllocError) -> KeepError {
        KeepError::OutOfMemory
    }
}

impl<T: Drop> From<AllocFailed<T>> for KeepError {
    fn from(_refused: AllocFailed<T>) -> KeepError {
        KeepError::OutOfMemory
    }
}

impl KeepError {
    /// Makes the error of a log that wasn't opened; `trouble` is the last trouble with its file.
    pub(crate) fn of_opening(error: JournalOpenError, trouble: Option<Trouble>) -> KeepError {
        match error {
            JournalOpenError::Log(LogError::Fault { line, fault }) => KeepError::Line {
                line,
                fault,
            },
            JournalOpenError::Log(LogError::OutOfMemory) | JournalOpenError::OutOfMemory =>
                KeepError::OutOfMemory,
            JournalOpenError::Log(LogError::ReadFault { line: _ })
            | JournalOpenError::NoEmptyLine
            | JournalOpenError::Failed => match trouble {
                Some(Trouble::Refused(error)) => KeepError::File(error),
                Some(Trouble::Unnamed) => KeepError::Unnamed,
                None => KeepError::File(SystemError::of(&io::Error::from(ErrorKind::Other))),
            },
        }
    }
}

impl KeepError {
    /// Makes the error of a start over a log's file; `trouble` is the last trouble with the file.
    pub(crate) fn of_start(error: StartFault, trouble: Option<Trouble>) -> KeepError {
        match error {
            StartFault::Log(error) => KeepError::of_opening(error, trouble),
            StartFault::Mark(AppendError::TooManyLines) => KeepError::Start(ServiceError::Full),
            StartFault::Mark(AppendError::OutOfMemory) => KeepError::OutOfMemory,
            StartFault::Mark(
                AppendError::LineTooLong
                | AppendError::Changed
                | AppendError::Unnamed
                | AppendError::Failed
                | AppendError::Broken,
            ) => KeepError::of_opening(JournalOpenError::Failed, trouble),
        }
    }
}

impl From<ServiceError> for KeepError {
    fn from(fault: ServiceError) -> KeepError {
        KeepError::Start(fault)
    }
}
