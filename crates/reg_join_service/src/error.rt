// Why a process doesn't serve a shared log, or no longer does.
use crate::base_error::JoinBaseError;
use reg_adapter_line::LineEnd;
use reg_leader::AdoptError;
use reg_pen::OpenError;
use reg_service::ServiceError;
use std::fmt;
use thiserror::Error;

/// Why a process doesn't serve a shared log, or no longer does.
#[derive(Debug, Drop, PartialEq, Eq, Error)]
pub enum JoinError {
    /// It can't begin with the base that it was told.
    #[error("base: {0}")]
    Base(#[from] JoinBaseError),
    /// The adapter tells no more, for this reason, and never told `ready`.
    #[error("not ready: {}", Told(*.0))]
    NotReady(LineEnd),
    /// The adapter tells no more, for this reason, which isn't the end of the input.
    #[error("adapter: {}", Told(*.0))]
    Adapter(LineEnd),
    /// No pen can be opened over the base. It never comes: the base is checked before.
    #[error("base: {0}")]
    NotOpened(OpenError),
    /// Memory was refused, or ports can't be served.
    #[error(transparent)]
    Service(#[from] ServiceError),
}

/// The reason, as the message shows it.
#[derive(Clone, Copy, Drop)]
struct Told(LineEnd);

impl fmt::Display for Told {
    fn fmt<W: fmt::Write>(&self, f: &mut fmt::Formatter<W>) -> fmt::Result {
        match self.0 {
            LineEnd::Input => write!(f, "the input ended"),
            LineEnd::Fault(error) => write!(f, "{error}"),
            LineEnd::ReadFault(kind) => write!(f, "ReadFault: {kind:?}"),
            LineEnd::NobodyAsked => write!(f, "an answer that nobody asked for"),
            LineEnd::Output(kind) => write!(f, "WriteFault: {kind:?}"),
            LineEnd::Unfinished => write!(f, "a message wasn't finished within 30 s"),
            LineEnd::Unread => write!(f, "a request wasn't read within 30 s"),
        }
    }
}

impl JoinError {
    /// Returns the exit status of a program that ends with this error: 2 if the base is at fault or
    /// `ready` was never told, else 1.
    pub fn status(&self) -> u8 {
        match self {
            JoinError::Base(error) => error.status(),
            JoinError::NotReady(_) | JoinError::NotOpened(_) => 2,
            JoinError::Adapter(_) | JoinError::Service(_) => 1,
        }
    }
}

impl From<OpenError> for JoinError {
    fn from(refused: OpenError) -> JoinError {
        match refused {
            OpenError::Adopt(AdoptError::OutOfMemory) => {
                JoinError::Service(ServiceError::OutOfMemory)
            }
            refused => JoinError::NotOpened(refused),
        }
    }
}
