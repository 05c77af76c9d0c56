// Why nodes can't be started.
use reg_desk::{JudgeError, Lack, OpenError};
use reg_feed::NoPlace;
use reg_leader::AdoptError;
use reg_records::LogError;
use reg_serve::{ListenError, StartError};
use std::alloc::{AllocError, AllocFailed};
use std::io::{self, ErrorKind};
use thiserror::Error;

/// Why nodes can't be started. It is shown as its name.
#[derive(Clone, Copy, Debug, PartialEq, Eq, Error)]
pub enum ServiceError {
    #[error("OutOfMemory")]
    OutOfMemory,
    /// A list has no place for another reader.
    #[error("NoPlace")]
    NoPlace,
    /// A thread, or the memory that it begins with, was refused, or it wasn't time to begin.
    #[error("nodes not started")]
    NotStarted,
    /// The system refused a node's poll, its listener's options or the keys of hashes.
    #[error("nodes not started: {0:?}")]
    Refused(ErrorKind),
    /// A log can't be taken over.
    #[error("{0}")]
    Closed(AdoptError),
    /// The mark of ids that a log owes isn't kept, or may not be.
    #[error("mark of ids not kept")]
    NotKept,
    /// The log owes a mark of ids and has no line for it: it has as many as a log may have, and none of them goes.
    #[error("log is full: no line is left for the mark of ids")]
    Full,
    /// A node can't listen at its port.
    #[error("port {port}: {kind:?}")]
    Port { port: u64, kind: ErrorKind },
}

impl From<AllocError> for ServiceError {
    fn from(_refused: AllocError) -> ServiceError {
        ServiceError::OutOfMemory
    }
}

impl<T: Drop> From<AllocFailed<T>> for ServiceError {
    fn from(_refused: AllocFailed<T>) -> ServiceError {
        ServiceError::OutOfMemory
    }
}

impl From<NoPlace> for ServiceError {
    fn from(_none: NoPlace) -> ServiceError {
        ServiceError::NoPlace
    }
}

impl From<StartError> for ServiceError {
    fn from(_refused: StartError) -> ServiceError {
        ServiceError::NotStarted
    }
}

impl From<ListenError> for ServiceError {
    fn from(refused: ListenError) -> ServiceError {
        match refused {
            ListenError::OutOfMemory => ServiceError::OutOfMemory,
            ListenError::Port { port, kind } => ServiceError::Port { port, kind },
        }
    }
}

/// A node's poll, its listener's options or the keys of hashes were refused.
impl From<io::Error> for ServiceError {
    fn from(refused: io::Error) -> ServiceError {
        match refused.kind() {
            ErrorKind::OutOfMemory => ServiceError::OutOfMemory,
            kind => ServiceError::Refused(kind),
        }
    }
}

/// A judge of so many schemas and verdicts as a desk has is refused only where memory is.
impl From<JudgeError> for ServiceError {
    fn from(_refused: JudgeError) -> ServiceError {
        ServiceError::OutOfMemory
    }
}

impl From<AdoptError> for ServiceError {
    fn from(refused: AdoptError) -> ServiceError {
        match refused {
            AdoptError::OutOfMemory => ServiceError::OutOfMemory,
            AdoptError::Opaque(_) | AdoptError::TwoSchemas(_) | AdoptError::NumbersUsedUp => {
                ServiceError::Closed(refused)
            }
        }
    }
}

impl From<OpenError> for ServiceError {
    fn from(refused: OpenError) -> ServiceError {
        match refused {
            OpenError::Adopt(refused) => ServiceError::from(refused),
            OpenError::Declined(Lack::Memory) => ServiceError::OutOfMemory,
            OpenError::Declined(Lack::Numbers) => ServiceError::Full,
            OpenError::Declined(_) | OpenError::Lost => ServiceError::NotKept,
        }
    }
}

/// An empty log is refused only where memory is.
impl From<LogError> for ServiceError {
    fn from(_refused: LogError) -> ServiceError {
        ServiceError::OutOfMemory
    }
}
