// Why a process can't begin with a base.
use reg_inspection::Obstacle;
use reg_records::LogError;
use std::alloc::AllocError;
use thiserror::Error;

/// Why a process can't begin with the base that it was told.
#[derive(Debug, Drop, PartialEq, Eq, Error)]
pub enum JoinBaseError {
    /// It isn't a log, the reader failed, or memory was refused.
    #[error("{0}")]
    Log(LogError),
    /// It can't be served, for these reasons; there is at least one.
    #[error("it can't be served")]
    Closed(Vec<Obstacle>),
    /// An id mark is due behind it. Only the log may hold one, so that all processes have it.
    #[error("a mark of ids is due behind it")]
    MarkDue,
}

impl JoinBaseError {
    ghost use Rattle.std.specs.Prelude.{◌≡◌};
    ghost use Rattle.reg_join_service.specs.Base.{exit_status};

    /// Returns the exit status of a program that ends with this error: 2 if the base is at fault, 1
    /// if the reader failed or memory was refused.
    pub fn status(&self) -> u8
        ensures { result ≡ exit_status self.now }
    {
        match self {
            JoinBaseError::Log(LogError::Fault { .. })
            | JoinBaseError::Closed(_)
            | JoinBaseError::MarkDue => 2,
            JoinBaseError::Log(LogError::ReadFault { .. } | LogError::OutOfMemory) => 1,
        }
    }
}

impl From<LogError> for JoinBaseError {
    ghost use Rattle.std.specs.Prelude.{◌≡◌};
    ghost use Rattle.reg_join_service.specs.declared.base_error.JoinBaseError.TheVariants.{Log};

    ghost from_gives = { λ error e. e ≡ Log error };

    fn from(error: LogError) -> JoinBaseError {
        JoinBaseError::Log(error)
    }
}

impl From<AllocError> for JoinBaseError {
    ghost use Rattle.std.specs.Prelude.{◌≡◌};
    ghost use Rattle.reg_records.specs.declared.log.LogError.TheVariants.{OutOfMemory};
    ghost use Rattle.reg_join_service.specs.declared.base_error.JoinBaseError.TheVariants.{Log};

    ghost from_gives = { λ _ e. e ≡ Log OutOfMemory };

    fn from(_refused: AllocError) -> JoinBaseError {
        JoinBaseError::Log(LogError::OutOfMemory)
    }
}
