// Why a pen isn't opened.
use crate::keep::Lack;
use reg_leader::AdoptError;
use std::alloc::{AllocError, AllocFailed};
use std::error::Error;
use std::fmt;

/// Why a pen isn't opened.
#[derive(Clone, Copy, Debug, PartialEq, Eq)]
pub enum OpenError {
    /// The log can't begin a topic, or memory was refused.
    Adopt(AdoptError),
    /// The keep declined the id mark that the log owes, for this reason. No part of it is kept.
    Declined(Lack),
    /// It isn't known whether that mark is kept.
    Lost,
}

impl fmt::Display for OpenError {
    ghost use Rattle.std.specs.Prelude.{Some};
    ghost use Rattle.reg_pen.specs.Opening.{open_error_text};

    ghost output = { λ error. Some (open_error_text error) };

    fn fmt<W: fmt::Write>(&self, f: &mut fmt::Formatter<W>) -> fmt::Result {
        match self {
            OpenError::Adopt(refused) => write!(f, "{refused}"),
            OpenError::Declined(_) => write!(f, "mark of ids declined"),
            OpenError::Lost => write!(f, "mark of ids lost"),
        }
    }
}

impl Error for OpenError {}

impl From<AdoptError> for OpenError {
    ghost use Rattle.std.specs.Prelude.{◌≡◌};
    ghost use Rattle.reg_pen.specs.declared.open_error.OpenError.TheVariants.{Adopt};

    ghost from_gives = { λ refused error. error ≡ Adopt refused };

    fn from(refused: AdoptError) -> OpenError {
        OpenError::Adopt(refused)
    }
}

impl From<AllocError> for OpenError {
    ghost use Rattle.std.specs.Prelude.{◌≡◌};
    ghost use Rattle.reg_leader.specs.declared.adoption.AdoptError.TheVariants.{OutOfMemory};
    ghost use Rattle.reg_pen.specs.declared.open_error.OpenError.TheVariants.{Adopt};

    ghost from_gives = { λ _ error. error ≡ Adopt OutOfMemory };

    fn from(_refused: AllocError) -> OpenError {
        OpenError::Adopt(AdoptError::OutOfMemory)
    }
}

impl<T: Drop> From<AllocFailed<T>> for OpenError {
    ghost use Rattle.std.specs.Prelude.{◌≡◌};
    ghost use Rattle.reg_leader.specs.declared.adoption.AdoptError.TheVariants.{OutOfMemory};
    ghost use Rattle.reg_pen.specs.declared.open_error.OpenError.TheVariants.{Adopt};

    ghost from_gives = { λ _ error. error ≡ Adopt OutOfMemory };

    fn from(_refused: AllocFailed<T>) -> OpenError {
        OpenError::Adopt(AdoptError::OutOfMemory)
    }
}
