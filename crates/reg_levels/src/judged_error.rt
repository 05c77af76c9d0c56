// Why nothing was judged.
use std::alloc::{AllocError, AllocFailed};
use std::error::Error;
use std::fmt;

/// An error of a judgement. A fault of the new text is reported before one of an old text.
#[derive(Clone, Copy, Debug, PartialEq, Eq)]
pub enum JudgedError {
    /// The new text isn't a schema.
    NewText,
    /// The text of this version isn't a schema; those of all versions before it are.
    OldText(u32),
    OutOfMemory,
}

impl fmt::Display for JudgedError {
    ghost use Rattle.std.specs.Prelude.{Some};
    ghost use Rattle.reg_levels.specs.JudgedError.{judged_error_text};

    ghost output = { λ error. Some (judged_error_text error) };

    fn fmt<W: fmt::Write>(&self, f: &mut fmt::Formatter<W>) -> fmt::Result {
        match self {
            JudgedError::NewText => write!(f, "NewText"),
            JudgedError::OldText(_) => write!(f, "OldText"),
            JudgedError::OutOfMemory => write!(f, "out of memory"),
        }
    }
}

impl Error for JudgedError {}

impl From<AllocError> for JudgedError {
    ghost use Rattle.std.specs.Prelude.{◌≡◌};
    ghost use Rattle.reg_levels.specs.declared.judged_error.JudgedError.TheVariants.{OutOfMemory};

    ghost from_gives = { λ _ error. error ≡ OutOfMemory };

    fn from(_refused: AllocError) -> JudgedError {
        JudgedError::OutOfMemory
    }
}

impl<T: Drop> From<AllocFailed<T>> for JudgedError {
    ghost use Rattle.std.specs.Prelude.{◌≡◌};
    ghost use Rattle.reg_levels.specs.declared.judged_error.JudgedError.TheVariants.{OutOfMemory};

    ghost from_gives = { λ _ error. error ≡ OutOfMemory };

    fn from(_refused: AllocFailed<T>) -> JudgedError {
        JudgedError::OutOfMemory
    }
}
