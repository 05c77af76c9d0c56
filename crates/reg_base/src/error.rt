// Why a log doesn't begin anew at an offset.
use reg_compaction::{FilterError, filter_error};
use reg_fold::reg_records::LogError;
use std::alloc::AllocError;
use std::error::Error;
use std::fmt;

/// An error of making a base, which a log begins with anew at an offset. Only if the writer failed
/// was anything written.
#[derive(Clone, Copy, Debug, PartialEq, Eq)]
pub enum BaseError {
    /// The log has a fault, the reader or the writer failed, or memory was refused.
    Filter(FilterError),
    /// Neither a line of the log nor its floor ends directly before the offset.
    NoEnd,
    /// The records of one command may be on both sides of the offset.
    Crossed,
    /// A mark of ids (a record of the highest id ever given) is due at the offset.
    MarkDue,
}

impl BaseError {
    ghost use Rattle.std.specs.Prelude.{◌≡◌};
    ghost use Rattle.reg_base.specs.Refusals.{exit_status};

    /// Returns the exit status of a program that ends with this error: 2 if the offset doesn't fit,
    /// and else that of the filter's error.
    pub fn status(self) -> u8
        ensures { result ≡ exit_status self }
    {
        match self {
            BaseError::Filter(error) => error.status(),
            BaseError::NoEnd | BaseError::Crossed | BaseError::MarkDue => 2,
        }
    }
}

impl fmt::Display for BaseError {
    ghost use Rattle.std.specs.Prelude.{Some};
    ghost use Rattle.reg_base.specs.Refusals.{base_error_text};

    ghost output = { λ error. Some (base_error_text error) };

    fn fmt<W: fmt::Write>(&self, f: &mut fmt::Formatter<W>) -> fmt::Result {
        match *self {
            BaseError::Filter(error) => write!(f, "{error}"),
            BaseError::NoEnd => write!(f, "nothing ends right before that offset"),
            BaseError::Crossed => {
                write!(
                    f,
                    "a command's records may stand on both sides of that offset"
                )
            }
            BaseError::MarkDue => write!(f, "a mark of ids is due at that offset"),
        }
    }
}

impl Error for BaseError {}

impl From<LogError> for BaseError {
    ghost use Rattle.std.specs.Prelude.{◌≡◌};
    ghost use Rattle.reg_compaction.specs.Filter.{filter_error_of};
    ghost use Rattle.reg_base.specs.declared.error.BaseError.TheVariants.{Filter};

    ghost from_gives = { λ error e. e ≡ Filter (filter_error_of error) };

    fn from(error: LogError) -> BaseError {
        BaseError::Filter(filter_error(error))
    }
}

impl From<FilterError> for BaseError {
    ghost use Rattle.std.specs.Prelude.{◌≡◌};
    ghost use Rattle.reg_base.specs.declared.error.BaseError.TheVariants.{Filter};

    ghost from_gives = { λ error e. e ≡ Filter error };

    fn from(error: FilterError) -> BaseError {
        BaseError::Filter(error)
    }
}

impl From<AllocError> for BaseError {
    ghost use Rattle.std.specs.Prelude.{◌≡◌};
    ghost use Rattle.reg_compaction.specs.declared.filter.FilterError.TheVariants.{OutOfMemory};
    ghost use Rattle.reg_base.specs.declared.error.BaseError.TheVariants.{Filter};

    ghost from_gives = { λ _ e. e ≡ Filter OutOfMemory };

    fn from(_refused: AllocError) -> BaseError {
        BaseError::Filter(FilterError::OutOfMemory)
    }
}
