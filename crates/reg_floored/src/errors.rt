// Why a set with a floor wasn't changed.
use std::alloc::AllocError;
use thiserror::Error;

/// An error of merging two sets.
#[derive(Clone, Copy, Debug, PartialEq, Eq, Error)]
pub enum MergeError {
    /// The sets have these different floors.
    #[error("the floors differ: {mine} and {other}")]
    FloorsDiffer { mine: u64, other: u64 },
    #[error("out of memory")]
    OutOfMemory,
}

impl From<AllocError> for MergeError {
    ghost use Rattle.std.specs.Prelude.{◌≡◌};
    ghost use Rattle.reg_floored.specs.declared.errors.MergeError.TheVariants.{OutOfMemory};

    ghost from_gives = { λ _ error. error ≡ OutOfMemory };

    fn from(_refused: AllocError) -> MergeError {
        MergeError::OutOfMemory
    }
}

/// An error of raising the floor of a set.
#[derive(Clone, Copy, Debug, PartialEq, Eq, Error)]
pub enum FloorError {
    /// The floor is lower than the set's own, which is this one.
    #[error("below the floor {0}")]
    FloorBelow(u64),
    #[error("out of memory")]
    OutOfMemory,
}

impl From<AllocError> for FloorError {
    ghost use Rattle.std.specs.Prelude.{◌≡◌};
    ghost use Rattle.reg_floored.specs.declared.errors.FloorError.TheVariants.{OutOfMemory};

    ghost from_gives = { λ _ error. error ≡ OutOfMemory };

    fn from(_refused: AllocError) -> FloorError {
        FloorError::OutOfMemory
    }
}
