// Why no sample is given.
use std::alloc::AllocError;
use thiserror::Error;

/// An error of `sample`.
#[derive(Clone, Copy, Debug, PartialEq, Eq, Error)]
pub enum SampleError {
    /// The sample has more than `PARTS_LIMIT` parts or more than `LEVELS_LIMIT` levels.
    #[error("TooLarge")]
    TooLarge,
    #[error("out of memory")]
    OutOfMemory,
}

impl From<AllocError> for SampleError {
    ghost use Rattle.std.specs.Prelude.{◌≡◌};
    ghost use Rattle.avro_data.specs.declared.error.SampleError.TheVariants.{OutOfMemory};

    ghost from_gives = { λ _ e. e ≡ OutOfMemory };

    fn from(_refused: AllocError) -> SampleError {
        SampleError::OutOfMemory
    }
}
