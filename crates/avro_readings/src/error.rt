// Why a value has no reading.
use std::alloc::AllocError;
use thiserror::Error;

/// An error of `read_data`.
#[derive(Clone, Copy, Debug, PartialEq, Eq, Error)]
pub enum ReadError {
    /// The value isn't one of the writer's schema.
    #[error("Unfit")]
    Unfit,
    /// The value is one of the writer's schema, and the reader can't read it.
    #[error("Unreadable")]
    Unreadable,
    /// The value has a reading, of more than [`avro_data::PARTS_LIMIT`] parts or more than
    /// [`avro_data::LEVELS_LIMIT`] levels.
    #[error("TooLarge")]
    TooLarge,
    #[error("out of memory")]
    OutOfMemory,
}

impl From<AllocError> for ReadError {
    ghost use Rattle.std.specs.Prelude.{◌≡◌};
    ghost use Rattle.avro_readings.specs.declared.error.ReadError.TheVariants.{OutOfMemory};

    ghost from_gives = { λ _ e. e ≡ OutOfMemory };

    fn from(_refused: AllocError) -> ReadError {
        ReadError::OutOfMemory
    }
}
