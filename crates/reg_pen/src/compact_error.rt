// Why a compaction isn't published.
use std::alloc::AllocError;
use thiserror::Error;

/// Why a compaction to a floor isn't published.
#[derive(Clone, Copy, Debug, PartialEq, Eq, Error)]
pub enum CompactError {
    /// The floor is below that of the kept set (the number here). Nothing has changed.
    #[error("below the floor {0}")]
    FloorBelow(u64),
    /// The floor is ahead of the next offset (the number here). Nothing has changed.
    #[error("ahead of the next offset {0}")]
    FloorAhead(u64),
    /// Memory was refused: either what was pending, or the compaction, is still pending.
    #[error("out of memory")]
    OutOfMemory,
    /// The keep lost a batch, which stays pending for good. Nothing has changed.
    #[error("a batch is lost")]
    Lost,
}

impl From<AllocError> for CompactError {
    ghost use Rattle.std.specs.Prelude.{◌≡◌};
    ghost use Rattle.reg_pen.specs.declared.compact_error.CompactError.TheVariants.{OutOfMemory};

    ghost from_gives = { λ _ error. error ≡ OutOfMemory };

    fn from(_refused: AllocError) -> CompactError {
        CompactError::OutOfMemory
    }
}
