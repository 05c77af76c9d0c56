// Why a part of a lookup gives nothing.
use reg_modes::reg_fold::Refusal;
use std::alloc::AllocError;

/// Why a part of a lookup gives nothing.
#[derive(Debug, Drop)]
pub(crate) enum LookupError {
    /// The query is refused.
    Refused(Refusal),
    OutOfMemory,
}

impl From<AllocError> for LookupError {
    ghost use Rattle.std.specs.Prelude.{◌≡◌};
    ghost use Rattle.reg_lookup.specs.declared.error.LookupError.TheVariants.{OutOfMemory};

    ghost from_gives = { λ _ error. error ≡ OutOfMemory };

    fn from(_: AllocError) -> LookupError {
        LookupError::OutOfMemory
    }
}
