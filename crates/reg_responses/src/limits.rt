// The limit of a response.
ghost use Rattle.std.specs.Prelude.{◌≡◌};

/// The most interruptions in a row of a write or a flush. After these the writer counts as lost.
pub const INTERRUPTION_LIMIT: u64 = 1_048_576;

/// States the limit in digits.
pub fn response_limits_are_as_written()
    ensures { INTERRUPTION_LIMIT ≡ 1048576 }
{}
