// The limit of serving.
ghost use Rattle.std.specs.Prelude.{◌≡◌};

/// The most requests that one call of `serve` answers.
pub const REQUESTS_LIMIT: u64 = 65_536;

/// States the limit in digits.
pub fn serving_limits_are_as_written()
    ensures { REQUESTS_LIMIT ≡ 65536 }
{}
