// How much a judge keeps.
ghost use Rattle.std.specs.Prelude.{◌≡◌};

/// The most schemas, and the most verdicts, that a judge may keep.
pub const KEPT_LIMIT: usize = 65_536;

/// Proves the limit, in digits.
pub fn judge_limits_are_as_written()
    ensures { KEPT_LIMIT ≡ 65536 }
{}
