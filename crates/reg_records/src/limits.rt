// The limits of the numbers and the lines of a topic.
ghost use Rattle.std.specs.Prelude.{◌≡◌};

/// The greatest offset, the greatest signed 64-bit integer; the least is 0.
pub const OFFSET_LIMIT: u64 = 9_223_372_036_854_775_807;

/// The greatest version and the greatest id, the greatest signed 32-bit integer; the least of each
/// is 1.
pub const NUMBER_LIMIT: u32 = 2_147_483_647;

/// The most bytes that a line has before its LF: 2 MiB.
pub const LINE_LIMIT: usize = 2_097_152;

/// The most lines of a log; the empty line at its end isn't counted.
pub const LOG_LINES: u64 = 1_000_000;

/// The most reads for one line: two for each of its bytes.
pub const LINE_READS: u64 = 2 * LINE_LIMIT as u64;

/// Proves the limits, in digits.
pub fn record_limits_are_as_written()
    ensures offset { OFFSET_LIMIT ≡ 9223372036854775807 }
    ensures number { NUMBER_LIMIT ≡ 2147483647 }
    ensures line { LINE_LIMIT ≡ 2097152 }
    ensures lines { LOG_LINES ≡ 1000000 }
    ensures reads { LINE_READS ≡ 4194304 }
{}
