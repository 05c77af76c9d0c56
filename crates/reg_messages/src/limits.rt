// The limits of reading messages.
ghost use Rattle.std.specs.Prelude.{◌≡◌};

/// The most bytes of the head of a request, including the CR and LF bytes before it.
pub const HEAD_LIMIT: usize = 8_192;

/// The most lines of the head of a request before its empty line.
pub const HEAD_LINES: usize = 65;

/// The most fields of the head of a request.
pub const HEAD_FIELDS: usize = 64;

/// The most bytes of a body.
pub const BODY_LIMIT: u64 = 1_048_576;

/// The most reads for one request.
pub const REQUEST_READS: u64 = 2_097_152;

/// States the limits in digits.
pub fn message_limits_are_as_written()
    ensures head { HEAD_LIMIT ≡ 8192 }
    ensures lines { HEAD_LINES ≡ 65 }
    ensures fields { HEAD_FIELDS ≡ 64 }
    ensures body { BODY_LIMIT ≡ 1048576 }
    ensures reads { REQUEST_READS ≡ 2097152 }
{}
