// The limits on schemas.
ghost use Rattle.std.specs.Prelude.{◌≡◌};

/// The longest text of a schema, in bytes.
pub const TEXT_LIMIT: usize = 1_048_576;

/// The most nodes of a schema: the types that its text writes out.
pub const SCHEMA_NODES_LIMIT: usize = 65_535;

/// The greatest size of a fixed type, in bytes.
pub const SIZE_LIMIT: u32 = 2_147_483_647;

/// States the limits in digits.
pub fn schema_limits_are_as_written()
    ensures text { TEXT_LIMIT ≡ 1048576 }
    ensures nodes { SCHEMA_NODES_LIMIT ≡ 65535 }
    ensures size { SIZE_LIMIT ≡ 2147483647 }
{}
