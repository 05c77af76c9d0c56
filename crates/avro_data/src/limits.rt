// How large a value may be.
ghost use Rattle.std.specs.Prelude.{◌≡◌};

/// The largest number of parts of a value that is made here.
pub const PARTS_LIMIT: usize = 1_048_576;

/// The largest number of levels of a value that is made here.
pub const LEVELS_LIMIT: usize = 1_000;

/// States the limits in digits. Costs nothing at run time.
pub fn data_limits_are_as_written()
    ensures parts { PARTS_LIMIT ≡ 1048576 }
    ensures levels { LEVELS_LIMIT ≡ 1000 }
{}
