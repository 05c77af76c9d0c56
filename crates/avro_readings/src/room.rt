// How much of a reading may still be made.
ghost use Rattle.std.specs.Prelude.{◌≡◌, ◌⊎◌, ◌+◌, ◌<◌, OnOk, IfErr};
ghost use Rattle.avro_data.specs.declared.limits.TheConstants.{PARTS_LIMIT, LEVELS_LIMIT};

use avro_data::{LEVELS_LIMIT, PARTS_LIMIT};
use std::alloc::{AllocError, AllocFailed};

/// The room for a reading: how many parts may still be made, and how many levels from here.
#[derive(Clone, Copy, Debug, PartialEq, Eq)]
pub struct Room {
    pub parts: usize,
    pub levels: usize,
}

/// An error of making a reading within its room.
#[derive(Clone, Copy, Debug, PartialEq, Eq)]
pub enum Halt {
    /// No reading exists.
    Unreadable,
    /// The reading has no room, if one exists.
    TooLarge,
    OutOfMemory,
}

impl Room {
    /// Makes the room of a whole reading: `PARTS_LIMIT` parts and `LEVELS_LIMIT` levels.
    pub fn whole() -> Room
        ensures { result ≡ record { parts = PARTS_LIMIT; levels = LEVELS_LIMIT } }
    {
        Room {
            parts: PARTS_LIMIT,
            levels: LEVELS_LIMIT,
        }
    }

    /// Takes the room of one part, and goes a level down. Returns `TooLarge` if no part or level is
    /// left.
    pub fn enter(&mut self) -> Result<(), Halt>
        ensures entered { OnOk result ((self.new.parts + 1 ≡ self.old.parts) × (self.new.levels + 1 ≡ self.old.levels)) }
        ensures below { OnOk result (self.new.levels < usize.MAX) }
        ensures full { IfErr result (λ e. (e ≡ Halt.TooLarge) × ((self.old.parts ≡ 0) ⊎ (self.old.levels ≡ 0))) }
    {
        if self.parts == 0 || self.levels == 0 {
            return Err(Halt::TooLarge);
        }
        self.parts -= 1;
        self.levels -= 1;
        Ok(())
    }

    /// Goes a level up.
    pub fn leave(&mut self)
        requires { self.old.levels < usize.MAX }
        ensures { self.new ≡ record { parts = self.old.parts; levels = self.old.levels + 1 } }
    {
        self.levels += 1;
    }
}

impl From<AllocError> for Halt {
    ghost use Rattle.std.specs.Prelude.{◌≡◌};
    ghost use Rattle.avro_readings.specs.declared.room.Halt.TheVariants.{OutOfMemory};

    ghost from_gives = { λ _ e. e ≡ OutOfMemory };

    fn from(_refused: AllocError) -> Halt {
        Halt::OutOfMemory
    }
}

impl<T: Drop> From<AllocFailed<T>> for Halt {
    ghost use Rattle.std.specs.Prelude.{◌≡◌};
    ghost use Rattle.avro_readings.specs.declared.room.Halt.TheVariants.{OutOfMemory};

    ghost from_gives = { λ _ e. e ≡ OutOfMemory };

    fn from(_refused: AllocFailed<T>) -> Halt {
        Halt::OutOfMemory
    }
}
