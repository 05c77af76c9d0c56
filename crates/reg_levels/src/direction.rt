// Which of two schemas reads the other.
ghost use Rattle.std.specs.Prelude.{◌≡◌};
ghost use Rattle.reg_levels.specs.Message.{direction_text};

use std::fmt;

/// The direction of a check: which of two schemas reads the other.
#[derive(Clone, Copy, Debug, PartialEq, Eq)]
pub enum Direction {
    /// The new schema reads what the old one wrote.
    Backward,
    /// The old schema reads what the new one writes.
    Forward,
}

impl Direction {
    /// Returns the direction's name: `BACKWARD` or `FORWARD`.
    pub fn as_str(self) -> &'static str
        ensures { result.now ≡ direction_text self }
    {
        match self {
            Direction::Backward => "BACKWARD",
            Direction::Forward => "FORWARD",
        }
    }
}

impl fmt::Display for Direction {
    ghost use Rattle.std.specs.Prelude.{Some};
    ghost use Rattle.reg_levels.specs.Message.{direction_text};

    ghost output = { λ direction. Some (direction_text direction) };

    fn fmt<W: fmt::Write>(&self, f: &mut fmt::Formatter<W>) -> fmt::Result {
        write!(f, "{}", self.as_str())
    }
}
