// What is known of a sample before it is built.
ghost use Rattle.std.specs.Prelude.{◌≡◌, option_copied};
ghost use Rattle.avro_data.specs.Outlines as spec;

use crate::limits::{LEVELS_LIMIT, PARTS_LIMIT};

/// The outline of a value: its size, and its branch. Counting stops at one above a limit.
#[derive(Clone, Copy)]
pub(crate) struct Outline {
    /// The number of its parts, itself included, at most `PARTS_LIMIT + 1`.
    pub parts: usize,
    /// The number of its levels, at most `LEVELS_LIMIT + 1`.
    pub levels: usize,
    /// The number of its branch if it is a union's value, else 0.
    pub branch: usize,
}

impl Outline {
    /// Makes the outline of a value with nothing inside.
    pub fn leaf() -> Outline
        ensures { result ≡ spec.single }
    {
        Outline {
            parts: 1,
            levels: 1,
            branch: 0,
        }
    }

    /// Makes the outline of a record's fields before the first.
    pub fn nothing() -> Outline
        ensures { result ≡ spec.nothing }
    {
        Outline {
            parts: 0,
            levels: 0,
            branch: 0,
        }
    }

    /// Adds the outline of one more field.
    pub fn beside(self, field: Outline) -> Outline
        ensures { result ≡ spec.beside self field }
    {
        Outline {
            parts: self.parts.saturating_add(field.parts).min(PARTS_LIMIT + 1),
            levels: self.levels.max(field.levels),
            branch: 0,
        }
    }

    /// Makes the outline of the value around this one, which is of that branch.
    pub fn around(self, branch: usize) -> Outline
        ensures { result ≡ spec.around branch self }
    {
        Outline {
            parts: self.parts.saturating_add(1).min(PARTS_LIMIT + 1),
            levels: self.levels.saturating_add(1).min(LEVELS_LIMIT + 1),
            branch,
        }
    }

    /// Returns whether the value is over a limit.
    pub fn is_too_large(&self) -> bool
        ensures { result ≡ spec.is_over self.now }
    {
        self.parts > PARTS_LIMIT || self.levels > LEVELS_LIMIT
    }
}

/// The round in which a type is given its sample, and the sample's outline.
#[derive(Clone, Copy)]
pub(crate) struct Given {
    /// The round in which it is given, counted from 1.
    pub round: usize,
    pub outline: Outline,
}
