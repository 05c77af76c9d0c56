// A decoded part of a path.
ghost use Rattle.std.specs.Prelude.{◌≡◌};
ghost use Rattle.std.specs.Cow.{cow_str_bytes};

use std::alloc::Global;
use std::borrow::CowStr;
use std::marker::Model;

/// A decoded part of a path, borrowed from the path if that has no escapes. Contracts see its
/// bytes.
#[derive(Drop)]
pub struct PathPart<'p> {
    text: CowStr<'p, Global>,
}

impl<'p> Model for PathPart<'p> {
    ghost use Rattle.std.specs.Cow.{cow_str_bytes};
    ghost use Rattle.std.specs.Prelude.{List, ℕ};

    ghost Value = { List ℕ };

    ghost view = { λ part. cow_str_bytes part.text };
}

impl<'p> PathPart<'p> {
    /// Makes a part of a decoded text.
    pub(crate) fn of(text: CowStr<'p, Global>) -> PathPart<'p>
        ensures { result ≡ cow_str_bytes text.entry }
    {
        PathPart { text }
    }

    /// Returns the part as a `&str`.
    pub fn as_str(&self) -> &str
        ensures { result.now ≡ self.now }
    {
        self.text.as_str()
    }
}
