// The names of metrics, and texts of the program's own.
ghost use Rattle.std.specs.Prelude.{◌≡◌, IsTrue};
ghost use Rattle.exposition.specs.Names.{is_name};

use std::marker::Model;

/// The name of a metric. Contracts see its bytes.
#[derive(Drop)]
pub struct Name {
    bytes: &'static str,
}

impl Model for Name {
    ghost use Rattle.std.specs.Prelude.{List, ℕ, IsTrue};
    ghost use Rattle.exposition.specs.Names.{is_name};

    ghost Value = { List ℕ };

    ghost view = { λ n. n.bytes.now };

    ghost invariant = { λ n. IsTrue (is_name n.bytes.now) };
}

impl Name {
    /// Makes the name with that text: ASCII letters, digits, `_` and `:`, no digit first.
    pub fn of(text: &'static str) -> Name
        requires { IsTrue (is_name text.now) }
        ensures { result ≡ text.now }
    {
        Name { bytes: text }
    }

    /// Returns its text.
    pub fn as_str(&self) -> &'static str
        ensures text { result.now ≡ self.now }
        ensures name { IsTrue (is_name self.now) }
    {
        self.bytes
    }
}

/// A text that is part of the program, so never one from a client. Contracts see its bytes.
#[derive(Drop)]
pub struct Fixed {
    bytes: &'static str,
}

impl Model for Fixed {
    ghost use Rattle.std.specs.Prelude.{List, ℕ};

    ghost Value = { List ℕ };

    ghost view = { λ f. f.bytes.now };
}

impl Fixed {
    /// Makes it of that text.
    pub fn of(text: &'static str) -> Fixed
        ensures { result ≡ text.now }
    {
        Fixed { bytes: text }
    }

    /// Returns the text.
    pub fn as_str(&self) -> &'static str
        ensures { result.now ≡ self.now }
    {
        self.bytes
    }
}
