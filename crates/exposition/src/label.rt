// Labels, which tell the samples of a family apart.
ghost use Rattle.std.specs.Prelude.{◌≡◌, IsTrue};
ghost use Rattle.exposition.specs.Names.{is_label_name};

use crate::name::Fixed;
use std::marker::Model;

/// The name of a label. Contracts see its bytes.
#[derive(Drop)]
pub struct LabelName {
    bytes: &'static str,
}

impl Model for LabelName {
    ghost use Rattle.std.specs.Prelude.{List, ℕ, IsTrue};
    ghost use Rattle.exposition.specs.Names.{is_label_name};

    ghost Value = { List ℕ };

    ghost view = { λ n. n.bytes.now };

    ghost invariant = { λ n. IsTrue (is_label_name n.bytes.now) };
}

impl LabelName {
    /// Makes the name with that text: ASCII letters, digits and `_`, no digit first. It isn't `le`
    /// and doesn't begin with `__`.
    pub fn of(text: &'static str) -> LabelName
        requires { IsTrue (is_label_name text.now) }
        ensures { result ≡ text.now }
    {
        LabelName { bytes: text }
    }

    /// Returns its text.
    pub fn as_str(&self) -> &'static str
        ensures text { result.now ≡ self.now }
        ensures name { IsTrue (is_label_name self.now) }
    {
        self.bytes
    }
}

/// A label with its value.
#[derive(Drop)]
pub struct LabelPair {
    pub name: LabelName,
    pub value: Fixed,
}
