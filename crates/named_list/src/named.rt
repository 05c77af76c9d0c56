// Items that have a name.
ghost use Rattle.std.specs.Prelude.{◌≡◌, List, ℕ};

use base_text::Text;

/// An item that has a name. Contracts see the name as bytes.
pub trait Named {
    ghost name: { Self → List ℕ };

    /// Returns the item's name.
    fn name(&self) -> &Text
        ensures { result.now ≡ name self.now };
}

/// A text is its own name.
impl Named for Text {
    ghost name = { λ text. text };

    fn name(&self) -> &Text {
        self
    }
}
