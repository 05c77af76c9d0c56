// A text that contracts see as its bytes, and whose clones share it.
ghost use Rattle.std.specs.Arc.{arc_str_bytes};
ghost use Rattle.std.specs.Prelude.{◌≡◌, [], Some, IfOk, string_bytes, nat_eq, refl};
ghost use Rattle.std.specs.Ordering.{nat_cmp};
ghost use Rattle.std.specs.Cmp.Lexicographic.{pointwise, slice_cmp, nat_list_eq_equiv, nat_list_cmp_total, texts_ties, texts_po};
ghost use Rattle.std.specs.Cmp.{partial_equiv_from_equiv};

use std::alloc::{AllocError, Global};
use std::cmp::Ordering;
use std::marker::Model;
use std::sync::ArcStr;

/// A UTF-8 text, which contracts see as the list of its bytes.
///
/// Texts are compared and ordered by their bytes. A clone shares the bytes of its original: it
/// copies nothing and allocates nothing.
#[derive(Debug)]
pub struct Text {
    // `None` for the empty text, which takes no memory.
    shared: Option<ArcStr>,
}

impl Model for Text {
    ghost use Rattle.std.specs.Arc.{arc_str_bytes};
    ghost use Rattle.std.specs.Option.{option_map_or};
    ghost use Rattle.std.specs.Prelude.{List, ℕ, []};

    ghost Value = { List ℕ };

    ghost view = { λ t. option_map_or arc_str_bytes t.shared [] };
}

impl Text {
    /// Returns the empty text. Allocates nothing.
    pub fn empty() -> Text
        ensures { result ≡ [] }
    {
        Text { shared: None }
    }

    /// Copies `text`. The only error is out of memory.
    pub fn copy_of(alloc: Global, text: &str) -> Result<Text, AllocError>
        ensures { IfOk result (λ t. t ≡ text.now) }
    {
        Ok(Text {
            shared: Some(ArcStr::from_str(alloc, text)?),
        })
    }

    /// Turns a string into a text without copying its bytes. The only error is out of memory.
    pub fn of_string(string: String) -> Result<Text, AllocError>
        ensures { IfOk result (λ t. t ≡ string_bytes string) }
    {
        Ok(Text {
            shared: Some(ArcStr::from_string(string)?),
        })
    }

    /// Returns the text as a `&str`.
    pub fn as_str(&self) -> &str
        ensures { result.now ≡ self.now }
    {
        match &self.shared {
            Some(shared) => shared.as_str(),
            None => "",
        }
    }
}

/// Gives up this clone's share of the bytes.
impl Drop for Text {
    fn drop(self) {
        let Text { shared } = self;
        drop(shared);
    }
}

impl Clone for Text {
    ghost is_clone = { λ text copy. copy ≡ text };

    fn clone(&self) -> Result<Text, AllocError> {
        match &self.shared {
            Some(shared) => Ok(Text {
                shared: Some(shared.clone()?),
            }),
            None => Ok(Text::empty()),
        }
    }
}

impl PartialEq for Text {
    ghost eq = { pointwise nat_eq };

    ghost laws = { partial_equiv_from_equiv nat_list_eq_equiv };

    fn eq(&self, other: &Text) -> bool {
        self.as_str() == other.as_str()
    }
}

impl Eq for Text {
    ghost laws = { nat_list_eq_equiv };
}

impl PartialOrd for Text {
    ghost partial_cmp = { λ a b. Some (slice_cmp nat_cmp a b) };

    ghost laws = { texts_po };

    fn partial_cmp(&self, other: &Text) -> Option<Ordering> {
        Some(self.cmp(other))
    }
}

impl Ord for Text {
    ghost cmp = { slice_cmp nat_cmp };

    ghost total = { nat_list_cmp_total };

    ghost matches_partial_cmp = { λ a b. refl };

    ghost matches_eq = { texts_ties };

    fn cmp(&self, other: &Text) -> Ordering {
        self.as_str().cmp(other.as_str())
    }
}
