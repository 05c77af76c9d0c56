// What was told, for contracts alone.
ghost use Rattle.std.specs.Prelude.{◌≡◌, List, [], ◌∷◌, ◌++◌};
ghost use Rattle.std.specs.Borrow.{ftrue};

use std::marker::{Model, PhantomData};

/// A list that only contracts read, as `items`. It takes no memory, and its methods do nothing at
/// run time.
#[derive(Drop)]
pub(crate) struct ToldList<T> {
    of: PhantomData<T>,
    pub ghost items: { List T },
}

impl<T> Model for ToldList<T> {
    ghost also_owns = { λ _. ftrue };
}

// It owns nothing.
unsafe impl<T: Send> Send for ToldList<T> {}

impl<T> ToldList<T> {
    /// Makes an empty list.
    pub(crate) fn new() -> ToldList<T>
        ensures { result.items ≡ [] }
    {
        ToldList { of: PhantomData }
    }

    /// Returns the list with one more item at its end.
    pub(crate) fn and(&self, item: &T) -> ToldList<T>
        ensures { result.items ≡ self.now.items ++ item.now ∷ [] }
    {
        ToldList { of: PhantomData }
    }
}
