// A vector that contracts see as the list of its elements.
ghost use Rattle.std.specs.Prelude.{◌≡◌, List, vec_items};

use std::alloc::AllocError;
use std::marker::Model;

/// A vector, which contracts see as the list of its elements.
#[derive(Debug, Drop)]
pub struct Listed<T> {
    items: Vec<T>,
}

impl<T> Model for Listed<T> {
    ghost use Rattle.std.specs.Prelude.{List};

    ghost Value = { List T };

    ghost view = { λ v. v.items.items };
}

impl<T> Listed<T> {
    /// Returns the elements, in their order.
    pub fn as_slice(&self) -> &[T]
        ensures { result.now ≡ self.now }
    {
        &self.items
    }
}

impl<T> From<Vec<T>> for Listed<T> {
    ghost from_gives = { λ items listed. listed ≡ items.items };

    fn from(items: Vec<T>) -> Listed<T> {
        Listed { items }
    }
}

impl<T> From<Listed<T>> for Vec<T> {
    ghost from_gives = { λ listed items. items.items ≡ listed };

    fn from(listed: Listed<T>) -> Vec<T> {
        let Listed { items } = listed;
        items
    }
}

/// Clones element by element. If clones of elements equal their originals, the list's clone does
/// too.
impl<T: Clone> Clone for Listed<T> {
    ghost use Rattle.std.specs.List.{AllZip};

    ghost is_clone = { λ listed copy. AllZip T.is_clone listed copy
        × (((x y : T) → T.is_clone x y → y ≡ x) → copy ≡ listed) };

    fn clone(&self) -> Result<Listed<T>, AllocError> {
        Ok(Listed {
            items: self.items.clone()?,
        })
    }
}
