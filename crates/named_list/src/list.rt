// A list of items with distinct names.
ghost use Rattle.std.specs.Prelude.{◌≡◌, IfOk, List, Some, None, true, if◌then◌else◌, map, find, position, option_copied, bytes_eq};
ghost use Rattle.named_list.specs.Distinct.{all_distinct};

use crate::Named;
use crate::index::index_of;
use crate::lookup::{are_distinct, item_at, place_in};
use crate::slots::{place_by_slot, slots_of};
use base_text::Text;
use std::alloc::{AllocError, Global};
use std::marker::Model;

/// The most items of a list that is searched one by one, without an index.
const SHORT: usize = 8;

/// A list of items with distinct names, found by name. Contracts see the list of the items, in the
/// order given.
#[derive(Debug, Drop)]
pub struct NamedList<T: Named> {
    items: Vec<T>,
    /// The hash of each name with the position of its item, sorted by hash. Empty if the list is
    /// short.
    by_hash: Vec<(u32, usize)>,
    /// A hash table of positions, which a lookup tries first. Empty if the list is short.
    slots: Vec<u32>,
}

impl<T: Named> Model for NamedList<T> {
    ghost use Rattle.std.specs.Prelude.{◌≡◌, ◌<◌, List, true, length, map, bytes_eq};
    ghost use Rattle.named_list.specs.Distinct.{all_distinct};
    ghost use Rattle.named_list.specs.Index.{IsIndex};
    ghost use Rattle.named_list.specs.Slots.{HaveSlots};

    ghost Value = { List T };

    ghost view = { λ l. l.items.items };

    ghost invariant = { λ l. (all_distinct bytes_eq (map T.name l.items.items) ≡ true)
        × (0 < length l.slots.items → IsIndex (map T.name l.items.items) l.by_hash.items × HaveSlots l.slots.items (map T.name l.items.items)) };
}

impl<T: Named + Drop> NamedList<T> {
    /// Makes a list of the items, in this order. `None` if two of them have the same name. The only
    /// error is out of memory.
    pub fn of(alloc: Global, items: Vec<T>) -> Result<Option<NamedList<T>>, AllocError>
        ensures { IfOk result (λ found. found
            ≡ (if all_distinct bytes_eq (map T.name items.items) then Some items.items else None)) }
    {
        if items.len() <= SHORT {
            if !are_distinct(items.as_slice()) {
                return Ok(None);
            }
            return Ok(Some(NamedList {
                items,
                by_hash: Vec::new(alloc),
                slots: Vec::new(alloc),
            }));
        }
        let Some(by_hash) = index_of(alloc, items.as_slice())? else {
            return Ok(None);
        };
        let slots = slots_of(alloc, by_hash.as_slice())?;
        Ok(Some(NamedList {
            items,
            by_hash,
            slots,
        }))
    }
}

impl<T: Named> NamedList<T> {
    /// Returns the items, in their order. Their names are distinct.
    pub fn as_slice(&self) -> &[T]
        ensures items { result.now ≡ self.now }
        ensures distinct { all_distinct bytes_eq (map T.name self.now) ≡ true }
    {
        &self.items
    }

    /// Returns the position of the item of that name, counted from 0. `None` if there is none.
    /// Takes as long as [`NamedList::get`].
    pub fn place(&self, name: &Text) -> Option<usize>
        ensures { result ≡ position (λ item. bytes_eq (T.name item) name.now) self.now }
    {
        self.place_of(name.as_str())
    }

    fn place_of(&self, name: &str) -> Option<usize>
        ensures { result ≡ position (λ item. bytes_eq (T.name item) name.now) self.now }
    {
        let items = self.items.as_slice();
        if self.slots.is_empty() {
            place_in(items, name)
        } else {
            place_by_slot(items, self.slots.as_slice(), self.by_hash.as_slice(), name)
        }
    }

    /// Returns the item of that name. `None` if there is none. Allocates nothing. Most names take
    /// constant time; about one in ten takes time logarithmic in the length.
    pub fn get(&self, name: &Text) -> Option<&T>
        ensures { option_copied result ≡ find (λ item. bytes_eq (T.name item) name.now) self.now }
    {
        self.find(name.as_str())
    }

    /// Returns the item of that name, like [`NamedList::get`], for a name that isn't a [`Text`].
    pub fn find(&self, name: &str) -> Option<&T>
        ensures { option_copied result ≡ find (λ item. bytes_eq (T.name item) name.now) self.now }
    {
        match self.place_of(name) {
            Some(place) => item_at(self.items.as_slice(), place),
            None => None,
        }
    }
}

impl<T: Named> From<NamedList<T>> for Vec<T> {
    ghost from_gives = { λ list items. items.items ≡ list };

    fn from(list: NamedList<T>) -> Vec<T> {
        let NamedList {
            items,
            by_hash: _,
            slots: _,
        } = list;
        items
    }
}
