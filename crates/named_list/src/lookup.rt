// Where an item of a name is in a list.
ghost use Rattle.std.specs.Prelude.{◌≡◌, true, map, position, option_copied, slice_get, bytes_eq, ◌<◌, length, slice_index_or, []};
ghost use Rattle.std.specs.List.{list_any};
ghost use Rattle.named_list.specs.Distinct.{all_distinct};
ghost use Rattle.named_list.specs.Index.{IsIndex, hash_cmp};
ghost use Rattle.named_list.specs.Slots.{hash_from};

use crate::Named;
use base_text::Text;
use std::cmp::Ordering;

/// Returns whether the items' names are distinct, by comparing each pair.
pub(crate) fn are_distinct<T: Named>(items: &[T]) -> bool
    ensures { result ≡ all_distinct bytes_eq (map T.name items.now) }
{
    match items {
        [] => true,
        [first, rest @ ..] => !has_name(rest, first.name()) && are_distinct(rest),
    }
}

fn has_name<T: Named>(items: &[T], name: &Text) -> bool
    ensures { result ≡ list_any (λ item. bytes_eq name.now (T.name item)) items.now }
{
    items.iter().any(|item| name == item.name())
}

/// Returns the item at a position.
pub(crate) fn item_at<T>(items: &[T], place: usize) -> Option<&T>
    ensures { option_copied result ≡ slice_get items.now place }
{
    items.get(place)
}

/// Returns the position of the item of that name, by comparing one by one.
pub(crate) fn place_in<T: Named>(items: &[T], name: &str) -> Option<usize>
    ensures { result ≡ position (λ item. bytes_eq (T.name item) name.now) items.now }
{
    items.iter().position(|item| item.name().as_str() == name)
}

/// Returns the position of the item of that name, by binary search in the index. `hash` is the
/// name's hash.
pub(crate) fn place_in_order<T: Named>(
    items: &[T],
    by_hash: &[(u32, usize)],
    hash: u32,
    name: &str,
) -> Option<usize>
    requires distinct { all_distinct bytes_eq (map T.name items.now) ≡ true }
    requires index { IsIndex (map T.name items.now) by_hash.now }
    requires hash { hash ≡ hash_from 0 name.now }
    ensures { result ≡ position (λ item. bytes_eq (T.name item) name.now) items.now }
{
    let mut low = 0;
    let mut high = by_hash.len();
    while low < high {
        let middle = low + (high - low) / 2;
        let entry = by_hash[middle];
        match compare_at(items, entry, hash, name) {
            Ordering::Less => low = middle + 1,
            Ordering::Equal => return Some(entry.1),
            Ordering::Greater => high = middle,
        }
    }
    None
}

/// Compares an index entry with a hash and name: by hash, then by name.
fn compare_at<T: Named>(items: &[T], entry: (u32, usize), hash: u32, name: &str) -> Ordering
    requires within { entry.1 < length items.now }
    requires known { entry.0 ≡ hash_from 0 (slice_index_or (map T.name items.now) entry.1 []) }
    requires hash { hash ≡ hash_from 0 name.now }
    ensures { result ≡ hash_cmp (slice_index_or (map T.name items.now) entry.1 []) name.now }
{
    match entry.0.cmp(&hash) {
        Ordering::Less => Ordering::Less,
        Ordering::Equal => items[entry.1].name().as_str().cmp(name),
        Ordering::Greater => Ordering::Greater,
    }
}
