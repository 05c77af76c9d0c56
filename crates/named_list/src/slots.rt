// Slots: a hash table of positions, which a lookup tries first.
ghost use Rattle.std.specs.Prelude.{◌≡◌, ◌<◌, ◌%◌, true, IfOk, IfSome, Some, map, position, length, bytes_eq, slice_index_or};
ghost use Rattle.std.specs.List.{All};
ghost use Rattle.named_list.specs.Distinct.{all_distinct};
ghost use Rattle.named_list.specs.Index.{IsIndex};
ghost use Rattle.named_list.specs.Slots as spec;

use crate::Named;
use crate::lookup::place_in_order;
use std::alloc::{AllocError, Global};

/// The number of slots per item. The more there are, the fewer items share one.
const SLOTS_FOR_ITEM: usize = 6;

/// Makes the slots for these hashes. A slot has the position, counted from 1, of one of the items
/// that hash to it, or 0 if none does. The only error is out of memory.
pub(crate) fn slots_of(alloc: Global, by_hash: &[(u32, usize)]) -> Result<Vec<u32>, AllocError>
    ensures { IfOk result (λ slots. All (λ e. 0 < slice_index_or slots.items (e.0 % length slots.items) 0) by_hash.now) }
{
    let count = by_hash
        .len()
        .saturating_mul(SLOTS_FOR_ITEM)
        .saturating_add(1);
    let mut slots = vec![in alloc; 0; count]?;
    for entry in by_hash {
        let slot = slot_of(entry.0, count);
        slots[slot] = slot_at(entry.1);
    }
    Ok(slots)
}

/// Returns the slot's value for a position: the position plus one, at most `u32::MAX`.
fn slot_at(place: usize) -> u32
    ensures { 0 < result }
{
    u32::try_from(place.saturating_add(1)).unwrap_or(u32::MAX)
}

/// Returns the slot of a hash, among `count` slots.
fn slot_of(hash: u32, count: usize) -> usize
    requires { 0 < count }
    ensures is { result ≡ hash % count }
    ensures within { result < count }
{
    hash as usize % count
}

/// Returns the hash of a name. The hash has no secret key.
pub(crate) fn hash_of(name: &[u8]) -> u32
    ensures { result ≡ spec.hash_from 0 name.now }
{
    let mut hash: u32 = 0;
    for byte in name {
        hash = hash
            .wrapping_add(u32::from(*byte))
            .wrapping_mul(2_654_435_761);
    }
    hash
}

/// Returns the position of the item of that name. Looks at the name's slot first; if another item
/// is there, searches the index.
pub(crate) fn place_by_slot<T: Named>(
    items: &[T],
    slots: &[u32],
    by_hash: &[(u32, usize)],
    name: &str,
) -> Option<usize>
    requires distinct { all_distinct bytes_eq (map T.name items.now) ≡ true }
    requires index { IsIndex (map T.name items.now) by_hash.now }
    requires slots { spec.HaveSlots slots.now (map T.name items.now) }
    requires some { 0 < length slots.now }
    ensures { result ≡ position (λ item. bytes_eq (T.name item) name.now) items.now }
{
    let hash = hash_of(name.as_bytes());
    let place = slots[slot_of(hash, slots.len())];
    if place == 0 {
        return None;
    }
    let place = (place - 1) as usize;
    if is_named(items, place, name) {
        return Some(place);
    }
    place_in_order(items, by_hash, hash, name)
}

/// Returns whether the item at a position has that name.
fn is_named<T: Named>(items: &[T], place: usize, name: &str) -> bool
    requires distinct { all_distinct bytes_eq (map T.name items.now) ≡ true }
    ensures { result ≡ true → position (λ item. bytes_eq (T.name item) name.now) items.now ≡ Some place }
{
    if place >= items.len() {
        return false;
    }
    items[place].name().as_str() == name
}
