// The places of items in the order of their names' hashes.
ghost use Rattle.std.specs.Prelude.{◌≡◌, IfOk, MatchOption, false, map, bytes_eq};
ghost use Rattle.std.specs.List.{All, IsAllAdjacentAnswer};
ghost use Rattle.named_list.specs.Distinct.{all_distinct};
ghost use Rattle.named_list.specs.Index.{IsIndex, IsOrderOf, IsPlaced, IsHashed, are_apart, names_of};

use crate::Named;
use crate::slots::hash_of;
use base_text::Text;
use std::alloc::{AllocError, Global};

/// Returns each item's hash and position, sorted by hash and then by name. `None` if two items have
/// the same name. The only error is out of memory.
pub(crate) fn index_of<T: Named>(
    alloc: Global,
    items: &[T],
) -> Result<Option<Vec<(u32, usize)>>, AllocError>
    ensures { IfOk result (λ found. MatchOption found
        (all_distinct bytes_eq (map T.name items.now) ≡ false)
        (λ places. IsIndex (map T.name items.now) places.items)) }
{
    let entries = entries_of(alloc, items)?;
    places_in_order(alloc, entries)
}

/// Returns each item's hash, name and position, in the order of the items.
fn entries_of<T: Named>(alloc: Global, items: &[T]) -> Result<Vec<(u32, &Text, usize)>, AllocError>
    ensures names { IfOk result (λ entries. names_of entries.items ≡ map T.name items.now) }
    ensures placed { IfOk result (λ entries. All (IsPlaced (map T.name items.now)) entries.items) }
    ensures hashed { IfOk result (λ entries. All IsHashed entries.items) }
{
    let mut entries = Vec::with_capacity(alloc, items.len())?;
    for (place, item) in items.iter().enumerate() {
        let name = item.name();
        let hash = hash_of(name.as_str().as_bytes());
        entries.push((hash, name, place))?;
    }
    Ok(entries)
}

/// Sorts the entries and returns their hashes and positions. `None` if two entries have the same
/// name.
fn places_in_order(
    alloc: Global,
    mut entries: Vec<(u32, &Text, usize)>,
) -> Result<Option<Vec<(u32, usize)>>, AllocError>
    requires { All IsHashed entries.items }
    ensures { IfOk result (λ found. MatchOption found
        (all_distinct bytes_eq (names_of entries.entry.items) ≡ false)
        (λ places. IsOrderOf entries.entry.items places.items)) }
{
    entries.sort_unstable();
    if !do_differ(entries.as_slice()) {
        return Ok(None);
    }
    Ok(Some(places_of(alloc, entries.as_slice())?))
}

/// Returns whether each entry's name differs from the next one's.
fn do_differ(entries: &[(u32, &Text, usize)]) -> bool
    ensures { IsAllAdjacentAnswer (λ x y b. b ≡ are_apart x y) entries.now result }
{
    entries.is_sorted_by(|one, next| one.0 != next.0 || one.1 != next.1)
}

/// Returns the hashes and positions of the entries.
fn places_of(
    alloc: Global,
    entries: &[(u32, &Text, usize)],
) -> Result<Vec<(u32, usize)>, AllocError>
    ensures { IfOk result (λ places. places.items ≡ map (λ e. (e.0, e.2)) entries.now) }
{
    entries
        .iter()
        .map(|entry| (entry.0, entry.2))
        .collect(alloc)
}
