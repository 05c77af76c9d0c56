// Copies of maps.
ghost use Rattle.std.specs.Prelude.{◌≡◌, IfOk};
ghost use Rattle.std.specs.BTreeMap.{get, IsOrdered};
ghost use Rattle.packed_trees.specs.Copies.{ClonesAreEqual, ClonesTie};

use std::alloc::{AllocError, Global};
use std::collections::BTreeMap;

/// Copies a map into a tree whose nodes are full. Fails if memory is refused or a clone of a key or
/// value fails.
pub fn copy_map<K: Ord + Clone + Drop, V: Clone + Drop>(
    alloc: Global,
    map: &BTreeMap<K, V>,
) -> Result<BTreeMap<K, V>, AllocError>
    ensures same { IfOk result (λ copy. ClonesTie K.cmp K.is_clone → ClonesAreEqual V.is_clone
        → (key : K) → get K.cmp copy key ≡ get K.cmp map.now key) }
    ensures in_order { IfOk result (IsOrdered K.cmp) }
    ensures was_in_order { IsOrdered K.cmp map.now }
{
    let mut copies = Vec::with_capacity(alloc, map.len())?;
    for (key, value) in map {
        copies.push((key.clone()?, value.clone()?))?;
    }
    copies.into_iter().collect(alloc)
}
