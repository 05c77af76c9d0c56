// Copies of sets.
ghost use Rattle.std.specs.Prelude.{◌≡◌, IfOk};
ghost use Rattle.std.specs.BTreeSet.{contains, IsOrdered};
ghost use Rattle.packed_trees.specs.Copies.{ClonesTie};

use std::alloc::{AllocError, Global};
use std::collections::BTreeSet;

/// Copies a set into a tree whose nodes are full. Fails if memory is refused or a clone of a key
/// fails.
pub fn copy_set<K: Ord + Clone + Drop>(
    alloc: Global,
    set: &BTreeSet<K>,
) -> Result<BTreeSet<K>, AllocError>
    ensures same { IfOk result (λ copy. ClonesTie K.cmp K.is_clone
        → (key : K) → contains K.cmp copy key ≡ contains K.cmp set.now key) }
    ensures in_order { IfOk result (IsOrdered K.cmp) }
{
    let mut copies = Vec::with_capacity(alloc, set.len())?;
    for key in set {
        copies.push(key.clone()?)?;
    }
    copies.into_iter().collect(alloc)
}
