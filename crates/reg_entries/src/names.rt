// The names of entries, which are kept beside them.
ghost use Rattle.std.specs.Prelude.{◌≡◌, ◌+◌, [], ◌<◌, ◌^◌, Some, false, cond, not, ◌&&◌, ◌||◌, ◌==◌, IfOk, OnOk, OnErr};
ghost use Rattle.std.specs.BTreeMap.{IsOrdered};
ghost use Rattle.std.specs.BTreeSet as tree_set;
ghost use Rattle.std.specs.BTreeSet.{contains, keys_between};
ghost use Rattle.std.specs.Ordering.{eq_by_cmp};
ghost use Rattle.reg_entries.specs.EntryOrder.{place_cmp, place_of};
ghost use Rattle.reg_entries.specs.Index.{Name, name_of, name_cmp, HasAt, ArePlaced, AreNamed};

use crate::entry::Entry;
use crate::stored_entry::StoredEntry;
use base_text::Text;
use std::alloc::AllocError;
use std::collections::btree_set::Range;
use std::collections::{BTreeMap, BTreeSet};
use std::ops::Bound;

/// A subject and a version.
pub(crate) type At = (Text, u32);

/// An id, an offset and a place. In their order, the last name of an id is that of the entry which
/// the id names.
pub(crate) type Name = (u64, u64, At);

/// The place of an entry.
pub(crate) fn place_of(entry: &StoredEntry) -> Result<At, AllocError>
    ensures place { IfOk result (λ place. place ≡ (entry.now.subject, entry.now.version)) }
    ensures fits { IfOk result (λ place. place.1 < 2 ^ 32) }
{
    let entry = entry.own();
    let version = entry.version;
    Ok((entry.subject.clone()?, version))
}

/// The name of an entry.
pub(crate) fn name_of(entry: &StoredEntry) -> Result<Name, AllocError>
    ensures { IfOk result (λ name. name ≡ name_of entry.now) }
{
    let own = entry.own();
    let (id, offset) = (own.id, own.offset);
    Ok((u64::from(id), offset, place_of(entry)?))
}

/// The least name of an id.
fn first_name(id: u32) -> Name
    ensures { result ≡ (id, 0, ([], 0)) }
{
    (u64::from(id), 0, (Text::empty(), 0))
}

/// The least name of the ids above that one.
pub(crate) fn name_above(id: u32) -> Name
    ensures { result ≡ (id + 1, 0, ([], 0)) }
{
    (u64::from(id) + 1, 0, (Text::empty(), 0))
}

/// The names of an id, in their order.
pub(crate) fn names_of<'a>(names: &'a BTreeSet<Name>, id: u32) -> Range<'a, Name>
    ensures names { result ≡ keys_between name_cmp (Bound.Included (id, 0, ([], 0))) (Bound.Excluded (id + 1, 0, ([], 0))) names.now }
    ensures ordered { tree_set.IsOrdered name_cmp names.now }
{
    let first = first_name(id);
    let above = name_above(id);
    names.range((Bound::Included(&first), Bound::Excluded(&above)))
}

/// Removes the name of an entry.
pub(crate) fn forget(names: &mut BTreeSet<Name>, entry: StoredEntry)
    ensures { (n : Name) → contains name_cmp names.new n ≡ cond (eq_by_cmp name_cmp (name_of entry) n) false (contains name_cmp names.old n) }
{
    let Entry {
        subject,
        version,
        id,
        offset,
        ..
    } = entry.into_own();
    names.remove(&(u64::from(id), offset, (subject, version)));
}

/// Removes the name of an entry, unless the entry that is now at its place has the same.
pub(crate) fn forget_other(names: &mut BTreeSet<Name>, entry: StoredEntry, id: u32, offset: u64)
    ensures { (n : Name) → contains name_cmp names.new n ≡ (contains name_cmp names.old n && (not (eq_by_cmp name_cmp (name_of entry) n) || (entry.id == id && entry.offset == offset))) }
{
    let own = entry.own();
    if own.id != id || own.offset != offset {
        forget(names, entry);
    }
}

/// Writes an entry and its name. It replaces the entry at its place, with its name.
pub(crate) fn write(
    entries: &mut BTreeMap<At, StoredEntry>,
    names: &mut BTreeSet<Name>,
    entry: StoredEntry,
) -> Result<(), AllocError>
    requires ordered { IsOrdered place_cmp entries.old }
    requires placed { ArePlaced entries.old }
    requires named { AreNamed entries.old names.old }
    ensures written { OnOk result (HasAt entries.old entries.new (place_of entry) (Some entry)) }
    ensures refused { OnErr result (entries.new.entries ≡ entries.old.entries) }
    ensures still_ordered { IsOrdered place_cmp entries.new }
    ensures still_placed { ArePlaced entries.new }
    ensures still_named { AreNamed entries.new names.new }
{
    let place = place_of(&entry)?;
    let own = entry.own();
    let (id, offset) = (own.id, own.offset);
    names.insert(name_of(&entry)?)?;
    match entries.insert(place, entry) {
        Ok(None) => Ok(()),
        Ok(Some(old)) => {
            forget_other(names, old, id, offset);
            Ok(())
        }
        Err(failed) => {
            forget(names, failed.value.1);
            Err(AllocError)
        }
    }
}
