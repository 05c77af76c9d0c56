// The entries of an id.
ghost use Rattle.std.specs.Prelude.{◌≡◌, IfOk, map};
ghost use Rattle.std.specs.BTreeMap.{IsOrdered, values};
ghost use Rattle.std.specs.Map.{values_of};
ghost use Rattle.std.specs.Ordering.{on};
ghost use Rattle.reg_entries.specs.EntryOrder.{place_cmp, place_of};
ghost use Rattle.reg_entries.specs.Index.{ArePlaced, AreNamed};
ghost use Rattle.reg_entries.specs.Sought.{with_id};

use crate::names::{At, Name, names_of};
use crate::stored_entry::StoredEntry;
use std::alloc::{AllocError, Global};
use std::cmp::Ordering;
use std::collections::{BTreeMap, BTreeSet};

/// An id that more than one in `OFTEN` entries has is looked up among all entries.
const OFTEN: usize = 16;

/// Lists the entries with an id, by place.
///
/// If many entries have the id, it goes through all entries, which are ordered by place: that costs
/// less than finding each of them and sorting them.
pub(crate) fn list_with_id<'a>(
    alloc: Global,
    entries: &'a BTreeMap<At, StoredEntry>,
    names: &BTreeSet<Name>,
    id: u32,
) -> Result<Vec<&'a StoredEntry>, AllocError>
    requires ordered { IsOrdered place_cmp entries.now }
    requires placed { ArePlaced entries.now }
    requires named { AreNamed entries.now names.now }
    ensures { IfOk result (λ found. map (λ e. e.now) found.items ≡ with_id (values_of entries.now.entries) id) }
{
    if is_often(entries.len(), names, id) {
        list_among_all(alloc, entries, id)
    } else {
        list_by_name(alloc, entries, names, id)
    }
}

/// Returns whether more than one in `OFTEN` entries has the id, by its names.
fn is_often(all: usize, names: &BTreeSet<Name>, id: u32) -> bool {
    names_of(names, id).nth(all / OFTEN).is_some()
}

/// Lists the entries with an id, by place. It goes through all entries once.
fn list_among_all<'a>(
    alloc: Global,
    entries: &'a BTreeMap<At, StoredEntry>,
    id: u32,
) -> Result<Vec<&'a StoredEntry>, AllocError>
    ensures { IfOk result (λ found. map (λ e. e.now) found.items ≡ with_id (values entries.now) id) }
{
    entries
        .values()
        .filter(|entry| entry.own().id == id)
        .collect(alloc)
}

/// Lists the entries with an id, by place. It goes through the names of the id, and sorts the
/// entries that they name.
fn list_by_name<'a>(
    alloc: Global,
    entries: &'a BTreeMap<At, StoredEntry>,
    names: &BTreeSet<Name>,
    id: u32,
) -> Result<Vec<&'a StoredEntry>, AllocError>
    requires ordered { IsOrdered place_cmp entries.now }
    requires placed { ArePlaced entries.now }
    requires named { AreNamed entries.now names.now }
    ensures { IfOk result (λ found. map (λ e. e.now) found.items ≡ with_id (values_of entries.now.entries) id) }
{
    let mut found = Vec::new(alloc);
    for name in names_of(names, id) {
        let Some(entry) = entries.get(&name.2) else {
            continue;
        };
        found.push(entry)?;
    }
    found.sort_unstable_by(|one, other| by_place(one, other));
    Ok(found)
}

/// Compares two entries by place.
fn by_place(one: &StoredEntry, other: &StoredEntry) -> Ordering
    ensures { result ≡ on place_of place_cmp one.now other.now }
{
    let (one, other) = (one.own(), other.own());
    one.subject
        .cmp(&other.subject)
        .then(one.version.cmp(&other.version))
}
