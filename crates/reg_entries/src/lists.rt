// Entries in lists, and their flags.
ghost use Rattle.std.specs.Prelude.{◌≡◌, false, Some, None, IfOk, map, option_map, reverse, if◌then◌else◌};
ghost use Rattle.std.specs.BTreeMap.{IsOrdered, values};
ghost use Rattle.std.specs.BTreeMap.Range.{entries_between};
ghost use Rattle.std.specs.List.{filter, find};
ghost use Rattle.std.specs.Map.{values_of};
ghost use Rattle.std.specs.Option.{option_copied};
ghost use Rattle.std.specs.Ordering.{eq_by_cmp, is_gt};
ghost use Rattle.reg_entries.specs.Covered.{shown, shown_all, under};
ghost use Rattle.reg_entries.specs.EntryOrder.{Place, place_cmp};
ghost use Rattle.reg_entries.specs.Index.{entry_at, ArePlaced, IsTop};
ghost use Rattle.reg_entries.specs.Flagged.{with_soft, flagged};
ghost use Rattle.reg_entries.specs.Sought.{counts, subjects, has_live};

use crate::entry::{Entry, Flag};
use crate::names::At;
use crate::soft_delete::{SoftDelete, SoftDeletes, delete_of};
use crate::stored_entry::StoredEntry;
use base_text::Text;
use std::alloc::{AllocError, Global};
use std::collections::BTreeMap;
use std::ops::Bound;

/// All entries, by place.
pub(crate) fn list_all(
    alloc: Global,
    entries: &BTreeMap<At, StoredEntry>,
) -> Result<Vec<&StoredEntry>, AllocError>
    ensures { IfOk result (λ found. map (λ e. e.now) found.items ≡ values entries.now) }
{
    entries.values().collect(alloc)
}

/// The entries of some stored entries, as they are.
pub(crate) fn own_of<'a>(
    alloc: Global,
    stored_entries: &[&'a StoredEntry],
) -> Result<Vec<&'a Entry>, AllocError>
    ensures { IfOk result (λ found. map (λ e. e.now) found.items ≡ map (λ e. e.now) stored_entries.now) }
{
    let mut found = Vec::new(alloc);
    for stored_entry in stored_entries {
        found.push(stored_entry.own())?;
    }
    Ok(found)
}

/// The entries of some stored entries of one subject, under a soft delete of it, if there is one.
pub(crate) fn under_of<'a>(
    alloc: Global,
    stored_entries: &[&'a StoredEntry],
    delete: Option<SoftDelete>,
) -> Result<Vec<&'a Entry>, AllocError>
    ensures { IfOk result (λ found. map (λ e. e.now) found.items ≡ map (under delete) (map (λ e. e.now) stored_entries.now)) }
{
    let mut found = Vec::new(alloc);
    for stored_entry in stored_entries {
        found.push(stored_entry.under(delete))?;
    }
    Ok(found)
}

/// The entries of some stored entries, under the last soft deletes of their subjects.
pub(crate) fn shown_of<'a>(
    alloc: Global,
    stored_entries: &[&'a StoredEntry],
    deletes: &SoftDeletes,
) -> Result<Vec<&'a Entry>, AllocError>
    ensures { IfOk result (λ found. map (λ e. e.now) found.items ≡ shown_all deletes.now (map (λ e. e.now) stored_entries.now)) }
{
    let mut found = Vec::new(alloc);
    for stored_entry in stored_entries {
        found.push(stored_entry.shown(deletes))?;
    }
    Ok(found)
}

/// The subjects with an entry that counts under the last soft deletes, by their bytes. This goes
/// through all entries once.
pub(crate) fn list_subjects<'a>(
    alloc: Global,
    entries: &'a BTreeMap<At, StoredEntry>,
    deletes: &SoftDeletes,
    deleted: bool,
) -> Result<Vec<&'a str>, AllocError>
    ensures { IfOk result (λ found. map (λ s. s.now) found.items ≡ subjects (shown_all deletes.now (values entries.now)) deleted) }
{
    let mut found: Vec<&str> = entries
        .values()
        .filter(|stored_entry| counts_shown(stored_entry, deletes, deleted))
        .map(|stored_entry| stored_entry.own().subject.as_str())
        .collect(alloc)?;
    found.dedup();
    Ok(found)
}

/// The entries from one place to another, by place.
pub(crate) fn list_between<'a>(
    alloc: Global,
    entries: &'a BTreeMap<At, StoredEntry>,
    first: &At,
    last: &At,
) -> Result<Vec<&'a StoredEntry>, AllocError>
    requires { is_gt (place_cmp first.now last.now) ≡ false }
    ensures { IfOk result (λ found. map (λ e. e.now) found.items ≡ values_of (entries_between place_cmp (Bound.Included first.now) (Bound.Included last.now) entries.now.entries)) }
{
    let mut found = Vec::new(alloc);
    for (_, entry) in entries.range((Bound::Included(first), Bound::Included(last))) {
        found.push(entry)?;
    }
    Ok(found)
}

/// The last entry that counts under a soft delete of those from one place to another. This goes
/// back from the last one until one counts.
pub(crate) fn last_counting<'a>(
    entries: &'a BTreeMap<At, StoredEntry>,
    first: &At,
    last: &At,
    delete: Option<SoftDelete>,
    deleted: bool,
) -> Option<&'a Entry>
    requires { is_gt (place_cmp first.now last.now) ≡ false }
    ensures { option_copied result ≡ find (counts deleted) (reverse (map (under delete) (values_of (entries_between place_cmp (Bound.Included first.now) (Bound.Included last.now) entries.now.entries)))) }
{
    entries
        .range((Bound::Included(first), Bound::Included(last)))
        .rev()
        .map(|(_, stored_entry)| stored_entry.under(delete))
        .find(|entry| counts(entry, deleted))
}

/// Removes the entries that don't count.
pub(crate) fn keep_counting(found: &mut Vec<&Entry>, deleted: bool)
    ensures { found.new.items ≡ filter (λ e. counts deleted e.now) found.old.items }
{
    found.retain(|entry| counts(entry, deleted));
}

/// Returns whether an entry counts: a live one does, and a soft one if `deleted` is true.
pub(crate) fn counts(entry: &Entry, deleted: bool) -> bool
    ensures { result ≡ counts deleted entry.now }
{
    deleted || !entry.soft
}

/// Returns whether an entry counts under the last soft delete of its subject.
fn counts_shown(stored_entry: &StoredEntry, deletes: &SoftDeletes, deleted: bool) -> bool
    ensures { result ≡ counts deleted (shown deletes.now stored_entry.now) }
{
    deleted || !stored_entry.shown(deletes).soft
}

/// Returns whether an entry is live under the last soft deletes. It goes through all entries.
pub(crate) fn any_live(entries: &BTreeMap<At, StoredEntry>, deletes: &SoftDeletes) -> bool
    ensures { result ≡ has_live (shown_all deletes.now (values entries.now)) None }
{
    entries
        .values()
        .any(|stored_entry| !stored_entry.shown(deletes).soft)
}

/// Returns whether the subject of `top`, the place of its greatest version, has an entry that is
/// live under its last soft delete. It goes back from that version until an entry is live, or of
/// another subject.
pub(crate) fn any_live_up_to(
    entries: &BTreeMap<At, StoredEntry>,
    top: &At,
    deletes: &SoftDeletes,
) -> bool
    requires ordered { IsOrdered place_cmp entries.now }
    requires placed { ArePlaced entries.now }
    requires top { IsTop entries.now top.now.0 (Some top.now) }
    ensures { result ≡ has_live (shown_all deletes.now (values entries.now)) (Some top.now.0) }
{
    let delete = delete_of(deletes, top.0.as_str());
    let found = entries
        .range(..=top)
        .rev()
        .map(|(_, stored_entry)| stored_entry.under(delete))
        .find(|entry| entry.subject != top.0 || !entry.soft);
    match found {
        Some(entry) => entry.subject == top.0,
        None => false,
    }
}

/// Sets the soft flag of the entry at a place, if there is one.
pub(crate) fn set_soft(entries: &mut BTreeMap<At, StoredEntry>, place: &At, soft: bool)
    ensures at { (q : Place) → entry_at entries.new q ≡ (if eq_by_cmp place_cmp place.now q then option_map (with_soft soft) (entry_at entries.old q) else entry_at entries.old q) }
    ensures ordered { IsOrdered place_cmp entries.new }
{
    if let Some(entry) = entries.get_mut(place) {
        entry.set_soft(soft);
    }
}

/// Sets the soft flags of versions of a subject.
pub(crate) fn set_flags(entries: &mut BTreeMap<At, StoredEntry>, subject: Text, flags: &[Flag])
    requires ordered { IsOrdered place_cmp entries.old }
    requires placed { ArePlaced entries.old }
    ensures flagged { (p : Place) → entry_at entries.new p ≡ option_map (flagged subject flags.now) (entry_at entries.old p) }
    ensures still_ordered { IsOrdered place_cmp entries.new }
{
    let mut place = (subject, 0);
    for flag in flags {
        place.1 = flag.version;
        set_soft(entries, &place, flag.soft);
    }
}
