// The place of the greatest version of each subject.
ghost use Rattle.std.specs.Prelude.{◌≡◌, ℕ, List, false, bytes_eq, OnOk, OnErr, IsSome, Some, None};
ghost use Rattle.std.specs.BTreeMap.{get_by_text};
ghost use Rattle.reg_entries.specs.Index.{ArePlaced, IsGreatestUpTo, IsTop};

use crate::names::At;
use crate::stored_entry::StoredEntry;
use std::alloc::{AllocError, Global};
use std::collections::BTreeMap;

/// Makes room for the greatest version of a place's subject. If the subject has no room yet, the
/// place fills it.
pub(crate) fn leave_room(
    alloc: Global,
    tops: &mut BTreeMap<String, At>,
    place: &At,
) -> Result<(), AllocError>
    ensures room { OnOk result (IsSome (get_by_text tops.new place.now.0)) }
    ensures others { (s : List ℕ) → bytes_eq place.now.0 s ≡ false → get_by_text tops.new s ≡ get_by_text tops.old s }
    ensures refused { OnErr result ((s : List ℕ) → get_by_text tops.new s ≡ get_by_text tops.old s) }
{
    let subject = place.0.as_str();
    if !tops.contains_key(subject) {
        let top = (place.0.clone()?, place.1);
        tops.insert(String::from_str(alloc, subject)?, top)?;
    }
    Ok(())
}

/// Updates the greatest version of a place's subject, which has room for it. A subject without an
/// entry is removed.
pub(crate) fn refresh_top(
    tops: &mut BTreeMap<String, At>,
    entries: &BTreeMap<At, StoredEntry>,
    place: At,
)
    requires { ArePlaced entries.now }
    ensures top { IsSome (get_by_text tops.old place.0) → IsTop entries.now place.0 (get_by_text tops.new place.0) }
    ensures others { (s : List ℕ) → bytes_eq place.0 s ≡ false → get_by_text tops.new s ≡ get_by_text tops.old s }
{
    let (subject, _) = place;
    let last = (subject, u32::MAX);
    match last_version(entries, &last) {
        Some(version) => set_top(tops, (last.0, version)),
        None => forget_top(tops, last.0.as_str()),
    }
}

/// The greatest version of a place's subject up to that of the place.
fn last_version(entries: &BTreeMap<At, StoredEntry>, last: &At) -> Option<u32>
    ensures { IsGreatestUpTo entries.now last.now result }
{
    let (found, _) = entries.range(..=last).next_back()?;
    if found.0 == last.0 {
        Some(found.1)
    } else {
        None
    }
}

/// Sets the place of its subject's greatest version, if the subject has room for it.
fn set_top(tops: &mut BTreeMap<String, At>, place: At)
    ensures top { IsSome (get_by_text tops.old place.0) → get_by_text tops.new place.0 ≡ Some place }
    ensures others { (s : List ℕ) → bytes_eq place.0 s ≡ false → get_by_text tops.new s ≡ get_by_text tops.old s }
{
    if let Some(top) = tops.get_mut(place.0.as_str()) {
        *top = place;
    }
}

/// Removes a subject.
fn forget_top(tops: &mut BTreeMap<String, At>, subject: &str)
    ensures gone { get_by_text tops.new subject.now ≡ None }
    ensures others { (s : List ℕ) → bytes_eq subject.now s ≡ false → get_by_text tops.new s ≡ get_by_text tops.old s }
{
    tops.remove(subject);
}
