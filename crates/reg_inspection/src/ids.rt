// The ids of entries, and those that name two schemas.
ghost use Rattle.std.specs.Prelude.{◌≡◌, IfOk, map, not, bytes_eq};
ghost use Rattle.std.specs.List.{list_any};
ghost use Rattle.reg_fold.specs.reg_entries.Sought.{with_id};
ghost use Rattle.reg_fold.specs.Entries.{entries};
ghost use Rattle.reg_inspection.specs.Shared.{are_apart, ids_of, shared_ids};

use reg_fold::{Entry, Registry};
use std::alloc::{AllocError, Global};
use std::collections::BTreeSet;

/// Returns the ids of some entries.
pub(crate) fn ids_of(alloc: Global, entries: &[&Entry]) -> Result<BTreeSet<u32>, AllocError>
    ensures { IfOk result (λ ids. ids.keys ≡ ids_of (map (λ e. e.now) entries.now)) }
{
    let mut ids = BTreeSet::new(alloc);
    for entry in entries {
        ids.insert(entry.id)?;
    }
    Ok(ids)
}

/// Returns those of a registry's ids that name two schemas, in ascending order.
pub(crate) fn shared_ids(
    alloc: Global,
    registry: &Registry,
    ids: &BTreeSet<u32>,
) -> Result<Vec<u32>, AllocError>
    requires { ids.now.keys ≡ ids_of (entries registry.now) }
    ensures { IfOk result (λ found. found.items ≡ shared_ids (entries registry.now)) }
{
    let mut found = Vec::new(alloc);
    for id in ids {
        if are_apart(&registry.with_id(*id)?) {
            found.push(*id)?;
        }
    }
    Ok(found)
}

/// Returns whether two of the entries have different normal texts.
fn are_apart(entries: &[&Entry]) -> bool
    ensures { result ≡ are_apart (map (λ e. e.now) entries.now) }
{
    match entries.first() {
        Some(first) => entries.iter().any(|entry| entry.normal != first.normal),
        None => false,
    }
}
