// The live versions that a level looks at.
ghost use Rattle.std.specs.Prelude.{◌≡◌, ◌-◌, ◌∷◌, [], IfOk, drop, length, map};
ghost use Rattle.reg_modes.specs.reg_entries.Sought.{AreInVersionOrder};
ghost use Rattle.reg_modes.specs.reg_fold.Standing.{live};
ghost use Rattle.reg_levels.specs.RequiredPairs.{looked_at};

use reg_modes::reg_fold::{Entry, Registry, VersionRef, entries_stand_by_version};
use reg_modes::reg_level_names::Level;
use std::alloc::{AllocError, Global};

/// Returns the live versions of a subject that a level looks at, in the order of versions: none,
/// the latest (found without listing the others), or all. The only error is out of memory.
pub fn live_looked_at<'a>(
    alloc: Global,
    registry: &'a Registry,
    subject: &str,
    level: Level,
) -> Result<Vec<&'a Entry>, AllocError>
    ensures all { IfOk result (λ found. map (λ e. e.now) found.items ≡ looked_at level (live registry.now subject.now)) }
    ensures in_order { IfOk result (λ found. AreInVersionOrder (map (λ e. e.now) found.items)) }
{
    match level {
        Level::None => Ok(Vec::new(alloc)),
        Level::Backward | Level::Forward | Level::Full => latest_live(alloc, registry, subject),
        Level::BackwardTransitive | Level::ForwardTransitive | Level::FullTransitive => {
            registry.live(subject)
        }
    }
}

/// Returns the latest live version of a subject, if it has one. The only error is out of memory.
fn latest_live<'a>(
    alloc: Global,
    registry: &'a Registry,
    subject: &str,
) -> Result<Vec<&'a Entry>, AllocError>
    ensures all { IfOk result (λ found. map (λ e. e.now) found.items ≡ drop (length (live registry.now subject.now) - 1) (live registry.now subject.now)) }
    ensures in_order { IfOk result (λ found. AreInVersionOrder (map (λ e. e.now) found.items)) }
{
    entries_stand_by_version();
    let latest = registry.version(subject, VersionRef::Latest, false)?;
    match latest {
        Some(entry) => alone(alloc, entry),
        None => Ok(Vec::new(alloc)),
    }
}

fn alone(alloc: Global, entry: &Entry) -> Result<Vec<&Entry>, AllocError>
    ensures { IfOk result (λ found. map (λ e. e.now) found.items ≡ entry.now ∷ []) }
{
    let mut found = Vec::new(alloc);
    found.push(entry)?;
    Ok(found)
}
