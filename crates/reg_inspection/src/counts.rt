// What a log holds, in numbers.
ghost use Rattle.std.specs.Prelude.{◌≡◌, true, IfOk, count_by, length, map};
ghost use Rattle.reg_fold.specs.reg_entries.Sought.{subjects};
ghost use Rattle.reg_fold.specs.Entries.{entries};
ghost use Rattle.reg_inspection.specs.Counts.{counts_in, due_by};
ghost use Rattle.reg_inspection.specs.Shared.{ids_of};

use reg_fold::reg_records::Log;
use reg_fold::{Entry, Registry};
use std::alloc::AllocError;
use std::collections::BTreeSet;

/// The counts of a log. Its versions are those of its last records that can be read.
#[derive(Clone, Copy, Debug, PartialEq, Eq)]
pub struct Counts {
    /// All its records, superseded ones too.
    pub records: u64,
    /// Its foreign lines: those whose key is of a kind unknown here.
    pub foreign: u64,
    /// Its floor (low-water mark), which its first line says; 0 if it says none.
    pub floor: u64,
    /// Its next offset: the floor, or one more than the greatest offset of its lines, whichever is
    /// greater.
    pub next: u64,
    /// The subjects with a version, soft-deleted ones too.
    pub subjects: u64,
    /// The versions that aren't soft-deleted.
    pub live: u64,
    /// The versions that are soft-deleted.
    pub deleted: u64,
    /// The ids of the versions, each once, soft-deleted ones too.
    pub ids: u64,
}

/// Counts a log. The registry is over its last records and has these entries with these ids.
pub(crate) fn counts_of(
    log: &Log,
    registry: &Registry,
    found: &[&Entry],
    ids: &BTreeSet<u32>,
) -> Result<Counts, AllocError>
    requires found { map (λ e. e.now) found.now ≡ entries registry.now }
    requires ids { ids.now.keys ≡ ids_of (entries registry.now) }
    ensures { IfOk result (λ counts. counts ≡ counts_in log.now (entries registry.now)) }
{
    let deleted = count_soft(found);
    Ok(Counts {
        records: log.records.len() as u64,
        foreign: log.foreign,
        floor: log.floor,
        next: log.next,
        subjects: count_subjects(registry)?,
        live: found.len() as u64 - deleted,
        deleted,
        ids: ids.len() as u64,
    })
}

/// Returns the id of the mark that is due: `unmarked`, which is the greatest that any record names if
/// they have no mark, and 0 if they have one; else the greatest id of a version, soft-deleted ones
/// too, if no mark of ids covers it.
pub(crate) fn mark_due(unmarked: u32, registry: &Registry) -> Option<u32>
    ensures { result ≡ due_by unmarked registry.now }
{
    if unmarked > 0 {
        return Some(unmarked);
    }
    let greatest = registry.greatest_id()?;
    if registry.mark() < greatest {
        return Some(greatest);
    }
    None
}

/// Returns how many subjects have an entry.
fn count_subjects(registry: &Registry) -> Result<u64, AllocError>
    ensures { IfOk result (λ n. n ≡ length (subjects (entries registry.now) true)) }
{
    let found = registry.subjects(true)?;
    Ok(found.len() as u64)
}

/// Returns how many of the entries are soft-deleted.
fn count_soft(entries: &[&Entry]) -> u64
    ensures { result ≡ count_by (λ e. e.now.soft) entries.now }
{
    let mut count: u64 = 0;
    for entry in entries {
        if entry.soft {
            count += 1;
        }
    }
    count
}
