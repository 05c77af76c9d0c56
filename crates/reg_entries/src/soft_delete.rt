// The last soft deletes of subjects.
ghost use Rattle.std.specs.Prelude.{◌≡◌};
ghost use Rattle.std.specs.BTreeMap.{get_by_text};
ghost use Rattle.reg_entries.specs.Covered.{is_covered};

use std::collections::BTreeMap;

/// A soft delete of a subject.
#[derive(Clone, Copy, Debug)]
pub struct SoftDelete {
    /// The offset of its record.
    pub offset: u64,
    /// The greatest version that it covers.
    pub version: u32,
}

/// The last soft delete of each subject that has one.
pub type SoftDeletes = BTreeMap<String, SoftDelete>;

/// Returns the last soft delete of a subject.
pub(crate) fn delete_of(deletes: &SoftDeletes, subject: &str) -> Option<SoftDelete>
    ensures { result ≡ get_by_text deletes.now subject.now }
{
    deletes.get(subject).copied()
}

/// Returns whether a soft delete, if there is one, covers an entry of that version and offset.
pub(crate) fn is_covered(delete: Option<SoftDelete>, version: u32, offset: u64) -> bool
    ensures { result ≡ is_covered delete version offset }
{
    match delete {
        Some(delete) => version <= delete.version && offset < delete.offset,
        None => false,
    }
}
