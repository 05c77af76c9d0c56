// Entries that stand for themselves and for what a soft delete makes of them.
ghost use Rattle.std.specs.Prelude.{◌≡◌, IfOk};
ghost use Rattle.reg_entries.specs.Covered.{under, shown};
ghost use Rattle.reg_entries.specs.Flagged.{with_soft};

use crate::entry::Entry;
use crate::soft_delete::{SoftDelete, SoftDeletes, delete_of, is_covered};
use std::alloc::AllocError;
use std::marker::Model;

/// An entry, and a copy of it that is flagged as soft: either can be lent, so a soft delete of its
/// subject needn't change it.
///
/// Contracts see the entry.
#[derive(Debug, Drop)]
pub(crate) struct StoredEntry {
    own: Entry,
    soft: Entry,
}

impl Model for StoredEntry {
    ghost use Rattle.std.specs.Prelude.{◌≡◌, true};
    ghost use Rattle.reg_entries.specs.Flagged.{with_soft};
    ghost use Rattle.reg_entries.specs.declared.entry.Entry.{Entry};

    ghost Value = { Entry };

    ghost view = { λ stored_entry. stored_entry.own };

    ghost invariant = { λ stored_entry. stored_entry.soft ≡ with_soft true stored_entry.own };
}

impl Clone for StoredEntry {
    ghost is_clone = { λ stored_entry copy. copy ≡ stored_entry };

    fn clone(&self) -> Result<StoredEntry, AllocError> {
        StoredEntry::of(self.own.clone()?)
    }
}

impl StoredEntry {
    /// Makes the stored form of an entry. Its texts are shared with the copy.
    pub(crate) fn of(own: Entry) -> Result<StoredEntry, AllocError>
        ensures { IfOk result (λ stored_entry. stored_entry ≡ own) }
    {
        let soft = Entry {
            subject: own.subject.clone()?,
            version: own.version,
            id: own.id,
            text: own.text.clone()?,
            normal: own.normal.clone()?,
            offset: own.offset,
            soft: true,
        };
        Ok(StoredEntry { own, soft })
    }

    /// Returns the entry.
    pub(crate) fn own(&self) -> &Entry
        ensures { result.now ≡ self.now }
    {
        &self.own
    }

    /// Gives up the stored form, and returns the entry.
    pub(crate) fn into_own(self) -> Entry
        ensures { result ≡ self }
    {
        let StoredEntry { own, .. } = self;
        own
    }

    /// Sets the soft flag of the entry.
    pub(crate) fn set_soft(&mut self, soft: bool)
        ensures { self.new ≡ with_soft soft self.old }
    {
        self.own.soft = soft;
    }

    /// Returns the entry as a soft delete of its subject, if there is one, shows it.
    pub(crate) fn under(&self, delete: Option<SoftDelete>) -> &Entry
        ensures { result.now ≡ under delete self.now }
    {
        if !self.own.soft && is_covered(delete, self.own.version, self.own.offset) {
            &self.soft
        } else {
            &self.own
        }
    }

    /// Returns the entry as the last soft delete of its subject shows it.
    pub(crate) fn shown(&self, deletes: &SoftDeletes) -> &Entry
        ensures { result.now ≡ shown deletes.now self.now }
    {
        self.under(delete_of(deletes, self.own.subject.as_str()))
    }
}
