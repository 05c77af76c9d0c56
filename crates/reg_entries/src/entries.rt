// The entries, found by place, by subject and by id.
ghost use Rattle.std.specs.Prelude.{◌≡◌, ℕ, List, Bool, Some, false, IfOk, OnOk, OnErr, map, option_map, bytes_eq, if◌then◌else◌};
ghost use Rattle.std.specs.FinMap as finmap;
ghost use Rattle.std.specs.Option.{option_copied};
ghost use Rattle.reg_entries.specs.Covered.{shown_all};
ghost use Rattle.reg_entries.specs.EntryOrder.{Place, place_of, IsInOrder};
ghost use Rattle.reg_entries.specs.Flagged.{with_soft, flagged, FlagsEach};
ghost use Rattle.reg_entries.specs.Sought.{of_subject, counting, latest, of_version, subjects, has_live, with_id, AreInVersionOrder, named, greatest_id, greatest_version, id_of, two_schemas};
ghost use Rattle.reg_entries.specs.declared.entry.Entry.{Entry};

use crate::entry::{Entry, Flag};
use crate::ids::list_with_id;
use crate::lists::{
    any_live, any_live_up_to, counts, keep_counting, last_counting, list_all, list_between,
    list_subjects, own_of, set_flags, shown_of, under_of,
};
use crate::meanings::{Meaning, mean, refresh_both, refresh_meaning};
use crate::names::{At, Name, name_above, place_of};
use crate::schemas::{Schema, first_schema, schema_at, schema_of, unlist, write_all};
use crate::soft_delete::{SoftDeletes, delete_of};
use crate::stored_entry::StoredEntry;
use crate::tops::{leave_room, refresh_top};
use base_text::Text;
use packed_trees::{copy_map, copy_set};
use std::alloc::{AllocError, Global};
use std::collections::{BTreeMap, BTreeSet};
use std::marker::Model;

/// The entries of a registry, found by place, by subject and by id.
///
/// A place is a subject and a version. Contracts see the map from places to entries, in which each
/// entry is at its own place.
///
/// Questions about live entries are given the last soft deletes of subjects: an entry that its
/// subject's soft delete covers is shown as soft, and no entry is touched when that changes.
#[derive(Debug, Drop)]
pub struct Entries {
    alloc: Global,
    entries: BTreeMap<At, StoredEntry>,
    names: BTreeSet<Name>,
    // Of each subject with an entry the place of its greatest version.
    tops: BTreeMap<String, At>,
    schemas: BTreeSet<Schema>,
    // Each id with each normal text of its entries.
    meanings: BTreeSet<Meaning>,
    // The ids that have two texts.
    doubled: BTreeSet<u32>,
}

impl Model for Entries {
    ghost use Rattle.std.specs.Coded.{coded×, coded_ℕ, coded_list};
    ghost use Rattle.std.specs.FinMap as finmap;
    ghost use Rattle.reg_entries.specs.Covered.{shown_all};
    ghost use Rattle.reg_entries.specs.EntryOrder.{place_cmp};
    ghost use Rattle.reg_entries.specs.Index.{IsIndexed};
    ghost use Rattle.reg_entries.specs.Meanings.{AreDoubled, AreMeant};
    ghost use Rattle.reg_entries.specs.Schemas.{AreListed};
    ghost use Rattle.reg_entries.specs.contracts.entry.Entry as stored;
    ghost use Rattle.reg_entries.specs.declared.entry.Entry.{Entry};

    ghost Value = { finmap.FinMap place_cmp Entry };

    ghost coded = { finmap.code (coded× (coded_list coded_ℕ) coded_ℕ) (stored.the_row).coded };

    ghost view = { λ a. finmap.from_entries a.entries.entries };

    ghost invariant = { λ a. IsIndexed a.entries a.names a.tops × AreListed a.entries a.schemas × AreMeant a.schemas a.meanings × AreDoubled a.meanings a.doubled };
}

impl Clone for Entries {
    ghost is_clone = { λ entries copy. copy ≡ entries };

    fn clone(&self) -> Result<Entries, AllocError> {
        Ok(Entries {
            alloc: self.alloc,
            entries: copy_map(self.alloc, &self.entries)?,
            names: copy_set(self.alloc, &self.names)?,
            tops: copy_map(self.alloc, &self.tops)?,
            schemas: copy_set(self.alloc, &self.schemas)?,
            meanings: copy_set(self.alloc, &self.meanings)?,
            doubled: self.doubled.clone()?,
        })
    }
}

impl Entries {
    /// Makes the map without entries.
    pub fn new(alloc: Global) -> Entries
        ensures { result ≡ finmap.empty }
    {
        Entries {
            alloc,
            entries: BTreeMap::new(alloc),
            names: BTreeSet::new(alloc),
            tops: BTreeMap::new(alloc),
            schemas: BTreeSet::new(alloc),
            meanings: BTreeSet::new(alloc),
            doubled: BTreeSet::new(alloc),
        }
    }

    /// Returns the number of entries.
    pub fn len(&self) -> usize
        ensures { result ≡ finmap.len self.now }
    {
        self.entries.len()
    }

    /// Puts the entry at its place, and replaces the one that is there. The only error is out of
    /// memory; nothing changes then.
    pub fn put(&mut self, entry: Entry) -> Result<(), AllocError>
        ensures put { OnOk result (self.new ≡ finmap.insert self.old (place_of entry) entry) }
        ensures refused { OnErr result (self.new ≡ self.old) }
    {
        self.put_stored_entry(StoredEntry::of(entry)?)
    }

    /// Puts a stored entry at its place, like `put`.
    fn put_stored_entry(&mut self, entry: StoredEntry) -> Result<(), AllocError>
        ensures put { OnOk result (self.new ≡ finmap.insert self.old (place_of entry) entry) }
        ensures refused { OnErr result (self.new ≡ self.old) }
    {
        let place = place_of(&entry)?;
        let new = schema_of(&entry)?;
        let old = schema_at(&self.entries, &place)?;
        leave_room(self.alloc, &mut self.tops, &place)?;
        if let Err(refused) = mean(&mut self.meanings, &mut self.doubled, &entry) {
            refresh_top(&mut self.tops, &self.entries, place);
            return Err(refused);
        }
        let written = write_all(
            &mut self.entries,
            &mut self.names,
            &mut self.schemas,
            entry,
            &new,
            &old,
        );
        refresh_top(&mut self.tops, &self.entries, place);
        refresh_both(
            &mut self.meanings,
            &mut self.doubled,
            &self.schemas,
            new,
            old,
        );
        written
    }

    /// Removes the entry at a place, if there is one.
    pub fn remove(&mut self, place: &(Text, u32))
        ensures { self.new ≡ finmap.remove self.old place.now }
    {
        let Some(entry) = self.entries.remove(place) else {
            return;
        };
        let (normal, id, place) = unlist(&mut self.names, &mut self.schemas, entry);
        refresh_top(&mut self.tops, &self.entries, place);
        refresh_meaning(
            &mut self.meanings,
            &mut self.doubled,
            &self.schemas,
            normal,
            id,
        );
    }

    /// Sets the soft flags of versions of a subject. A flag of a version without an entry does
    /// nothing.
    pub fn flag(&mut self, subject: Text, flags: &[Flag])
        ensures flagged { (p : Place) → finmap.get self.new p ≡ option_map (flagged subject flags.now) (finmap.get self.old p) }
        ensures each { (soft : Entry → Bool) → FlagsEach soft flags.now (of_subject (finmap.values self.old) subject) → (p : Place) → finmap.get self.new p ≡ option_map (λ e. if bytes_eq e.subject subject then with_soft (soft e) e else e) (finmap.get self.old p) }
    {
        set_flags(&mut self.entries, subject, flags);
    }

    /// Returns the entry at a place.
    pub fn at(&self, place: &(Text, u32)) -> Option<&Entry>
        ensures { option_copied result ≡ finmap.get self.now place.now }
    {
        Some(self.entries.get(place)?.own())
    }

    /// Lists all entries, by place. The only error is out of memory.
    pub fn all(&self) -> Result<Vec<&Entry>, AllocError>
        ensures all { IfOk result (λ found. map (λ e. e.now) found.items ≡ finmap.values self.now) }
        ensures in_order { IfOk result (λ found. IsInOrder (map (λ e. e.now) found.items)) }
    {
        let stored_entries = list_all(self.alloc, &self.entries)?;
        let found = own_of(self.alloc, &stored_entries)?;
        Ok(found)
    }

    /// Lists all entries as the last soft deletes show them, by place. The only error is out of
    /// memory.
    pub fn all_shown(&self, deletes: &SoftDeletes) -> Result<Vec<&Entry>, AllocError>
        ensures all { IfOk result (λ found. map (λ e. e.now) found.items ≡ shown_all deletes.now (finmap.values self.now)) }
        ensures in_order { IfOk result (λ found. IsInOrder (map (λ e. e.now) found.items)) }
    {
        let stored_entries = list_all(self.alloc, &self.entries)?;
        let found = shown_of(self.alloc, &stored_entries, deletes)?;
        Ok(found)
    }

    /// Lists the entries of a subject, by version. The only error is out of memory.
    pub fn of_subject(&self, subject: &str) -> Result<Vec<&Entry>, AllocError>
        ensures all { IfOk result (λ found. map (λ e. e.now) found.items ≡ of_subject (finmap.values self.now) subject.now) }
        ensures in_order { IfOk result (λ found. AreInVersionOrder (map (λ e. e.now) found.items)) }
    {
        let stored_entries = self.stored_entries_of(subject)?;
        let found = own_of(self.alloc, &stored_entries)?;
        Ok(found)
    }

    /// Lists the stored entries of a subject, by version. The only error is out of memory.
    fn stored_entries_of(&self, subject: &str) -> Result<Vec<&StoredEntry>, AllocError>
        ensures all { IfOk result (λ found. map (λ e. e.now) found.items ≡ of_subject (finmap.values self.now) subject.now) }
        ensures in_order { IfOk result (λ found. AreInVersionOrder (map (λ e. e.now) found.items)) }
    {
        let first = (Text::copy_of(self.alloc, subject)?, 0);
        let last = (Text::copy_of(self.alloc, subject)?, u32::MAX);
        let found = list_between(self.alloc, &self.entries, &first, &last)?;
        Ok(found)
    }

    /// Lists the entries of a subject that count, by version: all if `deleted` is true, else the
    /// live ones, which aren't soft. The only error is out of memory.
    pub fn counting(
        &self,
        deletes: &SoftDeletes,
        subject: &str,
        deleted: bool,
    ) -> Result<Vec<&Entry>, AllocError>
        ensures all { IfOk result (λ found. map (λ e. e.now) found.items ≡ counting (shown_all deletes.now (finmap.values self.now)) subject.now deleted) }
        ensures in_order { IfOk result (λ found. AreInVersionOrder (map (λ e. e.now) found.items)) }
    {
        let _ = &self.entries;
        let stored_entries = self.stored_entries_of(subject)?;
        let mut found = under_of(self.alloc, &stored_entries, delete_of(deletes, subject))?;
        keep_counting(&mut found, deleted);
        Ok(found)
    }

    /// Returns the entry of greatest version among a subject's entries that count: all if `deleted`
    /// is true, else the live ones. The only error is out of memory.
    ///
    /// It goes back from the greatest version until an entry counts, so if `deleted` is true it
    /// looks at one entry.
    pub fn latest(
        &self,
        deletes: &SoftDeletes,
        subject: &str,
        deleted: bool,
    ) -> Result<Option<&Entry>, AllocError>
        ensures { IfOk result (λ found. option_copied found ≡ latest (shown_all deletes.now (finmap.values self.now)) subject.now deleted) }
    {
        let first = (Text::copy_of(self.alloc, subject)?, 0);
        let last = (Text::copy_of(self.alloc, subject)?, u32::MAX);
        let delete = delete_of(deletes, subject);
        Ok(last_counting(&self.entries, &first, &last, delete, deleted))
    }

    /// Returns the entry of that version of a subject if it counts: if `deleted` is true or it is
    /// live. The only error is out of memory.
    ///
    /// It looks at one entry.
    pub fn of_version(
        &self,
        deletes: &SoftDeletes,
        subject: &str,
        version: u32,
        deleted: bool,
    ) -> Result<Option<&Entry>, AllocError>
        ensures { IfOk result (λ found. option_copied found ≡ of_version (shown_all deletes.now (finmap.values self.now)) subject.now version deleted) }
    {
        let place = (Text::copy_of(self.alloc, subject)?, version);
        let Some(stored_entry) = self.entries.get(&place) else {
            return Ok(None);
        };
        let entry = stored_entry.shown(deletes);
        if counts(entry, deleted) {
            Ok(Some(entry))
        } else {
            Ok(None)
        }
    }

    /// Lists the subjects with an entry that counts (any if `deleted` is true, else a live one), by
    /// their bytes. The only error is out of memory.
    ///
    /// It goes through all entries once.
    pub fn subjects(&self, deletes: &SoftDeletes, deleted: bool) -> Result<Vec<&str>, AllocError>
        ensures { IfOk result (λ found. map (λ s. s.now) found.items ≡ subjects (shown_all deletes.now (finmap.values self.now)) deleted) }
    {
        let found = list_subjects(self.alloc, &self.entries, deletes, deleted)?;
        Ok(found)
    }

    /// Returns whether a subject has a live entry; `None` asks about all subjects. Takes no memory.
    ///
    /// For a subject, it goes back from the greatest version until an entry is live.
    pub fn has_live(&self, deletes: &SoftDeletes, subject: Option<&str>) -> bool
        ensures { result ≡ has_live (shown_all deletes.now (finmap.values self.now)) (option_map (λ s. s.now) subject.entry) }
    {
        match subject {
            Some(subject) => self.has_live_of(deletes, subject),
            None => any_live(&self.entries, deletes),
        }
    }

    /// Returns whether a subject has a live entry.
    fn has_live_of(&self, deletes: &SoftDeletes, subject: &str) -> bool
        ensures { result ≡ has_live (shown_all deletes.now (finmap.values self.now)) (Some subject.now) }
    {
        match self.tops.get(subject) {
            Some(top) => any_live_up_to(&self.entries, top, deletes),
            None => false,
        }
    }

    /// Lists the entries with an id, soft ones too, by place. The only error is out of memory.
    pub fn with_id(&self, deletes: &SoftDeletes, id: u32) -> Result<Vec<&Entry>, AllocError>
        ensures { IfOk result (λ found. map (λ e. e.now) found.items ≡ with_id (shown_all deletes.now (finmap.values self.now)) id) }
    {
        let stored_entries = list_with_id(self.alloc, &self.entries, &self.names, id)?;
        let found = shown_of(self.alloc, &stored_entries, deletes)?;
        Ok(found)
    }

    /// Returns the entry that an id names: of the entries with that id, soft ones too, the one of
    /// greatest offset; of these the one of greatest subject, by its bytes; of these the one of
    /// greatest version.
    pub fn named(&self, deletes: &SoftDeletes, id: u32) -> Option<&Entry>
        ensures { option_copied result ≡ named (shown_all deletes.now (finmap.values self.now)) id }
    {
        Some(self.stored_entry_named(id)?.shown(deletes))
    }

    /// Returns the stored entry that an id names.
    fn stored_entry_named(&self, id: u32) -> Option<&StoredEntry>
        ensures { option_copied result ≡ named (finmap.values self.now) id }
    {
        let above = name_above(id);
        let last = self.names.range(..&above).next_back()?;
        if last.0 == u64::from(id) {
            self.entries.get(&last.2)
        } else {
            None
        }
    }

    /// Returns the least id of an entry with that normal text, soft ones too. The only error is out
    /// of memory.
    pub fn id_of(&self, normal: &str) -> Result<Option<u32>, AllocError>
        ensures { IfOk result (λ id. id ≡ id_of (finmap.values self.now) normal.now) }
    {
        let least = first_schema(self.alloc, normal)?;
        let Some(first) = self.schemas.range(&least..).next() else {
            return Ok(None);
        };
        if first.0 == least.0 {
            Ok(Some(first.1))
        } else {
            Ok(None)
        }
    }

    /// Returns the least id that two entries of different normal texts have, soft ones too. It is
    /// kept up to date, so no entry is looked at.
    pub fn two_schemas(&self) -> Option<u32>
        ensures { result ≡ two_schemas (finmap.values self.now) }
    {
        self.doubled.first().copied()
    }

    /// Returns the greatest id of an entry, soft ones too.
    pub fn greatest_id(&self) -> Option<u32>
        ensures { result ≡ greatest_id (finmap.values self.now) }
    {
        let last = self.names.last()?;
        let entry = self.entries.get(&last.2)?;
        Some(entry.own().id)
    }

    /// Returns the greatest version of a subject's entries, soft ones too.
    pub fn greatest_version(&self, subject: &str) -> Option<u32>
        ensures { result ≡ greatest_version (finmap.values self.now) subject.now }
    {
        Some(self.tops.get(subject)?.1)
    }
}
