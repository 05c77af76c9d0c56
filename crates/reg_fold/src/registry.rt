// The registry over the last records of a set.
ghost use Rattle.std.specs.Prelude.{◌≡◌, [], ◌∷◌, true, IfOk, OnOk, OnErr, if◌then◌else◌, is_none, map, option_map};
ghost use Rattle.std.specs.FinSet as set;
ghost use Rattle.std.specs.List.{filter, list_all};
ghost use Rattle.std.specs.List.Sorted.{IsStrictlySortedBy};
ghost use Rattle.std.specs.Option.{option_copied};
ghost use Rattle.reg_set.specs.Compaction.{KeepsLasts};
ghost use Rattle.reg_set.specs.LastRecords.{last, last_records};
ghost use Rattle.reg_set.specs.RecordOrder.{key_cmp};
ghost use Rattle.reg_set.specs.Records.{Records};
ghost use Rattle.reg_fold.specs.Entries.{AreOfLasts, entries};
ghost use Rattle.reg_entries.specs.EntryOrder.{IsInOrder};
ghost use Rattle.reg_fold.specs.Closed.{id_of, is_closed, two_schemas};
ghost use Rattle.reg_fold.specs.GiveAlike.{GiveAlike};
ghost use Rattle.reg_fold.specs.IdMark.{id_mark, last_id};
ghost use Rattle.reg_fold.specs.InForce.{level, own_level, own_mode_name};
ghost use Rattle.reg_fold.specs.Opaque.{opaque};
ghost use Rattle.reg_fold.specs.Tombstones.{is_tombstone};
ghost use Rattle.reg_fold.specs.Standing.{live, named, greatest_id, greatest_version, version_in};
ghost use Rattle.reg_entries.specs.Sought.{AreInVersionOrder, counting, has_live, subjects, with_id};

use crate::index::Index;
use crate::laws::giving_alike_is_an_equivalence;
use crate::version_ref::VersionRef;
use reg_entries::Entry;
use reg_set::{
    RecordSet, last_is_greatest, last_records_are_enough, last_records_of_unions,
    records_are_ordered,
};
use reg_values::avro_schema::SchemaText;
use reg_values::base_text::Text;
use reg_values::reg_level_names::Level;
use reg_values::reg_records::{Key, Record};
use std::alloc::{AllocError, Global};
use std::marker::Model;

/// A registry over a set of records: the entries, levels and modes that the last record of each key
/// gives.
///
/// Contracts see it as the set of those last records.
#[derive(Debug, Drop)]
pub struct Registry {
    index: Index,
}

impl Model for Registry {
    ghost use Rattle.reg_values.specs.reg_records.contracts.record.Record as rows;
    ghost use Rattle.std.specs.FinSet as set;
    ghost use Rattle.reg_set.specs.Records.{Records};
    ghost use Rattle.reg_fold.specs.Kept.{IsKept};

    ghost Value = { Records };

    ghost coded = { set.code (rows.the_row).coded };

    ghost view = { λ a. a.index.last };

    ghost invariant = { λ a. IsKept a.index };
}

impl Clone for Registry {
    ghost is_clone = { λ registry copy. copy ≡ registry };

    fn clone(&self) -> Result<Registry, AllocError> {
        Ok(Registry {
            index: self.index.clone()?,
        })
    }
}

impl Registry {
    /// Makes the registry over no records.
    pub fn empty(alloc: Global) -> Registry
        ensures { result ≡ set.empty }
    {
        Registry {
            index: Index::new(alloc),
        }
    }

    /// Makes the registry over a set of records. Each part of the set that keeps its last records,
    /// such as a compaction that drops only superseded ones, gives the same registry. The only
    /// error is out of memory.
    pub fn of_set(alloc: Global, set: &RecordSet) -> Result<Registry, AllocError>
        ensures lasts { IfOk result (λ registry. registry ≡ last_records set.now) }
        ensures compactions { IfOk result (λ registry.
            (part : Records) → KeepsLasts part set.now → registry ≡ last_records part) }
    {
        last_records_are_enough();
        Registry::over(alloc, &set.last_of_each()?)
    }

    /// Makes the registry over these records.
    ///
    /// A tree whose keys come in ascending order has nodes that are half full. So every second
    /// record is added first, and then those between them, which fill the nodes.
    fn over(alloc: Global, records: &[&Record]) -> Result<Registry, AllocError>
        ensures { IfOk result (λ registry.
            registry ≡ last_records (set.from_list (map (λ r. r.now) records.now))) }
    {
        let mut registry = Registry::over_every_second(alloc, records)?;
        registry.apply_lent(records)?;
        Ok(registry)
    }

    /// Makes the registry over every second of these records. The only error is out of memory.
    fn over_every_second(alloc: Global, records: &[&Record]) -> Result<Registry, AllocError>
        ensures { IfOk result (λ registry.
            last_records (set.union registry (set.from_list (map (λ r. r.now) records.now)))
            ≡ last_records (set.from_list (map (λ r. r.now) records.now))) }
    {
        records_are_ordered();
        last_records_of_unions();
        let mut registry = Registry::empty(alloc);
        let mut is_second = true;
        for record in records {
            is_second = !is_second;
            if is_second {
                continue;
            }
            registry.apply(record)?;
        }
        Ok(registry)
    }

    /// Adds all records. The only error is out of memory; some records may have been added then.
    fn apply_lent(&mut self, records: &[&Record]) -> Result<(), AllocError>
        ensures { OnOk result (self.new
            ≡ last_records (set.union self.old (set.from_list (map (λ r. r.now) records.now)))) }
    {
        records_are_ordered();
        self.index.last.is_compact();
        for record in records {
            self.apply(record)?;
        }
        Ok(())
    }

    /// Adds a record. Records may come in any order: the result is the registry over the set with
    /// this record. The only error is out of memory; the registry is then unchanged.
    pub fn apply(&mut self, given: &Record) -> Result<(), AllocError>
        ensures added { OnOk result (self.new ≡ last_records (set.insert self.old given.now)) }
        ensures whole { OnOk result ((whole : Records) → self.old ≡ last_records whole
            → self.new ≡ last_records (set.insert whole given.now)) }
        ensures refused { OnErr result (self.new ≡ self.old) }
    {
        self.apply_beside(given, None, None)
    }

    /// Adds a record, as [`Registry::apply`] does. `other` and `known` only save work: if the
    /// record is also the last of its key in `other`, what it gives is taken from there, and a
    /// schema that was read as `known` isn't read again.
    pub fn apply_beside(
        &mut self,
        given: &Record,
        other: Option<&Registry>,
        known: Option<&SchemaText>,
    ) -> Result<(), AllocError>
        ensures added { OnOk result (self.new ≡ last_records (set.insert self.old given.now)) }
        ensures whole { OnOk result ((whole : Records) → self.old ≡ last_records whole
            → self.new ≡ last_records (set.insert whole given.now)) }
        ensures refused { OnErr result (self.new ≡ self.old) }
    {
        last_records_of_unions();
        match other {
            Some(other) => self.index.apply(given, Some(&other.index), known),
            None => self.index.apply(given, None, known),
        }
    }

    /// Adds all records or none, in any order. The only error is out of memory; the registry is
    /// then unchanged.
    ///
    /// The cost is that of the records if all but the first are tombstones of versions that have a
    /// record, as in a permanent delete. Any other two or more records cost a copy of the registry.
    pub fn apply_all(&mut self, records: &[Record]) -> Result<(), AllocError>
        ensures added { OnOk result (self.new
            ≡ last_records (set.union self.old (set.from_list records.now))) }
        ensures whole { OnOk result ((whole : Records) → self.old ≡ last_records whole
            → self.new ≡ last_records (set.union whole (set.from_list records.now))) }
        ensures refused { OnErr result (self.new ≡ self.old) }
    {
        self.apply_all_beside(records, None, None)
    }

    /// Adds all records or none, as [`Registry::apply_all`] does. `other` and `known` only save
    /// work, as in [`Registry::apply_beside`].
    pub fn apply_all_beside(
        &mut self,
        records: &[Record],
        other: Option<&Registry>,
        known: Option<&SchemaText>,
    ) -> Result<(), AllocError>
        ensures added { OnOk result (self.new
            ≡ last_records (set.union self.old (set.from_list records.now))) }
        ensures whole { OnOk result ((whole : Records) → self.old ≡ last_records whole
            → self.new ≡ last_records (set.union whole (set.from_list records.now))) }
        ensures refused { OnErr result (self.new ≡ self.old) }
    {
        last_records_of_unions();
        match records {
            [] => self.apply_none(),
            [first, others @ ..] => {
                if self.are_tombstones(others) {
                    self.apply_before(first, others, other, known)
                } else {
                    self.apply_to_copy(records, other, known)
                }
            }
        }
    }

    /// Adds no records.
    fn apply_none(&self) -> Result<(), AllocError>
        ensures { self.now ≡ last_records (set.union self.now (set.from_list [])) }
    {
        records_are_ordered();
        self.index.last.is_compact();
        Ok(())
    }

    /// Returns whether all of the records can be added without memory.
    fn are_tombstones(&self, records: &[Record]) -> bool
        ensures { result ≡ list_all (is_tombstone self.now) records.now }
    {
        records.iter().all(|given| self.is_tombstone(given))
    }

    /// Returns whether this is a version's record without a value whose key has a record.
    fn is_tombstone(&self, given: &Record) -> bool
        ensures { result ≡ is_tombstone self.now given.now }
    {
        matches!(given.key, Key::Schema { .. })
            && given.value.is_none()
            && self.last(&given.key).is_some()
    }

    /// Adds a record and then tombstones, or nothing. The only error is out of memory; the registry
    /// is then unchanged.
    fn apply_before(
        &mut self,
        first: &Record,
        tombstones: &[Record],
        other: Option<&Registry>,
        known: Option<&SchemaText>,
    ) -> Result<(), AllocError>
        requires { list_all (is_tombstone self.old) tombstones.now ≡ true }
        ensures added { OnOk result (self.new
            ≡ last_records (set.union self.old (set.from_list (first.now ∷ tombstones.now)))) }
        ensures refused { OnErr result (self.new ≡ self.old) }
    {
        records_are_ordered();
        last_is_greatest();
        last_records_are_enough();
        last_records_of_unions();
        let copies = copies_of(self.index.alloc, tombstones)?;
        self.apply_beside(first, other, known)?;
        self.bury_all(copies);
        Ok(())
    }

    /// Adds tombstones. Takes no memory.
    fn bury_all(&mut self, tombstones: Vec<Record>)
        requires { list_all (is_tombstone self.old) tombstones.items ≡ true }
        ensures { self.new ≡ last_records (set.union self.old (set.from_list tombstones.items)) }
    {
        records_are_ordered();
        self.index.last.is_compact();
        for tombstone in tombstones {
            self.bury(tombstone);
        }
    }

    /// Adds a tombstone. Takes no memory. Records that could be added as tombstones before still
    /// can be.
    fn bury(&mut self, tombstone: Record)
        requires { is_tombstone self.old tombstone ≡ true }
        ensures added { self.new ≡ last_records (set.insert self.old tombstone) }
        ensures whole { (whole : Records) → self.old ≡ last_records whole
            → self.new ≡ last_records (set.insert whole tombstone) }
        ensures others { (other : Record) → is_tombstone self.old other ≡ true → is_tombstone self.new other ≡ true }
    {
        records_are_ordered();
        last_is_greatest();
        last_records_are_enough();
        last_records_of_unions();
        self.index.bury(tombstone);
    }

    /// Adds all records or none, by way of a copy. The only error is out of memory; the registry is
    /// then unchanged.
    fn apply_to_copy(
        &mut self,
        records: &[Record],
        other: Option<&Registry>,
        known: Option<&SchemaText>,
    ) -> Result<(), AllocError>
        ensures added { OnOk result (self.new
            ≡ last_records (set.union self.old (set.from_list records.now))) }
        ensures refused { OnErr result (self.new ≡ self.old) }
    {
        let mut next = self.clone()?;
        next.apply_each(records, other, known)?;
        *self = next;
        Ok(())
    }

    /// Adds all records. The only error is out of memory; some records may have been added then.
    fn apply_each(
        &mut self,
        records: &[Record],
        other: Option<&Registry>,
        known: Option<&SchemaText>,
    ) -> Result<(), AllocError>
        ensures { OnOk result (self.new
            ≡ last_records (set.union self.old (set.from_list records.now))) }
    {
        records_are_ordered();
        self.index.last.is_compact();
        for record in records {
            self.apply_beside(record, other, known)?;
        }
        Ok(())
    }

    /// Removes the record if it is the last of its key and has no value (a tombstone). The key has
    /// no record then; entries, levels, modes and the id mark stay the same. Any other record
    /// changes nothing. Takes no memory.
    pub fn forget(&mut self, given: &Record)
        ensures left { self.new
            ≡ (if is_none given.now.value then set.remove self.old given.now else self.old) }
        ensures lasts { last_records self.new ≡ self.new }
        ensures alike { GiveAlike self.old self.new }
    {
        giving_alike_is_an_equivalence();
        if given.value.is_none() {
            self.index.forget(given);
        }
        self.index.last.is_compact();
    }

    /// Removes each of these records that is the last of its key and has no value, as
    /// [`Registry::forget`] does. Takes no memory.
    pub fn forget_all(&mut self, given: &[Record])
        ensures left { self.new
            ≡ set.difference self.old (set.from_list (filter (λ r. is_none r.value) given.now)) }
        ensures lasts { last_records self.new ≡ self.new }
        ensures alike { GiveAlike self.old self.new }
    {
        records_are_ordered();
        giving_alike_is_an_equivalence();
        for record in given {
            self.forget(record);
        }
        self.index.last.is_compact();
    }

    /// Returns the last records, one for each key, in the derived order of keys. The only error is
    /// out of memory.
    pub fn records(&self) -> Result<Vec<&Record>, AllocError>
        ensures all { IfOk result (λ found. self.now
            ≡ set.from_list (map (λ r. r.now) found.items)) }
        ensures one_a_key { IfOk result (λ found.
            IsStrictlySortedBy key_cmp (map (λ r. r.now.key) found.items)) }
    {
        self.index.last.records(self.index.alloc)
    }

    /// Returns the last record of the key. Takes no memory.
    pub fn last(&self, key: &Key) -> Option<&Record>
        ensures { option_map (λ found. found.now) result ≡ last self.now key.now }
    {
        self.index.last.last(key)
    }

    /// Copies a record. If its key is a version's that has an entry, the copy's value also carries
    /// the entry's text, so that a reader of the copy shares that text with this registry. The only
    /// error is out of memory.
    pub fn copy_of(&self, given: &Record) -> Result<Record, AllocError>
        ensures { IfOk result (λ copy. copy ≡ given.now) }
    {
        let Some(text) = self.text_at(&given.key)? else {
            return given.clone();
        };
        let value = match &given.value {
            Some(value) => Some(value.bringing(text)?),
            None => None,
        };
        Ok(Record {
            offset: given.offset,
            key: given.key.clone()?,
            value,
        })
    }

    /// Returns the text of the entry that a version's key has. The only error is out of memory.
    fn text_at(&self, key: &Key) -> Result<Option<&Text>, AllocError> {
        let Key::Schema { subject, version } = key else {
            return Ok(None);
        };
        let place = (subject.clone()?, *version);
        match self.index.entries.at(&place) {
            Some(entry) => Ok(Some(&entry.text)),
            None => Ok(None),
        }
    }

    /// Returns whether the record is the last of its key. Takes no memory.
    pub fn contains(&self, given: &Record) -> bool
        ensures { result ≡ set.contains self.now given.now }
    {
        self.index.last.contains(given)
    }

    /// Returns all entries, soft-deleted ones too, by the bytes of the subject and then by version.
    /// The only error is out of memory.
    pub fn entries(&self) -> Result<Vec<&Entry>, AllocError>
        ensures all { IfOk result (λ found. map (λ e. e.now) found.items ≡ entries self.now) }
        ensures in_order { IfOk result (λ found. IsInOrder (map (λ e. e.now) found.items)) }
        ensures given { IfOk result (λ found. AreOfLasts self.now (map (λ e. e.now) found.items)) }
        ensures lasts { last_records self.now ≡ self.now }
    {
        self.index.entries_given();
        self.index
            .entries
            .all_shown(&self.index.deletes.of_subjects)
    }

    /// Returns a subject's live entries (those that aren't soft-deleted), by version. The only
    /// error is out of memory.
    pub fn live(&self, subject: &str) -> Result<Vec<&Entry>, AllocError>
        ensures all { IfOk result (λ found. map (λ e. e.now) found.items ≡ live self.now subject.now) }
        ensures in_order { IfOk result (λ found. AreInVersionOrder (map (λ e. e.now) found.items)) }
        ensures lasts { last_records self.now ≡ self.now }
    {
        self.index.last.is_compact();
        self.index
            .entries
            .counting(&self.index.deletes.of_subjects, subject, false)
    }

    /// Returns a subject's live entries, and with `deleted` the soft-deleted ones too, by version.
    /// The only error is out of memory.
    pub fn counting(&self, subject: &str, deleted: bool) -> Result<Vec<&Entry>, AllocError>
        ensures all { IfOk result (λ found. map (λ e. e.now) found.items ≡ counting (entries self.now) subject.now deleted) }
        ensures in_order { IfOk result (λ found. AreInVersionOrder (map (λ e. e.now) found.items)) }
    {
        self.index
            .entries
            .counting(&self.index.deletes.of_subjects, subject, deleted)
    }

    /// Finds a version of a subject among the live entries, and with `deleted` among the
    /// soft-deleted ones too. The only error is out of memory.
    pub fn version(
        &self,
        subject: &str,
        version: VersionRef,
        deleted: bool,
    ) -> Result<Option<&Entry>, AllocError>
        ensures { IfOk result (λ found. option_copied found ≡ version_in (entries self.now) subject.now version deleted) }
    {
        match version {
            VersionRef::Latest => self
                .index
                .entries
                .latest(&self.index.deletes.of_subjects, subject, deleted),
            VersionRef::Number(version) => self
                .index
                .entries
                .of_version(&self.index.deletes.of_subjects, subject, version, deleted),
        }
    }

    /// Returns the subjects that have a live entry, or with `deleted` any entry, by their bytes.
    /// The only error is out of memory.
    pub fn subjects(&self, deleted: bool) -> Result<Vec<&str>, AllocError>
        ensures { IfOk result (λ found. map (λ s. s.now) found.items ≡ subjects (entries self.now) deleted) }
    {
        self.index
            .entries
            .subjects(&self.index.deletes.of_subjects, deleted)
    }

    /// Returns whether the subject, or with `None` any subject, has a live entry. Takes no memory.
    pub fn has_live(&self, subject: Option<&str>) -> bool
        ensures { result ≡ has_live (entries self.now) (option_map (λ s. s.now) subject.entry) }
    {
        self.index
            .entries
            .has_live(&self.index.deletes.of_subjects, subject)
    }

    /// Returns the entries with this id, soft-deleted ones too, by the bytes of the subject and
    /// then by version. The only error is out of memory.
    pub fn with_id(&self, id: u32) -> Result<Vec<&Entry>, AllocError>
        ensures { IfOk result (λ found. map (λ e. e.now) found.items ≡ with_id (entries self.now) id) }
    {
        self.index
            .entries
            .with_id(&self.index.deletes.of_subjects, id)
    }

    /// Returns the entry that an id names: of the entries with the id, soft-deleted ones too, the
    /// one of greatest offset; among equals the one of greatest subject by its bytes, then of
    /// greatest version.
    pub fn by_id(&self, id: u32) -> Option<&Entry>
        ensures { option_copied result ≡ named self.now id }
    {
        self.index
            .entries
            .named(&self.index.deletes.of_subjects, id)
    }

    /// Returns the greatest id of the entries, soft-deleted ones too.
    pub fn greatest_id(&self) -> Option<u32>
        ensures { result ≡ greatest_id self.now }
    {
        self.index.entries.greatest_id()
    }

    /// Returns the id mark, which records that ids up to it were given away: the id of the last
    /// such record, or 0 if there is none that can be read. Takes no memory.
    pub fn mark(&self) -> u32
        ensures { result ≡ id_mark self.now }
    {
        self.index.id_mark
    }

    /// Returns the greatest id that is marked or that an entry has, soft-deleted ones too; 0 if
    /// there is none. Takes no memory.
    pub fn last_id(&self) -> u32
        ensures { result ≡ last_id self.now }
    {
        self.mark().max(self.greatest_id().unwrap_or(0))
    }

    /// Returns the greatest version of a subject's entries, soft-deleted ones too.
    pub fn greatest_version(&self, subject: &str) -> Option<u32>
        ensures { result ≡ greatest_version self.now subject.now }
    {
        self.index.entries.greatest_version(subject)
    }

    /// Returns the least id of the entries whose schema has this normal text, soft-deleted ones
    /// too. The only error is out of memory.
    pub fn id_of(&self, normal: &str) -> Result<Option<u32>, AllocError>
        ensures { IfOk result (λ id. id ≡ id_of self.now normal.now) }
    {
        self.index.entries.id_of(normal)
    }

    /// Returns the least id that names two schemas: two entries, live or soft-deleted, have it, and
    /// their normal texts differ.
    pub fn two_schemas(&self) -> Option<u32>
        ensures { result ≡ two_schemas self.now }
    {
        self.index.entries.two_schemas()
    }

    /// Returns whether the registry takes no commands, because a version's record can't be read or
    /// an id names two schemas.
    pub fn is_closed(&self) -> bool
        ensures { result ≡ is_closed self.now }
    {
        self.opaque().is_some() || self.two_schemas().is_some()
    }

    /// Returns the level in force for a subject, or with `None` for all subjects: the subject's
    /// own, else the global one, else BACKWARD. Takes no memory.
    pub fn level(&self, subject: Option<&str>) -> Level
        ensures { result ≡ level self.now (option_map (λ s. s.now) subject.entry) }
    {
        match self.own_level(subject) {
            Some(level) => level,
            None => self.own_level(None).unwrap_or(Level::Backward),
        }
    }

    /// Returns the level set on a subject itself, or with `None` the global one, if it was set.
    /// Takes no memory.
    pub fn own_level(&self, subject: Option<&str>) -> Option<Level>
        ensures { result ≡ own_level self.now (option_map (λ s. s.now) subject.entry) }
    {
        self.index.levels.of(subject).copied()
    }

    /// Returns the name of the mode set on a subject itself, or with `None` of the global one, as
    /// its record spells it. It may be no mode's name. Takes no memory.
    pub fn own_mode_name(&self, subject: Option<&str>) -> Option<&str>
        ensures { option_map (λ s. s.now) result ≡ own_mode_name self.now (option_map (λ s. s.now) subject.entry) }
    {
        self.index.modes.of(subject).map(Text::as_str)
    }

    /// Returns the least offset of an opaque version's record: one that has a value that can't be
    /// read.
    pub fn opaque(&self) -> Option<u64>
        ensures { result ≡ opaque self.now }
    {
        self.index.opaque()
    }
}

/// Copies the records. The only error is out of memory.
fn copies_of(alloc: Global, records: &[Record]) -> Result<Vec<Record>, AllocError>
    ensures { IfOk result (λ copies. copies.items ≡ records.now) }
{
    records.to_vec(alloc)
}
