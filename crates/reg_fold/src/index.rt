// What a registry keeps, so that one more record costs what it touches.
ghost use Rattle.std.specs.Prelude.{◌≡◌, ◌≢◌, IsSome, IfSome, IfOk, OnOk, OnErr, Some, None, true, false, is_none, is_some};
ghost use Rattle.std.specs.FinMap as finmap;
ghost use Rattle.std.specs.FinSet as set;
ghost use Rattle.reg_values.specs.reg_records.declared.key.Key.TheVariants as keys;
ghost use Rattle.reg_set.specs.LastRecords.{last, last_records, with_last};
ghost use Rattle.reg_fold.specs.Entries.{AreOfLasts, entries};
ghost use Rattle.reg_fold.specs.GiveAlike.{GiveAlike};
ghost use Rattle.reg_fold.specs.Kept.{IsKept};
ghost use Rattle.reg_fold.specs.Opaque.{is_version, opaque};
ghost use Rattle.reg_fold.specs.Own.{own_entry_of};
ghost use Rattle.reg_fold.specs.Step.{EntriesAreOfLasts, IsStep};
ghost use Rattle.reg_fold.specs.Tombstones.{is_tombstone};
ghost use Rattle.reg_entries.specs.EntryOrder.{place_of};

use crate::reading::{delete_of, id_marked_of, own_entry_of};
use crate::scoped::Scoped;
use crate::settings::put_own;
use crate::spots::{Spot, forget, forget_elsewhere, spot_of};
use reg_entries::{Entries, Entry, SoftDelete};
use reg_set::{LastRecords, last_is_greatest, last_records_are_enough, records_are_ordered};
use reg_values::avro_schema::{KnownNormal, SchemaText};
use reg_values::base_text::Text;
use reg_values::reg_level_names::Level;
use reg_values::reg_records::{Key, Record};
use std::alloc::{AllocError, Global};
use std::collections::BTreeSet;

/// The last records, and what they give.
#[derive(Debug, Drop)]
pub(crate) struct Index {
    pub(crate) alloc: Global,
    pub(crate) last: LastRecords,
    // Those that the last records give by themselves, soft deletes of subjects aside.
    pub(crate) entries: Entries,
    // Where the opaque versions are.
    pub(crate) unread: BTreeSet<Spot>,
    // The last soft delete of each subject, if it can be read.
    pub(crate) deletes: Scoped<SoftDelete>,
    // The levels set on scopes.
    pub(crate) levels: Scoped<Level>,
    // The names of the modes set on scopes, as their records spell them.
    pub(crate) modes: Scoped<Text>,
    // The id up to which ids were given away; 0 if no record says so.
    pub(crate) id_mark: u32,
}

impl Clone for Index {
    ghost use Rattle.reg_fold.specs.Kept.{IsKept};

    ghost is_clone = { λ index copy. (copy.last ≡ index.last) × (IsKept index → IsKept copy) };

    fn clone(&self) -> Result<Index, AllocError> {
        Ok(Index {
            alloc: self.alloc,
            last: self.last.clone()?,
            entries: self.entries.clone()?,
            unread: self.unread.clone()?,
            deletes: self.deletes.clone()?,
            levels: self.levels.clone()?,
            modes: self.modes.clone()?,
            id_mark: self.id_mark,
        })
    }
}

impl Index {
    ghost use Rattle.reg_fold.specs.Kept.{AddsOnOk, IsKept, IsNewsTo};

    /// Makes the index of no records.
    pub(crate) fn new(alloc: Global) -> Index
        ensures kept { IsKept result }
        ensures empty { result.last ≡ set.empty }
    {
        records_are_ordered();
        let last = LastRecords::new(alloc);
        entries_are_of_lasts(&last);
        Index {
            alloc,
            last,
            entries: Entries::new(alloc),
            unread: BTreeSet::new(alloc),
            deletes: Scoped::new(alloc),
            levels: Scoped::new(alloc),
            modes: Scoped::new(alloc),
            id_mark: 0,
        }
    }

    /// Adds a record. What it gives is taken from the other index if the record is the last of its
    /// key there; a schema that was read as `known` isn't read again. The only error is out of
    /// memory; the last records are then unchanged.
    pub(crate) fn apply(
        &mut self,
        given: &Record,
        other: Option<&Index>,
        known: Option<&SchemaText>,
    ) -> Result<(), AllocError>
        requires kept { IsKept self.old }
        requires other { IfSome other (λ o. IsKept o.now) }
        ensures { AddsOnOk self.old given.now result self.new }
    {
        if !self.last.is_news(given) {
            return Ok(());
        }
        match &given.key {
            Key::Schema { subject, version } => {
                self.apply_version(given, subject, *version, other, known)
            }
            Key::DeleteSubject(subject) => self.apply_delete(given, subject),
            Key::Config(scope) => self.apply_config(given, scope),
            Key::Mode(scope) => self.apply_mode(given, scope),
            Key::Noop => self.apply_noop(given),
            Key::IdMark => self.apply_id_mark(given),
        }
    }

    /// Adds a version's record that changes the last records.
    fn apply_version(
        &mut self,
        given: &Record,
        subject: &Text,
        version: u32,
        other: Option<&Index>,
        known: Option<&SchemaText>,
    ) -> Result<(), AllocError>
        requires news { IsNewsTo given.now self.old }
        requires of_key { given.now.key ≡ keys.Schema subject.now version }
        requires other { IfSome other (λ o. IsKept o.now) }
        ensures { AddsOnOk self.old given.now result self.new }
    {
        let place = (subject.clone()?, version);
        let known = self.known_at(&place, known);
        match entry_of(self.alloc, given, &place, other, known)? {
            Some(entry) => self.put_entry(given, place, entry),
            None if given.value.is_some() => self.put_unread(given, place),
            None => self.put_tombstone(given, place),
        }
    }

    /// Returns a text whose normal text is known: that of the entry at the place, else that of
    /// `known`.
    fn known_at<'a>(
        &'a self,
        place: &(Text, u32),
        known: Option<&'a SchemaText>,
    ) -> Option<KnownNormal<'a>>
        requires { IsKept self.now }
    {
        match self.entries.at(place) {
            Some(entry) => { Some(KnownNormal::new(&entry.text, &entry.normal)) }
            None => known?.known(),
        }
    }

    /// Copies the entry that the last record of its key gives by itself, soft deletes of the
    /// subject aside. The only error is out of memory.
    fn entry_at(&self, given: &Record, place: &(Text, u32)) -> Result<Option<Entry>, AllocError>
        requires kept { IsKept self.now }
        requires last { set.contains self.now.last given.now ≡ true }
        requires of_key { given.now.key ≡ keys.Schema place.now.0 place.now.1 }
        ensures { IfOk result (λ entry. entry ≡ own_entry_of given.now) }
    {
        records_are_ordered();
        self.last.is_compact();
        match self.entries.at(place) {
            Some(entry) => Ok(Some(entry.clone()?)),
            None => Ok(None),
        }
    }

    /// Adds a version's record that gives an entry.
    fn put_entry(
        &mut self,
        given: &Record,
        place: (Text, u32),
        entry: Entry,
    ) -> Result<(), AllocError>
        requires news { IsNewsTo given.now self.old }
        requires of_key { given.now.key ≡ keys.Schema place.0 place.1 }
        requires gives { own_entry_of given.now ≡ Some entry }
        ensures { AddsOnOk self.old given.now result self.new }
    {
        let before = put_with(&mut self.last, &mut self.entries, given, entry)?;
        let spot = spot_of(before, place);
        forget(&mut self.unread, &spot);
        Ok(())
    }

    /// Adds a version's record without a value.
    fn put_tombstone(&mut self, given: &Record, place: (Text, u32)) -> Result<(), AllocError>
        requires news { IsNewsTo given.now self.old }
        requires of_key { given.now.key ≡ keys.Schema place.0 place.1 }
        requires gives { own_entry_of given.now ≡ None }
        requires no_value { is_some given.now.value ≡ false }
        ensures { AddsOnOk self.old given.now result self.new }
    {
        let before = put_last(&mut self.last, given)?;
        self.entries.remove(&place);
        let spot = spot_of(before, place);
        forget(&mut self.unread, &spot);
        Ok(())
    }

    /// Adds a version's record without a value whose key has a record. Takes no memory.
    pub(crate) fn bury(&mut self, given: Record)
        requires kept { IsKept self.old }
        requires tombstone { is_tombstone self.old.last given ≡ true }
        ensures kept { IsKept self.new }
        ensures added { self.new.last ≡ last_records (set.insert self.old.last given) }
    {
        if self.last.is_news(&given) {
            self.bury_news(given);
        }
    }

    /// Adds such a record that changes the last records.
    fn bury_news(&mut self, given: Record)
        requires news { IsNewsTo given self.old }
        requires tombstone { is_tombstone self.old.last given ≡ true }
        ensures kept { IsKept self.new }
        ensures added { self.new.last ≡ last_records (set.insert self.old.last given) }
    {
        let before = put_over(&mut self.last, given);
        let offset = before.offset;
        let place = place_in(before.key);
        self.entries.remove(&place);
        let spot = Some((offset, place));
        forget(&mut self.unread, &spot);
    }

    /// Removes the record, which has no value, if it is the last of its key. Takes no memory.
    pub(crate) fn forget(&mut self, given: &Record)
        requires kept { IsKept self.old }
        requires no_value { is_none given.now.value ≡ true }
        ensures kept { IsKept self.new }
        ensures left { self.new.last ≡ set.remove self.old.last given.now }
        ensures alike { GiveAlike self.old.last self.new.last }
    {
        records_are_ordered();
        last_is_greatest();
        self.last.is_compact();
        entries_are_of_lasts(&self.last);
        self.last.remove(given);
        self.last.is_compact();
        entries_are_of_lasts(&self.last);
    }

    /// Adds a version's record whose value can't be read.
    fn put_unread(&mut self, given: &Record, place: (Text, u32)) -> Result<(), AllocError>
        requires news { IsNewsTo given.now self.old }
        requires of_key { given.now.key ≡ keys.Schema place.0 place.1 }
        requires gives { own_entry_of given.now ≡ None }
        requires has_text { is_some given.now.value ≡ true }
        ensures { AddsOnOk self.old given.now result self.new }
    {
        let here = (given.offset, (place.0.clone()?, place.1));
        let before = put_last(&mut self.last, given)?;
        if let Err(refused) = self.unread.insert(here) {
            self.last.put_back(&given.key, before);
            return Err(AllocError::from(refused));
        }
        self.entries.remove(&place);
        // At one offset the earlier record was where this one is.
        let spot = spot_of(before, place);
        forget_elsewhere(&mut self.unread, &spot, given.offset);
        Ok(())
    }

    /// Adds a subject's soft delete that changes the last records.
    fn apply_delete(&mut self, given: &Record, subject: &Text) -> Result<(), AllocError>
        requires news { IsNewsTo given.now self.old }
        requires of_key { given.now.key ≡ keys.DeleteSubject subject.now }
        ensures { AddsOnOk self.old given.now result self.new }
    {
        let delete = delete_of(self.alloc, given)?;
        let scope = Some(subject.clone()?);
        put_own(
            self.alloc,
            &mut self.last,
            &mut self.deletes,
            given,
            &scope,
            delete,
        )?;
        Ok(())
    }

    /// Adds a no-operation record that changes the last records.
    fn apply_noop(&mut self, given: &Record) -> Result<(), AllocError>
        requires news { IsNewsTo given.now self.old }
        requires of_key { given.now.key ≡ keys.Noop }
        ensures { AddsOnOk self.old given.now result self.new }
    {
        put_last(&mut self.last, given)?;
        Ok(())
    }

    /// Adds an id mark that changes the last records.
    fn apply_id_mark(&mut self, given: &Record) -> Result<(), AllocError>
        requires news { IsNewsTo given.now self.old }
        requires of_key { given.now.key ≡ keys.IdMark }
        ensures { AddsOnOk self.old given.now result self.new }
    {
        let marked = id_marked_of(self.alloc, given)?;
        put_last(&mut self.last, given)?;
        self.id_mark = marked.unwrap_or(0);
        Ok(())
    }

    /// States that the entries are those that the last records give, and that these are last
    /// records.
    pub(crate) fn entries_given(&self)
        ensures given { AreOfLasts self.now.last (entries self.now.last) }
        ensures lasts { last_records self.now.last ≡ self.now.last }
    {
        entries_are_of_lasts(&self.last);
        last_is_greatest();
        self.last.is_compact();
    }

    /// Returns the least offset of an opaque version's record.
    pub(crate) fn opaque(&self) -> Option<u64>
        requires { IsKept self.now }
        ensures { result ≡ opaque self.now.last }
    {
        records_are_ordered();
        last_is_greatest();
        self.last.is_compact();
        let first = self.unread.first()?;
        Some(first.0)
    }
}

/// Makes the entry that a version's record gives by itself: a copy of the other index's if the
/// record is the last of its key there, else read from the record, without the schema if it is
/// known. The only error is out of memory.
fn entry_of(
    alloc: Global,
    given: &Record,
    place: &(Text, u32),
    other: Option<&Index>,
    known: Option<KnownNormal<'_>>,
) -> Result<Option<Entry>, AllocError>
    requires of_key { given.now.key ≡ keys.Schema place.now.0 place.now.1 }
    requires other { IfSome other (λ o. IsKept o.now) }
    ensures { IfOk result (λ entry. entry ≡ own_entry_of given.now) }
{
    match other {
        Some(other) if other.last.contains(given) => other.entry_at(given, place),
        Some(_) | None => own_entry_of(alloc, given, known),
    }
}

/// Puts a version's record and its entry, and returns the key's last record before. The only error
/// is out of memory; nothing has changed then.
fn put_with(
    lasts: &mut LastRecords,
    entries: &mut Entries,
    given: &Record,
    entry: Entry,
) -> Result<Option<Record>, AllocError>
    requires { last_records (set.insert lasts.old given.now) ≢ lasts.old }
    ensures added { OnOk result (lasts.new ≡ last_records (set.insert lasts.old given.now)) }
    ensures step { OnOk result (IsStep lasts.old lasts.new given.now) }
    ensures before { IfOk result (λ before. before ≡ last lasts.old given.now.key) }
    ensures put { OnOk result (entries.new ≡ finmap.insert entries.old (place_of entry) entry) }
    ensures lasts_stay { OnErr result (lasts.new ≡ lasts.old) }
    ensures entries_stay { OnErr result (entries.new ≡ entries.old) }
{
    let before = put_last(lasts, given)?;
    if let Err(refused) = entries.put(entry) {
        lasts.put_back(&given.key, before);
        return Err(refused);
    }
    Ok(before)
}

/// Makes a record the last of its key, and returns the one before. The only error is out of memory;
/// nothing has changed then.
pub(crate) fn put_last(
    lasts: &mut LastRecords,
    given: &Record,
) -> Result<Option<Record>, AllocError>
    requires { last_records (set.insert lasts.old given.now) ≢ lasts.old }
    ensures added { OnOk result (lasts.new ≡ last_records (set.insert lasts.old given.now)) }
    ensures step { OnOk result (IsStep lasts.old lasts.new given.now) }
    ensures there { OnOk result (IsSome (last lasts.new given.now.key)) }
    ensures of_key { IfOk result (λ before. IfSome before (λ r. r.key ≡ given.now.key)) }
    ensures before { IfOk result (λ before. before ≡ last lasts.old given.now.key) }
    ensures taken_back { IfOk result (λ before. with_last lasts.new given.now.key before ≡ lasts.old) }
    ensures refused { OnErr result (lasts.new ≡ lasts.old) }
{
    records_are_ordered();
    last_is_greatest();
    last_records_are_enough();
    lasts.is_compact();
    entries_are_of_lasts(lasts);
    let before = lasts.put_news(given)?;
    lasts.is_compact();
    entries_are_of_lasts(lasts);
    Ok(before)
}

/// Makes a record the last of its key, which has one, and returns the one before. Takes no memory.
fn put_over(lasts: &mut LastRecords, given: Record) -> Record
    requires news { last_records (set.insert lasts.old given) ≢ lasts.old }
    requires there { IsSome (last lasts.old given.key) }
    ensures added { lasts.new ≡ last_records (set.insert lasts.old given) }
    ensures step { IsStep lasts.old lasts.new given }
    ensures of_key { result.key ≡ given.key }
    ensures before { last lasts.old given.key ≡ Some result }
{
    records_are_ordered();
    last_is_greatest();
    last_records_are_enough();
    lasts.is_compact();
    entries_are_of_lasts(lasts);
    let before = lasts.put_over(given);
    lasts.is_compact();
    entries_are_of_lasts(lasts);
    before
}

/// Returns the subject and the version of a version's key.
fn place_in(key: Key) -> (Text, u32)
    requires { is_version key ≡ true }
    ensures { key ≡ keys.Schema result.0 result.1 }
{
    match key {
        Key::Schema { subject, version } => (subject, version),
        Key::Config(_) | Key::Mode(_) | Key::DeleteSubject(_) | Key::Noop | Key::IdMark =>
            unreachable!(),
    }
}

/// States that the entry at a place is the one that the last record of its key gives.
fn entries_are_of_lasts(lasts: &LastRecords)
    ensures { EntriesAreOfLasts lasts.now }
{
    records_are_ordered();
    last_is_greatest();
    lasts.is_compact();
}
