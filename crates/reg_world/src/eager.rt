// The entries of a log whose records are taken one after the other.
ghost use Rattle.std.specs.Prelude.{◌≡◌, ◌||◌, [], IfOk, OnOk, map, nat_le, option_map};
ghost use Rattle.std.specs.FinMap as finmap;
ghost use Rattle.std.specs.List.{Contains};
ghost use Rattle.std.specs.Option.{option_map_or};
ghost use Rattle.reg_alike.specs.reg_records.declared.key.Key.TheVariants as keys;
ghost use Rattle.reg_alike.specs.reg_records.declared.value.Value.TheVariants as values;
ghost use Rattle.reg_alike.specs.reg_set.LastRecords.{last_records};
ghost use Rattle.reg_alike.specs.reg_entries.EntryOrder.{Place, place_of};
ghost use Rattle.reg_alike.specs.reg_entries.Flagged.{FlagsEach};
ghost use Rattle.reg_alike.specs.reg_entries.Sought.{of_subject};
ghost use Rattle.reg_alike.specs.reg_entries.declared.entry.Entry.{Entry};
ghost use Rattle.reg_alike.specs.reg_fold.Entries.{entries};
ghost use Rattle.reg_topic.specs.Topic.{records_of_item};
ghost use Rattle.reg_world.specs.Eager.{after_key, after_records, eager_after, flagged_by, flagged_with, put_by, standing_at};

use reg_alike::base_text::Text;
use reg_alike::reg_entries::{Entries, Entry, Flag};
use reg_alike::reg_fold::{Registry, entries_are_of_places};
use reg_alike::reg_records::{Key, Record, Value};
use reg_alike::reg_set::RecordSet;
use reg_alike::reg_values::{Decoded, decode, decode_value, values_are_of_keys};
use reg_topic::{Item, Topic};
use std::alloc::{AllocError, Global};

/// Makes the entries after all that the items published, taken record by record over the entries of
/// the base. The only error is out of memory.
pub(crate) fn fold_eagerly(
    alloc: Global,
    base: &Topic,
    items: &[Item],
) -> Result<Entries, AllocError>
    ensures { IfOk result (λ standing. (p : Place) → finmap.get standing p ≡ eager_after base.now items.now p) }
{
    let mut standing = entries_of(alloc, &base.log)?;
    for item in items {
        take_item(alloc, &mut standing, item)?;
    }
    Ok(standing)
}

/// Copies each entry, by place. The only error is out of memory.
pub(crate) fn listed(alloc: Global, standing: &Entries) -> Result<Vec<Entry>, AllocError>
    ensures { IfOk result (λ found. found.items ≡ finmap.values standing.now) }
{
    let all = standing.all()?;
    copies_of(alloc, &all)
}

fn copies_of(alloc: Global, entries: &[&Entry]) -> Result<Vec<Entry>, AllocError>
    ensures { IfOk result (λ found. found.items ≡ map (λ e. e.now) entries.now) }
{
    let mut found = Vec::new(alloc);
    for entry in entries {
        found.push((*entry).clone()?)?;
    }
    Ok(found)
}

/// Makes the entries of a set of records.
fn entries_of(alloc: Global, log: &RecordSet) -> Result<Entries, AllocError>
    ensures { IfOk result (λ standing. (p : Place) → finmap.get standing p ≡ standing_at p (entries (last_records log.now))) }
{
    entries_are_of_places();
    let registry = Registry::of_set(alloc, log)?;
    let found = registry.entries()?;
    put_all(alloc, &found)
}

/// Puts each entry at its place. No two of them have the same place.
fn put_all(alloc: Global, entries: &[&Entry]) -> Result<Entries, AllocError>
    requires { (e f : Entry) → Contains (map (λ e. e.now) entries.now) e → Contains (map (λ e. e.now) entries.now) f → place_of e ≡ place_of f → e ≡ f }
    ensures { IfOk result (λ standing. (p : Place) → finmap.get standing p ≡ standing_at p (map (λ e. e.now) entries.now)) }
{
    let mut standing = Entries::new(alloc);
    for entry in entries {
        standing.put((*entry).clone()?)?;
    }
    Ok(standing)
}

/// Takes the records that an item published, in their order.
fn take_item(alloc: Global, standing: &mut Entries, item: &Item) -> Result<(), AllocError>
    ensures { OnOk result ((p : Place) → finmap.get standing.new p ≡ after_records p (finmap.get standing.old p) (records_of_item item.now)) }
{
    match item {
        Item::Commit(commit) => take_all(alloc, standing, commit.batch.as_slice()),
        Item::Compaction(_) => Ok(()),
    }
}

/// Takes the records in their order.
fn take_all(alloc: Global, standing: &mut Entries, records: &[Record]) -> Result<(), AllocError>
    ensures { OnOk result ((p : Place) → finmap.get standing.new p ≡ after_records p (finmap.get standing.old p) records.now) }
{
    for given in records {
        take_one(alloc, standing, given)?;
    }
    Ok(())
}

fn take_one(alloc: Global, standing: &mut Entries, given: &Record) -> Result<(), AllocError>
    ensures { OnOk result ((p : Place) → finmap.get standing.new p ≡ after_key given.now.key p (finmap.get standing.old p) given.now) }
{
    match &given.key {
        Key::Schema { subject, version } => take_version(alloc, standing, given, subject, *version),
        Key::DeleteSubject(_) => take_delete(alloc, standing, given),
        Key::Config(_) | Key::Mode(_) | Key::Noop | Key::IdMark => Ok(()),
    }
}

/// Takes a version's record: puts its entry at the place, or removes the entry there.
fn take_version(
    alloc: Global,
    standing: &mut Entries,
    given: &Record,
    subject: &Text,
    version: u32,
) -> Result<(), AllocError>
    requires { given.now.key ≡ keys.Schema subject.now version }
    ensures { OnOk result ((p : Place) → finmap.get standing.new p ≡ after_key (keys.Schema subject.now version) p (finmap.get standing.old p) given.now) }
{
    values_are_of_keys();
    match put_by(alloc, given)? {
        Some(entry) => standing.put(entry),
        None => {
            let place = (subject.clone()?, version);
            standing.remove(&place);
            Ok(())
        }
    }
}

/// Returns the entry that a version's record puts at its place, if it puts one.
fn put_by(alloc: Global, given: &Record) -> Result<Option<Entry>, AllocError>
    ensures { IfOk result (λ found. found ≡ put_by given.now) }
{
    let Some(Decoded { value, normal }) = decode(alloc, given, None)? else {
        return Ok(None);
    };
    match value {
        Value::Schema {
            subject,
            version,
            id,
            schema: text,
            deleted,
        } => {
            Ok(Some(Entry {
                subject,
                version,
                id,
                text,
                normal: or_empty(normal),
                offset: given.offset,
                soft: deleted,
            }))
        }
        Value::Config(_)
        | Value::Mode(_)
        | Value::DeleteSubject { .. }
        | Value::Noop
        | Value::IdMark(_) => Ok(None),
    }
}

/// Returns the text, or the empty one.
fn or_empty(text: Option<Text>) -> Text
    ensures { result ≡ option_map_or (λ text. text) text [] }
{
    match text {
        Some(text) => text,
        None => Text::empty(),
    }
}

/// Takes the record of a soft delete: it flags the entries that are there now.
fn take_delete(alloc: Global, standing: &mut Entries, given: &Record) -> Result<(), AllocError>
    ensures { OnOk result ((p : Place) → finmap.get standing.new p ≡ option_map (flagged_by given.now) (finmap.get standing.old p)) }
{
    match decode_value(alloc, given)? {
        Some(Value::DeleteSubject { subject, version }) => {
            flag_up_to(alloc, standing, subject, version)
        }
        Some(
            Value::Schema { .. }
            | Value::Config(_)
            | Value::Mode(_)
            | Value::Noop
            | Value::IdMark(_),
        )
        | None => Ok(()),
    }
}

/// Flags the entries of a subject up to a version.
fn flag_up_to(
    alloc: Global,
    standing: &mut Entries,
    subject: Text,
    greatest: u32,
) -> Result<(), AllocError>
    ensures { OnOk result ((p : Place) → finmap.get standing.new p ≡ option_map (flagged_with (values.DeleteSubject subject greatest)) (finmap.get standing.old p)) }
{
    let flags = flags_up_to(alloc, standing, &subject, greatest)?;
    standing.flag(subject, &flags);
    Ok(())
}

/// Returns the flags of a subject's entries after a soft delete up to a version.
fn flags_up_to(
    alloc: Global,
    standing: &Entries,
    subject: &Text,
    greatest: u32,
) -> Result<Vec<Flag>, AllocError>
    ensures { IfOk result (λ flags. FlagsEach (λ e. e.soft || nat_le e.version greatest) flags.items (of_subject (finmap.values standing.now) subject.now)) }
{
    let found = standing.of_subject(subject.as_str())?;
    flags_of(alloc, &found, greatest)
}

/// Returns the flags of these entries after a soft delete up to a version.
fn flags_of(alloc: Global, entries: &[&Entry], greatest: u32) -> Result<Vec<Flag>, AllocError>
    ensures { IfOk result (λ flags. FlagsEach (λ e. e.soft || nat_le e.version greatest) flags.items (map (λ e. e.now) entries.now)) }
{
    let mut flags = Vec::new(alloc);
    for entry in entries {
        flags.push(Flag {
            version: entry.version,
            soft: entry.soft || entry.version <= greatest,
        })?;
    }
    Ok(flags)
}
