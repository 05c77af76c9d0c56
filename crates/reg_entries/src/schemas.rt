// The schemas of entries, by normal text and then by id.
ghost use Rattle.std.specs.Prelude.{◌≡◌, [], IfOk, OnOk, OnErr, Some, not, ◌&&◌, ◌||◌, cond, false, option_map};
ghost use Rattle.std.specs.BTreeMap.{IsOrdered};
ghost use Rattle.std.specs.BTreeSet.{contains};
ghost use Rattle.std.specs.Ordering.{eq_by_cmp};
ghost use Rattle.reg_entries.specs.EntryOrder.{Place, place_cmp, place_of};
ghost use Rattle.reg_entries.specs.Index.{Name, name_of, name_cmp, entry_at, HasAt, ArePlaced, AreNamed};
ghost use Rattle.reg_entries.specs.Schemas.{Schema, schema_of, schema_cmp, is_held, is_that, AreListed};

use crate::entry::Entry;
use crate::names::{At, Name, place_of, write};
use crate::stored_entry::StoredEntry;
use base_text::Text;
use std::alloc::{AllocError, Global};
use std::collections::{BTreeMap, BTreeSet};

/// A normal text, an id and a place. In their order, the first schema of a text has its least id.
pub(crate) type Schema = (Text, u32, At);

/// The schema of an entry.
pub(crate) fn schema_of(entry: &StoredEntry) -> Result<Schema, AllocError>
    ensures { IfOk result (λ schema. schema ≡ schema_of entry.now) }
{
    let own = entry.own();
    let id = own.id;
    Ok((own.normal.clone()?, id, place_of(entry)?))
}

/// The least schema of a normal text.
pub(crate) fn first_schema(alloc: Global, normal: &str) -> Result<Schema, AllocError>
    ensures { IfOk result (λ schema. schema ≡ (normal.now, 0, ([], 0))) }
{
    Ok((Text::copy_of(alloc, normal)?, 0, (Text::empty(), 0)))
}

/// The schema of the entry at a place, if there is one.
pub(crate) fn schema_at(
    entries: &BTreeMap<At, StoredEntry>,
    place: &At,
) -> Result<Option<Schema>, AllocError>
    ensures { IfOk result (λ schema. schema ≡ option_map schema_of (entry_at entries.now place.now)) }
{
    match entries.get(place) {
        Some(entry) => Ok(Some(schema_of(entry)?)),
        None => Ok(None),
    }
}

/// Returns whether the entry at a schema's place has that schema.
fn has_schema(entries: &BTreeMap<At, StoredEntry>, schema: &Schema) -> bool
    ensures { result ≡ is_held entries.now schema.now }
{
    match entries.get(&schema.2) {
        Some(entry) => {
            let own = entry.own();
            own.id == schema.1 && own.normal == schema.0
        }
        None => false,
    }
}

/// Removes the name and the schema of an entry, and returns the schema.
pub(crate) fn unlist(
    names: &mut BTreeSet<Name>,
    schemas: &mut BTreeSet<Schema>,
    entry: StoredEntry,
) -> Schema
    ensures schema { result ≡ schema_of entry }
    ensures unnamed { (n : Name) → contains name_cmp names.new n ≡ cond (eq_by_cmp name_cmp (name_of entry) n) false (contains name_cmp names.old n) }
    ensures unlisted { (s : Schema) → contains schema_cmp schemas.new s ≡ cond (eq_by_cmp schema_cmp (schema_of entry) s) false (contains schema_cmp schemas.old s) }
{
    let Entry {
        subject,
        version,
        id,
        normal,
        offset,
        ..
    } = entry.into_own();
    let name = (u64::from(id), offset, (subject, version));
    names.remove(&name);
    let (_, _, place) = name;
    let schema = (normal, id, place);
    schemas.remove(&schema);
    schema
}

/// Writes an entry with its name and its schema, which is `new`. It replaces the entry at its
/// place, with its name and its schema, which is `old`.
pub(crate) fn write_all(
    entries: &mut BTreeMap<At, StoredEntry>,
    names: &mut BTreeSet<Name>,
    schemas: &mut BTreeSet<Schema>,
    entry: StoredEntry,
    new: &Schema,
    old: &Option<Schema>,
) -> Result<(), AllocError>
    requires new { new.now ≡ schema_of entry }
    requires old { old.now ≡ option_map schema_of (entry_at entries.old (place_of entry)) }
    requires ordered { IsOrdered place_cmp entries.old }
    requires placed { ArePlaced entries.old }
    requires named { AreNamed entries.old names.old }
    requires listed { AreListed entries.old schemas.old }
    ensures written { OnOk result (HasAt entries.old entries.new (place_of entry) (Some entry)) }
    ensures refused { OnErr result (entries.new.entries ≡ entries.old.entries) }
    ensures still_ordered { IsOrdered place_cmp entries.new }
    ensures still_placed { ArePlaced entries.new }
    ensures still_named { AreNamed entries.new names.new }
    ensures still_listed { AreListed entries.new schemas.new }
{
    schemas.insert(schema_of(&entry)?)?;
    let written = write(entries, names, entry);
    refresh(schemas, entries, new);
    refresh_any(schemas, entries, old);
    written
}

/// Removes a schema unless the entry at its place has it.
fn refresh(schemas: &mut BTreeSet<Schema>, entries: &BTreeMap<At, StoredEntry>, schema: &Schema)
    ensures { (s : Schema) → contains schema_cmp schemas.new s ≡ (contains schema_cmp schemas.old s && (not (eq_by_cmp schema_cmp schema.now s) || is_held entries.now s)) }
{
    if !has_schema(entries, schema) {
        schemas.remove(schema);
    }
}

/// Removes a schema, if there is one, unless the entry at its place has it.
fn refresh_any(
    schemas: &mut BTreeSet<Schema>,
    entries: &BTreeMap<At, StoredEntry>,
    schema: &Option<Schema>,
)
    ensures { (s : Schema) → contains schema_cmp schemas.new s ≡ (contains schema_cmp schemas.old s && (not (is_that schema.now s) || is_held entries.now s)) }
{
    if let Some(schema) = schema {
        refresh(schemas, entries, schema);
    }
}
