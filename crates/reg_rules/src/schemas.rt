// What is asked of a schema that is to be registered.
ghost use Rattle.std.specs.Prelude.{◌≡◌, IfOk, map, option_copied, bytes_eq};
ghost use Rattle.std.specs.List.{filter};
ghost use Rattle.reg_modes.specs.reg_fold.Standing.{live};
ghost use Rattle.reg_rules.specs.Better.{better};
ghost use Rattle.reg_rules.specs.Finding.{IsRead};
ghost use Rattle.reg_rules.specs.Standing.{is_of};
ghost use Rattle.reg_modes.specs.reg_entries.Sought.{has_schema, newest};
ghost use Rattle.reg_rules.specs.Tests as test;

use reg_modes::avro_schema::{SchemaReading, SchemaText};
use reg_modes::reg_fold::{Entry, Refusal, Registry};
use std::alloc::AllocError;

/// Reads the schema of a text. Refused with `InvalidSchema` if the text isn't a schema; else the
/// only refusal is of memory.
pub fn read_schema(text: &SchemaText) -> Result<SchemaReading, Refusal>
    ensures { IsRead text.now result }
{
    let found = text.reading()?;
    match found {
        Some(reading) => Ok(reading),
        None => Err(Refusal::InvalidSchema),
    }
}

/// Tests the defaults of a schema. Refused with `InvalidSchema` if one of them isn't valid. Takes
/// no memory.
pub fn must_have_valid_defaults(schema: &SchemaReading) -> Result<(), Refusal>
    ensures { result ≡ test.refuse_unless schema.now.has_valid_defaults Refusal.InvalidSchema }
{
    if !schema.has_valid_defaults() {
        return Err(Refusal::InvalidSchema);
    }
    Ok(())
}

/// Finds the latest live version of a subject that has the schema with this normal text. The
/// subject's versions are only listed if a version of some subject has that schema. The only error
/// is out of memory.
pub fn live_schema<'a>(
    registry: &'a Registry,
    subject: &str,
    normal: &str,
) -> Result<Option<&'a Entry>, AllocError>
    ensures { IfOk result (λ found. option_copied found ≡ newest (filter (has_schema normal.now) (live registry.now subject.now))) }
{
    let known = registry.id_of(normal)?;
    if known.is_none() {
        return Ok(None);
    }
    let live = registry.live(subject)?;
    Ok(newest_schema(&live, normal))
}

/// Finds the latest live version of a subject that has this id and the schema with this normal
/// text. The subject's versions are only listed if a version of some subject has that schema. The
/// only error is out of memory.
pub fn live_import<'a>(
    registry: &'a Registry,
    subject: &str,
    id: u32,
    normal: &str,
) -> Result<Option<&'a Entry>, AllocError>
    ensures { IfOk result (λ found. option_copied found ≡ newest (filter (is_of id normal.now) (live registry.now subject.now))) }
{
    let known = registry.id_of(normal)?;
    if known.is_none() {
        return Ok(None);
    }
    let live = registry.live(subject)?;
    Ok(newest_import(&live, id, normal))
}

/// Returns the entry of greatest version that has the schema.
fn newest_schema<'a>(entries: &[&'a Entry], normal: &str) -> Option<&'a Entry>
    ensures { option_copied result ≡ newest (filter (has_schema normal.now) (map (λ e. e.now) entries.now)) }
{
    let mut best = None;
    for entry in entries {
        best = better(best, *entry, has_schema(*entry, normal));
    }
    best
}

/// Returns the entry of greatest version that has the id and the schema.
fn newest_import<'a>(entries: &[&'a Entry], id: u32, normal: &str) -> Option<&'a Entry>
    ensures { option_copied result ≡ newest (filter (is_of id normal.now) (map (λ e. e.now) entries.now)) }
{
    let mut best = None;
    for entry in entries {
        best = better(best, *entry, is_of(*entry, id, normal));
    }
    best
}

/// Returns the one of greater version of the best so far and this entry, if it counts.
fn better<'a>(best: Option<&'a Entry>, entry: &'a Entry, counts: bool) -> Option<&'a Entry>
    ensures { option_copied result ≡ better counts entry.now (option_copied best.entry) }
{
    match best {
        Some(found) if !counts || entry.version < found.version => best,
        None if !counts => None,
        _ => Some(entry),
    }
}

/// Returns whether an entry has the schema with this normal text.
pub(crate) fn has_schema(entry: &Entry, normal: &str) -> bool
    ensures { result ≡ has_schema normal.now entry.now }
{
    entry.normal.as_str() == normal
}

/// Returns whether an entry has this id and the schema with this normal text.
pub fn is_of(entry: &Entry, id: u32, normal: &str) -> bool
    ensures { result ≡ is_of id normal.now entry.now }
{
    entry.id == id && has_schema(entry, normal)
}
