// Registrations with an id.
ghost use Rattle.std.specs.Prelude.{None, Some};
ghost use Rattle.reg_leader.specs.Deciding.{Follows};
ghost use Rattle.reg_leader.specs.Step.{import_as, import_register, is_there};

use crate::deed::Deed;
use crate::marking::mark_over;
use crate::registering::{next_version, writes};
use crate::reply::Reply;
use reg_rules::avro_schema::{SchemaReading, SchemaText};
use reg_rules::base_text::Text;
use reg_rules::reg_fold::{Entry, Reason, Refusal, Registry, VersionRef};
use reg_rules::reg_modes::{may_register, mode_in_force};
use reg_rules::{
    is_of, live_import, must_be_above_mark, must_be_open, must_have_offset, must_name_no_other,
    read_schema,
};
use std::alloc::Global;

pub(crate) fn import_register(
    alloc: Global,
    registry: &Registry,
    next: u64,
    subject: &Text,
    text: &SchemaText,
    id: u32,
    version: Option<u32>,
) -> Result<Deed, Refusal>
    ensures { Follows (import_register registry.now next subject.now text.now id version) result }
{
    let schema = read_schema(text)?;
    must_be_open(registry)?;
    must_have_offset(next)?;
    may_register(mode_in_force(registry, Some(subject.as_str())), true)?;
    must_name_no_other(registry, id, schema.normal())?;
    must_be_above_mark(registry, id)?;
    match version {
        Some(version) => import_at(alloc, registry, subject, &schema, id, version),
        None => import_next(alloc, registry, subject, &schema, id),
    }
}

/// Imports a schema as this version, in place of a soft-deleted one if there is one.
fn import_at(
    alloc: Global,
    registry: &Registry,
    subject: &Text,
    schema: &SchemaReading,
    id: u32,
    version: u32,
) -> Result<Deed, Refusal>
    ensures { Follows (import_as registry.now subject.now schema.now.normal id (Some version)) result }
{
    let place = VersionRef::Number(version);
    if let Some(entry) = registry.version(subject.as_str(), place, false)? {
        return is_there(alloc, entry, id, schema.normal());
    }
    let soft = registry.version(subject.as_str(), place, true)?;
    let first = mark_over(alloc, registry, id, soft)?;
    writes(first, subject, schema, u64::from(id), u64::from(version))
}

/// Replies with the id if the live entry has it and the schema. Refused with `VersionIsOccupied` if
/// not.
fn is_there(alloc: Global, entry: &Entry, id: u32, normal: &Text) -> Result<Deed, Refusal>
    ensures { Follows (is_there id normal.now entry.now) result }
{
    if !is_of(entry, id, normal.as_str()) {
        return Err(Refusal::NotPermitted(Reason::VersionIsOccupied));
    }
    Ok(Deed {
        reply: Reply::Id(id),
        writings: Vec::new(alloc),
    })
}

/// Imports a schema as the next version, unless it is live with that id.
fn import_next(
    alloc: Global,
    registry: &Registry,
    subject: &Text,
    schema: &SchemaReading,
    id: u32,
) -> Result<Deed, Refusal>
    ensures { Follows (import_as registry.now subject.now schema.now.normal id None) result }
{
    if live_import(registry, subject.as_str(), id, schema.normal().as_str())?.is_some() {
        return Ok(Deed {
            reply: Reply::Id(id),
            writings: Vec::new(alloc),
        });
    }
    let version = next_version(registry, subject);
    writes(Vec::new(alloc), subject, schema, u64::from(id), version)
}
