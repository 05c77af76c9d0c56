// Registrations without an id.
ghost use Rattle.std.specs.Prelude.{◌≡◌, IfOk};
ghost use Rattle.reg_leader.specs.Deciding.{Follows};
ghost use Rattle.reg_rules.specs.Standing.{id_for, next_version};
ghost use Rattle.reg_leader.specs.Step.{register, writes};
ghost use Rattle.reg_leader.specs.Leading.{IsBefore, LeadsTo, Leaves, before_of, if_met};

use crate::deed::{Candidate, Deed};
use crate::reply::Reply;
use reg_rules::avro_schema::{SchemaReading, SchemaText};
use reg_rules::base_text::Text;
use reg_rules::reg_fold::{Refusal, Registry};
use reg_rules::reg_levels::Judged;
use reg_rules::reg_modes::{may_register, mode_in_force};
use reg_rules::{
    Writing, clash_of, live_schema, must_be_number, must_be_open, must_have_offset,
    must_have_valid_defaults, read_schema,
};
use std::alloc::{AllocError, Global};

pub(crate) fn register(
    alloc: Global,
    registry: &Registry,
    next: u64,
    subject: &Text,
    text: &SchemaText,
    judged: Option<&Judged>,
) -> Result<Deed, Refusal>
    ensures { LeadsTo (register registry.now next subject.now text.now) result }
{
    match candidate(registry, next, subject, text)? {
        Candidate::Live(id) => Ok(Deed {
            reply: Reply::Id(id),
            writings: Vec::new(alloc),
        }),
        Candidate::New(schema) => register_new(alloc, registry, subject, &schema, judged),
    }
}

/// Runs the tests before the check of the level, and finds the id of a schema that is already live.
fn candidate(
    registry: &Registry,
    next: u64,
    subject: &Text,
    text: &SchemaText,
) -> Result<Candidate, Refusal>
    ensures { IsBefore registry.now next subject.now text.now result }
{
    let schema = read_schema(text)?;
    candidate_of(registry, next, subject, schema)
}

/// Does what `candidate` does, for a schema that was read.
fn candidate_of(
    registry: &Registry,
    next: u64,
    subject: &Text,
    schema: SchemaReading,
) -> Result<Candidate, Refusal>
    ensures { Leaves (before_of registry.now next subject.now schema) result }
{
    must_have_valid_defaults(&schema)?;
    must_be_open(registry)?;
    must_have_offset(next)?;
    may_register(mode_in_force(registry, Some(subject.as_str())), false)?;
    match live_schema(registry, subject.as_str(), schema.normal().as_str())? {
        Some(same) => Ok(Candidate::Live(same.id)),
        None => Ok(Candidate::New(schema)),
    }
}

/// Registers a schema that isn't live. Refused with `Incompatible` if it doesn't meet the level in
/// force.
fn register_new(
    alloc: Global,
    registry: &Registry,
    subject: &Text,
    schema: &SchemaReading,
    judged: Option<&Judged>,
) -> Result<Deed, Refusal>
    ensures { LeadsTo (if_met registry.now subject.now schema.now.normal) result }
{
    if let Some(message) = clash_of(alloc, registry, subject, schema, judged)? {
        let told = message.as_str();
        let whole = format!(in alloc; "Incompatible with {told}")?;
        return Err(Refusal::Incompatible(Text::of_string(whole)?));
    }
    let id = id_for(registry, schema.normal())?;
    let version = next_version(registry, subject);
    writes(Vec::new(alloc), subject, schema, id, version)
}

/// Returns the id for a schema: the least id of an entry that has it, else one more than the
/// greatest id that is marked or that an entry has, or 1. The only error is out of memory.
fn id_for(registry: &Registry, normal: &Text) -> Result<u64, AllocError>
    ensures { IfOk result (λ id. id ≡ id_for registry.now normal.now) }
{
    match registry.id_of(normal.as_str())? {
        Some(id) => Ok(u64::from(id)),
        None => Ok(u64::from(registry.last_id()) + 1),
    }
}

/// Returns one more than the subject's greatest version, soft-deleted ones included, or 1.
pub(crate) fn next_version(registry: &Registry, subject: &Text) -> u64
    ensures { result ≡ next_version registry.now subject.now }
{
    match registry.greatest_version(subject.as_str()) {
        Some(version) => u64::from(version) + 1,
        None => 1,
    }
}

/// Writes a schema as this version with this id, after the records in `first`.
pub(crate) fn writes(
    first: Vec<Writing>,
    subject: &Text,
    schema: &SchemaReading,
    id: u64,
    version: u64,
) -> Result<Deed, Refusal>
    ensures { Follows (writes first.items subject.now schema.now.normal id version) result }
{
    let id = must_be_number(id)?;
    let version = must_be_number(version)?;
    let mut writings = first;
    writings.push(Writing::version_of(subject, version, id, schema.normal().clone()?)?)?;
    Ok(Deed {
        reply: Reply::Id(id),
        writings,
    })
}
