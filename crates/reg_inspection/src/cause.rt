// Why a version's record can't be read.
ghost use Rattle.std.specs.Prelude.{◌≡◌, IfOk, option_map};
ghost use Rattle.std.specs.Option.{option_map_or};
ghost use Rattle.serde_json.specs.View.{view};
ghost use Rattle.reg_inspection.specs.Cause.{beyond_avro, beyond_numbers, cause_in, cause_of, schema_cause, type_cause};

use reg_fold::avro_schema::Schema;
use reg_fold::reg_records::{Key, Record, has_number_at, has_text_at, number_at, parse, text_at};
use reg_fold::reg_values::{deleted_in, has_no_items, is_absent, is_avro};
use serde_json::Value as Json;
use std::alloc::{AllocError, Global};
use std::error::Error;
use std::fmt;

/// The cause why a version's record can't be read. If several apply, the first in this order is
/// reported.
#[derive(Clone, Copy, Debug, PartialEq, Eq)]
pub enum OpaqueCause {
    /// Its text isn't a JSON object.
    NotJson,
    /// Its schema is of type `PROTOBUF`.
    Protobuf,
    /// Its schema is of type `JSON`.
    JsonSchema,
    /// Its schema is of another type than Avro and those two.
    OtherType,
    /// Its schema refers to others (`references`).
    References,
    /// It has metadata (`metadata`).
    Metadata,
    /// It has rules (`ruleSet`).
    Rules,
    /// Its subject isn't that of its key.
    Subject,
    /// Its version isn't that of its key.
    Version,
    /// Its id isn't a whole number from 1 to 2,147,483,647.
    Id,
    /// Its mark of deletion (`deleted`) is neither true nor false.
    Deleted,
    /// Its schema is missing, or isn't an Avro schema.
    Schema,
}

impl fmt::Display for OpaqueCause {
    ghost use Rattle.std.specs.Prelude.{Some};
    ghost use Rattle.reg_inspection.specs.Cause.{cause_text};

    ghost output = { λ cause. Some (cause_text cause) };

    fn fmt<W: fmt::Write>(&self, f: &mut fmt::Formatter<W>) -> fmt::Result {
        f.write_str(self.name())
    }
}

impl Error for OpaqueCause {}

impl OpaqueCause {
    ghost use Rattle.std.specs.Prelude.{◌≡◌};
    ghost use Rattle.reg_inspection.specs.Cause.{cause_text};

    /// Returns its text, as reports show it.
    pub fn name(self) -> &'static str
        ensures { result.now ≡ cause_text self }
    {
        match self {
            OpaqueCause::NotJson => "not a JSON object",
            OpaqueCause::Protobuf => "schema type PROTOBUF",
            OpaqueCause::JsonSchema => "schema type JSON",
            OpaqueCause::OtherType => "another schema type",
            OpaqueCause::References => "references",
            OpaqueCause::Metadata => "metadata",
            OpaqueCause::Rules => "rules",
            OpaqueCause::Subject => "not the subject of its key",
            OpaqueCause::Version => "not the version of its key",
            OpaqueCause::Id => "no id from 1 to 2147483647",
            OpaqueCause::Deleted => "a deleted mark that is no boolean",
            OpaqueCause::Schema => "a schema that can't be read",
        }
    }
}

/// Returns why a version's record can't be read; `None` if it can be, and for a record without a
/// value or with another kind of key. The only error is out of memory.
pub fn cause_of(alloc: Global, given: &Record) -> Result<Option<OpaqueCause>, AllocError>
    ensures { IfOk result (λ cause. cause ≡ cause_of given.now) }
{
    let Key::Schema { subject, version } = &given.key else {
        return Ok(None);
    };
    let Some(text) = &given.value else {
        return Ok(None);
    };
    match parse(alloc, text.as_str())? {
        Some(json) => cause_in(alloc, subject.as_str(), *version, &json),
        None => Ok(Some(OpaqueCause::NotJson)),
    }
}

/// Returns what keeps a JSON value from being that version of the subject.
fn cause_in(
    alloc: Global,
    subject: &str,
    version: u32,
    json: &Json,
) -> Result<Option<OpaqueCause>, AllocError>
    ensures { IfOk result (λ cause. cause ≡ cause_in subject.now version (view json.now)) }
{
    if json.as_object().is_none() {
        return Ok(Some(OpaqueCause::NotJson));
    }
    if let Some(cause) = beyond_avro(json) {
        return Ok(Some(cause));
    }
    if let Some(cause) = beyond_numbers(json, subject, version) {
        return Ok(Some(cause));
    }
    schema_cause(alloc, json)
}

/// Returns what a version's value has that isn't read here: another type than Avro, references,
/// metadata or rules.
fn beyond_avro(json: &Json) -> Option<OpaqueCause>
    ensures { result ≡ beyond_avro (view json.now) }
{
    if !is_avro(json.get("schemaType")) {
        return Some(type_cause(text_at(json, "schemaType")));
    }
    if !has_no_items(json.get("references")) {
        return Some(OpaqueCause::References);
    }
    if !is_absent(json.get("metadata")) {
        return Some(OpaqueCause::Metadata);
    }
    if !is_absent(json.get("ruleSet")) {
        return Some(OpaqueCause::Rules);
    }
    None
}

/// Returns the cause for a schema type other than Avro.
fn type_cause(name: Option<&str>) -> OpaqueCause
    ensures { result ≡ option_map_or type_cause (option_map (λ s. s.now) name.entry) OpaqueCause.OtherType }
{
    match name {
        Some("PROTOBUF") => OpaqueCause::Protobuf,
        Some("JSON") => OpaqueCause::JsonSchema,
        _ => OpaqueCause::OtherType,
    }
}

/// Returns the member beside the schema that isn't accepted, if any.
fn beyond_numbers(json: &Json, subject: &str, version: u32) -> Option<OpaqueCause>
    ensures { result ≡ beyond_numbers subject.now version (view json.now) }
{
    if !has_text_at(json, "subject", subject) {
        return Some(OpaqueCause::Subject);
    }
    if !has_number_at(json, "version", version) {
        return Some(OpaqueCause::Version);
    }
    if number_at(json, "id").is_none() {
        return Some(OpaqueCause::Id);
    }
    if deleted_in(json).is_none() {
        return Some(OpaqueCause::Deleted);
    }
    None
}

/// Returns `Schema` if the schema is missing or can't be read.
fn schema_cause(alloc: Global, json: &Json) -> Result<Option<OpaqueCause>, AllocError>
    ensures { IfOk result (λ cause. cause ≡ schema_cause (view json.now)) }
{
    let Some(text) = text_at(json, "schema") else {
        return Ok(Some(OpaqueCause::Schema));
    };
    match Schema::read_if_any(alloc, text)? {
        Some(_) => Ok(None),
        None => Ok(Some(OpaqueCause::Schema)),
    }
}
