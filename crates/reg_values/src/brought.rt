// A value that its text brings along.
ghost use Rattle.std.specs.Prelude.{◌≡◌, IfOk, IfSome, IsTrue, Some, option_map};
ghost use Rattle.reg_records.specs.Written.{IsVersionOrId};
ghost use Rattle.reg_records.specs.declared.key.Key.{Key};
ghost use Rattle.reg_records.specs.declared.value.Value.{Value};
ghost use Rattle.reg_values.specs.Brought.{HasSchema, MayStandUnder};
ghost use Rattle.reg_values.specs.Value.{value_of_text};
ghost use Rattle.reg_values.specs.WithNormal.{with_normal};

use crate::decoding::{Decoded, decode_version, without_normal, written_values_read_back};
use avro_schema::KnownNormal;
use base_text::Text;
use reg_level_names::Level;
use reg_records::{Key, NUMBER_LIMIT, Value, ValueText};
use std::alloc::{AllocError, Global};

/// Decodes a text under that key from the value that it brings along. `None` if it brings no value,
/// one of another key, or a schema's text that isn't a schema. The only error is out of memory.
pub(crate) fn decode_brought(
    alloc: Global,
    key: &Key,
    text: &ValueText,
    known: &Option<KnownNormal<'_>>,
) -> Result<Option<Decoded>, AllocError>
    ensures { IfOk result (λ found. IfSome found (λ decoded.
        Some decoded ≡ option_map with_normal (value_of_text key.now text.now))) }
{
    written_values_read_back();
    match text.value() {
        Some(value) if may_stand_under(key, value) => with_normal(alloc, value, known),
        _ => Ok(None),
    }
}

/// Adds the normal text of its schema to a value; `None` if its text isn't a schema.
fn with_normal(
    alloc: Global,
    value: &Value,
    known: &Option<KnownNormal<'_>>,
) -> Result<Option<Decoded>, AllocError>
    ensures { IfOk result (λ found. IfSome found (λ decoded. (decoded ≡ with_normal value.now) × HasSchema value.now)) }
{
    let Value::Schema {
        subject,
        version,
        id,
        schema,
        deleted,
    } = value
    else {
        return Ok(Some(without_normal(value.clone()?)));
    };
    decode_version(
        alloc,
        subject,
        *version,
        *id,
        schema.clone()?,
        *deleted,
        known,
    )
}

/// Returns whether a value may be written under that key, if its text is a schema.
fn may_stand_under(key: &Key, value: &Value) -> bool
    ensures { IsTrue result → MayStandUnder key.now value.now }
{
    match value {
        Value::Schema {
            subject,
            version,
            id,
            ..
        } => is_of_version(key, subject, *version)
            && is_version_or_id(*version)
            && is_version_or_id(*id),
        Value::Config(level) => matches!(key, Key::Config(_))
            && Level::parse(level.as_str()).is_some(),
        Value::Mode(_) => matches!(key, Key::Mode(_)),
        Value::DeleteSubject { subject, version } => {
            is_delete_of(key, subject) && is_version_or_id(*version)
        }
        Value::Noop => false,
        Value::IdMark(id) => matches!(key, Key::IdMark) && is_version_or_id(*id),
    }
}

fn is_of_version(key: &Key, subject: &Text, version: u32) -> bool
    ensures { IsTrue result → key.now ≡ Key.Schema subject.now version }
{
    match key {
        Key::Schema {
            subject: of,
            version: number,
        } => of == subject && *number == version,
        _ => false,
    }
}

fn is_delete_of(key: &Key, subject: &Text) -> bool
    ensures { IsTrue result → key.now ≡ Key.DeleteSubject subject.now }
{
    match key {
        Key::DeleteSubject(of) => of == subject,
        _ => false,
    }
}

fn is_version_or_id(number: u32) -> bool
    ensures { IsTrue result → IsVersionOrId number }
{
    1 <= number && number <= NUMBER_LIMIT
}
