// What the values of records mean.
ghost use Rattle.std.specs.Prelude.{◌≡◌, ◌≤◌, ◌&&◌, ℕ, true, false, IsTrue, IfOk, IfSome, Some, None, codes, option_map};
ghost use Rattle.std.specs.Option.{option_map_or};
ghost use Rattle.serde_json.specs.View.{view};
ghost use Rattle.avro_schema.specs.Reading.{normal_of};
ghost use Rattle.reg_level_names.specs.Level.{is_level};
ghost use Rattle.reg_records.specs.Json.{is_null, text_at, text_where, has_text_at, has_number_at};
ghost use Rattle.reg_records.specs.Written.{HasLine, IsInLimits};
ghost use Rattle.reg_records.specs.WrittenValue.{written_value};
ghost use Rattle.reg_records.specs.declared.key.Key.{Key};
ghost use Rattle.reg_records.specs.declared.value.Value.{Value};
ghost use Rattle.reg_values.specs.OfKey.{IsValueOf, ValuesAreOfKeys};
ghost use Rattle.reg_values.specs.Value.{value_of, value_of_text, is_noop, normal_in, value_in, is_plain_avro, is_absent_or, is_avro_name, is_empty_list, deleted_in};
ghost use Rattle.reg_values.specs.WithNormal.{with_normal};

use crate::brought::decode_brought;
use avro_schema::{KnownNormal, Schema};
use base_text::Text;
use reg_level_names::Level;
use reg_records::{
    Key, OFFSET_LIMIT, Record, Value, ValueText, compact_texts_read_back, has_number_at,
    has_text_at, number_at, parse, text_at, values_have_lines,
};
use serde_json::Value as Json;
use std::alloc::{AllocError, Global};

/// A decoded value and, for a version, the normal text of its schema.
#[derive(Drop)]
pub struct Decoded {
    pub value: Value,
    pub normal: Option<Text>,
}

impl Decoded {
    fn into_value(self) -> Value
        ensures { result ≡ self.value }
    {
        self.value
    }
}

/// Decodes the value of a record; `None` if the record has no text, or one that isn't a value of
/// its key. The only error is out of memory.
pub fn decode_value(alloc: Global, given: &Record) -> Result<Option<Value>, AllocError>
    ensures { IfOk result (λ value. value ≡ value_of given.now) }
{
    Ok(decode(alloc, given, None)?.map(Decoded::into_value))
}

/// Decodes the value like [`decode_value`], with the normal text of a version's schema. If `known`
/// has the normal text of the schema's text, the schema isn't parsed.
pub fn decode(
    alloc: Global,
    given: &Record,
    known: Option<KnownNormal<'_>>,
) -> Result<Option<Decoded>, AllocError>
    ensures value { IfOk result (λ found. option_map (λ d. d.value) found ≡ value_of given.now) }
    ensures normal { IfOk result (λ found. IfSome found (λ d. d.normal ≡ normal_in d.value)) }
{
    match &given.value {
        Some(text) => decode_text(alloc, &given.key, text, known),
        None => Ok(None),
    }
}

/// Decodes a text under that key; any text is a value of a NOOP.
fn decode_text(
    alloc: Global,
    key: &Key,
    text: &ValueText,
    known: Option<KnownNormal<'_>>,
) -> Result<Option<Decoded>, AllocError>
    ensures { IfOk result (λ found. found ≡ option_map with_normal (value_of_text key.now text.now)) }
{
    if is_noop(key) {
        return Ok(Some(without_normal(Value::Noop)));
    }
    if let Some(decoded) = decode_brought(alloc, key, text, &known)? {
        return Ok(Some(decoded));
    }
    read_text(alloc, key, text, &known)
}

/// Decodes a text under that key by parsing it.
fn read_text(
    alloc: Global,
    key: &Key,
    text: &ValueText,
    known: &Option<KnownNormal<'_>>,
) -> Result<Option<Decoded>, AllocError>
    requires { is_noop key.now ≡ false }
    ensures { IfOk result (λ found. found ≡ option_map with_normal (value_of_text key.now text.now)) }
{
    match parse(alloc, text.as_str())? {
        Some(json) => decode_in(alloc, key, text, &json, known),
        None => Ok(None),
    }
}

fn is_noop(key: &Key) -> bool
    ensures { result ≡ is_noop key.now }
{
    matches!(key, Key::Noop)
}

fn decode_in(
    alloc: Global,
    key: &Key,
    text: &ValueText,
    json: &Json,
    known: &Option<KnownNormal<'_>>,
) -> Result<Option<Decoded>, AllocError>
    ensures { IfOk result (λ found. found ≡ option_map with_normal (value_in key.now (view json.now))) }
{
    match key {
        Key::Schema { subject, version } => {
            decode_schema(alloc, subject, *version, text, json, known)
        }
        Key::Config(_) => decode_config(alloc, json),
        Key::Mode(_) => decode_mode(alloc, json),
        Key::DeleteSubject(subject) => decode_delete_subject(subject, json),
        Key::Noop => Ok(Some(without_normal(Value::Noop))),
        Key::IdMark => Ok(decode_id_mark(json)),
    }
}

fn decode_schema(
    alloc: Global,
    subject: &Text,
    version: u32,
    given: &ValueText,
    json: &Json,
    known: &Option<KnownNormal<'_>>,
) -> Result<Option<Decoded>, AllocError>
    ensures { IfOk result (λ found. found ≡ option_map with_normal (value_in (Key.Schema subject.now version) (view json.now))) }
{
    if !is_about_version(json, subject, version) || !is_plain_avro(json) {
        return Ok(None);
    }
    let Some(id) = number_at(json, "id") else {
        return Ok(None);
    };
    let Some(schema) = text_at(json, "schema") else {
        return Ok(None);
    };
    let Some(deleted) = deleted_in(json) else {
        return Ok(None);
    };
    let text = given.share(alloc, schema)?;
    decode_version(alloc, subject, version, id, text, deleted, known)
}

/// Returns whether the members name that version of the subject.
fn is_about_version(json: &Json, subject: &Text, version: u32) -> bool
    ensures { result ≡ (has_text_at (codes "subject") subject.now (view json.now) && has_number_at (codes "version") version (view json.now)) }
{
    has_text_at(json, "subject", subject.as_str()) && has_number_at(json, "version", version)
}

/// Decodes a version's value, with its schema's normal text; `None` if the text isn't a schema.
pub(crate) fn decode_version(
    alloc: Global,
    subject: &Text,
    version: u32,
    id: u32,
    text: Text,
    deleted: bool,
    known: &Option<KnownNormal<'_>>,
) -> Result<Option<Decoded>, AllocError>
    ensures { IfOk result (λ found. found ≡ option_map (λ normal. record { value = Value.Schema subject.now version id text deleted; normal = Some normal }) (normal_of text)) }
{
    let Some(normal) = normal_of(alloc, &text, known)? else {
        return Ok(None);
    };
    let value = Value::Schema {
        subject: subject.clone()?,
        version,
        id,
        schema: text,
        deleted,
    };
    Ok(Some(Decoded {
        value,
        normal: Some(normal),
    }))
}

/// Returns the normal text of the schema in a text, which is the text itself if the two are equal;
/// `None` if the text isn't a schema.
///
/// It is a copy, made after parsing has freed its memory: the original lies amid that memory, and
/// would keep the memory around it from being reused.
fn normal_of(
    alloc: Global,
    text: &Text,
    known: &Option<KnownNormal<'_>>,
) -> Result<Option<Text>, AllocError>
    ensures { IfOk result (λ normal. normal ≡ normal_of text.now) }
{
    if let Some(normal) = known_normal(known, text) {
        return Ok(Some(normal.clone()?));
    }
    match Schema::read_if_any(alloc, text.as_str())? {
        Some(schema) if schema.normal() == text => Ok(Some(text.clone()?)),
        Some(schema) => Ok(Some(Text::copy_of(alloc, schema.normal().as_str())?)),
        None => Ok(None),
    }
}

/// Returns the normal text of that text, if it is known.
fn known_normal<'a>(known: &Option<KnownNormal<'a>>, text: &Text) -> Option<&'a Text>
    ensures { IfSome result (λ normal. normal_of text.now ≡ Some normal.now) }
{
    known.as_ref()?.of(text)
}

fn decode_config(alloc: Global, json: &Json) -> Result<Option<Decoded>, AllocError>
    ensures { IfOk result (λ found. found ≡ option_map with_normal (option_map Value.Config (text_where is_level (codes "compatibilityLevel") (view json.now)))) }
{
    match level_at(json) {
        Some(level) => Ok(Some(without_normal(Value::Config(Text::copy_of(alloc, level)?)))),
        None => Ok(None),
    }
}

/// Returns the name of a level, in any case of its letters.
fn level_at(json: &Json) -> Option<&str>
    ensures { option_map (λ text. text.now) result ≡ text_where is_level (codes "compatibilityLevel") (view json.now) }
{
    let text = text_at(json, "compatibilityLevel")?;
    if Level::parse(text).is_some() {
        Some(text)
    } else {
        None
    }
}

fn decode_mode(alloc: Global, json: &Json) -> Result<Option<Decoded>, AllocError>
    ensures { IfOk result (λ found. found ≡ option_map with_normal (option_map Value.Mode (text_at (codes "mode") (view json.now)))) }
{
    match text_at(json, "mode") {
        Some(mode) => Ok(Some(without_normal(Value::Mode(Text::copy_of(alloc, mode)?)))),
        None => Ok(None),
    }
}

fn decode_delete_subject(subject: &Text, json: &Json) -> Result<Option<Decoded>, AllocError>
    ensures { IfOk result (λ found. found ≡ option_map with_normal (value_in (Key.DeleteSubject subject.now) (view json.now))) }
{
    if !has_text_at(json, "subject", subject.as_str()) {
        return Ok(None);
    }
    match number_at(json, "version") {
        Some(version) => Ok(Some(without_normal(Value::DeleteSubject {
            subject: subject.clone()?,
            version,
        }))),
        None => Ok(None),
    }
}

fn decode_id_mark(json: &Json) -> Option<Decoded>
    ensures { result ≡ option_map with_normal (value_in Key.IdMark (view json.now)) }
{
    match number_at(json, "id") {
        Some(id) => Some(without_normal(Value::IdMark(id))),
        None => None,
    }
}

/// Wraps a value that isn't a version's.
pub(crate) fn without_normal(value: Value) -> Decoded
    requires { normal_in value ≡ None }
    ensures { result ≡ with_normal value }
{
    Decoded {
        value,
        normal: None,
    }
}

/// Returns whether the members beside a schema's text leave it a self-contained Avro schema: no
/// other type, no references, no metadata, no rules.
pub fn is_plain_avro(json: &Json) -> bool
    ensures { result ≡ is_plain_avro (view json.now) }
{
    is_avro(json.get("schemaType"))
        && has_no_items(json.get("references"))
        && is_absent(json.get("metadata"))
        && is_absent(json.get("ruleSet"))
}

/// Returns whether a member is missing or null.
pub fn is_absent(member: Option<&Json>) -> bool
    ensures { result ≡ option_map_or is_null (option_map (λ json. view json.now) member.entry) true }
{
    match member {
        Some(json) => json.is_null(),
        None => true,
    }
}

/// Returns whether a `schemaType` names Avro: it is missing, null or `AVRO`.
pub fn is_avro(member: Option<&Json>) -> bool
    ensures { result ≡ is_absent_or is_avro_name (option_map (λ json. view json.now) member.entry) }
{
    match member {
        Some(json) => json.is_null() || json.as_str() == Some("AVRO"),
        None => true,
    }
}

/// Returns whether a member is missing, null or the empty list.
pub fn has_no_items(member: Option<&Json>) -> bool
    ensures { result ≡ is_absent_or is_empty_list (option_map (λ json. view json.now) member.entry) }
{
    match member {
        Some(json) => json.is_null() || is_empty_list(json),
        None => true,
    }
}

/// Returns whether a value is the empty list.
pub fn is_empty_list(json: &Json) -> bool
    ensures { result ≡ is_empty_list (view json.now) }
{
    match json.as_array() {
        Some(items) => items.is_empty(),
        None => false,
    }
}

/// Returns the member `deleted` of a value, false if it is missing or null; `None` if it isn't a
/// boolean.
pub fn deleted_in(json: &Json) -> Option<bool>
    ensures { result ≡ deleted_in (view json.now) }
{
    match json.get("deleted") {
        Some(mark) if !mark.is_null() => mark.as_bool(),
        _ => Some(false),
    }
}

/// Proves that a written value is read back under its key.
pub fn written_values_read_back()
    ensures { (offset : ℕ) (k : Key) (v : Value) → IsValueOf k v
        → value_of (record { offset = offset; key = k; value = written_value v }) ≡ Some v }
{
    compact_texts_read_back();
}

/// Proves that what is read under a key is a value of that key, with its numbers within their
/// limits: it may be written there again, except that a NOOP has no text.
pub fn values_are_of_keys()
    ensures { ValuesAreOfKeys }
{}

/// Proves that a record whose value was written for its key has a line.
pub fn written_values_have_lines()
    ensures { (offset : ℕ) (k : Key) (v : Value) → offset ≤ OFFSET_LIMIT → IsInLimits k → IsValueOf k v
        → HasLine (record { offset = offset; key = k; value = written_value v }) }
{
    values_have_lines();
}
