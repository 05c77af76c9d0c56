// The keys of records.
ghost use Rattle.std.specs.Prelude.{◌≡◌, ◌↔◌, ◌++◌, IfOk, IsTrue, codes, option_and_then, option_copied, option_map, string_bytes};
ghost use Rattle.std.specs.Option.{option_map_or};
ghost use Rattle.serde_json.specs.Data.{null, string};
ghost use Rattle.serde_json.specs.Written.{compact_text};
ghost use Rattle.serde_json.specs.View.{view};
ghost use Rattle.reg_records.specs.declared.key.Key.{Key};
ghost use Rattle.reg_records.specs.Json.{text_at};
ghost use Rattle.reg_records.specs.Key.{key_of, key_of_kind, schema_key, scope_in};
ghost use Rattle.reg_records.specs.Written.{written_key, IsInLimits, IsOf32Bits};

use crate::limits::NUMBER_LIMIT;
use crate::members::{number_at, parse, quoted, text_at};
use base_text::Text;
use serde_json::Value as Json;
use std::alloc::{AllocError, Global};

/// The key of a record: what the record is about. Of each key the last record counts.
#[derive(Debug, Drop, Clone, PartialEq, Eq, PartialOrd, Ord)]
pub enum Key {
    /// A version of a subject, from 1 to `NUMBER_LIMIT`; its value is a schema.
    Schema { subject: Text, version: u32 },
    /// The compatibility level of a subject, or the global one.
    Config(Option<Text>),
    /// The mode of a subject, or the global one.
    Mode(Option<Text>),
    /// The soft delete of a subject; its value is the greatest version that it covers.
    DeleteSubject(Text),
    /// No operation.
    Noop,
    /// The id mark; its value is the highest id ever given.
    IdMark,
}

impl Key {
    /// Writes the key as JSON (RFC 8259), without spaces and with its members in a fixed order. The
    /// only error is out of memory.
    pub fn written(&self, alloc: Global) -> Result<Text, AllocError>
        ensures { IfOk result (λ text. text ≡ written_key self.now) }
    {
        match self {
            Key::Schema { subject, version } => schema_key_text(alloc, subject, *version),
            Key::Config(scope) => scope_key_text(alloc, "CONFIG", scope.as_ref()),
            Key::Mode(scope) => scope_key_text(alloc, "MODE", scope.as_ref()),
            Key::DeleteSubject(subject) => scope_key_text(alloc, "DELETE_SUBJECT", Some(subject)),
            Key::Noop => Text::copy_of(alloc, "{\"keytype\":\"NOOP\",\"magic\":0}"),
            Key::IdMark => Text::copy_of(alloc, "{\"keytype\":\"ID_MARK\",\"magic\":0}"),
        }
    }

    /// Returns whether its version, if it has one, is within its limits.
    pub(crate) fn is_in_limits(&self) -> bool
        ensures { IsTrue result ↔ IsInLimits self.now }
    {
        match self {
            Key::Schema { version, .. } => 1 <= *version && *version <= NUMBER_LIMIT,
            Key::Config(_) | Key::Mode(_) | Key::DeleteSubject(_) | Key::Noop | Key::IdMark => true,
        }
    }
}

/// Reads the key in a text; `None` if it is of no known kind.
pub(crate) fn key_of(alloc: Global, text: &str) -> Result<Option<Key>, AllocError>
    ensures { IfOk result (λ key. key ≡ key_of text.now) }
{
    match parse(alloc, text)? {
        Some(json) => key_in(alloc, &json),
        None => Ok(None),
    }
}

fn key_in(alloc: Global, json: &Json) -> Result<Option<Key>, AllocError>
    ensures { IfOk result (λ key. key ≡ option_and_then (λ kind. key_of_kind kind (view json.now)) (text_at (codes "keytype") (view json.now))) }
{
    match text_at(json, "keytype") {
        Some(kind) => key_of_kind(alloc, kind, json),
        None => Ok(None),
    }
}

/// Reads the key of that kind; other members are ignored.
fn key_of_kind(alloc: Global, kind: &str, json: &Json) -> Result<Option<Key>, AllocError>
    ensures { IfOk result (λ key. key ≡ key_of_kind kind.now (view json.now)) }
{
    match kind {
        "SCHEMA" => schema_key(alloc, json),
        "CONFIG" => config_key(alloc, json),
        "MODE" => mode_key(alloc, json),
        "DELETE_SUBJECT" => delete_subject_key(alloc, json),
        "NOOP" => Ok(Some(Key::Noop)),
        "ID_MARK" => Ok(Some(Key::IdMark)),
        _ => Ok(None),
    }
}

fn schema_key(alloc: Global, json: &Json) -> Result<Option<Key>, AllocError>
    ensures { IfOk result (λ key. key ≡ schema_key (view json.now)) }
{
    let Some(subject) = text_at(json, "subject") else {
        return Ok(None);
    };
    let Some(version) = number_at(json, "version") else {
        return Ok(None);
    };
    Ok(Some(Key::Schema {
        subject: Text::copy_of(alloc, subject)?,
        version,
    }))
}

fn config_key(alloc: Global, json: &Json) -> Result<Option<Key>, AllocError>
    ensures { IfOk result (λ key. key ≡ option_map Key.Config (scope_in (view json.now))) }
{
    match scope_in(alloc, json)? {
        Some(scope) => Ok(Some(Key::Config(scope))),
        None => Ok(None),
    }
}

fn mode_key(alloc: Global, json: &Json) -> Result<Option<Key>, AllocError>
    ensures { IfOk result (λ key. key ≡ option_map Key.Mode (scope_in (view json.now))) }
{
    match scope_in(alloc, json)? {
        Some(scope) => Ok(Some(Key::Mode(scope))),
        None => Ok(None),
    }
}

fn delete_subject_key(alloc: Global, json: &Json) -> Result<Option<Key>, AllocError>
    ensures { IfOk result (λ key. key ≡ option_map Key.DeleteSubject (text_at (codes "subject") (view json.now))) }
{
    match text_at(json, "subject") {
        Some(subject) => Ok(Some(Key::DeleteSubject(Text::copy_of(alloc, subject)?))),
        None => Ok(None),
    }
}

/// Reads the subject that a level or a mode is of, `Some(None)` for the global scope; `None` if the
/// member is neither absent, nor null, nor a string.
fn scope_in(alloc: Global, json: &Json) -> Result<Option<Option<Text>>, AllocError>
    ensures { IfOk result (λ scope. scope ≡ scope_in (view json.now)) }
{
    let Some(subject) = json.get("subject") else {
        return Ok(Some(None));
    };
    if subject.is_null() {
        return Ok(Some(None));
    }
    match subject.as_str() {
        Some(text) => Ok(Some(Some(Text::copy_of(alloc, text)?))),
        None => Ok(None),
    }
}

fn schema_key_text(alloc: Global, subject: &Text, version: u32) -> Result<Text, AllocError>
    ensures { IfOk result (λ text. text ≡ written_key (Key.Schema subject.now version)) }
{
    let subject = quoted(alloc, subject.as_str())?;
    let text = format!(in alloc;
        "{{\"keytype\":\"SCHEMA\",\"subject\":{subject},\"version\":{version},\"magic\":1}}"
    )?;
    Text::of_string(text)
}

/// Writes the key of that kind, which has no member of its own beside its subject.
fn scope_key_text(alloc: Global, kind: &str, scope: Option<&Text>) -> Result<Text, AllocError>
    ensures { IfOk result (λ text. text ≡ codes "{\"keytype\":\"" ++ kind.now
        ++ codes "\",\"subject\":" ++ compact_text (option_map_or string (option_copied scope.entry) null) ++ codes ",\"magic\":0}") }
{
    let subject = scope_text(alloc, scope)?;
    let text = format!(in alloc; "{{\"keytype\":\"{kind}\",\"subject\":{subject},\"magic\":0}}")?;
    Text::of_string(text)
}

/// Writes a scope as JSON: its subject, or `null` for the global one.
fn scope_text(alloc: Global, scope: Option<&Text>) -> Result<String, AllocError>
    ensures { IfOk result (λ text. string_bytes text ≡ compact_text (option_map_or string (option_copied scope.entry) null)) }
{
    match scope {
        Some(subject) => quoted(alloc, subject.as_str()),
        None => String::from_str(alloc, "null"),
    }
}

/// Proves that two keys with the same written text are the same key.
pub fn written_keys_are_apart()
    ensures { (a b : Key) → IsOf32Bits a → IsOf32Bits b → written_key a ≡ written_key b → a ≡ b }
{}
