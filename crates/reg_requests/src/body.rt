// What the JSON object in a body says.
ghost use Rattle.std.specs.Prelude.{◌≡◌, IfOk, option_map};
ghost use Rattle.serde_json.specs.View.{view};
ghost use Rattle.reg_requests.specs.Body.{body_of, schema_in, registration_in, registration_of, level_in, mode_in, id_in, version_in, is_left_out, is_minus_one_number, is_no_version};
ghost use Rattle.reg_requests.specs.Seen.{seen_text};

use reg_leader::Command;
use reg_leader::avro_schema::SchemaText;
use reg_leader::base_text::Text;
use reg_leader::reg_level_names::Level;
use reg_leader::reg_modes::Mode;
use reg_leader::reg_records::{number_at, text_at};
use reg_leader::reg_refusals::{Reason, Refusal};
use reg_leader::reg_values::is_plain_avro;
use serde_json::Value;
use std::alloc::{AllocError, Global};

/// What was read, or why it is refused. The only error is out of memory.
pub(crate) type Found<T> = Result<Result<T, Refusal>, AllocError>;

/// Returns the JSON object that a body is; `None` if it isn't one. The only error is out of memory.
#[tactic(auto, unfolding(crate::specs::Body::body_of))]
pub(crate) fn object_in(alloc: Global, body: &[u8]) -> Result<Option<Value>, AllocError>
    ensures { IfOk result (λ found. option_map view found ≡ body_of body.now) }
{
    let Ok(text) = std::str::from_utf8(body) else {
        return Ok(None);
    };
    match Value::from_str(alloc, text) {
        Ok(json) => {
            if json.is_object() {
                Ok(Some(json))
            } else {
                Ok(None)
            }
        }
        Err(e) => {
            if e.is_memory() {
                return Err(AllocError);
            }
            Ok(None)
        }
    }
}

/// Returns the command of a registration, or the refusal of its first fault.
pub(crate) fn registration_in(alloc: Global, subject: &str, json: &Value) -> Found<Command>
    ensures { IfOk result (λ command. command ≡ registration_in subject.now (view json.now)) }
{
    let text = match schema_in(json) {
        Ok(text) => text,
        Err(refusal) => return Ok(Err(refusal)),
    };
    let id = match id_in(json) {
        Ok(id) => id,
        Err(refusal) => return Ok(Err(refusal)),
    };
    match version_in(json) {
        Ok(version) => registration_of(alloc, subject, text, id, version),
        Err(refusal) => Ok(Err(refusal)),
    }
}

/// Makes the command of a registration. Refused if there is a version but no id.
fn registration_of(
    alloc: Global,
    subject: &str,
    text: &str,
    id: Option<u32>,
    version: Option<u32>,
) -> Found<Command>
    ensures { IfOk result (λ command. command ≡ registration_of subject.now text.now id version) }
{
    let command = match (id, version) {
        (Some(id), version) => Command::ImportRegister {
            subject: Text::copy_of(alloc, subject)?,
            text: SchemaText::new(alloc, Text::copy_of(alloc, text)?),
            id,
            version,
        },
        (None, None) => Command::Register {
            subject: Text::copy_of(alloc, subject)?,
            text: SchemaText::new(alloc, Text::copy_of(alloc, text)?),
        },
        (None, Some(_)) => {
            return Ok(Err(Refusal::NotPermitted(Reason::VersionNeedsImport)));
        }
    };
    Ok(Ok(command))
}

/// Returns the text of the schema. Refused with `InvalidSchema` if there is none, or it isn't plain
/// Avro.
pub(crate) fn schema_in(json: &Value) -> Result<&str, Refusal>
    ensures { seen_text result ≡ schema_in (view json.now) }
{
    if !is_plain_avro(json) {
        return Err(Refusal::InvalidSchema);
    }
    match text_at(json, "schema") {
        Some(text) => Ok(text),
        None => Err(Refusal::InvalidSchema),
    }
}

/// Returns the id that a registration asks for; `None` if the member is missing, `null` or -1.
fn id_in(json: &Value) -> Result<Option<u32>, Refusal>
    ensures { result ≡ id_in (view json.now) }
{
    if is_without_id(json.get("id")) {
        return Ok(None);
    }
    match number_at(json, "id") {
        Some(id) => Ok(Some(id)),
        None => Err(Refusal::NotPermitted(Reason::InvalidId)),
    }
}

fn is_without_id(member: Option<&Value>) -> bool
    ensures { result ≡ is_left_out is_minus_one_number (option_map (λ json. view json.now) member.entry) }
{
    match member {
        Some(json) => json.is_null() || json.as_i64() == Some(-1),
        None => true,
    }
}

/// Returns the version that a registration asks for; `None` if the member is missing, `null`, -1 or
/// 0.
fn version_in(json: &Value) -> Result<Option<u32>, Refusal>
    ensures { result ≡ version_in (view json.now) }
{
    if is_without_version(json.get("version")) {
        return Ok(None);
    }
    match number_at(json, "version") {
        Some(version) => Ok(Some(version)),
        None => Err(Refusal::InvalidVersion),
    }
}

fn is_without_version(member: Option<&Value>) -> bool
    ensures { result ≡ is_left_out is_no_version (option_map (λ json. view json.now) member.entry) }
{
    match member {
        Some(json) => json.is_null() || json.as_i64() == Some(-1) || json.as_u64() == Some(0),
        None => true,
    }
}

/// Returns the level that a body names. Refused with `InvalidLevel` if there is none.
pub(crate) fn level_in(json: &Value) -> Result<Level, Refusal>
    ensures { result ≡ level_in (view json.now) }
{
    match text_at(json, "compatibility") {
        Some(name) => match Level::parse(name) {
            Some(level) => Ok(level),
            None => Err(Refusal::InvalidLevel),
        },
        None => Err(Refusal::InvalidLevel),
    }
}

/// Returns the mode that a body names. Refused with `InvalidMode` if there is none.
pub(crate) fn mode_in(json: &Value) -> Result<Mode, Refusal>
    ensures { result ≡ mode_in (view json.now) }
{
    match text_at(json, "mode") {
        Some(name) => match Mode::parse(name) {
            Some(mode) => Ok(mode),
            None => Err(Refusal::InvalidMode),
        },
        None => Err(Refusal::InvalidMode),
    }
}
