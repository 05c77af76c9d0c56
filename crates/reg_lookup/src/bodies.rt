// The bodies of answers: JSON without spaces (RFC 8259), members in the order of the formats.
ghost use Rattle.std.specs.Prelude.{◌≡◌, ◌++◌, [], IfOk, map, option_map, string_bytes};
ghost use Rattle.json.specs.Print.{escape, print};
ghost use Rattle.serde_json.specs.Data.{string};
ghost use Rattle.reg_levels.specs.Message.{text_of};
ghost use Rattle.reg_lookup.specs.Bodies as spec;

use crate::in_string::InString;
use json::Writer;
use reg_levels::ClashMessage;
use reg_modes::base_text::Text;
use reg_modes::reg_fold::{Entry, Refusal};
use reg_modes::reg_records::quoted;
use std::alloc::{AllocError, Global};
use std::fmt::Write;

/// Room for an entry's subject, version and id as they mostly are, in bytes.
const SHORT_MEMBERS: usize = 192;

/// Makes the list of the entries' versions.
pub(crate) fn versions_body(alloc: Global, entries: &[&Entry]) -> Result<Text, AllocError>
    ensures { IfOk result (λ body. body
        ≡ spec.list_body (λ e. spec.number_data e.version) (map (λ e. e.now) entries.now)) }
{
    let mut body = Writer::new(Vec::new(alloc));
    body.begin_array()?;
    for entry in entries {
        body.u64(u64::from(entry.version))?;
    }
    body.end_array()?;
    ended(body)
}

/// Makes the list of the entries' subjects and versions.
pub(crate) fn places_body(alloc: Global, entries: &[&Entry]) -> Result<Text, AllocError>
    ensures { IfOk result (λ body. body ≡ spec.list_body spec.place_data (map (λ e. e.now) entries.now)) }
{
    let mut body = Writer::new(Vec::new(alloc));
    body.begin_array()?;
    for entry in entries {
        body.begin_object()?;
        body.key("subject")?;
        body.string(entry.subject.as_str())?;
        body.key("version")?;
        body.u64(u64::from(entry.version))?;
        body.end_object()?;
    }
    body.end_array()?;
    ended(body)
}

/// Makes the list of the subjects.
pub(crate) fn subjects_body(alloc: Global, subjects: &[&str]) -> Result<Text, AllocError>
    ensures { IfOk result (λ body. body ≡ spec.list_body string (map (λ s. s.now) subjects.now)) }
{
    let mut body = Writer::new(Vec::new(alloc));
    body.begin_array()?;
    for subject in subjects {
        body.string(subject)?;
    }
    body.end_array()?;
    ended(body)
}

/// Makes the body of an entry, with the text that its record holds.
pub(crate) fn entry_body(alloc: Global, entry: &Entry) -> Result<Text, AllocError>
    ensures { IfOk result (λ body. body ≡ spec.entry_body entry.now) }
{
    let mut body = body_for(alloc, entry.text.as_str())?;
    body.begin_object()?;
    body.key("subject")?;
    body.string(entry.subject.as_str())?;
    body.key("version")?;
    body.u64(u64::from(entry.version))?;
    body.key("id")?;
    body.u64(u64::from(entry.id))?;
    body.key("schema")?;
    body.string(entry.text.as_str())?;
    body.end_object()?;
    ended(body)
}

/// Makes the body with the text of a schema.
pub(crate) fn schema_body(alloc: Global, text: &str) -> Result<Text, AllocError>
    ensures { IfOk result (λ body. body ≡ spec.schema_body text.now) }
{
    let mut body = body_for(alloc, text)?;
    body.begin_object()?;
    body.key("schema")?;
    body.string(text)?;
    body.end_object()?;
    ended(body)
}

/// Begins a body that has room for this text, its quotes and backslashes escaped, and for short
/// members beside it. So most bodies take one allocation.
fn body_for(alloc: Global, text: &str) -> Result<Writer, AllocError>
    ensures before { IfOk result (λ body. body.before ≡ []) }
    ensures tokens { IfOk result (λ body. body.tokens ≡ []) }
{
    let room = text
        .len()
        .saturating_add(text.len() / 3)
        .saturating_add(SHORT_MEMBERS);
    Ok(Writer::new(Vec::with_capacity(alloc, room)?))
}

/// Ends a body. The only error is out of memory.
fn ended(body: Writer) -> Result<Text, AllocError>
    requires { body.before ≡ [] }
    ensures { IfOk result (λ text. text ≡ print body.tokens) }
{
    match String::from_utf8(body.into_inner()) {
        Ok(text) => Text::of_string(text),
        Err(_) => unreachable!(),
    }
}

/// Makes the body of a refusal: its code and message.
pub(crate) fn refusal_body(alloc: Global, refusal: &Refusal) -> Result<Text, AllocError>
    ensures { IfOk result (λ body. body ≡ spec.refusal_body refusal.now) }
{
    let code = refusal.code();
    let message = quoted(alloc, refusal.message())?;
    Text::of_string(format!(in alloc; "{{\"error_code\":{code},\"message\":{message}}}")?)
}

/// Makes the body that says whether a level is met; with `verbose` also the message of the clash,
/// if there is one. The message may be long, so it is written in place, once.
pub(crate) fn check_body(
    alloc: Global,
    verbose: bool,
    ok: bool,
    clash: Option<ClashMessage<'_>>,
) -> Result<Text, AllocError>
    ensures { IfOk result (λ body. body ≡ spec.check_body verbose ok (option_map text_of clash.entry)) }
{
    if !verbose {
        return Text::of_string(format!(in alloc; "{{\"is_compatible\":{ok}}}")?);
    }
    let Some(clash) = clash else {
        return Text::of_string(format!(in alloc; "{{\"is_compatible\":{ok},\"messages\":[]}}")?);
    };
    let front = format!(in alloc; "{{\"is_compatible\":{ok},\"messages\":[\"")?;
    let mut body = with_message(alloc, front, clash)?;
    body.push_str("\"]}")?;
    Text::of_string(body)
}

/// Appends the message of a clash, escaped, to a text that ends inside of a JSON string.
fn with_message(alloc: Global, front: String, clash: ClashMessage<'_>) -> Result<String, AllocError>
    ensures { IfOk result (λ text. string_bytes text ≡ string_bytes front ++ escape (text_of clash.entry)) }
{
    let mut body = InString::of(alloc, front);
    match write!(body, "{clash}") {
        Ok(()) => Ok(body.text),
        Err(_) => Err(AllocError),
    }
}

/// Makes the body with the name of a level.
pub(crate) fn level_body(alloc: Global, name: &str) -> Result<Text, AllocError>
    ensures { IfOk result (λ body. body ≡ spec.level_body name.now) }
{
    let name = quoted(alloc, name)?;
    Text::of_string(format!(in alloc; "{{\"compatibilityLevel\":{name}}}")?)
}

/// Makes the body with the name of a mode.
pub(crate) fn mode_body(alloc: Global, name: &str) -> Result<Text, AllocError>
    ensures { IfOk result (λ body. body ≡ spec.mode_body name.now) }
{
    let name = quoted(alloc, name)?;
    Text::of_string(format!(in alloc; "{{\"mode\":{name}}}")?)
}
