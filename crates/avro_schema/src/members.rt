// Members of an object that are texts.
ghost use Rattle.std.specs.Prelude.{◌≡◌, IfOk, option_map, option_and_then};
ghost use Rattle.json_tree.specs.View.{view, items_view, members_view};
ghost use Rattle.serde_json.specs.Find.{get};
ghost use Rattle.serde_json.specs.Written as written;
ghost use Rattle.avro_schema.specs.Form as spec;

use base_text::Text;
use json_tree::Json;
use std::alloc::{AllocError, Global};

/// Returns the text of a member that is a string.
pub(crate) fn string_at<'a>(value: &Json<'a>, name: &str) -> Option<&'a str>
    ensures { option_map (λ s. s.now) result ≡ spec.string_at name.now (view value.now) }
{
    value.get(name).and_then(Json::as_str)
}

/// Returns the texts of an array of strings. `None` if the value isn't one.
fn strings_in(alloc: Global, value: &Json<'_>) -> Result<Option<Vec<Text>>, AllocError>
    ensures { IfOk result (λ o. option_map (λ v. v.items) o ≡ spec.strings_in (view value.now)) }
{
    let Some(items) = value.as_array() else {
        return Ok(None);
    };
    let mut texts = Vec::new(alloc);
    for item in items {
        let Some(text) = item.as_str() else {
            return Ok(None);
        };
        texts.push(Text::copy_of(alloc, text)?)?;
    }
    Ok(Some(texts))
}

/// Returns the texts of a member that is an array of strings. `None` if it isn't one.
pub(crate) fn strings_at(
    alloc: Global,
    value: &Json<'_>,
    name: &str,
) -> Result<Option<Vec<Text>>, AllocError>
    ensures { IfOk result (λ o. option_map (λ v. v.items) o ≡ option_and_then spec.strings_in (get name.now (view value.now))) }
{
    match value.get(name) {
        Some(member) => strings_in(alloc, member),
        None => Ok(None),
    }
}

/// Returns an object's `aliases`, empty if it has none. `None` if they aren't an array of strings.
pub(crate) fn aliases_of(alloc: Global, value: &Json<'_>) -> Result<Option<Vec<Text>>, AllocError>
    ensures { IfOk result (λ o. option_map (λ v. v.items) o ≡ spec.aliases_of (view value.now)) }
{
    match value.get("aliases") {
        Some(member) => strings_in(alloc, member),
        None => Ok(Some(Vec::new(alloc))),
    }
}

/// Returns whether any number in a value isn't an integer of 64 bits.
#[cycle(has_float)]
pub(crate) fn has_float(value: &Json<'_>) -> bool
    ensures { result ≡ written.has_float (view value.now) }
{
    match value {
        Json::Number(number) => number.is_f64(),
        Json::Array(items) => items_have_float(items),
        Json::Object(members) => members_have_float(members),
        _ => false,
    }
}

#[cycle(has_float)]
fn items_have_float(items: &Vec<Json<'_>>) -> bool
    ensures { result ≡ written.items_have_float (items_view items.now.items) }
{
    for item in items {
        if has_float(item) {
            return true;
        }
    }
    false
}

#[cycle(has_float)]
fn members_have_float(members: &Vec<(&str, Json<'_>)>) -> bool
    ensures { result ≡ written.members_have_float (members_view members.now.items) }
{
    for (_, member) in members {
        if has_float(member) {
            return true;
        }
    }
    false
}
