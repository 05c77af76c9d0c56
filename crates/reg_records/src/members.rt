// What the members of a JSON object say, and strings as JSON writes them.
ghost use Rattle.std.specs.Prelude.{◌≡◌, ◌≤◌, IfOk, option_map, string_bytes};
ghost use Rattle.json.specs.Print.{quoted};
ghost use Rattle.json.specs.Tree.{depth, HasNumbers};
ghost use Rattle.serde_json.specs.Data.{Data};
ghost use Rattle.serde_json.specs.Read.{read, of_json, max_depth};
ghost use Rattle.serde_json.specs.View.{view};
ghost use Rattle.serde_json.specs.Written.{compact_text, outline};
ghost use Rattle.reg_records.specs.Json.{text_at, number_at, has_text_at, has_number_at};

use crate::limits::NUMBER_LIMIT;
use json::Writer;
use serde_json::Value as Json;
use std::alloc::{AllocError, Global};

/// Parses a JSON text (RFC 8259); `None` if it isn't JSON. The only error is out of memory.
pub fn parse(alloc: Global, text: &str) -> Result<Option<Json>, AllocError>
    ensures { IfOk result (λ found. option_map view found ≡ read text.now) }
{
    match Json::from_str(alloc, text) {
        Ok(json) => Ok(Some(json)),
        Err(e) => {
            if e.is_memory() {
                return Err(AllocError);
            }
            Ok(None)
        }
    }
}

/// Returns the member of that name if it is a string.
pub fn text_at<'a>(json: &'a Json, name: &str) -> Option<&'a str>
    ensures { option_map (λ text. text.now) result ≡ text_at name.now (view json.now) }
{
    json.get(name).and_then(Json::as_str)
}

/// Returns the member of that name if it is a version or an id: a whole number from 1 to
/// `NUMBER_LIMIT`.
pub fn number_at(json: &Json, name: &str) -> Option<u32>
    ensures { result ≡ number_at name.now (view json.now) }
{
    let number = json.get(name).and_then(Json::as_u64)?;
    if 1 <= number && number <= u64::from(NUMBER_LIMIT) {
        Some(number as u32)
    } else {
        None
    }
}

/// Returns whether the member of that name is that string.
pub fn has_text_at(json: &Json, name: &str, text: &str) -> bool
    ensures { result ≡ has_text_at name.now text.now (view json.now) }
{
    match text_at(json, name) {
        Some(found) => found == text,
        None => false,
    }
}

/// Returns whether the member of that name is that version or id.
pub fn has_number_at(json: &Json, name: &str, number: u32) -> bool
    ensures { result ≡ has_number_at name.now number (view json.now) }
{
    match number_at(json, name) {
        Some(found) => found == number,
        None => false,
    }
}

/// Writes a text as a JSON string, with its quotes (RFC 8259, section 7). The only error is out of
/// memory.
pub fn quoted(alloc: Global, text: &str) -> Result<String, AllocError>
    ensures { IfOk result (λ written. string_bytes written ≡ quoted text.now) }
{
    let mut out = Writer::new(Vec::new(alloc));
    out.string(text)?;
    match String::from_utf8(out.into_inner()) {
        Ok(written) => Ok(written),
        Err(_) => unreachable!(),
    }
}

/// Proves that JSON data that is written without spaces is read back, as its outline has it.
pub fn compact_texts_read_back()
    ensures { (d : Data) → HasNumbers (outline d) → depth (outline d) ≤ max_depth → read (compact_text d) ≡ of_json (outline d) }
{}
