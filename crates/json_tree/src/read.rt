// From text to a value, in one pass over the tokens.
ghost use Rattle.std.specs.Prelude.{◌≡◌, ℕ, ◌<◌, ◌≤◌, length, Some, None, IfOk, IfErr, OnOk, Err};
ghost use Rattle.json.specs.Json.{value, items, members};
ghost use Rattle.serde_json.specs.Data.{no_members};
ghost use Rattle.serde_json.specs.Read.{of_json, of_items, of_members, converted, read as json_of};
ghost use Rattle.json_tree.specs.View.{view, items_view, members_view};

use crate::members::{is_last, put, to_map, to_vec};
use crate::number;
use crate::tree::{Json, JsonError};
use json::{Reader, Scratch, Token};
use std::alloc::Global;
use std::collections::BTreeMap;

const MAX_DEPTH: usize = 127;

/// From this many members on, a name out of order switches the object to a map, so that members
/// aren't moved one by one.
const FEW: usize = 16;

impl<'a> Json<'a> {
    /// Reads a JSON text (RFC 8259) of at most 127 nested arrays and objects. Strings with escapes
    /// are decoded into `scratch`; the others are borrowed from `text`. Errors: `NotJson`, or out
    /// of memory.
    pub fn read(
        alloc: Global,
        text: &'a str,
        scratch: &'a mut Scratch,
    ) -> Result<Json<'a>, JsonError>
        ensures ok { IfOk result (λ j. json_of text.now ≡ Some (view j)) }
        ensures err { IfErr result (λ e. e ≡ JsonError.NotJson → json_of text.now ≡ None) }
    {
        let mut reader = Reader::new(text, scratch)?;
        let value = read(alloc, &mut reader, MAX_DEPTH)?;
        if reader.next().is_some() {
            return Err(JsonError::NotJson);
        }
        Ok(value)
    }
}

#[cycle(read)]
#[inline(always)]
fn read<'a>(alloc: Global, reader: &mut Reader<'a>, depth: usize) -> Result<Json<'a>, JsonError>
    ensures ok { IfOk result
        (λ j. converted of_json (value depth reader.old) ≡ Some (view j, reader.new)) }
    ensures shorter { OnOk result (length reader.new < length reader.old) }
    ensures err { result ≡ Err JsonError.NotJson → converted of_json (value depth reader.old) ≡ None }
{
    let token = reader.next().ok_or(JsonError::NotJson)?;
    match token {
        Token::String(text) => Ok(Json::String(text)),
        Token::Number(text) => match number::parse(text) {
            Some(number) => Ok(Json::Number(number)),
            None => Err(JsonError::NotJson),
        },
        Token::Bool(b) => Ok(Json::Bool(b)),
        Token::Null => Ok(Json::Null),
        Token::EndObject | Token::EndArray | Token::Key(_) | Token::Bad => Err(JsonError::NotJson),
        Token::BeginArray => {
            if depth == 0 {
                return Err(JsonError::NotJson);
            }
            Ok(Json::Array(read_items(alloc, reader, depth - 1)?))
        }
        Token::BeginObject => {
            if depth == 0 {
                return Err(JsonError::NotJson);
            }
            Ok(Json::Object(read_members(alloc, reader, depth - 1)?))
        }
    }
}

#[cycle(read)]
#[inline(never)]
fn read_items<'a>(
    alloc: Global,
    reader: &mut Reader<'a>,
    depth: usize,
) -> Result<Vec<Json<'a>>, JsonError>
    ensures ok { IfOk result
        (λ v. converted of_items (items (value depth) (length reader.old) reader.old)
        ≡ Some (items_view v.items, reader.new)) }
    ensures shorter { OnOk result (length reader.new < length reader.old) }
    ensures err { result ≡ Err JsonError.NotJson
        → converted of_items (items (value depth) (length reader.old) reader.old) ≡ None }
{
    let mut found = Vec::new(alloc);
    'items: while !reader.take_end_array() {
        let item = read(alloc, reader, depth)?;
        found.push(item)?;
    }
    Ok(found)
}

#[cycle(read)]
#[inline(never)]
fn read_members<'a>(
    alloc: Global,
    reader: &mut Reader<'a>,
    depth: usize,
) -> Result<Vec<(&'a str, Json<'a>)>, JsonError>
    ensures ok { IfOk result
        (λ v. converted (λ ms. of_members ms no_members)
        (members (value depth) (length reader.old) reader.old)
        ≡ Some (members_view v.items, reader.new)) }
    ensures shorter { OnOk result (length reader.new < length reader.old) }
    ensures err { result ≡ Err JsonError.NotJson
        → converted (λ ms. of_members ms no_members)
        (members (value depth) (length reader.old) reader.old) ≡ None }
{
    let mut found = Vec::new(alloc);
    'members: while let Some(name) = reader.next_key()? {
        let member = read(alloc, reader, depth)?;
        if found.len() >= FEW && !is_last(&found, name) {
            let found = to_map(alloc, found, name, member)?;
            return read_many(alloc, reader, depth, found);
        }
        put(&mut found, name, member)?;
    }
    Ok(found)
}

/// Reads the remaining members of an object and adds them to those read before.
#[cycle(read)]
#[inline(never)]
fn read_many<'a>(
    alloc: Global,
    reader: &mut Reader<'a>,
    depth: usize,
    before: BTreeMap<&'a str, Json<'a>>,
) -> Result<Vec<(&'a str, Json<'a>)>, JsonError>
    ensures ok { IfOk result (λ v. (turns : ℕ) → length reader.old ≤ turns
        → converted (λ ms. of_members ms (members_view before.entry.entries))
        (members (value depth) turns reader.old)
        ≡ Some (members_view v.items, reader.new)) }
    ensures shorter { OnOk result (length reader.new < length reader.old) }
    ensures err { result ≡ Err JsonError.NotJson → (turns : ℕ) → length reader.old ≤ turns
        → converted (λ ms. of_members ms (members_view before.entry.entries))
        (members (value depth) turns reader.old) ≡ None }
{
    let mut found = before;
    'members: while let Some(name) = reader.next_key()? {
        let member = read(alloc, reader, depth)?;
        drop(found.insert(name, member)?);
    }
    Ok(to_vec(alloc, found)?)
}
