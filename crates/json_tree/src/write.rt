// From a value to text.
ghost use Rattle.std.specs.Prelude.{◌≡◌, [], ◌∷◌, ◌++◌, false, OnOk, IfOk, string_bytes};
ghost use Rattle.json.specs.Token.{number as number_token};
ghost use Rattle.json.specs.Tree.{json_tokens, items_tokens, members_tokens};
ghost use Rattle.serde_json.specs.Data.{array, object};
ghost use Rattle.serde_json.specs.Find.{is_float};
ghost use Rattle.serde_json.specs.Read.{read as json_of};
ghost use Rattle.serde_json.specs.View.{number_view, view as value_view};
ghost use Rattle.serde_json.specs.Written.{outline, items_outline, members_outline, number_text, has_float, items_have_float, members_have_float, compact_text};
ghost use Rattle.json_tree.specs.View.{view, items_view, members_view};

use crate::tree::Json;
use json::{Token, Writer};
use serde_json::{Number, Value};
use std::alloc::{AllocError, Global};

impl<'a> Json<'a> {
    /// Writes the JSON text without spaces, into a string that starts with room for `capacity`
    /// bytes and grows if needed. The value must hold no float. The only error is out of memory.
    pub fn to_text(&self, alloc: Global, capacity: usize) -> Result<String, AllocError>
        requires { has_float (view self.now) ≡ false }
        ensures { IfOk result (λ s. string_bytes s ≡ compact_text (view self.now)) }
    {
        let mut out = Writer::new(Vec::with_capacity(alloc, capacity)?);
        write(self, &mut out)?;
        match String::from_utf8(out.into_inner()) {
            Ok(text) => Ok(text),
            Err(_) => unreachable!(),
        }
    }

    /// Copies the value into one that owns its strings. It must hold no float, and its text without
    /// spaces must read back as itself. The only error is out of memory.
    pub fn to_value(&self, alloc: Global) -> Result<Value, AllocError>
        requires whole { has_float (view self.now) ≡ false }
        requires reads_back { json_of (compact_text (view self.now)) ≡ Some (view self.now) }
        ensures { IfOk result (λ v. value_view v ≡ view self.now) }
    {
        match self {
            Json::Null => Ok(Value::Null),
            Json::Bool(b) => Ok(Value::Bool(*b)),
            Json::Number(number) => Ok(Value::Number(*number)),
            Json::String(text) => Ok(Value::String(String::from_str(alloc, *text)?)),
            Json::Array(_) | Json::Object(_) => {
                let text = self.to_text(alloc, 128)?;
                Value::from_str(alloc, &text).map_err(|_| AllocError)
            }
        }
    }
}

#[cycle(write)]
fn write(value: &Json<'_>, out: &mut Writer) -> Result<(), AllocError>
    requires { has_float (view value.now) ≡ false }
    ensures ok { OnOk result
        (out.new.tokens ≡ out.old.tokens ++ json_tokens (outline (view value.now))) }
    ensures before { out.new.before ≡ out.old.before }
{
    match value {
        Json::Null => out.token(Token::Null),
        Json::Bool(b) => out.token(Token::Bool(*b)),
        Json::Number(n) => write_number(n, out),
        Json::String(text) => out.token(Token::String(*text)),
        Json::Array(items) => write_items(items, out),
        Json::Object(members) => write_members(members, out),
    }
}

#[cycle(write)]
fn write_items(items: &[Json<'_>], out: &mut Writer) -> Result<(), AllocError>
    requires { items_have_float (items_view items.now) ≡ false }
    ensures ok { OnOk result
        (out.new.tokens ≡ out.old.tokens ++ json_tokens (outline (array (items_view items.now)))) }
    ensures before { out.new.before ≡ out.old.before }
{
    out.token(Token::BeginArray)?;
    for item in items {
        write(item, out)?;
    }
    out.token(Token::EndArray)
}

#[cycle(write)]
fn write_members(members: &[(&str, Json<'_>)], out: &mut Writer) -> Result<(), AllocError>
    requires { members_have_float (members_view members.now) ≡ false }
    ensures ok { OnOk result
        (out.new.tokens ≡ out.old.tokens ++ json_tokens (outline (object (members_view members.now)))) }
    ensures before { out.new.before ≡ out.old.before }
{
    out.token(Token::BeginObject)?;
    for member in members {
        out.token(Token::Key(member.0))?;
        write(&member.1, out)?;
    }
    out.token(Token::EndObject)
}

fn write_number(number: &Number, out: &mut Writer) -> Result<(), AllocError>
    requires { is_float (number_view number.now) ≡ false }
    ensures ok { OnOk result (out.new.tokens
        ≡ out.old.tokens ++ number_token (number_text (number_view number.now)) ∷ []) }
    ensures before { out.new.before ≡ out.old.before }
{
    if let Some(n) = number.as_u64() {
        out.u64(n)
    } else if let Some(n) = number.as_i64() {
        out.i64(n)
    } else {
        unreachable!()
    }
}
