// A JSON value as a tree.
ghost use Rattle.std.specs.Prelude.{◌≡◌, option_map};
ghost use Rattle.serde_json.specs.Find as found;
ghost use Rattle.json_tree.specs.View.{view, items_view, members_view};
ghost use Rattle.json_tree.specs.declared.tree.JsonError.TheVariants.{NotJson, OutOfMemory};

use serde_json::Number;
use std::alloc::{AllocError, AllocFailed};

/// A JSON value (RFC 8259) as a tree that borrows its strings. The members of an object are in byte
/// order of their names, each name once; if a text repeats a name, the last value counts.
#[derive(Drop)]
pub enum Json<'a> {
    Null,
    Bool(bool),
    Number(Number),
    String(&'a str),
    Array(Vec<Json<'a>>),
    Object(Vec<(&'a str, Json<'a>)>),
}

/// The error of reading a JSON text.
#[derive(Clone, Copy, Debug, PartialEq, Eq)]
pub enum JsonError {
    /// The text isn't JSON (RFC 8259), nests more than 127 arrays and objects, or has a number
    /// beyond the range of a float.
    NotJson,
    OutOfMemory,
}

impl<'a> Json<'a> {
    /// Returns the member of that name. `None` if this isn't an object or has no such member.
    pub fn get(&self, name: &str) -> Option<&Json<'a>>
        ensures { option_map (λ j. view j.now) result ≡ found.get name.now (view self.now) }
    {
        match self {
            Json::Object(members) => member_named(members, name),
            _ => None,
        }
    }

    /// Returns the text of a string. `None` if this isn't a string.
    pub fn as_str(&self) -> Option<&'a str>
        ensures { option_map (λ s. s.now) result ≡ found.as_str (view self.now) }
    {
        match self {
            Json::String(text) => Some(text),
            _ => None,
        }
    }

    /// Returns the items of an array. `None` if this isn't an array.
    pub fn as_array(&self) -> Option<&Vec<Json<'a>>>
        ensures { option_map (λ v. items_view v.now.items) result ≡ found.as_array (view self.now) }
    {
        match self {
            Json::Array(items) => Some(items),
            _ => None,
        }
    }
}

fn member_named<'m, 'a>(members: &'m [(&'a str, Json<'a>)], name: &str) -> Option<&'m Json<'a>>
    ensures { option_map (λ j. view j.now) result ≡ found.get_member name.now (members_view members.now) }
{
    for member in members {
        if name == member.0 {
            return Some(&member.1);
        }
    }
    None
}

impl From<json::Invalid> for JsonError {
    ghost from_gives = { λ _ e. e ≡ NotJson };

    fn from(_invalid: json::Invalid) -> JsonError {
        JsonError::NotJson
    }
}

impl From<AllocError> for JsonError {
    ghost from_gives = { λ _ e. e ≡ OutOfMemory };

    fn from(_refused: AllocError) -> JsonError {
        JsonError::OutOfMemory
    }
}

impl<T: Drop> From<AllocFailed<T>> for JsonError {
    ghost from_gives = { λ _ e. e ≡ OutOfMemory };

    fn from(_refused: AllocFailed<T>) -> JsonError {
        JsonError::OutOfMemory
    }
}
