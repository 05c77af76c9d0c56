// The types of bodies.
ghost use Rattle.std.specs.Prelude.{◌≡◌};
ghost use Rattle.std.specs.List.{before_first};
ghost use Rattle.reg_messages.specs.Types.{has_accepted_types, is_accepted, is_semicolon};

use crate::field::Fields;
use crate::fields::{find_value, trim_ows};

/// Returns whether each Content-Type field has an accepted type:
/// `application/vnd.schemaregistry.v1+json`, `application/vnd.schemaregistry+json`,
/// `application/json` or `application/octet-stream`. Case and parameters are ignored. True if there
/// is no such field.
pub fn has_accepted_types<'f, F: Fields<'f>>(fields: F) -> bool
    ensures { result ≡ has_accepted_types (F.fields fields) }
{
    let mut left = fields;
    while let Some((value, rest)) = find_value(left, "content-type") {
        if !is_accepted(value) {
            return false;
        }
        left = rest;
    }
    true
}

/// Returns whether the type, without its parameters, is accepted.
fn is_accepted(value: &[u8]) -> bool
    ensures { result ≡ is_accepted value.now }
{
    let name = trim_ows(without_parameters(value));
    name.eq_ignore_ascii_case(b"application/vnd.schemaregistry.v1+json")
        || name.eq_ignore_ascii_case(b"application/vnd.schemaregistry+json")
        || name.eq_ignore_ascii_case(b"application/json")
        || name.eq_ignore_ascii_case(b"application/octet-stream")
}

/// Returns the bytes before the first semicolon.
fn without_parameters(value: &[u8]) -> &[u8]
    ensures { result.now ≡ before_first is_semicolon value.now }
{
    match value.iter().position(|b| *b == b';') {
        Some(end) => &value[..end],
        None => value,
    }
}
