// Names and full names (Avro 1.11, "Names").
ghost use Rattle.std.specs.Prelude.{◌≡◌, ◌==◌, ◌||◌, true, false, IfOk};
ghost use Rattle.std.specs.Char.{is_ascii_alphabetic, is_ascii_alphanumeric};
ghost use Rattle.std.specs.List.{after_last, list_all};
ghost use Rattle.avro_schema.specs.Names as spec;

use crate::{FullName, Primitive};
use base_text::Text;
use std::alloc::{AllocError, Global};

/// Returns the primitive type of that name.
pub(crate) fn primitive_named(text: &str) -> Option<Primitive>
    ensures { result ≡ spec.primitive_named text.now }
{
    match text {
        "null" => Some(Primitive::Null),
        "boolean" => Some(Primitive::Boolean),
        "int" => Some(Primitive::Int),
        "long" => Some(Primitive::Long),
        "float" => Some(Primitive::Float),
        "double" => Some(Primitive::Double),
        "bytes" => Some(Primitive::Bytes),
        "string" => Some(Primitive::String),
        _ => None,
    }
}

fn begins_name(byte: u8) -> bool
    ensures { result ≡ (is_ascii_alphabetic byte || (byte == 95)) }
{
    byte.is_ascii_alphabetic() || byte == b'_'
}

fn goes_on_name(byte: u8) -> bool
    ensures { result ≡ (is_ascii_alphanumeric byte || (byte == 95)) }
{
    byte.is_ascii_alphanumeric() || byte == b'_'
}

/// Returns whether a text is a valid name (Avro 1.11, "Names").
pub(crate) fn is_name(text: &str) -> bool
    ensures { result ≡ spec.is_name text.now }
{
    match text.as_bytes().split_first() {
        Some((first, rest)) => begins_name(*first) && all_go_on(rest),
        None => false,
    }
}

fn all_go_on(bytes: &[u8]) -> bool
    ensures { result ≡ list_all (λ x. is_ascii_alphanumeric x || (x == 95)) bytes.now }
{
    bytes.iter().all(|byte| goes_on_name(*byte))
}

/// Returns whether each part of a text between dots is a valid name.
pub(crate) fn is_full_name(text: &str) -> bool
    ensures { result ≡ spec.is_full_name text.now }
{
    text.split('.').all(is_name)
}

/// Returns whether a text may name a type: a full name whose last part isn't a primitive's.
pub(crate) fn is_type_name(text: &str) -> bool
    ensures { result ≡ spec.is_type_name text.now }
{
    is_full_name(text) && primitive_named(last_part(text)).is_none()
}

/// Returns whether a text has a dot, so that it is a full name in any namespace.
pub(crate) fn has_dot(text: &str) -> bool
    ensures { result ≡ spec.has_dot text.now }
{
    text.as_bytes().contains(&b'.')
}

/// Returns the part after the last dot.
fn last_part(text: &str) -> &str
    ensures { result.now ≡ after_last spec.is_dot text.now }
{
    match text.rsplit_once('.') {
        Some((_, last)) => last,
        None => text,
    }
}

/// Returns the full name of a text in a namespace. Only a text without a dot takes it.
pub(crate) fn full_name(alloc: Global, namespace: &Text, text: &str) -> Result<FullName, AllocError>
    ensures name { IfOk result (λ n. n ≡ spec.full_name namespace.now text.now) }
    ensures last { IfOk result (λ n. spec.has_dot n.name ≡ false) }
    ensures whole { IfOk result (λ n. spec.is_full_name text.now ≡ true → spec.full_text namespace.now text.now ≡ spec.joined n.namespace n.name) }
{
    match text.rsplit_once('.') {
        Some((before, last)) => of_parts(alloc, Text::copy_of(alloc, before)?, last),
        None => of_parts(alloc, namespace.clone()?, text),
    }
}

fn of_parts(alloc: Global, namespace: Text, name: &str) -> Result<FullName, AllocError>
    ensures { IfOk result (λ n. n ≡ record { namespace = namespace; name = name.now }) }
{
    Ok(FullName {
        namespace,
        name: Text::copy_of(alloc, name)?,
    })
}
