// What the fields of a head say.
ghost use Rattle.std.specs.Prelude.{◌≡◌, ◌<◌, ◌∷◌, [], length, codes, IfSome};
ghost use Rattle.httparse.specs.Grammar.{is_ows, skip_ows, trim_ows};
ghost use Rattle.reg_messages.specs.Fields.{values_of, length_of, is_length, told_length, holds_close, is_close, asks_to_close, values_found};

use crate::digits::digits_value;
use crate::field::Fields;
use crate::limits::BODY_LIMIT;
use reg_records::has_only_digits;
use reg_refusals::Refusal;

/// Returns the length in bytes of the body that the fields state; `None` if they state none (RFC
/// 9112, section 6). Refused with `LengthRequired` if there is a transfer coding, with `BadRequest`
/// if there are several lengths or one that isn't 1 to 19 digits, and with `PayloadTooLarge` above
/// [`BODY_LIMIT`].
pub fn told_length<'f, F: Fields<'f>>(fields: F) -> Result<Option<u64>, Refusal>
    ensures { result ≡ told_length (F.fields fields) }
{
    match find_value(fields, "transfer-encoding") {
        Some(_) => Err(Refusal::LengthRequired),
        None => only_length(fields),
    }
}

fn only_length<'f, F: Fields<'f>>(fields: F) -> Result<Option<u64>, Refusal>
    ensures { result ≡ length_of (values_of (codes "content-length") (F.fields fields)) }
{
    match find_value(fields, "content-length") {
        Some((value, rest)) => match find_value(rest, "content-length") {
            Some(_) => Err(Refusal::BadRequest),
            None => length_in(value),
        },
        None => Ok(None),
    }
}

/// Finds the first field of that name, and returns its value and the fields after it. Names are
/// compared without case (RFC 9110, section 5.1).
pub fn find_value<'f, F: Fields<'f>>(fields: F, name: &str) -> Option<(&'f [u8], F)>
    ensures values { values_of name.now (F.fields fields) ≡ values_found F.fields name.now result }
    ensures fewer { IfSome result (λ found. length (F.fields found.1) < length (F.fields fields)) }
{
    let mut left = fields;
    while let Some((field, value, rest)) = left.split_first() {
        if field.eq_ignore_ascii_case(name.as_bytes()) {
            return Some((value, rest));
        }
        left = rest;
    }
    None
}

/// Returns the length that the only Content-Length field states; refused if it isn't a number or is
/// above the limit.
fn length_in(value: &[u8]) -> Result<Option<u64>, Refusal>
    ensures { result ≡ length_of (value.now ∷ []) }
{
    if !is_length(value) {
        return Err(Refusal::BadRequest);
    }
    let told = digits_value(value);
    if told > BODY_LIMIT {
        return Err(Refusal::PayloadTooLarge);
    }
    Ok(Some(told))
}

fn is_length(value: &[u8]) -> bool
    ensures { result ≡ is_length value.now }
{
    !value.is_empty() && value.len() <= 19 && has_only_digits(value)
}

/// Returns whether a Connection field has the option `close` (RFC 9112, section 9.6).
pub fn asks_to_close<'f, F: Fields<'f>>(fields: F) -> bool
    ensures { result ≡ asks_to_close (F.fields fields) }
{
    let mut left = fields;
    while let Some((value, rest)) = find_value(left, "connection") {
        if holds_close(value) {
            return true;
        }
        left = rest;
    }
    false
}

/// Returns whether the comma-separated list has the item `close`.
fn holds_close(value: &[u8]) -> bool
    ensures { result ≡ holds_close value.now }
{
    value.split(|b| *b == b',').any(|item| is_close(item))
}

fn is_close(item: &[u8]) -> bool
    ensures { result ≡ is_close item.now }
{
    trim_ows(item).eq_ignore_ascii_case(b"close")
}

/// Returns the bytes without the spaces and tabs at both ends.
#[tactic(auto, unfolding(httparse::specs::Grammar::trim_ows))]
pub fn trim_ows(bytes: &[u8]) -> &[u8]
    ensures { result.now ≡ trim_ows bytes.now }
{
    let mut left = skip_ows(bytes);
    while let [front @ .., b] = left {
        if !is_ows(*b) {
            return left;
        }
        left = front;
    }
    left
}

/// Returns the bytes without the spaces and tabs at their front.
fn skip_ows(bytes: &[u8]) -> &[u8]
    ensures { result.now ≡ skip_ows bytes.now }
{
    let mut left = bytes;
    while let [b, rest @ ..] = left {
        if !is_ows(*b) {
            return left;
        }
        left = rest;
    }
    left
}

fn is_ows(b: u8) -> bool
    ensures { result ≡ is_ows b }
{
    b == b' ' || b == b'\t'
}
