// The path and the query of a target, and the decoded parts of a path.
ghost use Rattle.std.specs.Prelude.{◌≡◌, ◌==◌, IfOk};
ghost use Rattle.std.specs.List.{before_first, after_first};
ghost use Rattle.reg_routes.specs.Target.{is_path, part_at, part_text, path_of, query_of, text_part};

use crate::path_part::PathPart;
use percent_encoding::{DecodeError, percent_decode};
use reg_refusals::Refusal;
use std::alloc::{AllocError, Global};

/// Returns whether a target begins with `/`.
pub fn is_path(target: &str) -> bool
    ensures { result ≡ is_path target.now }
{
    target.as_bytes().starts_with(b"/")
}

/// Returns a target without its query.
pub fn path_of(target: &str) -> &str
    ensures { result.now ≡ path_of target.now }
{
    match target.split_once('?') {
        Some((path, _)) => path,
        None => target,
    }
}

/// Returns the bytes after the first question mark of a target; none if it has no question mark.
pub fn query_of(target: &str) -> &[u8]
    ensures { result.now ≡ query_of target.now }
{
    split_once(target.as_bytes(), b'?').1
}

/// Decodes the escapes (`%41`) of a part of a path. Parts are counted from 0, which is the part
/// before the first slash; without a place the result is `None`. Refused with `BadRequest` if the
/// decoded bytes are not UTF-8. A part without escapes takes no memory. The only error is out of
/// memory.
pub fn text_part<'p>(
    alloc: Global,
    path: &'p str,
    place: Option<usize>,
) -> Result<Result<Option<PathPart<'p>>, Refusal>, AllocError>
    ensures { IfOk result (λ text. text ≡ text_part path.now place) }
{
    let Some(place) = place else {
        return Ok(Ok(None));
    };
    match part_text(alloc, part_at(path.as_bytes(), place))? {
        Some(text) => Ok(Ok(Some(text))),
        None => Ok(Err(Refusal::BadRequest)),
    }
}

/// Decodes the escapes of a part of a path; `None` if the decoded bytes are not UTF-8.
fn part_text<'p>(alloc: Global, part: &'p [u8]) -> Result<Option<PathPart<'p>>, AllocError>
    ensures { IfOk result (λ text. text ≡ part_text part.now) }
{
    match percent_decode(part).decode_utf8(alloc) {
        Ok(text) => Ok(Some(PathPart::of(text))),
        Err(DecodeError::Utf8(_)) => Ok(None),
        Err(DecodeError::OutOfMemory) => Err(AllocError),
    }
}

/// Returns the part of a path after `place` slashes, up to the next one.
fn part_at(path: &[u8], place: usize) -> &[u8]
    ensures { result.now ≡ part_at place path.now }
{
    let mut rest = path;
    for _i in 0..place {
        rest = split_once(rest, b'/').1;
    }
    split_once(rest, b'/').0
}

/// Returns the bytes before the first separator, and those after it.
fn split_once(bytes: &[u8], separator: u8) -> (&[u8], &[u8])
    ensures before { result.0.now ≡ before_first (λ b. b == separator) bytes.now }
    ensures after { result.1.now ≡ after_first (λ b. b == separator) bytes.now }
{
    match bytes.iter().position(|b| *b == separator) {
        Some(i) => (&bytes[..i], &bytes[i + 1..]),
        None => (bytes, b""),
    }
}
