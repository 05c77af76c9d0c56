// The message that some bytes are, after which nothing comes.
ghost use Rattle.std.specs.Prelude.{◌≡◌, ◌≤◌, ◌&&◌, ℕ, List, Option, length, nat_le, option_map, take, IsUtf8, MatchOption};
ghost use Rattle.std.specs.List.{list_all};
ghost use Rattle.httparse.specs.Grammar.{RequestHead};
ghost use Rattle.httparse.specs.Spans.{IsWithin, span_bytes};
ghost use Rattle.reg_messages.specs.Extent.{LacksHead};
ghost use Rattle.reg_messages.specs.FrontRead.{IsFrontOf, IsReadAs, Says};
ghost use Rattle.reg_messages.specs.Head.{front_of, head, is_skipped, IsHead};
ghost use Rattle.reg_messages.specs.Messages.{body_in};
ghost use Rattle.reg_messages.specs.Reading.{GetsLent};
ghost use Rattle.reg_messages.specs.declared.limits.TheConstants.{HEAD_LIMIT};

use crate::front::FrontRead;
use crate::head::is_skipped;
use crate::head_read::HeadRead;
use crate::limits::HEAD_LIMIT;
use crate::parts::RequestParts;
use crate::reading::Got;
use httparse::spans::Span;
use reg_refusals::Refusal;

/// Returns the message at the front of the bytes, as if nothing came after them. `front` is what
/// [`read_front`](crate::read_front) found in them; `None` if the end of the head isn't there.
/// Copies nothing and takes no memory.
pub fn message_parts<'h>(bytes: &'h [u8], front: Option<FrontRead>) -> Got<RequestParts<'h>>
    requires read { MatchOption front (LacksHead (front_of bytes.now)) (IsFrontOf bytes.now) }
    ensures { (left : Option (List ℕ)) × GetsLent (λ parts. parts) bytes.now left result }
{
    match front {
        Some(
            FrontRead {
                start,
                end,
                len: _,
                read,
            },
        ) => parts_at(bytes, start, end, read.into_read()),
        None => parts_without_head(bytes),
    }
}

/// Returns the message whose head is between those places, by what was read of it.
fn parts_at<'h>(
    bytes: &'h [u8],
    start: usize,
    end: usize,
    read: Result<HeadRead, Refusal>,
) -> Got<RequestParts<'h>>
    requires within { end ≤ length bytes.now }
    requires read { IsReadAs (take end bytes.now) start read }
    ensures { (left : Option (List ℕ)) × GetsLent (λ parts. parts) bytes.now left result }
{
    match read {
        Ok(read) => {
            let (taken, after) = bytes.split_at(end);
            let (_, bytes) = taken.split_at(start);
            parts_of_head(bytes, after, &read)
        }
        Err(refusal) => Got::Refused(refusal),
    }
}

/// Returns the message of a head, by what was read of it, with its body from the bytes after it.
fn parts_of_head<'h>(bytes: &'h [u8], after: &'h [u8], read: &HeadRead) -> Got<RequestParts<'h>>
    requires said { (h : RequestHead) × IsHead bytes.now h × Says bytes.now read.now h }
    ensures { (text : List ℕ) → front_of text ≡ head bytes.now after.now
        → (left : Option (List ℕ)) × GetsLent (λ parts. parts) text left result }
{
    let method = text_at(bytes, &read.method);
    let target = text_at(bytes, &read.target);
    let body = body_in(after, read.told.unwrap_or(0) as usize);
    Got::Message {
        request: RequestParts::new(method, target, read.is_accepted, body),
        told: read.told,
        wants_close: read.wants_close,
    }
}

/// Returns the text at that place.
fn text_at<'h>(bytes: &'h [u8], place: &Span) -> &'h str
    requires within { IsWithin (length bytes.now) place.now }
    requires text { IsUtf8 (span_bytes bytes.now place.now) }
    ensures { result.now ≡ span_bytes bytes.now place.now }
{
    match std::str::from_utf8(place.of(bytes)) {
        Ok(text) => text,
        Err(_) => unreachable!(),
    }
}

/// Returns the body of `len` bytes; `None` if there are fewer.
fn body_in(bytes: &[u8], len: usize) -> Option<&[u8]>
    ensures { option_map (λ body. body.now) result ≡ body_in len bytes.now }
{
    if bytes.len() < len {
        None
    } else {
        Some(&bytes[..len])
    }
}

/// Returns what the bytes are if the end of a head isn't there: no message, or a head that is cut.
fn parts_without_head<'h>(bytes: &'h [u8]) -> Got<RequestParts<'h>>
    requires lacks { LacksHead (front_of bytes.now) }
    ensures { (left : Option (List ℕ)) × GetsLent (λ parts. parts) bytes.now left result }
{
    if are_skipped(bytes) {
        Got::Over
    } else {
        Got::Refused(Refusal::BadRequest)
    }
}

/// Returns whether there are only CR and LF bytes, and no more than a head may have.
fn are_skipped(bytes: &[u8]) -> bool
    ensures { result ≡ (list_all is_skipped bytes.now && nat_le (length bytes.now) HEAD_LIMIT) }
{
    all_skipped(bytes) && bytes.len() <= HEAD_LIMIT
}

fn all_skipped(bytes: &[u8]) -> bool
    ensures { result ≡ list_all is_skipped bytes.now }
{
    bytes.iter().all(|b| is_skipped(*b))
}
