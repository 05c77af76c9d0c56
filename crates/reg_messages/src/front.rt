// What the front of some bytes says of their message.
ghost use Rattle.std.specs.Prelude.{◌≡◌, ◌<◌, ◌≤◌, ◌+◌, ◌++◌, ℕ, List, [], true, length, min, Err, IfSome, IfNone};
ghost use Rattle.std.specs.List.{list_all};
ghost use Rattle.reg_refusals.specs.declared.refusal.Refusal.TheVariants as refusals;
ghost use Rattle.reg_messages.specs.Head.{front_of, is_skipped};
ghost use Rattle.reg_messages.specs.HeadReading.{HasNoEnd};
ghost use Rattle.reg_messages.specs.FrontRead.{IsFrontOf, read_length};
ghost use Rattle.reg_messages.specs.declared.limits.TheConstants.{BODY_LIMIT, HEAD_LIMIT};
ghost use Rattle.reg_messages.specs.Extent.{BeginsKept, EndsAt, EndsFirst, LacksHead, TakesInAll};

use crate::head::has_few_lines;
use crate::head_read::{HeadRead, read_head};
use crate::kept_read::KeptRead;
use crate::limits::HEAD_LIMIT;
use crate::lines::{blank_len, head_len};
use reg_refusals::Refusal;

/// What was read of the message at the front of some bytes, as places in them.
#[derive(Drop)]
pub struct FrontRead {
    /// Where its head begins.
    pub(crate) start: usize,
    /// Where its head ends, or is refused.
    pub(crate) end: usize,
    /// How many bytes it takes in all.
    pub(crate) len: usize,
    pub(crate) read: KeptRead,
}

impl FrontRead {
    /// Returns how many bytes the message takes in all, whether or not they are there yet.
    pub fn len(&self) -> usize
        ensures { result ≡ self.now.len }
    {
        self.len
    }
}

/// Reads the message at the front of the bytes; `None` while neither the end of its head nor a
/// reason to refuse it is there. Later bytes change nothing of the result. Takes no memory.
pub fn read_front(bytes: &[u8]) -> Option<FrontRead>
    ensures some { IfSome result (λ front. 0 < front.len) }
    ensures limit { IfSome result (λ front. front.len ≤ HEAD_LIMIT + BODY_LIMIT) }
    ensures takes { IfSome result (λ front. TakesInAll bytes.now front.len) }
    ensures read { IfSome result (IsFrontOf bytes.now) }
    ensures lacks { IfNone result (LacksHead (front_of bytes.now)) }
{
    let (window, _) = bytes.split_at(bytes.len().min(HEAD_LIMIT));
    let (blank, rest) = window.split_at(blank_len(window));
    match head_len(rest) {
        Some(len) => Some(front_with_head(blank, rest, len)),
        None => front_without_head(bytes.len(), blank, rest),
    }
}

/// Reads the message whose head is the first `len` bytes of `rest`, after the skipped bytes.
fn front_with_head(blank: &[u8], rest: &[u8], len: usize) -> FrontRead
    requires few { length blank.now + length rest.now ≤ HEAD_LIMIT }
    requires all { list_all is_skipped blank.now ≡ true }
    requires kept { BeginsKept rest.now }
    requires fits { len ≤ length rest.now }
    requires ends { EndsFirst rest.now len }
    ensures some { 0 < result.len }
    ensures limit { result.len ≤ HEAD_LIMIT + BODY_LIMIT }
    ensures ends { (text tail : List ℕ) → text ≡ blank.now ++ (rest.now ++ tail) → EndsAt text result.len }
    ensures read { (text tail : List ℕ) → text ≡ blank.now ++ (rest.now ++ tail) → IsFrontOf text result }
{
    let start = blank.len();
    let end = start + len;
    let head = &rest[..len];
    if !has_few_lines(head) {
        return too_large(end);
    }
    let read = read_head(head);
    FrontRead {
        start,
        end,
        len: end + body_len(&read),
        read: KeptRead::of(read),
    }
}

/// Returns how many bytes the body has; 0 if the head is refused.
fn body_len(read: &Result<HeadRead, Refusal>) -> usize
    ensures { result ≡ read_length read.now }
{
    match read {
        Ok(read) => read.told.unwrap_or(0) as usize,
        Err(_) => 0,
    }
}

/// Returns a message whose head is too large, which its first `len` bytes show.
fn too_large(len: usize) -> FrontRead
    ensures { result ≡ record { start = 0; end = len; len = len; read = record { read = Err refusals.HeadTooLarge } } }
{
    FrontRead {
        start: 0,
        end: len,
        len,
        read: KeptRead::of(Err(Refusal::HeadTooLarge)),
    }
}

/// Refuses a head as too large if the first bytes have no empty line and there are enough of them;
/// `None` while there are too few. `size` is the number of all bytes.
fn front_without_head(size: usize, blank: &[u8], rest: &[u8]) -> Option<FrontRead>
    requires window { length blank.now + length rest.now ≡ min size HEAD_LIMIT }
    requires all { list_all is_skipped blank.now ≡ true }
    requires kept { BeginsKept rest.now }
    requires none { HasNoEnd [] rest.now }
    ensures some { IfSome result (λ front. 0 < front.len) }
    ensures limit { IfSome result (λ front. front.len ≤ HEAD_LIMIT + BODY_LIMIT) }
    ensures ends { (text tail : List ℕ) → text ≡ blank.now ++ (rest.now ++ tail) → size ≤ length text
        → IfSome result (λ front. EndsAt text front.len) }
    ensures read { (text tail : List ℕ) → text ≡ blank.now ++ (rest.now ++ tail) → size ≤ length text → IfSome result (IsFrontOf text) }
    ensures lacks { (text tail : List ℕ) → text ≡ blank.now ++ (rest.now ++ tail) → size ≡ length text → IfNone result (LacksHead (front_of text)) }
{
    let limit = refused_len(rest);
    if size < limit {
        return None;
    }
    Some(too_large(limit))
}

/// Returns how many bytes without an empty line are too many for a head. If only skipped bytes
/// came, one more than the limit is needed.
fn refused_len(rest: &[u8]) -> usize
    ensures blank { length rest.now ≡ 0 → result ≡ HEAD_LIMIT + 1 }
    ensures begun { 0 < length rest.now → result ≡ HEAD_LIMIT }
{
    if rest.is_empty() {
        HEAD_LIMIT + 1
    } else {
        HEAD_LIMIT
    }
}
