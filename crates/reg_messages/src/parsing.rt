// The head of a message, by the places of its parts (RFC 9112).
ghost use Rattle.std.specs.Prelude.{◌≡◌, ◌≤◌, length, IfNone, IfOk, IfSome, IsUtf8};
ghost use Rattle.http_header.specs.Token.{IsToken};
ghost use Rattle.httparse.specs.Grammar.{RequestHead};
ghost use Rattle.httparse.specs.Spans.{IsRequestAt, IsRequestWithin};
ghost use Rattle.reg_messages.specs.Head.{IsHead, IsNoHead};
ghost use Rattle.reg_messages.specs.declared.limits.TheConstants.{HEAD_FIELDS};

use base_text::Text;
use http::Method;
use http::method::MethodError;
use httparse::Status;
use httparse::spans::{HeaderSpan, RequestSpans, parse_request};
use std::alloc::{AllocError, Global};

/// The places of the parts of a head in its bytes.
#[derive(Drop)]
pub(crate) struct Head<'s> {
    pub(crate) spans: RequestSpans,
    pub(crate) fields: &'s [HeaderSpan],
}

/// Parses a head and returns the places of its parts; those of its fields go to `fields`. `None` if
/// the bytes are no head, or it has more fields than there is room for.
pub(crate) fn spans_in(bytes: &[u8], fields: &mut [HeaderSpan]) -> Option<RequestSpans>
    requires room { length fields.old ≤ HEAD_FIELDS }
    ensures head { IfSome result (λ spans. (h : RequestHead) × IsHead bytes.now h × IsRequestAt bytes.now fields.new spans h) }
    ensures within { IfSome result (λ spans. IsRequestWithin bytes.now fields.new spans) }
    ensures none { length fields.old ≡ HEAD_FIELDS → IfNone result (IsNoHead bytes.now) }
{
    match parse_request(bytes, fields) {
        Ok(Status::Complete(spans)) => {
            if spans.len == bytes.len() {
                Some(spans)
            } else {
                None
            }
        }
        _ => None,
    }
}

/// Copies the method of a head. The only error is out of memory.
pub(crate) fn method_in(alloc: Global, bytes: &[u8]) -> Result<Method, AllocError>
    requires token { IsToken bytes.now }
    ensures { IfOk result (λ method. method ≡ bytes.now) }
{
    match Method::from_bytes(alloc, bytes) {
        Ok(method) => Ok(method),
        Err(MethodError::OutOfMemory) => Err(AllocError),
        Err(MethodError::Invalid) => unreachable!(),
    }
}

/// Copies the target of a head. The only error is out of memory.
pub(crate) fn target_in(alloc: Global, bytes: &[u8]) -> Result<Text, AllocError>
    requires text { IsUtf8 bytes.now }
    ensures { IfOk result (λ target. target ≡ bytes.now) }
{
    match std::str::from_utf8(bytes) {
        Ok(target) => Text::copy_of(alloc, target),
        Err(_) => unreachable!(),
    }
}
