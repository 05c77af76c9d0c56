// What the bytes of a head say.
ghost use Rattle.std.specs.Prelude.{◌≡◌, ◌≤◌};
ghost use Rattle.httparse.specs.Grammar.{RequestHead};
ghost use Rattle.reg_messages.specs.FrontRead.{IsReadOf, IsSaid, read_length};
ghost use Rattle.reg_messages.specs.Places.{IsHeadAt, IsHeadWithin};
ghost use Rattle.reg_messages.specs.declared.limits.TheConstants.{BODY_LIMIT};

use crate::fields::told_length;
use crate::limits::HEAD_FIELDS;
use crate::parsing::{Head, spans_in};
use crate::reading::{fields_in, wants_close};
use crate::types::has_accepted_types;
use httparse::spans::{EMPTY_HEADER_SPAN, Span};
use reg_refusals::Refusal;

/// The number of fields for which there is room at the first try. Few heads have more.
const USUAL_FIELDS: usize = 16;

/// What a head says, with places in its bytes.
#[derive(Debug, Drop)]
pub(crate) struct HeadRead {
    pub(crate) method: Span,
    pub(crate) target: Span,
    /// The length of the body; `None` if the fields state none.
    pub(crate) told: Option<u64>,
    pub(crate) wants_close: bool,
    /// Whether each Content-Type field has an accepted type.
    pub(crate) is_accepted: bool,
}

/// Reads a head, or says why it is refused.
pub(crate) fn read_head(bytes: &[u8]) -> Result<HeadRead, Refusal>
    ensures read { IsReadOf bytes.now result }
    ensures limit { read_length result ≤ BODY_LIMIT }
{
    let mut usual = [EMPTY_HEADER_SPAN; USUAL_FIELDS];
    if let Some(spans) = spans_in(bytes, &mut usual) {
        let head = Head {
            spans,
            fields: &usual,
        };
        return said_by(bytes, &head);
    }
    let mut fields = [EMPTY_HEADER_SPAN; HEAD_FIELDS];
    match spans_in(bytes, &mut fields) {
        Some(spans) => {
            let head = Head {
                spans,
                fields: &fields,
            };
            said_by(bytes, &head)
        }
        None => Err(Refusal::BadRequest),
    }
}

/// Returns what the head says, or the refusal of its length.
fn said_by(bytes: &[u8], head: &Head<'_>) -> Result<HeadRead, Refusal>
    requires within { IsHeadWithin bytes.now head.now }
    ensures said { (h : RequestHead) → IsHeadAt bytes.now head.now h → IsSaid bytes.now h result }
    ensures limit { read_length result ≤ BODY_LIMIT }
{
    let fields = fields_in(bytes, head);
    match told_length(fields) {
        Ok(told) => Ok(HeadRead {
            method: head.spans.method,
            target: head.spans.path,
            told,
            wants_close: wants_close(bytes, head),
            is_accepted: has_accepted_types(fields),
        }),
        Err(refusal) => Err(refusal),
    }
}
