// Reading a message: its head, and the body that its fields state.
ghost use Rattle.std.specs.Prelude.{◌≡◌, ◌≤◌, ℕ, List, Option, IfOk, IfSome, OnErr, OnOk, Ok};
ghost use Rattle.std.specs.Io.KnownBytes.{Consumes};
ghost use Rattle.httparse.specs.Grammar.{RequestHead};
ghost use Rattle.reg_records.specs.Device.{KeepsEnd, bytes_in, faults_of, reads_of};
ghost use Rattle.reg_messages.specs.BodyReading.{LosesBody, TakesBody};
ghost use Rattle.reg_messages.specs.Fields.{body_length, told_length};
ghost use Rattle.reg_messages.specs.HeadReading.{IsTakenAs};
ghost use Rattle.reg_messages.specs.Messages.{fields_of, request_with, wants_close};
ghost use Rattle.reg_messages.specs.Places.{HasTexts, IsHeadAt, IsHeadWithin, fields_at};
ghost use Rattle.reg_messages.specs.Reading.{GetsFrom, TakesShort};
ghost use Rattle.reg_messages.specs.ReadingSteps.{GetsAfter, GetsWith};
ghost use Rattle.reg_messages.specs.Taking.{CountsReads, LosesReader};

use crate::body_reading::{Body, take_body};
use crate::fields::{asks_to_close, told_length};
use crate::head::{Taken, take_front};
use crate::limits::{HEAD_FIELDS, HEAD_LIMIT, REQUEST_READS};
use crate::parsing::{Head, method_in, spans_in, target_in};
use crate::placed::{PlacedFields, copied};
use crate::request::Request;
use crate::taking::ReadFault;
use base_text::Listed;
use httparse::spans::EMPTY_HEADER_SPAN;
use reg_records::Device;
use reg_refusals::Refusal;
use std::alloc::{AllocError, Global};
use std::io::Read;

/// What is at the front of a text: a message (a request, or the lent parts of one), or the reason
/// why there is none.
#[derive(Debug, Drop)]
pub enum Got<Q> {
    /// No message is left.
    Over,
    /// Something that no message can follow, and why.
    Refused(Refusal),
    /// The message of a request.
    Message {
        request: Q,
        /// The length of the body in bytes; `None` if the fields state none.
        told: Option<u64>,
        /// Whether the client wants the connection closed after it.
        wants_close: bool,
    },
    /// A message for which memory was refused.
    NoMemory {
        wants_close: bool,
    },
}

/// Reads the next message, and no byte past it. If memory is refused, its bytes are taken all the
/// same, so that the next message is found. Fails if the reader fails, or after [`REQUEST_READS`]
/// reads.
#[tactic(auto, using(crate::proofs::Counts::counts_then, reg_records::proofs::Ends::ends_then))]
pub fn read_message<R: Read>(
    alloc: Global,
    reader: &mut Device<R>,
) -> Result<Got<Request>, ReadFault>
    requires begun { reads_of reader.old ≤ REQUEST_READS }
    ensures got { IfOk result (λ got. IfSome (bytes_in R.remaining reader.old) (λ text. GetsFrom text (bytes_in R.remaining reader.new) got)) }
    ensures faults { OnOk result (faults_of reader.new ≡ faults_of reader.old) }
    ensures reads { CountsReads reader.old reader.new }
    ensures end { KeepsEnd R.remaining reader.old reader.new }
    ensures lost { OnErr result (LosesReader reader.old reader.new) }
    ensures short { OnErr result (IfSome (bytes_in R.remaining reader.old) (λ text. TakesShort text (bytes_in R.remaining reader.new))) }
{
    let mut buffer = [0u8; HEAD_LIMIT];
    match take_front(reader, &mut buffer) {
        Ok(Taken::Over) => Ok(Got::Over),
        Ok(Taken::NoHead(refusal)) => Ok(Got::Refused(refusal)),
        Ok(Taken::Head(len)) => read_after_head(alloc, reader, &buffer[..len]),
        Err(fault) => Err(fault),
    }
}

/// Reads the rest of the message after its head.
#[tactic(auto, using(crate::proofs::Counts::counts_then, reg_records::proofs::Ends::ends_then))]
fn read_after_head<R: Read>(
    alloc: Global,
    reader: &mut Device<R>,
    bytes: &[u8],
) -> Result<Got<Request>, ReadFault>
    requires begun { reads_of reader.old ≤ REQUEST_READS }
    ensures got { (start : Option (List ℕ)) (taken : List ℕ) → Consumes start (bytes_in R.remaining reader.old) taken → IsTakenAs taken bytes.now
        → IfOk result (λ got. IfSome start (λ text. GetsFrom text (bytes_in R.remaining reader.new) got)) }
    ensures faults { OnOk result (faults_of reader.new ≡ faults_of reader.old) }
    ensures reads { CountsReads reader.old reader.new }
    ensures end { KeepsEnd R.remaining reader.old reader.new }
    ensures lost { OnErr result (LosesReader reader.old reader.new) }
    ensures short { (start : Option (List ℕ)) (taken : List ℕ) → Consumes start (bytes_in R.remaining reader.old) taken → IsTakenAs taken bytes.now
        → OnErr result (IfSome start (λ text. TakesShort text (bytes_in R.remaining reader.new))) }
{
    let mut fields = [EMPTY_HEADER_SPAN; HEAD_FIELDS];
    match spans_in(bytes, &mut fields) {
        Some(spans) => {
            let head = Head {
                spans,
                fields: &fields,
            };
            read_body(alloc, reader, bytes, &head)
        }
        None => Ok(Got::Refused(Refusal::BadRequest)),
    }
}

/// Reads the body whose length the fields of the head state.
#[tactic(auto, using(crate::proofs::Counts::counts_then, reg_records::proofs::Ends::ends_then))]
fn read_body<R: Read>(
    alloc: Global,
    reader: &mut Device<R>,
    bytes: &[u8],
    head: &Head<'_>,
) -> Result<Got<Request>, ReadFault>
    requires begun { reads_of reader.old ≤ REQUEST_READS }
    requires within { IsHeadWithin bytes.now head.now }
    requires texts { HasTexts bytes.now head.now }
    ensures got { (h : RequestHead) → IsHeadAt bytes.now head.now h
        → IfOk result (GetsAfter h (bytes_in R.remaining reader.old) (bytes_in R.remaining reader.new)) }
    ensures faults { OnOk result (faults_of reader.new ≡ faults_of reader.old) }
    ensures reads { CountsReads reader.old reader.new }
    ensures end { KeepsEnd R.remaining reader.old reader.new }
    ensures lost { OnErr result (LosesReader reader.old reader.new) }
    ensures short { (h : RequestHead) → IsHeadAt bytes.now head.now h
        → OnErr result (LosesBody (bytes_in R.remaining reader.old) (bytes_in R.remaining reader.new) (body_length (fields_of h))) }
{
    match told_length(fields_in(bytes, head)) {
        Ok(told) => {
            let wants_close = wants_close(bytes, head);
            match take_body(alloc, reader, told.unwrap_or(0) as usize) {
                Ok(body) => Ok(got_of(alloc, bytes, head, told, body, wants_close)),
                Err(fault) => Err(fault),
            }
        }
        Err(refusal) => Ok(Got::Refused(refusal)),
    }
}

/// Returns the fields of a head, not copied.
pub(crate) fn fields_in<'h>(bytes: &'h [u8], head: &'h Head<'_>) -> PlacedFields<'h>
    requires within { IsHeadWithin bytes.now head.now }
    ensures { (h : RequestHead) → IsHeadAt bytes.now head.now h → fields_at result.bytes.now result.spans.now ≡ fields_of h }
{
    PlacedFields::of(bytes, &head.fields[..head.spans.headers])
}

/// Returns whether the client wants the connection closed: it uses HTTP/1.0, or a Connection field
/// has `close`.
pub(crate) fn wants_close(bytes: &[u8], head: &Head<'_>) -> bool
    requires within { IsHeadWithin bytes.now head.now }
    ensures { (h : RequestHead) → IsHeadAt bytes.now head.now h → result ≡ wants_close h }
{
    head.spans.version == 0 || asks_to_close(fields_in(bytes, head))
}

/// Returns the message of a head with the body that was taken.
fn got_of(
    alloc: Global,
    bytes: &[u8],
    head: &Head<'_>,
    told: Option<u64>,
    body: Body,
    wants: bool,
) -> Got<Request>
    requires within { IsHeadWithin bytes.now head.now }
    requires texts { HasTexts bytes.now head.now }
    ensures { (h : RequestHead) (old new : Option (List ℕ)) → IsHeadAt bytes.now head.now h
        → told_length (fields_of h) ≡ Ok told → wants ≡ wants_close h
        → TakesBody old new (body_length (fields_of h)) body → GetsAfter h old new result }
{
    match body {
        Body::Whole(whole) => got_with(alloc, bytes, head, told, Some(whole), wants),
        Body::Short => got_with(alloc, bytes, head, told, None, wants),
        Body::Dropped => Got::NoMemory { wants_close: wants },
    }
}

/// Returns the message of a head and a body; `NoMemory` if memory is refused.
fn got_with(
    alloc: Global,
    bytes: &[u8],
    head: &Head<'_>,
    told: Option<u64>,
    body: Option<Listed<u8>>,
    wants: bool,
) -> Got<Request>
    requires within { IsHeadWithin bytes.now head.now }
    requires texts { HasTexts bytes.now head.now }
    ensures { (h : RequestHead) → IsHeadAt bytes.now head.now h → GetsWith h told body wants result }
{
    match request_in(alloc, bytes, head, body) {
        Ok(request) => Got::Message {
            request,
            told,
            wants_close: wants,
        },
        Err(_) => Got::NoMemory { wants_close: wants },
    }
}

/// Copies the request of a head, with its body. The only error is out of memory.
fn request_in(
    alloc: Global,
    bytes: &[u8],
    head: &Head<'_>,
    body: Option<Listed<u8>>,
) -> Result<Request, AllocError>
    requires within { IsHeadWithin bytes.now head.now }
    requires texts { HasTexts bytes.now head.now }
    ensures { (h : RequestHead) → IsHeadAt bytes.now head.now h → IfOk result (λ request. request ≡ request_with h body) }
{
    Ok(Request {
        method: method_in(alloc, head.spans.method.of(bytes))?,
        target: target_in(alloc, head.spans.path.of(bytes))?,
        fields: copied(alloc, fields_in(bytes, head))?,
        body,
    })
}
