// Doing what a request asks, and writing the response to it.
ghost use Rattle.std.specs.Prelude.{◌≡◌, IfOk};
ghost use Rattle.reg_requests.specs.Asked.{asked_of_target};
ghost use Rattle.reg_responses.specs.Writing.{Ends, Writes};
ghost use Rattle.reg_requests.specs.reg_routes.Endpoint.{endpoint_of};
ghost use Rattle.reg_http.specs.ServeSteps.{Did, GoesBy, done_closes, done_status, done_text};

use crate::desk::Desk;
use reg_leader::Reply;
use reg_lookup::Answer;
use reg_records::{Device, Output};
use reg_refusals::Refusal;
use reg_requests::{Asked, Endpoint, Paths, RequestParts, route_told};
use reg_responses::{
    WriteFault, reply_status, write_answer, write_no_memory, write_refusal, write_reply,
};
use std::alloc::{AllocError, Global};

/// The result of a request, before the response is written.
#[derive(Debug, Drop)]
pub(crate) enum Done {
    Answered(Answer),
    Replied(Reply),
    /// A refusal; `closes` is whether the server closes the connection because of it.
    Refused { refusal: Refusal, closes: bool },
    /// Memory was refused.
    NoMemory,
}

/// Does what a request asks, and returns its endpoint and the result. `told` is the length of the
/// body that its fields state.
pub(crate) fn do_request<D: Desk>(
    alloc: Global,
    paths: &mut Option<Paths>,
    desk: &mut D,
    request: &RequestParts<'_>,
    told: Option<u64>,
) -> (Endpoint, Done)
    ensures did { Did D.asks D.commands desk.old (asked_of_target request.now told) desk.new result.1 }
    ensures goes { GoesBy request.now result.0 result.1 }
{
    match asked_by(alloc, paths, request, told) {
        Ok((endpoint, asked)) => (endpoint, do_asked(alloc, desk, asked)),
        Err(_) => (Endpoint::nowhere(), Done::NoMemory),
    }
}

/// Does what is asked, or refuses it.
fn do_asked<D: Desk>(alloc: Global, desk: &mut D, asked: Asked) -> Done
    ensures { Did D.asks D.commands desk.old asked desk.new result }
{
    match asked {
        Asked::Query(query) => match desk.ask(alloc, &query) {
            Ok(answer) => Done::Answered(answer),
            Err(_) => Done::NoMemory,
        },
        Asked::Command(command) => Done::Replied(desk.command(&command)),
        Asked::Refused { refusal, closes } => Done::Refused { refusal, closes },
    }
}

/// Returns the endpoint of a request and what it asks. Makes the router if there is none yet, and
/// keeps it.
fn asked_by(
    alloc: Global,
    paths: &mut Option<Paths>,
    request: &RequestParts<'_>,
    told: Option<u64>,
) -> Result<(Endpoint, Asked), AllocError>
    ensures endpoint { IfOk result (λ found. found.0 ≡ endpoint_of request.now.method request.now.target) }
    ensures asked { IfOk result (λ found. found.1 ≡ asked_of_target request.now told) }
{
    let kept = match paths.take() {
        Some(kept) => kept,
        None => Paths::new(alloc)?,
    };
    let endpoint = kept.endpoint(request.method(), request.target());
    *paths = Some(kept);
    Ok((endpoint, route_told(alloc, endpoint, request, told)?))
}

/// Writes the response. `wants_close` is whether the client wants the connection closed.
pub(crate) fn write_done<W: Output>(
    writer: &mut Device<W>,
    done: &Done,
    wants_close: bool,
) -> Result<(), WriteFault>
    ensures written { Writes W.contents writer.old writer.new (done_text wants_close done.now) result }
    ensures ended { Ends W.writes W.flushes writer.new result }
{
    match done {
        Done::Answered(answer) => write_answer(writer, answer, wants_close),
        Done::Replied(reply) => write_reply(writer, reply, wants_close),
        Done::Refused { refusal, closes } => write_refusal(writer, refusal, wants_close || *closes),
        Done::NoMemory => write_no_memory(writer, wants_close),
    }
}

/// Returns whether the server closes the connection after the response.
pub(crate) fn closes_after(done: &Done, wants_close: bool) -> bool
    ensures { result ≡ done_closes wants_close done.now }
{
    match done {
        Done::Refused { refusal: _, closes } => wants_close || *closes,
        Done::Answered(_) | Done::Replied(_) | Done::NoMemory => wants_close,
    }
}

/// Returns the status of the response.
pub(crate) fn status_of(done: &Done) -> u16
    ensures { result ≡ done_status done.now }
{
    match done {
        Done::Answered(answer) => answer.status,
        Done::Replied(reply) => reply_status(reply),
        Done::Refused { refusal, closes: _ } => refusal.status(),
        Done::NoMemory => 500,
    }
}
