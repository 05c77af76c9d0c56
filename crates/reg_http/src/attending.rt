// Doing what a message asks.
ghost use Rattle.std.specs.Prelude.{ℕ, List, Option};
ghost use Rattle.reg_messages.specs.Reading.{GetsLent};
ghost use Rattle.reg_http.specs.ServeSteps.{Attends};

use crate::desk::Desk;
use crate::doing::{Done, do_request};
use reg_messages::{Got, LendsParts};
use reg_requests::{Endpoint, Paths};
use std::alloc::Global;

/// The result of one request.
#[derive(Debug, Drop)]
pub(crate) enum Attended {
    /// There was no request.
    Over,
    /// The request was done at that endpoint. `wants_close` is whether the client wants the
    /// connection closed after it.
    Done {
        endpoint: Endpoint,
        done: Done,
        wants_close: bool,
    },
}

/// Does what a message asks.
pub(crate) fn attend<Q: LendsParts + Drop, D: Desk>(
    alloc: Global,
    paths: &mut Option<Paths>,
    got: Got<Q>,
    desk: &mut D,
) -> Attended
    ensures { (text : List ℕ) (left : Option (List ℕ)) → GetsLent Q.parts text left got
        → Attends D.asks D.commands desk.old text left desk.new result }
{
    match got {
        Got::Over => Attended::Over,
        Got::Refused(refusal) => Attended::Done {
            endpoint: Endpoint::nowhere(),
            done: Done::Refused {
                refusal,
                closes: true,
            },
            wants_close: true,
        },
        Got::Message {
            request,
            told,
            wants_close,
        } => {
            let (endpoint, done) = do_request(alloc, paths, desk, &request.parts(), told);
            Attended::Done {
                endpoint,
                done,
                wants_close,
            }
        }
        Got::NoMemory { wants_close } => Attended::Done {
            endpoint: Endpoint::nowhere(),
            done: Done::NoMemory,
            wants_close,
        },
    }
}
