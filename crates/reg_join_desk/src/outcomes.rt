// The replies to outcomes.
ghost use Rattle.std.specs.Prelude.{◌≡◌};
ghost use Rattle.reg_join_desk.specs.JoinedDesk.{declined_reply, outcome_reply};

use reg_fold::{Refusal, StoreFault};
use reg_join::JoinOutcome;
use reg_leader::Reply;

/// Returns the reply to a command with this outcome.
pub(crate) fn outcome_reply(outcome: JoinOutcome) -> Reply
    ensures { result ≡ outcome_reply outcome }
{
    match outcome {
        JoinOutcome::Replied(reply) => reply,
        JoinOutcome::Unsettled(offset) => Reply::Unsettled(offset),
        JoinOutcome::Live(id) => Reply::Id(id),
        JoinOutcome::NoMemory => Reply::Refused(Refusal::Store(StoreFault::Memory)),
        JoinOutcome::Overtaken => Reply::Refused(Refusal::Store(StoreFault::Overtaken)),
        JoinOutcome::Declined | JoinOutcome::Stopped => declined_reply(),
    }
}

/// Returns the reply to a declined command.
pub(crate) fn declined_reply() -> Reply
    ensures { result ≡ declined_reply }
{
    Reply::Refused(Refusal::Store(StoreFault::Declined))
}
