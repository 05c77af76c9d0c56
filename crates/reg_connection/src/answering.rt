// An answer on a connection, at whichever desk has it.
ghost use Rattle.std.specs.Prelude.{◌≡◌, ◌≤◌, ◌++◌, ℕ, List, [], length, take, drop, IfErr, IfOk, OnOk, Some};
ghost use Rattle.reg_records.specs.Device.{bytes_in, interruptions_of};
ghost use Rattle.reg_messages.specs.Head.{front_of};
ghost use Rattle.reg_messages.specs.Reading.{IsShort};
ghost use Rattle.reg_responses.specs.declared.limits.TheConstants.{INTERRUPTION_LIMIT};
ghost use Rattle.reg_messages.specs.Extent.{IsWhole};
ghost use Rattle.reg_conversation.specs.Conversation.{EndsAs, RepliesAll};
ghost use Rattle.reg_connection.specs.Answering.{AnswersKnowing, FailsKnowing, HasLearnt, StandsOn};

use reg_conversation::{Conversation, SharedDesk};
use reg_http::{Paths, RequestOutcome, ServeError};
use reg_records::Device;
use std::alloc::Global;
use std::io::Write;

/// Has the desk learn what the last answer on a connection stood on.
fn learn<D: SharedDesk>(desk: &mut D, standing: &Option<D::Standing>)
    ensures { HasLearnt D.learns desk.old standing.now desk.new }
{
    if let Some(standing) = standing {
        desk.learn(standing);
    }
}

/// Answers the request at the front, which is whole and has `len` bytes. The desk first learns what
/// the last answer on the connection stood on. Returns the result. Fails with `WriteFault` only:
/// the request was done, and its response is written in part.
pub fn answer_one<W: Write, D: SharedDesk>(
    alloc: Global,
    paths: &mut Option<Paths>,
    conversation: &mut Conversation,
    len: usize,
    standing: &mut Option<D::Standing>,
    writer: &mut Device<W>,
    desk: &mut D,
) -> Result<RequestOutcome, ServeError>
    requires fits { len ≤ length conversation.old }
    requires whole { IsWhole (take len conversation.old) }
    requires few { interruptions_of writer.old ≤ INTERRUPTION_LIMIT }
    ensures answered { IfOk result (AnswersKnowing D.asks D.commands D.stands D.learns desk.old standing.old conversation.old
        (bytes_in W.contents writer.old) (bytes_in W.contents writer.new) standing.new conversation.new desk.new) }
    ensures refused { IfErr result (λ e. (more : List ℕ) → FailsKnowing D.asks D.commands D.learns desk.old standing.old writer.old writer.new
        (conversation.old ++ more) (bytes_in W.contents writer.old) (bytes_in W.contents writer.new) desk.new e) }
    ensures stands { StandsOn D.stands desk.new standing.new }
    ensures dropped { conversation.new ≡ drop len conversation.old }
    ensures interruptions { interruptions_of writer.new ≤ INTERRUPTION_LIMIT }
{
    learn(desk, standing);
    let answered = conversation.answer_front(alloc, paths, len, writer, desk);
    *standing = Some(desk.standing());
    answered
}

/// Answers what is held, which is short of a request, after the client has ended its side. Returns
/// the result; `None` if no request was begun. Fails as [`answer_one`] does.
pub fn answer_last<W: Write, D: SharedDesk>(
    alloc: Global,
    paths: &mut Option<Paths>,
    conversation: &mut Conversation,
    standing: &mut Option<D::Standing>,
    writer: &mut Device<W>,
    desk: &mut D,
) -> Result<Option<RequestOutcome>, ServeError>
    requires short { IsShort (front_of conversation.old) }
    requires few { interruptions_of writer.old ≤ INTERRUPTION_LIMIT }
    ensures answered { OnOk result ((told : D) × HasLearnt D.learns desk.old standing.old told
        × RepliesAll D.asks D.commands told conversation.old (bytes_in W.contents writer.old) (bytes_in W.contents writer.new) desk.new) }
    ensures outcome { IfOk result (EndsAs conversation.old (bytes_in W.contents writer.old) (bytes_in W.contents writer.new)) }
    ensures refused { IfErr result (FailsKnowing D.asks D.commands D.learns desk.old standing.old writer.old writer.new
        conversation.old (bytes_in W.contents writer.old) (bytes_in W.contents writer.new) desk.new) }
    ensures stands { StandsOn D.stands desk.new standing.new }
    ensures dropped { conversation.new ≡ [] }
    ensures interruptions { interruptions_of writer.new ≤ INTERRUPTION_LIMIT }
{
    learn(desk, standing);
    let answered = conversation.answer_last(alloc, paths, writer, desk);
    *standing = Some(desk.standing());
    answered
}
