// The text of a connection, in pieces: each request is answered once it is whole.
ghost use Rattle.std.specs.Prelude.{◌≡◌, ◌≤◌, ◌++◌, ℕ, List, [], IfOk, IfErr, OnOk};
ghost use Rattle.reg_records.specs.Device.{bytes_in, faults_of, interruptions_of};
ghost use Rattle.reg_responses.specs.declared.limits.TheConstants.{INTERRUPTION_LIMIT};
ghost use Rattle.reg_conversation.specs.Conversation.{AnswersWhole, RepliesAll, Stops};
ghost use Rattle.reg_conversation.specs.Pieces.{LosesPiece, StopsPieces, text_of};

use crate::conversation::Conversation;
use reg_http::{Desk, Paths, ServeError};
use reg_records::Device;
use std::alloc::Global;
use std::io::Write;

/// Why a piece wasn't answered.
#[derive(Clone, Copy, Debug, PartialEq, Eq)]
pub enum PieceError {
    /// Memory for the piece was refused. Each request that was whole before it is answered.
    NoMemory,
    /// The writer failed, or was interrupted too often in a row. Never a `ReadFault`.
    Failed(ServeError),
}

/// Answers the whole requests one after the other, up to a response that closes the connection.
/// Returns whether the connection goes on; if so, the bytes left are short of a request.
pub fn answer_whole<W: Write, D: Desk>(
    alloc: Global,
    paths: &mut Option<Paths>,
    conversation: &mut Conversation,
    writer: &mut Device<W>,
    desk: &mut D,
) -> Result<bool, ServeError>
    requires few { interruptions_of writer.old ≤ INTERRUPTION_LIMIT }
    ensures answered { IfOk result (AnswersWhole D.asks D.commands desk.old conversation.old
        (bytes_in W.contents writer.old) (bytes_in W.contents writer.new) conversation.new desk.new) }
    ensures refused { IfErr result (λ e. (more : List ℕ) → Stops D.asks D.commands writer.old writer.new desk.old (conversation.old ++ more)
        (bytes_in W.contents writer.old) (bytes_in W.contents writer.new) desk.new e) }
    ensures faults { OnOk result (faults_of writer.new ≡ faults_of writer.old) }
    ensures interruptions { interruptions_of writer.new ≤ INTERRUPTION_LIMIT }
{
    while let Some(len) = conversation.front_len() {
        match conversation.answer_front(alloc, paths, len, writer, desk) {
            Ok(outcome) => {
                if outcome.closes {
                    return Ok(false);
                }
            }
            Err(e) => return Err(e),
        }
    }
    Ok(true)
}

/// Adds a piece of the text and answers the requests that are whole then. Returns whether the
/// connection goes on.
pub fn take_piece<W: Write, D: Desk>(
    alloc: Global,
    paths: &mut Option<Paths>,
    conversation: &mut Conversation,
    piece: &[u8],
    writer: &mut Device<W>,
    desk: &mut D,
) -> Result<bool, PieceError>
    requires few { interruptions_of writer.old ≤ INTERRUPTION_LIMIT }
    ensures answered { IfOk result (AnswersWhole D.asks D.commands desk.old (conversation.old ++ piece.now)
        (bytes_in W.contents writer.old) (bytes_in W.contents writer.new) conversation.new desk.new) }
    ensures refused { IfErr result (LosesPiece D.asks D.commands writer.old writer.new desk.old conversation.old piece.now
        (bytes_in W.contents writer.old) (bytes_in W.contents writer.new) conversation.new desk.new) }
    ensures faults { OnOk result (faults_of writer.new ≡ faults_of writer.old) }
    ensures interruptions { interruptions_of writer.new ≤ INTERRUPTION_LIMIT }
{
    match conversation.feed(piece) {
        Ok(()) => match answer_whole(alloc, paths, conversation, writer, desk) {
            Ok(goes_on) => Ok(goes_on),
            Err(e) => Err(PieceError::Failed(e)),
        },
        Err(_) => Err(PieceError::NoMemory),
    }
}

/// Answers all that is held at the end of the input.
pub fn answer_rest<W: Write, D: Desk>(
    alloc: Global,
    paths: &mut Option<Paths>,
    conversation: &mut Conversation,
    writer: &mut Device<W>,
    desk: &mut D,
) -> Result<(), ServeError>
    requires few { interruptions_of writer.old ≤ INTERRUPTION_LIMIT }
    ensures answered { OnOk result (RepliesAll D.asks D.commands desk.old conversation.old
        (bytes_in W.contents writer.old) (bytes_in W.contents writer.new) desk.new) }
    ensures refused { IfErr result (Stops D.asks D.commands writer.old writer.new desk.old conversation.old
        (bytes_in W.contents writer.old) (bytes_in W.contents writer.new) desk.new) }
    ensures faults { OnOk result (faults_of writer.new ≡ faults_of writer.old) }
    ensures interruptions { interruptions_of writer.new ≤ INTERRUPTION_LIMIT }
{
    match answer_whole(alloc, paths, conversation, writer, desk) {
        Ok(true) => match conversation.answer_last(alloc, paths, writer, desk) {
            Ok(_) => Ok(()),
            Err(e) => Err(e),
        },
        Ok(false) => Ok(()),
        Err(e) => Err(e),
    }
}

/// Answers the requests of a text that comes in these pieces and then ends. The responses are those
/// to the requests of the whole text, however it is cut.
pub fn converse_in_pieces<W: Write, D: Desk>(
    alloc: Global,
    pieces: &[&[u8]],
    writer: &mut Device<W>,
    desk: &mut D,
) -> Result<(), PieceError>
    ensures written { OnOk result (RepliesAll D.asks D.commands desk.old (text_of pieces.now)
        (bytes_in W.contents writer.old) (bytes_in W.contents writer.new) desk.new) }
    ensures refused { IfErr result (StopsPieces D.asks D.commands writer.old writer.new desk.old (text_of pieces.now)
        (bytes_in W.contents writer.old) (bytes_in W.contents writer.new) desk.new) }
    ensures faults { OnOk result (faults_of writer.new ≡ faults_of writer.old) }
    ensures interruptions { interruptions_of writer.new ≤ INTERRUPTION_LIMIT }
{
    let mut paths = None;
    let mut conversation = Conversation::new(alloc);
    writer.begin_count();
    for piece in pieces {
        match take_piece(alloc, &mut paths, &mut conversation, piece, writer, desk) {
            Ok(true) => {}
            Ok(false) => return Ok(()),
            Err(e) => return Err(e),
        }
    }
    match answer_rest(alloc, &mut paths, &mut conversation, writer, desk) {
        Ok(()) => Ok(()),
        Err(e) => Err(PieceError::Failed(e)),
    }
}
