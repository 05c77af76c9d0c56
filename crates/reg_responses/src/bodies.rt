// The bodies of responses, in pieces: JSON without spaces (RFC 8259).
ghost use Rattle.std.specs.Prelude.{◌≡◌, Ok, Err};
ghost use Rattle.reg_lookup.specs.Bodies.{answer_with, list_body, number_data};
ghost use Rattle.reg_responses.specs.Pieces.{answer_in, error_body, piece_text, pieces_text};
ghost use Rattle.reg_responses.specs.Reply.{id_body, member_body, reply_answer};

use crate::pieces::Piece;
use reg_leader::Reply;
use reg_leader::reg_refusals::{Refusal, StoreFault};

/// Returns the status and the body of the answer to a reply. Unused pieces at the end are empty.
#[tactic(auto, unfolding(crate::specs::Reply::reply_answer))]
pub(crate) fn reply_pieces<'r>(reply: &'r Reply) -> (u16, [Piece<'r>; 5])
    ensures { answer_in result.0 result.1 ≡ reply_answer reply.now }
{
    match reply {
        Reply::Id(id) => told(id_pieces(*id)),
        Reply::Version(version) => told(alone(Piece::Number(u128::from(*version)))),
        Reply::Versions(versions) => told(versions_pieces(versions.as_slice())),
        Reply::Level(level) => told(member_pieces("compatibility", level.as_str())),
        Reply::LevelRemoved(level) => told(member_pieces("compatibilityLevel", level.as_str())),
        Reply::Mode(mode) => told(member_pieces("mode", mode.as_str())),
        Reply::ModeRemoved(mode) => told(member_pieces("mode", mode.as_str())),
        Reply::Nothing => told(alone(Piece::Text("{}"))),
        Reply::Refused(refusal) => refusal_pieces(refusal),
        Reply::Unsettled(_) => {
            let body = error_pieces(StoreFault::Unsettled.code(), "Store error: unsettled");
            (500, body)
        }
    }
}

/// Returns a success with that body: status 200.
fn told<'p>(body: [Piece<'p>; 5]) -> (u16, [Piece<'p>; 5])
    ensures { answer_in result.0 result.1 ≡ answer_with (Ok (pieces_text body.entry)) }
{
    (200, body)
}

/// Returns the status and the body of a refusal.
pub(crate) fn refusal_pieces<'r>(refusal: &'r Refusal) -> (u16, [Piece<'r>; 5])
    ensures { answer_in result.0 result.1 ≡ answer_with (Err refusal.now) }
{
    let body = error_pieces(refusal.code(), refusal.message());
    (refusal.status(), body)
}

/// Makes a body of one piece; the others are empty.
fn alone<'p>(piece: Piece<'p>) -> [Piece<'p>; 5]
    ensures { pieces_text result ≡ piece_text piece.entry }
{
    let none = Piece::Text("");
    [piece, none, none, none, none]
}

#[tactic(auto, unfolding(json::specs::Print::escape_byte))]
fn id_pieces<'p>(id: u32) -> [Piece<'p>; 5]
    ensures { pieces_text result ≡ id_body id }
{
    [
        Piece::Text("{\"id\":"),
        Piece::Number(u128::from(id)),
        Piece::Text("}"),
        Piece::Text(""),
        Piece::Text(""),
    ]
}

fn versions_pieces<'v>(versions: &'v [u32]) -> [Piece<'v>; 5]
    ensures { pieces_text result ≡ list_body number_data versions.now }
{
    [
        Piece::Text("["),
        Piece::Listed(versions),
        Piece::Text("]"),
        Piece::Text(""),
        Piece::Text(""),
    ]
}

/// Makes a JSON object of one member, whose value is a string.
fn member_pieces<'m>(name: &'m str, text: &'m str) -> [Piece<'m>; 5]
    ensures { pieces_text result ≡ member_body name.now text.now }
{
    [
        Piece::Text("{"),
        Piece::Quoted(name),
        Piece::Text(":"),
        Piece::Quoted(text),
        Piece::Text("}"),
    ]
}

/// Makes the body of an error: an object of a code and a message.
#[tactic(auto, unfolding(json::specs::Print::escape_byte))]
fn error_pieces<'m>(code: u32, message: &'m str) -> [Piece<'m>; 5]
    ensures { pieces_text result ≡ error_body code message.now }
{
    [
        Piece::Text("{\"error_code\":"),
        Piece::Number(u128::from(code)),
        Piece::Text(",\"message\":"),
        Piece::Quoted(message),
        Piece::Text("}"),
    ]
}
