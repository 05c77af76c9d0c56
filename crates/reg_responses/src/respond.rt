// Writing responses, none of which takes memory.
ghost use Rattle.std.specs.Prelude.{◌≡◌};
ghost use Rattle.reg_responses.specs.Reply.{reply_answer};
ghost use Rattle.reg_responses.specs.Response.{allow_in, answer_text, memory_text, refusal_text};
ghost use Rattle.reg_responses.specs.Writing.{Ends, Writes};

use crate::bodies::{refusal_pieces, reply_pieces};
use crate::pieces::Piece;
use crate::writing::{WriteFault, write_response, write_whole};
use reg_leader::Reply;
use reg_leader::reg_records::{Device, Output};
use reg_leader::reg_refusals::{Allow, Refusal};
use reg_lookup::Answer;

/// Writes and flushes the response with an answer. If `closes` is set, it has the field
/// `Connection: close` (RFC 9112, section 9.6). Fails if the writer failed or was interrupted too
/// often; the writer then has a prefix of the response.
pub fn write_answer<W: Output>(
    writer: &mut Device<W>,
    answer: &Answer,
    closes: bool,
) -> Result<(), WriteFault>
    ensures written { Writes W.contents writer.old writer.new (answer_text closes answer.now) result }
    ensures ended { Ends W.writes W.flushes writer.new result }
{
    let body = [Piece::Text(answer.body.as_str())];
    write_response(writer, answer.status, None, closes, &body)
}

/// Writes and flushes the response to a command's reply. Fails as [`write_answer`] does.
pub fn write_reply<W: Output>(
    writer: &mut Device<W>,
    reply: &Reply,
    closes: bool,
) -> Result<(), WriteFault>
    ensures written { Writes W.contents writer.old writer.new (answer_text closes (reply_answer reply.now)) result }
    ensures ended { Ends W.writes W.flushes writer.new result }
{
    let (status, body) = reply_pieces(reply);
    write_response(writer, status, None, closes, &body)
}

/// Writes and flushes the response of a refusal. After `MethodNotAllowed` it lists the methods of
/// the path in the field `Allow` (RFC 9110, section 10.2.1). Fails as [`write_answer`] does.
#[tactic(auto, unfolding(crate::specs::Response::refusal_text))]
pub fn write_refusal<W: Output>(
    writer: &mut Device<W>,
    refusal: &Refusal,
    closes: bool,
) -> Result<(), WriteFault>
    ensures written { Writes W.contents writer.old writer.new (refusal_text closes refusal.now) result }
    ensures ended { Ends W.writes W.flushes writer.new result }
{
    let (status, body) = refusal_pieces(refusal);
    write_response(writer, status, allow_in(refusal), closes, &body)
}

fn allow_in(refusal: &Refusal) -> Option<Allow>
    ensures { result ≡ allow_in refusal.now }
{
    match refusal {
        Refusal::MethodNotAllowed(allow) => Some(*allow),
        _ => None,
    }
}

/// Writes and flushes the response of a request for which memory was refused: status 500, code
/// 50001. Fails as [`write_answer`] does.
pub fn write_no_memory<W: Output>(writer: &mut Device<W>, closes: bool) -> Result<(), WriteFault>
    ensures written { Writes W.contents writer.old writer.new (memory_text closes) result }
    ensures ended { Ends W.writes W.flushes writer.new result }
{
    write_whole(writer, no_memory_text(closes).as_bytes())
}

fn no_memory_text(closes: bool) -> &'static str
    ensures { result.now ≡ memory_text closes }
{
    if closes {
        "HTTP/1.1 500 Internal Server Error\r\nContent-Type: application/vnd.schemaregistry.v1+json\r\nContent-Length: 52\r\nConnection: close\r\n\r\n{\"error_code\":50001,\"message\":\"Store error: memory\"}"
    } else {
        "HTTP/1.1 500 Internal Server Error\r\nContent-Type: application/vnd.schemaregistry.v1+json\r\nContent-Length: 52\r\n\r\n{\"error_code\":50001,\"message\":\"Store error: memory\"}"
    }
}
