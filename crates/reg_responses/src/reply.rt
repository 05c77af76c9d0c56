// The answer to the reply of a command.
ghost use Rattle.std.specs.Prelude.{◌≡◌, IfOk};
ghost use Rattle.reg_responses.specs.Reply.{reply_answer};

use crate::bodies::reply_pieces;
use crate::joined::joined;
use reg_leader::Reply;
use reg_lookup::Answer;
use std::alloc::{AllocError, Global};

/// Makes the answer (status and body) to a reply of a command. A refusal has one too. The only
/// error is out of memory.
pub fn reply_answer(alloc: Global, reply: &Reply) -> Result<Answer, AllocError>
    ensures { IfOk result (λ answer. answer ≡ reply_answer reply.now) }
{
    let (status, body) = reply_pieces(reply);
    Ok(Answer {
        status,
        body: joined(alloc, &body)?,
    })
}

/// Returns the HTTP status of the answer to a reply. Takes no memory.
pub fn reply_status(reply: &Reply) -> u16
    ensures { result ≡ (reply_answer reply.now).status }
{
    let (status, _body) = reply_pieces(reply);
    status
}
