//! The text of each HTTP/1.1 response of the registry, and writing it without memory.
//!
//! One idea: a response is a list of pieces (texts, numbers, quoted strings, lists of numbers). The
//! bytes of the body are counted over the pieces for `Content-Length`, and then the same pieces are
//! written. No response is built in memory, so a process without free memory can still answer.
//!
//! The body of a lookup's answer comes ready as a text. The bodies of replies to commands and of
//! refusals are made here, as JSON without spaces (RFC 8259). Only [`reply_answer`] takes memory:
//! it makes such a body a text.
//!
//! An interrupted write or flush is tried again, at most [`INTERRUPTION_LIMIT`] times in a row.
//!
//! This crate reads no requests (`reg_messages`), and doesn't decide what they do (`reg_http`).
//!
//! The contract is the clause `written` of [`write_answer`], [`write_reply`], [`write_refusal`] and
//! [`write_no_memory`]: at `Ok` the writer got exactly the bytes of the response, at an error a
//! prefix of them. [`statuses_have_phrases`] states that each status has a phrase (RFC 9110,
//! section 15).
//!
//! Tests: `run_cases`.
#![tactic(auto)]

mod bodies;
mod joined;
mod laws;
mod limits;
mod pieces;
mod reply;
mod respond;
mod writing;

pub use laws::statuses_have_phrases;
pub use limits::{INTERRUPTION_LIMIT, response_limits_are_as_written};
pub use reply::{reply_answer, reply_status};
pub use respond::{write_answer, write_no_memory, write_refusal, write_reply};
pub use writing::{WriteFault, write_whole};
