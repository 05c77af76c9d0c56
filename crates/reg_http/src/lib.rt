//! The HTTP server of one connection: reads requests, has a desk answer them, writes the responses.
//!
//! A *desk* ([`Desk`]) is a request handler: it answers queries and carries out commands. This
//! crate is generic over it, and each desk states in its clauses `asks` and `commands` what a call
//! may do.
//!
//! One idea: what is written depends on the text of the input and on the desk, not on how the
//! reader cuts the input. Requests are answered one after the other, up to a response that closes
//! the connection, the end of the input, or [`REQUESTS_LIMIT`] requests.
//!
//! If memory for a request is refused, its response says so (status 500), and the next request is
//! answered. An error of the reader or the writer ends the call; each response before it is whole.
//!
//! This crate opens no socket and starts no thread (`reg_serve`), parses nothing itself
//! (`reg_messages`, `reg_requests`), and knows no registry.
//!
//! The theorem is the clause `written` of [`serve`]: the output is that of the requests in the
//! input (`IsOutput`). [`answer_next`] and [`answer_got`] have it for one request, in the clause
//! `step`.
//!
//! Tests: `run_cases`, `world_cases`, `test_join` and `test_service`.
#![tactic(auto)]

mod attending;
mod desk;
mod doing;
mod limits;
mod outcome;
mod serving;

pub use desk::Desk;
pub use limits::{REQUESTS_LIMIT, serving_limits_are_as_written};
pub use outcome::RequestOutcome;
pub use reg_messages::{HEAD_FIELDS, HEAD_LIMIT, HEAD_LINES, REQUEST_READS};
pub use reg_requests::{Asked, Endpoint, HeaderField, Paths, Request, Routed};
pub use reg_responses::reply_answer;
pub use serving::{ServeError, Served, answer_got, answer_next, serve};
