//! The bytes of a connection in pieces of any length, and the responses to the requests in them.
//!
//! A [`Conversation`] holds the bytes that came and aren't answered yet.
//! [`Conversation::front_len`] says whether the request at the front is whole,
//! [`Conversation::answer_front`] answers it. After the end of the input
//! [`Conversation::answer_last`] answers what is left.
//!
//! One idea: a request is answered only once it is whole, as it would be in any longer text that
//! begins with it. So the responses don't depend on how the text was cut into pieces, and a slow
//! client holds no worker. The head of a request is read once, however many pieces its body comes
//! in.
//!
//! [`SharedDesk`] is a desk whose conversations another desk may continue: what its last answer was
//! based on, its *standing*, is handed on with the conversation, so the client reads its own
//! writes.
//!
//! This crate has no sockets, clocks or threads (`reg_connection`, `reg_serve`), and parses nothing
//! itself (`reg_messages`).
//!
//! The theorem is the clause `written` of [`converse_in_pieces`]: the responses are those to the
//! requests of the whole text, however it is cut.
//!
//! Tests: `run_cases` and `test_service`.
#![tactic(auto)]

mod conversation;
mod desk;
mod pieces;

pub use conversation::Conversation;
pub use desk::SharedDesk;
pub use pieces::{PieceError, answer_rest, answer_whole, converse_in_pieces, take_piece};
