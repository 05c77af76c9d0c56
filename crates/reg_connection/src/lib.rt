//! The state of client connections: what came, what is left to send, and what each waits for.
//!
//! One idea: nothing here blocks, and nothing here owns a thread. A poller or a worker calls
//! [`Connection::look`], which reads and writes what is possible at once and returns the next step
//! ([`Turn`]): wait, look again, have a worker answer, or close. Times come from the caller, in
//! milliseconds of one clock.
//!
//! A node keeps its connections in [`Places`], a table of fixed size, which finds the connection
//! that has been idle longest and the one that holds most bytes. [`Limits`] bounds times,
//! connections and bytes.
//!
//! A request is answered at any desk (request handler): [`answer_one`] first has the desk learn
//! what the last answer on the connection stood on, so that a client reads its own writes.
//!
//! Commands and checks may hold a worker for long. [`turn_kind`] finds out from the head of a
//! request whether it is one, so that some workers stay free for lookups.
//!
//! This crate doesn't poll, accept or start threads (`reg_serve`), and answers through
//! `reg_conversation`.
//!
//! The main contracts are the clauses of [`Connection::look`]: `over` says when a connection may be
//! closed. The theorem [`requests_take_their_turns`] says that commands take turns of commands,
//! checks those of checks, and other queries none.
//!
//! Tests: `service_cases` and `test_service`.
#![tactic(auto)]

mod answering;
mod connection;
mod limits;
mod places;
mod sending;
mod stream;
mod turn_kinds;
mod waiting;

pub use answering::{answer_last, answer_one};
pub use connection::{Connection, Turn};
pub use limits::Limits;
pub use places::{Place, Places};
pub use sending::send_some;
pub use stream::Stream;
pub use turn_kinds::{TurnKind, requests_take_their_turns, turn_kind};
pub use waiting::Waits;
