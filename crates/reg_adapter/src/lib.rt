//! The protocol of a process and its adapter, as values and as bytes: messages that come in pieces,
//! and requests.
//!
//! An *adapter* is a program that keeps the log in a store and speaks with the process over two
//! pipes. It tells a base (a log up to its empty line) and then messages: batches that others
//! wrote, answers to requests, and `ready`. The process sends requests: the lines of a batch and an
//! empty line, or an empty line alone, which is a check.
//!
//! One idea: a text has one list of messages and one first fault, whatever the pieces that it came
//! in, and nothing behind the first fault is read. So what an adapter says can be judged by its
//! bytes alone.
//!
//! [`Messages`] takes bytes and gives each message once; [`request`] writes requests. This crate
//! starts no program, reads no pipe and keeps no state of requests: see `reg_adapter_line` and
//! `reg_adapter_chain`.
//!
//! The theorems are [`pieces_tell_the_same`] (`messages`, `faults`) and [`messages_are_texts`].
//! [`Messages::next`] says in `came` and `refused` what it returns.
//!
//! Tests: `log_cases`; `test_log` has those of whole exchanges.
#![tactic(auto)]

mod asking;
mod fault;
mod laws;
mod line;
mod lines;
mod messages;
mod told;

pub use asking::request;
pub use fault::{MessageError, MessageFault};
pub use laws::{messages_are_texts, pieces_tell_the_same};
pub use messages::Messages;
pub use told::{AdapterAnswer, AdapterMessage};
