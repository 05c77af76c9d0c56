//! The conversation of a process and its adapter, and the chain that follows from it.
//!
//! A *chain* is a log that many processes write (`reg_chain`); an adapter keeps it in a store
//! (`reg_adapter`). [`AdapterConversation`] is what was told and asked so far, as far as it is
//! still open: batches to hand out, the next offset, and the one request without an answer.
//!
//! One idea: at most one request is open. A command that stops waiting (`give_up`) leaves its
//! request open; if its batch turns out to be kept, it is handed out like any other writer's. So
//! each batch of the chain reaches the process once and in order, whatever was late.
//!
//! A batch of others that comes while a request is open *crosses* it: a check that is answered
//! `kept` then counts as behind, and an adapter that keeps a batch then is at fault.
//!
//! This crate has no threads, locks or clocks: `reg_adapter_line` waits for answers and calls it.
//!
//! [`handed_out_begins_the_chain`] is the theorem. [`AdapterConversation::tell`] says in its
//! clauses `told` and `refused` what each message does.
//!
//! Tests: `test_log`, by way of `reg_adapter_line`.
#![tactic(auto)]

mod asking;
mod conversation;
mod laws;
mod records;
mod request;

pub use asking::{Asking, TellError};
pub use conversation::AdapterConversation;
pub use laws::handed_out_begins_the_chain;
pub use request::AppendRequest;
