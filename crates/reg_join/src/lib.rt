//! A pen (the single writer of its process) over a log that other processes write too.
//!
//! The log is a *chain* of batches ([`Chain`]), which *tells* each process, in order, what the
//! others wrote. A process can append a batch only after all that it was told, so if two write at
//! once, one learns that it was overtaken. It takes in what the other wrote, decides its command
//! again, and tries again ([`submit_joined`]).
//!
//! One idea: a batch of others is never copied blindly. The command that may have written it is
//! found and decided here, and the batch is taken only if the same records come out. So each
//! process holds a list that is lawful by its own rules, and a log with anything else stops it
//! ([`JoinOutcome::Stopped`]).
//!
//! This crate has no threads and no transport; the chain may be a store behind an adapter program,
//! or memory ([`MemoryChain`]).
//!
//! [`replies_are_at_their_places`] is the theorem: each reply is a step from exactly what the chain
//! had. [`lawful_logs_stop_nobody`] says that a lawful log stops no pen. [`submit_joined`] carries
//! both in its clauses `ends` and `stops`.
//!
//! Tests: `test_join`.
#![tactic(auto)]

mod checking;
mod commanding;
mod join_keep;
mod laws;
mod memory;
mod taking;

pub use checking::check_chain;
pub use commanding::{JoinOutcome, JoinSubmitted, Patience, submit_joined};
pub use join_keep::{JoinKeep, Stand};
pub use laws::{
    due_batches_are_taken, lawful_logs_stop_nobody, outcomes_stand_in_the_chain,
    pens_follow_their_chain, replies_are_at_their_places,
};
pub use reg_chain::{Chain, ChainAnswer, MemoryChain};
pub use taking::{TakenIn, take_in};
