//! The chain: a log that many processes write, as one of its writers sees it.
//!
//! A chain is a list of batches in one order, the same for all writers. A writer appends with
//! [`Chain::append`] and reads what others wrote with [`Chain::next`].
//!
//! One idea: a batch is kept only directly behind all that its writer was told. If another writer
//! was first, the answer is `Behind`: the writer reads that batch, decides anew, and tries again.
//! An append without records is a *check*: it asks whether anything is unread, and writes nothing.
//! So writes and fresh reads share one call and one type of answer, [`ChainAnswer`].
//!
//! [`Arrivals`] counts the requests of a process, so that one answer serves all commands that came
//! before the request was made.
//!
//! [`MemoryChain`] is a chain in memory, which ends with the process. The chain behind an adapter
//! is in `reg_adapter_line`. This crate has no threads, locks or files.
//!
//! The contract is [`Chain::append`] with its clauses `told` (a kept batch extends what was told)
//! and `means` (what the answer means in that chain).
//!
//! Tests: `test_join` and `test_log`.
#![tactic(auto)]

mod arrivals;
mod chain;
mod memory_chain;

pub use arrivals::Arrivals;
pub use chain::{Chain, ChainAnswer};
pub use memory_chain::MemoryChain;
