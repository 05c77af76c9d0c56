//! Finds the command that may have written a batch.
//!
//! A process that takes over a batch from another writer of the same log doesn't know which command
//! wrote it. [`candidate`] names one command from the batch and the mode in force. The caller
//! decides that command itself, and takes the batch only if the decision writes the same records.
//!
//! One idea: one candidate is enough. [`batches_are_of_candidates`] is the theorem: if any
//! command's step writes the batch, the candidate's does, so no lawful batch is refused.
//!
//! It doesn't decide commands (`reg_leader` does), and it can't tell which command really wrote a
//! batch: two commands may write the same records, with different replies.
//!
//! Tests: `rule_cases`.
#![tactic(auto)]

mod candidates;
mod laws;

pub use candidates::candidate;
pub use laws::batches_are_of_candidates;
