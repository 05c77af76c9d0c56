//! The base: what a log begins with if it begins anew at an offset.
//!
//! A *base* is a compaction of a log's lines below an offset, at the log's floor and with that
//! offset as its next one. What the log has from that offset on may follow it.
//!
//! One idea: not each offset is a place to begin. A log is cut only where a line or the floor ends
//! directly before the offset, where no command's records may be on both sides, and where no mark
//! of ids is due (a record of the highest id ever given). Otherwise [`BaseError`] says which of
//! these fails, and a caller tries another offset.
//!
//! [`base`] is a filter from a reader to a writer, which reads all before it writes the first byte;
//! [`base_of`] works on bytes in memory.
//!
//! This crate chooses no offset and doesn't copy what follows the base.
//!
//! [`base_of`] carries the contract in its clauses `base` (what the text is) and `refused` (that
//! each error has its cause).
//!
//! Tests: `run_cases`.
#![tactic(auto)]

mod beginning;
mod below;
mod error;
mod marks;

pub use beginning::{base, base_of};
pub use error::BaseError;
