//! The intake: reads the lines of a log while its bytes still come, such as from a pipe.
//!
//! [`Incoming`] takes bytes in pieces of any size ([`Incoming::take`]) and gives each whole line
//! once ([`Incoming::next`]). [`Pieces::give_to`] feeds it with what one read of a reader gives.
//!
//! One idea: pieces don't matter. What is read depends only on the bytes that have come, not on
//! where they were divided; half a line is kept until the rest comes.
//!
//! A line over the limit is refused before its LF has come. The empty line ends the log and is
//! never passed.
//!
//! This crate holds no records: callers take them one by one. It starts no thread and writes
//! nothing.
//!
//! [`Incoming::next`] is the contract: its clause `came` says that the lines read are those of the
//! bytes, in their order, and `refused` that each error has its cause.
//! [`first_records_are_of_first_lines`] is the law for readers that take a prefix.
//!
//! Tests: `service_cases`.
#![tactic(auto)]

mod fault;
mod incoming;
mod laws;
mod pieces;

pub use fault::IntakeError;
pub use incoming::{Came, Incoming};
pub use laws::first_records_are_of_first_lines;
pub use pieces::{GiveError, Pieces};
