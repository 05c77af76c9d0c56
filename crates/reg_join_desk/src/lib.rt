//! Desks (request handlers) over a log that other processes write too.
//!
//! A desk answers lookups from the process's own list. A command waits for the log:
//! [`JoinCommander`] takes the pen, takes in what others wrote, and submits. A lookup waits for the
//! log in one case only: if it finds no such id or version, another process may have written it a
//! moment ago. Then one check of the log ([`SharedCheck`]) serves all lookups that wait, 50 checks
//! a second at most.
//!
//! One idea: waiting is bounded. [`LogWaits`] counts the workers of a port that wait, so that one
//! is left for what needs no log, and about half of them for commands. A command that others
//! overtake is decided again for 30 s at most, and a lookup waits for about 1 s at most.
//!
//! This crate doesn't speak with the store and starts no thread; `reg_join_service` does.
//!
//! [`JoinedPen::submit`] carries the theorem in its clause `ends`: a reply is a step from exactly
//! what the chain had. [`joined_desks_show_what_they_reply`] is the law for clients: they read what
//! they were told.
//!
//! Tests: `test_join`.
#![tactic(auto)]

mod hidden;
mod join_commander;
mod join_handle;
mod joined_pen;
mod laws;
mod log_waits;
mod outcomes;
mod patience;
mod rounds;
mod shared_check;

pub use join_commander::JoinCommander;
pub use joined_pen::JoinedPen;
pub use laws::joined_desks_show_what_they_reply;
pub use log_waits::LogWaits;
pub use reg_desk::{FeedDesk, Pass, Pen, View, desk_judge};
pub use reg_join::{
    Chain, ChainAnswer, JoinKeep, JoinOutcome, JoinSubmitted, MemoryChain, Stand, TakenIn,
};
pub use shared_check::SharedCheck;
