//! Numbers that any thread changes and any thread reads: requests, connections, and how long things
//! took.
//!
//! One idea: each number is one atomic word ([`Counter`], [`Gauge`], [`Mark`]), so counting takes
//! no lock and no memory, and never waits. Numbers are read one by one; a request may show in one
//! of them a moment before it shows in another. A connection counts as accepted before it counts as
//! closed.
//!
//! Answers are counted by path, method and status ([`AnswerMeters`]). Durations are counted within
//! 14 bounds, from 50 microseconds to 5 seconds ([`Seconds`], [`BOUNDS`]). A node counts its
//! connections in a [`ConnectionTally`], which is added to [`Connections`]. [`Traffic`] has all of
//! this for a process.
//!
//! This crate names no metric and writes no page (`reg_metrics`), and measures nothing by itself:
//! its callers pass the times and the statuses.
//!
//! No function here has a contract, since other threads may change a number at any moment. What is
//! counted is tested.
//!
//! Tests: `log_cases` and `test_service`.
#![tactic(auto)]

mod answers;
mod connections;
mod numbers;
mod requests;
mod seconds;
mod traffic;

pub use answers::{AnswerMeters, STATUSES, StatusMeter};
pub use connections::{ConnectionTally, Connections, Ending};
pub use numbers::{Counter, Gauge, Mark};
pub use requests::RequestClass;
pub use seconds::{BOUNDS, Seconds, microseconds};
pub use traffic::Traffic;
