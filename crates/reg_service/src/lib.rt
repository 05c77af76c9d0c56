//! The ports of a process that serves one log: `registrylog` with `keep`, `join` and `follow`.
//!
//! A process has one to three ports, each with its own poller and workers (`reg_serve`). All desks
//! answer from one list, whichever port a request came in by.
//!
//! One idea: a port is a place for connections and no replica. What is written through one port is
//! visible at the others as soon as it is published, without any copying between them.
//!
//! [`serve_log`] is for a log that this process alone writes: it opens the list, and gives commands
//! to the pen (the single writer) that publishes to it. [`serve_desks`] is for desks that the
//! caller makes, as a follower or a joined process does.
//!
//! This crate has no rule of the registry: rules are in `reg_desk` and below. It reads no command
//! line; [`Size`] and [`Endpoints`] are what the caller chose.
//!
//! Nothing here has a theorem of its own beyond its types: desks and pen bring theirs along, and
//! `reg_running` puts them together. Tests: `test_service`.
#![tactic(auto)]

mod desks;
mod endpoints;
mod error;
mod ports;
mod serving;
mod size;

pub use endpoints::{Endpoints, Listening};
pub use error::ServiceError;
pub use ports::serve_desks;
pub use reg_serve::{Desk, Follow, listen};
pub use serving::serve_log;
pub use size::{NODES_LIMIT, Size};
