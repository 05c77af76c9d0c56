//! A registry in memory, served by one to three nodes in one process.
//!
//! All nodes share one topic and its pen (the single writer). Each node has a follower (a replica
//! of the topic), which a thread of its own runs, a list of its own, and desks with workers behind
//! a port.
//!
//! One idea: nodes are made one inside the other. Each feed needs a name of its own as a type, so
//! each node is made by a function of its own that calls the next; all threads run inside the last
//! call.
//!
//! The topic begins empty and ends with the process. It doesn't keep a file, and no other process
//! can join.
//!
//! The theorems are those of the parts: `reg_desk` says that connections read their writes,
//! `reg_node` that a node holds a compaction of the topic's log, and `reg_world` what clients of
//! several nodes may see. The threads around them are tested, not proved.
//!
//! [`serve_nodes`] is the only call. Tests: `test_service`.
#![tactic(auto)]

mod common;
mod following;
mod gate;
mod making;
mod nodes;
mod parts;
mod running;

pub use gate::NoGate;
pub use nodes::serve_nodes;
pub use reg_desk::Gate;
pub use reg_serve::listen;
pub use reg_service::{Endpoints, ServiceError, Size};
