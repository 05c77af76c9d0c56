//! Nodes that serve HTTP over sockets.
//!
//! A node is one port: one poller and some workers, each a thread. The poller accepts connections, reads what
//! arrives, and knows which requests are whole. Workers answer them at their desks (request
//! handlers).
//!
//! One idea: a connection belongs to one thread at a time. The poller lends it to a worker by a
//! queue and gets it back by another, so that nothing about a connection is shared or locked.
//!
//! A command or a check may hold its worker for long. It needs a turn (a permit) of its kind
//! first. Of three workers or more, turns leave one for lookups ([`turns_leave_a_worker`]). A
//! connection whose turn hasn't come waits for it, and its worker takes the next connection.
//!
//! Where somebody else writes too, a thread of [`Follow`] brings what is new to the desks.
//!
//! This crate doesn't know what is asked (`reg_http`, `reg_conversation`), and holds no rule about
//! times and sizes (`reg_connection`).
//!
//! What is proved: the counts of turns, that a command is done only with a turn, and that what a
//! worker collects grows by the desk's responses alone. Threads, channels and sockets around that
//! are tested, not proved: `test_service`.
#![tactic(auto)]

mod latch;
mod listening;
mod nodes;
mod poller;
mod queues;
mod shared_state;
mod taken;
mod turns;
mod worker;

pub use latch::Latch;
pub use listening::{ListenError, listen};
pub use nodes::{Follow, NodeServer, Observe, StartError, Watched, begin, follow_list, open_node};
pub use queues::Queues;
pub use reg_connection::Limits;
pub use reg_conversation::SharedDesk;
pub use reg_http::Desk;
pub use taken::{TurnCounts, turns_leave_a_worker};
