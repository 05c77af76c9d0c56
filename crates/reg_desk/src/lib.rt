//! Desks: the request handlers of a worker.
//!
//! A worker has one desk for all its connections. [`FeedDesk`] answers from a feed and passes
//! commands to a [`Commander`]: the pen ([`PenCommander`]), or [`Nobody`], which refuses them all.
//! [`NodeDesk`] answers from the view of a node's follower and submits commands to the topic's pen
//! itself.
//!
//! One idea: a desk remembers the prefix of the list that its last answer or command saw, and the
//! next answer comes from a list that extends it. This memory (its *standing*) travels with a
//! connection to the next desk, so a connection reads its own writes, whichever worker serves it.
//!
//! The second idea: a registration is judged before the pen is taken ([`Ruling`]). Under the pen
//! there is only a test whether the judgement still fits ([`submit_ruled`]).
//!
//! This crate parses no request and opens no socket (`reg_http`, `reg_serve`), and starts no
//! thread.
//!
//! The theorems are [`feed_connections_read_their_writes`] and [`connections_read_their_writes`].
//!
//! Tests: `world_cases`; `test_join` has those of desks over a shared log.
#![tactic(auto)]

mod catching;
mod commander;
mod desk;
mod feed_desk;
mod gate;
mod judging;
mod laws;
mod nobody;
mod pen_commander;
mod pen_handle;
mod ruling;
mod standing;
mod submitting;
mod wake;

pub use catching::catch_up;
pub use commander::Commander;
pub use desk::NodeDesk;
pub use feed_desk::FeedDesk;
pub use gate::Gate;
pub use judging::desk_judge;
pub use laws::{connections_read_their_writes, feed_connections_read_their_writes};
pub use nobody::Nobody;
pub use pen_commander::PenCommander;
pub use reg_node::{Case, Follower, Judge, JudgeError, NodeView, View};
pub use reg_pen::{Keep, KeptLog, Lack, OpenError, Opened, Pass, Pen, Submitted, open};
pub use ruling::{Ruling, overtaken};
pub use standing::Standing;
pub use submitting::{PenAccess, submit_ruled};
pub use wake::Wake;
