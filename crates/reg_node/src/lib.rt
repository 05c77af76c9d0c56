//! A node: a follower (a replica of the topic) and the views that answer from it.
//!
//! The [`Follower`] reads the topic's feed and writes a feed of its own, from which the node's
//! views ([`NodeView`]) answer. It takes each kept record once. If the topic was compacted to a new
//! floor meanwhile, it replaces its records below that floor by the topic's (a [`Rebase`]).
//!
//! One idea: what a node holds is always a compaction of some prefix of the topic's log, and these
//! prefixes never get shorter. So a node may lag behind, but it answers as the log did at some
//! moment.
//!
//! This crate starts no thread: its callers pull and publish, such as the threads of
//! `reg_node_service`, or a desk after its own command.
//!
//! [`Follower::pull`] carries the theorem in its clause `compaction`: all that is taken, published
//! or pending, is a compaction of the log of the prefix read. [`draws_fold_to_last_records`] is the
//! law for the views: what they read are the last records of all that was taken.
//!
//! Tests: `world_cases`.
#![tactic(auto)]

mod follower;
mod laws;
mod news;
mod take;

pub use follower::Follower;
pub use laws::draws_fold_to_last_records;
pub use reg_view::{Case, Judge, JudgeError, ShowsRegistry, View};
pub use take::{Draw, NodeView, Rebase, Take, Taken};
