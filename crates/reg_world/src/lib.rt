//! A model of a replicated registry, which can be run: a topic, its nodes, and every event that may
//! happen to them.
//!
//! A [`World`] begins with a log and a number of nodes. Events are commands, compactions, nodes
//! that take kept records in any order and repeatedly, merges between nodes, rebases, restarts and
//! lookups; a batch may be published, unsettled or lost.
//!
//! One idea: nothing is assumed about the order of events. Whatever list of events is run, the
//! claims hold: the log is lawful, an id names one schema for good, each registered version met its
//! level, and a node answers as the set does of which it took a compaction.
//!
//! It is a model for proofs and tests, with plain and slow code. The running registry is elsewhere;
//! `reg_running` proves that what it does is such a list of events.
//!
//! [`World::step`] and [`World::run`] carry the theorem in their clause `keeps`; the law behind it
//! is [`worlds_keep_the_headline`].
//!
//! Tests: `world_cases`.
#![tactic(auto)]

mod cluster;
mod eager;
mod event;
mod folding;
mod laws;
mod node;
mod world;

pub use event::{Event, Fate, Outcome};
pub use laws::{
    caught_up_nodes_answer_as_the_log, eager_folding_is_right, events_are_refused_exactly,
    every_list_of_events_is_lawful, ids_name_one_schema, items_happen, merging_answers_alike,
    nodes_answer_alike, registered_versions_meet_levels, unsettled_comes_first,
    worlds_keep_the_headline,
};
pub use node::WorldNode;
pub use world::{RunError, World};
