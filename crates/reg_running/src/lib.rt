//! The bridge from running code to the world of `reg_world`: laws, no types.
//!
//! The pen, the followers and the desks of a running registry have contracts of their own, each
//! about its own call. This crate puts them together: whatever they do, in whatever order, is a
//! list of a world's events, with the outcomes that the callers got. So what `reg_world` proves of
//! every list of events holds of running nodes.
//!
//! It has no code that runs, and it doesn't cover threads and sockets.
//!
//! [`running_nodes_are_a_world`] is the bridge, and [`running_nodes_keep_the_headline`] the
//! theorem: nodes answer as the sets do that they took, an id names one schema for good, and each
//! registered version met its level. [`pens_keep_what_they_publish`] says that no batch is
//! published that its keep hasn't taken, and [`same_sets_give_same_bytes`] compares responses byte
//! by byte.
//!
//! Tests: `world_cases`, which also runs drawn scripts at three nodes and in a world beside them.
#![tactic(auto)]

mod laws;

pub use laws::{
    desks_do_acts, followers_do_deeds, lawful_lists_are_of_acts, pens_do_acts,
    pens_keep_what_they_publish, running_nodes_answer_alike, running_nodes_are_a_world,
    running_nodes_keep_promises, running_nodes_keep_the_headline, same_sets_give_same_bytes,
};
