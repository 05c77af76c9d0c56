//! Existence: each relation that the crates below state has a result. Laws, no types.
//!
//! Other theorems read "if a command has this reply and this batch, then ..". They would hold
//! emptily if no command had one. This crate proves that they don't: there is a verdict on any two
//! schemas ([`verdicts_exist`]), a step of each command ([`steps_exist`]), an answer to each query
//! ([`answers_exist`]), and an outcome and a next state of each event of a world
//! ([`events_happen`]).
//!
//! One idea: existence is proved of the definitions, not of the code. Whatever records are given, a
//! result exists. That there is only one is proved in the crates below, and for events here
//! ([`events_are_single`]).
//!
//! It doesn't say that running code always returns the result: memory may be refused. Contracts say
//! what happens then.
//!
//! The main theorem is [`events_happen`]. Its clause `worlds` says that over each adopted base a
//! world exists after each list of events; [`empty_topic_is_adopted`] gives such a base.
//! [`nodes_may_catch_up`] says that each node can catch up with the log.
//!
//! Tests: none of its own, since no code runs; `world_cases` runs lists of events.
#![tactic(auto)]

mod laws;

pub use laws::{
    answers_exist, empty_topic_is_adopted, events_are_single, events_happen, nodes_may_catch_up,
    reports_exist, steps_exist, verdicts_exist,
};
