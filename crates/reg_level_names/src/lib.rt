//! The compatibility levels and their names.
//!
//! A level says which of a subject's live versions a new schema has to be compatible with, and in
//! which direction. The seven levels and their names are those of the Confluent Schema Registry
//! API, from `NONE` to `FULL_TRANSITIVE`.
//!
//! One idea: each level has one name. It is written in capitals and read in any case of its ASCII
//! letters, so a text names one level or none.
//!
//! This crate compares no schemas (`reg_levels` does), and it doesn't know which level is in force
//! for a subject.
//!
//! The main contract is that of [`Level::parse`]: the result is `level_named` of the text.
//! [`Level::as_str`] gives `level_text` of the level.
//!
//! Tests: `rule_cases`.
#![tactic(auto)]

mod level;

pub use level::Level;
