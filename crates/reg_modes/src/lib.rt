//! Modes: which commands a registry permits.
//!
//! A scope is a subject, or all subjects. Its mode is READWRITE, READONLY or IMPORT, as in the
//! Confluent Schema Registry API. The mode in force for a subject is its own, else the global one,
//! else READWRITE ([`mode_in_force`]).
//!
//! One idea: a permission is a function of the mode in force and of what is asked
//! ([`may_register`], [`may_write`]). Setting IMPORT is the exception: it depends on whether a
//! version in the scope is live, unless it is forced ([`may_set_import`]). All three refuse with
//! `NotPermitted` and a reason. They change nothing and take no memory.
//!
//! A record may hold a name that is no mode's. It counts as READONLY, so it permits neither
//! registrations nor deletes.
//!
//! This crate sets no modes and decides no commands; `reg_leader` does.
//!
//! There is no theorem: the only clause of each function says that its result equals its definition
//! in `specs`.
//!
//! Tests: `rule_cases` (`modes.words`, `may_import.sessions`); `run_cases` has modes in requests.
#![tactic(auto)]

mod in_force;
mod mode;
mod permitted;

pub use in_force::{mode_in_force, own_mode};
pub use mode::Mode;
pub use permitted::{may_register, may_set_import, may_write};
pub use reg_fold;
pub use reg_fold::{
    avro_schema, base_text, reg_entries, reg_level_names, reg_records, reg_refusals, reg_set,
    reg_values,
};
