//! The registry: the entries, levels and modes that a set of records gives, by the last record of
//! each key.
//!
//! A key's last record is the one that counts. [`Registry`] keeps these records and what they give:
//! the entries (versions that can be read, live or soft-deleted), the levels and modes of scopes,
//! and the id mark, a record of the highest id ever given.
//!
//! One idea: a registry is determined by its last records; contracts see it as that set. So records
//! may be added in any order, repeated or not, and a compaction that keeps each last record gives
//! the same registry.
//!
//! A registry is *closed*, and takes no commands, if a version's record can't be read (an opaque
//! version) or if an id names two schemas ([`Registry::is_closed`]). Lookups work all the same.
//!
//! It decides no commands (`reg_leader`), makes no response bodies (`reg_lookup`), and reads no
//! files.
//!
//! The main contracts are [`Registry::of_set`] with `lasts` and `compactions`, and
//! [`Registry::apply`] with `added`. [`Registry::forget`] says with `alike` that a dropped
//! tombstone changes no entry, level or mode.
//!
//! Tests: `record_cases`, `rule_cases` and `world_cases`; `test_records` compares registries with
//! plain programs.
#![tactic(auto)]

mod index;
mod laws;
mod reading;
mod registry;
mod scoped;
mod settings;
mod spots;
mod version_ref;

pub use laws::{
    entries_are_in_limits, entries_are_of_places, entries_are_read, entries_stand_by_version,
    found_entries_stand, giving_alike_is_an_equivalence, id_mark_is_in_limits,
    none_is_no_opaque_last,
};
pub use reg_entries;
pub use reg_entries::{Entry, two_schemas_is_least};
pub use reg_refusals;
pub use reg_refusals::{Allow, Reason, Refusal, StoreFault};
pub use reg_set;
pub use reg_values;
pub use reg_values::{avro_schema, base_text, reg_level_names, reg_records};
pub use registry::Registry;
pub use version_ref::VersionRef;
