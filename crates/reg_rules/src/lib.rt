//! The rules of commands: the tests before a command is done, each with its refusal, and the
//! records that commands write.
//!
//! The tests are small functions ([`must_be_open`], [`must_have_offset`], [`must_name_no_other`]
//! and others), which `reg_leader` calls in each command's order. [`clash_of`] checks a new schema
//! under the level in force. A [`Writing`] is a record without its offset, and [`numbered`] makes
//! the batch.
//!
//! One idea: a check touches only the versions that the level looks at ([`live_looked_at`]): none,
//! the latest live one, or all live ones. A judgement made earlier is used only if it was made of
//! exactly these.
//!
//! This crate decides no command, publishes nothing and takes no locks.
//!
//! The main contract is that of [`clash_of`]: `None` means that the schema meets the level in force
//! against the live versions, and a message means that it doesn't, whether a judgement was given or
//! not.
//!
//! Tests: `test_records` has the versions that are fetched; the rows of commands are in
//! `rule_cases`.
#![tactic(auto)]

mod judging;
mod looking;
mod schemas;
mod testing;
mod writing;

pub use judging::{clash_of, live_versions_are_read};
pub use looking::live_looked_at;
pub use reg_levels;
pub use reg_modes;
pub use reg_modes::{
    avro_schema, base_text, reg_entries, reg_fold, reg_level_names, reg_records, reg_refusals,
    reg_set, reg_values,
};
pub use schemas::{is_of, live_import, live_schema, must_have_valid_defaults, read_schema};
pub use testing::{
    must_allow_mode, must_be_above_mark, must_be_number, must_be_open, must_have_offset,
    must_name_no_other, must_stand, subject_of,
};
pub use writing::{Writing, numbered};
