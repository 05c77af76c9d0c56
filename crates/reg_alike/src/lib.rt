//! When two sets of records answer alike: laws, no types.
//!
//! A registry answers from the last record of each key. A compaction may lack records that are
//! superseded, and deletes below its floor, so it isn't the same set as the log; but it *gives* the
//! same: the same entries, levels and modes.
//!
//! One idea: what counts are the last records that have a value ([`what_stands_gives_all`]). A
//! compaction keeps these, so it gives what the log does ([`compactions_give_alike`]).
//!
//! Two theorems follow: sets that give alike answer each query alike, to the byte
//! ([`compactions_answer_alike`]), and each command has the same reply and writes the same batch
//! ([`compactions_step_alike`]).
//!
//! It doesn't say which records a compaction may drop; `reg_floored` does.
//!
//! Tests: none of its own, since no code runs.
#![tactic(auto)]

mod laws;

pub use laws::{
    alike_answers_alike, alike_steps_alike, compactions_answer_alike, compactions_give_alike,
    compactions_step_alike, nulls_give_nothing, what_stands_gives_all,
};
pub use reg_floored;
pub use reg_leader;
pub use reg_leader::{
    avro_schema, base_text, reg_entries, reg_fold, reg_level_names, reg_levels, reg_modes,
    reg_records, reg_refusals, reg_rules, reg_set, reg_values,
};
pub use reg_lookup;
