//! Commands: what each of them replies and writes.
//!
//! [`decide`] takes a registry, the next offset and a [`Command`], and returns a [`Decision`]: the
//! reply, and the batch of records to be appended. A refusal writes nothing.
//!
//! One idea: a step is a function of these three alone. It has one reply and one batch
//! ([`steps_are_single`]), whatever judgement was given. So every process that decides a command
//! over the same registry at the same offset writes the same records, unless memory is refused.
//!
//! [`adopt`] says which sets of records a topic can begin with, and which id mark (a record of the
//! highest id ever given) it has to add.
//!
//! This crate keeps no state and publishes nothing. The caller makes the batch durable and adds it
//! to its registry; only the caller replies `Reply::Unsettled`.
//!
//! The main contract is that of [`decide`]: the decision is the command's step, or memory was
//! refused. The theorems about steps are [`steps_meet_levels`], [`steps_stay_open`] with `ids`,
//! that an id names one schema afterwards, and [`steps_keep_given_ids`].
//!
//! Tests: `rule_cases` and `world_cases`; `run_cases` has commands in requests.
#![tactic(auto)]

mod adoption;
mod command;
mod decision;
mod deed;
mod deletes;
mod importing;
mod laws;
mod levels;
mod marking;
mod modes;
mod registering;
mod reply;
mod staying;

pub use adoption::{AdoptError, Adopted, adopt};
pub use command::Command;
pub use decision::{Decision, decide};
pub use laws::{
    batches_are_read, batches_end_by_the_limit, batches_go_on, batches_have_lines,
    refusals_write_nothing, steps_are_single, steps_meet_levels,
};
pub use reg_rules;
pub use reg_rules::{
    avro_schema, base_text, reg_entries, reg_fold, reg_level_names, reg_levels, reg_modes,
    reg_records, reg_refusals, reg_set, reg_values,
};
pub use reply::Reply;
pub use staying::{
    deletes_name_greatest, steps_are_harmless, steps_keep_given_ids, steps_stay_open,
};
