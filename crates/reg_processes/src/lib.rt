//! What several processes over one chain of batches agree on: laws, no types.
//!
//! A process has a base (a log, perhaps compacted), a list of its own, and has taken a prefix of
//! the chain's batches. Processes may begin at different bases, compact at different times, and lag
//! behind each other.
//!
//! One idea: neither bases nor compactions matter. [`registries_are_of_the_chain`] says that a
//! process answers and decides as a registry over all records of the batches that it took. From
//! that follow the theorems: [`same_logs_give_same_bytes`], that processes which took as many
//! batches give the same responses, and [`no_id_names_two_schemas`].
//!
//! It says nothing of how batches get from one process to another; `reg_join` takes them, and
//! `reg_joined` shows that its pens are such processes. [`processes_exist`] shows that the laws
//! aren't empty.
//!
//! Tests of the processes: `test_join`.
#![tactic(auto)]

mod laws;

pub use laws::{
    fronts_take_part, logs_are_compactions_of_the_chain, no_id_names_two_schemas, processes_exist,
    registries_are_of_the_chain, same_logs_give_alike, same_logs_give_same_bytes,
};
