//! Copies of maps and sets, in trees whose nodes are full.
//!
//! A tree that grew by keys in ascending order has nodes that are half full, and a plain clone has
//! the same nodes. These copies hold the same entries in half the memory. `reg_set` and
//! `reg_entries` use them to clone what they hold.
//!
//! One idea: collect the clones in a list, in order, and build the tree from the list. A tree built
//! from a sorted list gets full nodes.
//!
//! While a copy is made, the list and the tree both take memory. This crate doesn't pack a tree in
//! place.
//!
//! The main contract is that of [`copy_map`], clause `same`: each key has the same value in the
//! copy, if a clone of a key ties with its original and a clone of a value equals it. [`copy_set`]
//! says the same of a set's keys. That the nodes are full isn't proved.
//!
//! Tests: `record_cases` and `test_records`, by copies of last records.
#![tactic(auto)]

mod maps;
mod sets;

pub use maps::copy_map;
pub use sets::copy_set;
