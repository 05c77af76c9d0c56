//! Sets of records, and the last record of each key.
//!
//! A [`RecordSet`] holds the records that a node has taken, in any order, repeated or not.
//! [`LastRecords`] holds only the last record of each key, which is what a compaction leaves.
//!
//! One idea: the state is a set, so the order of arrival doesn't matter. Merging is commutative,
//! associative and idempotent, and the last record of a key in a merged set is the greater of the
//! two last ones. Records of one key are ordered by offset, then no value before a text, then by
//! the text's bytes.
//!
//! A subset that keeps the last record of each key can replace the whole set: it has the same last
//! records, also after more records are added.
//!
//! A last record without a value (a tombstone) deletes its key, and a compaction here keeps it.
//! `reg_floored` drops tombstones. This crate doesn't look into values (`reg_values` does).
//!
//! The main contract is that of [`RecordSet::merge`]: `merged` says that the result is the union,
//! and `lasts` what its last records are. The laws are [`merging_joins_sets`] and
//! [`last_records_are_enough`].
//!
//! Tests: `record_cases` and `test_records`.
#![tactic(auto)]

mod by_key;
mod last_records;
mod laws;
mod of_one_key;
mod order;
mod record_set;
mod turns;
mod with_text;

pub use last_records::LastRecords;
pub use laws::{
    keeping_lasts_composes, last_is_greatest, last_records_are_enough, last_records_of_unions,
    merging_joins_sets, records_are_listed_in_order, records_are_ordered,
};
pub use record_set::{RecordSet, TakeOutcome, is_compaction_below, keeps_lasts};
