//! Sets of records with a floor, below which a compaction may have dropped tombstones.
//!
//! A tombstone is a record without a value, which deletes its key. The floor is an offset, the
//! low-water mark: a key whose last record is a tombstone below the floor may be missing as a
//! whole.
//!
//! One idea: a compaction is a subset that keeps each last record, except tombstones below its
//! floor. So a set and its compactions have the same last records with a value. A compaction of a
//! compaction is one of the whole, and compactions of one floor that have the same records below it
//! may be merged.
//!
//! A [`KeptSet`] is a `RecordSet` with its floor. [`KeptSet::compact`] keeps tombstones;
//! [`KeptSet::compact_to`] raises the floor and drops those below it; [`KeptSet::rebase`] takes on
//! the higher floor of another set and its records below that floor.
//!
//! This crate chooses no floor. It doesn't check that taken records are above the floor: one below
//! it may bring back a deleted key.
//!
//! The main contract is that of [`KeptSet::compact_to`], clause `compaction`; the main law is
//! [`compactions_keep_what_stands`], clause `standing`.
//!
//! Tests: `record_cases` and `test_records`.
#![tactic(auto)]

mod dropping;
mod errors;
mod kept_set;
mod laws;
mod parts;

pub use dropping::is_gone;
pub use errors::{FloorError, MergeError};
pub use kept_set::{KeptSet, is_compaction_of};
pub use laws::{
    compacting_drops_what_may_leave, compactions_compose, compactions_keep_what_stands,
    compactions_unite, drops_leave_compactions, last_records_are_compactions,
    merging_joins_kept_sets, rebasing_keeps_lasts,
};
pub use parts::deletes_below;
