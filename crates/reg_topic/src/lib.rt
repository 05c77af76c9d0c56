//! The topic: an append-only log of records, and the kept set that compactions leave of it.
//!
//! A topic changes by *items*: a [`Commit`] is a command with the batch that it wrote, and a
//! [`Compaction`] drops records from the kept set and may raise its floor (the low-water mark below
//! which deletes may be gone). A list of items is *lawful* if each of them may follow on those
//! before it.
//!
//! One idea: this is the plain definition that everything above refers to. [`Topic`] keeps the
//! whole log and copies it at each batch; the running registry keeps the same state in
//! `reg_shared`, and contracts relate the two.
//!
//! It has no readers, writers or nodes. `reg_world` adds nodes, `reg_pen` the writer.
//!
//! The theorems are [`lawful_lists_keep_ids`], that an id names one schema for good,
//! [`lawful_lists_meet_levels`], that each registered version met the level then in force, and
//! [`kept_sets_are_compactions`].
//!
//! Tests: `world_cases`.
#![tactic(auto)]

mod laws;
mod published;
mod topic;

pub use laws::{
    adopted_logs_begin, allowed_drops_leave_compactions, commits_follow, floors_stay_below,
    kept_sets_are_compactions, lawful_items_follow, lawful_lists_keep_ids,
    lawful_lists_meet_levels, lists_are_joined, log_is_what_was_published, more_keeps_lasts,
};
pub use published::{Commit, Compaction, Item};
pub use topic::{Topic, follows};
