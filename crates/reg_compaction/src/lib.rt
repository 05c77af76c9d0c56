//! Compaction of logs in files: what compacting leaves of a log, also to a floor and in the place
//! of a journal's file; and the line that says where a whole log ends.
//!
//! A compaction keeps the last record of each key and drops those that were superseded. Compacting
//! *to a floor* (the low-water mark) also drops tombstones below it, and the log's first line then
//! says the floor. The next offset stays the same.
//!
//! One idea: a compacted log may stand for the whole one, also with batches from its floor on
//! behind it, and once it is compacted again. [`compactions_stand_for_logs`] is that theorem.
//! Record lines are copied as they are and never rewritten.
//!
//! There are filters from a reader to a writer ([`compact`], [`compact_to`]), which read all before
//! they write the first byte, and a compaction of a journal's file ([`compact_journal`],
//! [`compact_superseded`]), which a crash leaves as it was or compacted. [`open_aside`] cuts
//! nothing off a file until another file has it. [`write_whole_log`] adds a line that says where
//! the log ends; the filters refuse a log whose such line is wrong.
//!
//! This crate decides no schedule: callers choose when to compact and to which floor.
//!
//! [`compacted`] carries the main contract in its clause `compacted`, and [`compact_journal`] that
//! of crashes in `any_moment`.
//!
//! Tests: `log_cases`, `run_cases` and `test_log`.
#![tactic(auto)]

mod compacting;
mod cutting;
mod filter;
mod in_place;
mod lacking;
mod laws;
mod marking;
mod opening;
mod shrinking;
mod sorting;
mod to_floor;
mod walk;
mod whole;

pub use compacting::compacted;
pub use cutting::{floor_len, line_at};
pub use filter::{FilterError, compact, compact_to, filter_error, read_input, write_output};
pub use in_place::{JournalCompactError, compact_journal, compact_superseded};
pub use lacking::{greatest_named_is_greatest, mark_at, unmarked_id};
pub use laws::compactions_stand_for_logs;
pub use marking::{compacted_to_with_mark, compacted_with_mark, mark_of};
pub use opening::{Aside, Opens, open_aside};
pub use sorting::{compacted_in_order, compacted_to_in_order};
pub use to_floor::{ToFloorError, compacted_to};
pub use whole::{check_end, is_end, write_whole_log};
