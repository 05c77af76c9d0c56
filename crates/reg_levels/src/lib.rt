//! Compatibility levels: which pairs of schemas a level requires to be compatible, and whether they
//! are.
//!
//! A level asks about no version, about the greatest one or about all, and in one direction or in
//! both. That gives a list of required pairs, each of a reader's schema and a writer's.
//! `avro_resolve` judges one pair; this crate goes through the list.
//!
//! One idea: the list has a fixed order, from the greatest version down and `Backward` before
//! `Forward`, and a verdict reports the first pair that clashes. So a list has exactly one verdict
//! ([`level_verdicts_are_single`]).
//!
//! [`check`] takes schemas, and [`check_texts`] takes texts. A [`Judged`] keeps a verdict with the
//! texts that it was made of; [`Judged::fits`] tells later whether it still applies.
//!
//! This crate remembers nothing between calls (`reg_judge` does), and it doesn't look up the
//! versions of a subject.
//!
//! The main contract is that of [`check`]: `verdict` says that the result is the level's verdict,
//! and `ok` that it is good exactly if each required pair is compatible.
//!
//! Tests: `rule_cases`; `world_cases` has judgements at pens, and `test_records` has [`looked_at`].
#![tactic(auto)]

mod checking;
mod direction;
mod judged;
mod judged_error;
mod message;
mod texts;
mod verdict;
mod versions;

pub use checking::{check, level_verdicts_are_single, looked_at};
pub use direction::Direction;
pub use judged::{Judged, copy_of};
pub use judged_error::JudgedError;
pub use message::ClashMessage;
pub use reg_level_names::Level;
pub use texts::{check_read_texts, check_texts, lend_texts};
pub use verdict::LevelVerdict;
pub use versions::versions_rise;
