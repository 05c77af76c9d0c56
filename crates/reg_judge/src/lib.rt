//! A judge: level checks that keep the schemas that they read and the verdicts that they reached.
//!
//! A level check parses the texts of schemas and resolves pairs of them. A [`Judge`] keeps schemas
//! by text, and verdicts by the pair of a reader's and a writer's text, so that later checks
//! needn't repeat the work. Each of the two caches has its own capacity, from 1 to [`KEPT_LIMIT`],
//! and drops what was used longest ago.
//!
//! One idea: the caches change no answer. A check returns the verdict that `reg_levels` reaches on
//! the same texts, whatever was asked before. If memory is refused for keeping something, it isn't
//! kept, and the answer is the same.
//!
//! This crate has no locks and no threads, and it knows no subjects or registries: callers give the
//! level and the texts.
//!
//! The main contract is that of [`Judge::check`]: `verdict` says that the result is a true verdict,
//! and `only` that there is no other. `used` and `schemas` say what is kept.
//! [`pairs_judged_last_are_kept`] says that the judge has the pair that was judged last, if it kept
//! each verdict.
//!
//! Tests: `rule_cases`; `world_cases` has judges at pens and desks.
#![tactic(auto)]

mod judge;
mod judge_error;
mod judging;
mod kept_schema;
mod limits;
mod schemas;
mod source;
mod verdicts;

pub use judge::{Judge, pairs_judged_last_are_kept};
pub use judge_error::JudgeError;
pub use limits::{KEPT_LIMIT, judge_limits_are_as_written};
