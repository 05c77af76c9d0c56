//! Lookups over a feed: a `View` is a snapshot reader that never blocks.
//!
//! A feed is a replicated log of items that comes with the value which the items fold to. If this
//! value shows a registry ([`ShowsRegistry`]), a [`View`] answers queries from it. Each view
//! remembers the prefix that it saw or learnt of, and each later answer comes from a published list
//! that begins with that prefix. So a view never goes back in time, and once it has learnt of a
//! write, its answers show it.
//!
//! The view also copies what a registration has to be checked against ([`Case`]), so that a long
//! check holds up nobody. Before the write the caller asks whether the case still fits
//! ([`Case::stands`]).
//!
//! This crate writes nothing and starts no thread; when a view learns of newer prefixes is its
//! owner's business.
//!
//! [`View::lookup`] carries the theorem: its `ensures` says that the answer is the answer over a
//! published list, and that this list extends what the view saw. [`View::try_judge`] says the same
//! of judgements. [`alike_judges_alike`] is the law that lets a compacted registry judge for the
//! whole log.
//!
//! Tests: `world_cases`, through the views of nodes.
#![tactic(auto)]

mod against;
mod case;
mod laws;
mod shared;
mod shows;
mod view;

pub use case::Case;
pub use laws::alike_judges_alike;
pub use reg_judge::{Judge, JudgeError};
pub use shows::ShowsRegistry;
pub use view::View;
