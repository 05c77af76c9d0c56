//! What several processes over one shared log agree on.
//!
//! Each process has a pen (its single writer) over the log's chain of batches, as `reg_join` makes
//! it. This crate ties each such pen to the participants of `reg_processes`, which says what
//! participants agree on.
//!
//! It has no types and nothing runs here: only three laws. [`pens_take_part`] says that a pen takes
//! part in the chain, with what is pending and with what its readers see. [`pens_say_the_same`] is
//! the theorem: readers of two pens that have published as many batches answer a query by the same
//! bytes, and no id names two schemas with any two of them. [`desks_say_the_same`] takes the theorem
//! to desks, each of which has seen a prefix of what its pen has published.
//!
//! It doesn't say that all pens have published as many batches: one may be behind.
//!
//! Tests of the pens: `test_join`.
#![tactic(auto)]

mod laws;

pub use laws::{desks_say_the_same, pens_say_the_same, pens_take_part};
