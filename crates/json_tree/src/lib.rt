//! JSON values that borrow their texts from the text that they were read from.
//!
//! `avro_schema` reads a schema's text into a [`Json`], looks at its members, and writes it back as
//! the schema's normal text. One pass over the tokens makes the tree.
//!
//! One idea: no string is copied. A string without escapes is a slice of the text that was read;
//! one with escapes is decoded into the caller's scratch buffer, and the tree borrows it from
//! there.
//!
//! The members of an object are kept in byte order of their names. If a name comes twice, the last
//! value counts.
//!
//! This crate doesn't keep a number's digits: an integer of 64 bits is kept exactly, any other
//! number as the nearest float. It reads at most 127 nested arrays and objects, and it writes no
//! floats ([`Json::to_text`] requires a value without them).
//!
//! The main contract is that of [`Json::read`]: its clause `ok` says that the tree is what the
//! specification of JSON reads from the text, and `err` that `NotJson` is returned only if the
//! specification reads nothing.
//!
//! Tests: `avro_cases`, which reads schemas through this crate.
#![tactic(auto)]

mod members;
mod number;
mod read;
mod tree;
mod write;

pub use tree::{Json, JsonError};
