//! Values of Avro schemas (Avro 1.11, "Schema Declaration"): which values a type has, a sample of
//! them, and their texts.
//!
//! [`Data`] is a value without the contents of its leaves: it has the shape (fields, items,
//! branches, symbols) and no numbers or bytes. [`Data::fits`] says whether a value is of a type.
//! [`sample`] returns a value of a schema, or `None` if it has no finite value, such as a record
//! that contains itself.
//!
//! One idea: samples are given in rounds. In each round a type gets its sample from those that
//! earlier rounds gave, so a recursive schema takes no endless search, and which types have a
//! finite value comes out by itself.
//!
//! Before a sample is built its size is known: one over [`PARTS_LIMIT`] or [`LEVELS_LIMIT`] is
//! refused with nothing built. [`PiecedText`] is a text that shares names with the schema and
//! doesn't copy them.
//!
//! This crate reads and writes no Avro bytes, and doesn't check defaults.
//!
//! [`sample`] carries the contract in its clauses `value` and `none`: a sample is a value of the
//! schema, and without one no value exists. [`samples_are_single`] says that there is only one.
//!
//! Tests: `avro_cases` and `test_records`.
#![tactic(auto)]

mod data;
mod error;
mod fits;
mod laws;
mod limits;
mod outline;
mod pieces;
mod rounds;
mod sampling;
mod text;
mod users;

pub use data::Data;
pub use error::SampleError;
pub use fits::node_at;
pub use laws::{samples_are_single, samples_are_values, values_have_samples};
pub use limits::{LEVELS_LIMIT, PARTS_LIMIT, data_limits_are_as_written};
pub use pieces::{Piece, PiecedText};
pub use sampling::sample;
