//! Readings: what a reader makes of a value that a writer wrote (Avro 1.11, "Schema Resolution").
//!
//! [`read_data`] takes a reader's schema, a writer's schema and a value of the writer's, and
//! returns the value that the reader sees: symbols, items and fields by the reader's types, a union
//! by the number of the reader's branch, and `Default` for a field that the writer didn't write.
//!
//! One idea: this is what a verdict of compatibility is worth. If the two schemas are compatible,
//! each value of the writer's has a reading. That connects the checker (`avro_resolve`), which sees
//! only schemas, with values.
//!
//! A reading may be much larger than the value. At most the limits of `avro_data` are ever built,
//! and [`ReadError::TooLarge`] is returned only if a whole reading exists.
//!
//! This crate reads no Avro bytes: leaves have no contents, so it converts no numbers.
//!
//! [`compatible_values_are_readable`] is the theorem; [`read_data`] has it in its clause
//! `compatible`, and `ok` and `refused` say what it returns.
//!
//! Tests: `run_cases`, by way of `avro_sketch` and `reg_program`.
#![tactic(auto)]

mod asked;
mod error;
mod laws;
mod members;
mod pairs;
mod readable;
mod reading;
mod room;

pub use error::ReadError;
pub use laws::compatible_values_are_readable;
pub use reading::read_data;
