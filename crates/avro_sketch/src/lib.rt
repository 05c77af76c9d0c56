//! Sketches: what two schemas mean for each other, in a few lines for people.
//!
//! A sketch of a reader's and a writer's schema (Avro 1.11, "Schema Resolution") shows their
//! verdict, a sample value that the writer may write, and what the reader reads of it.
//!
//! One idea: a verdict is easier to believe with a value next to it. The value is the writer's
//! sample and the reading is the reader's own, so both follow from the two schemas alone, and two
//! schemas have exactly one sketch.
//!
//! A clash doesn't mean that this value is unreadable, only that some value may be; the sketch
//! shows both facts side by side.
//!
//! This crate parses no schema and writes to no output: [`sketch_text`] returns a text in pieces,
//! which shares the names with the schemas.
//!
//! [`sketch_text`] carries the contract in its clause `sketch`; [`schemas_have_one_sketch`] is the
//! law that there is only one.
//!
//! Tests: `run_cases`, by way of `reg_program`.
#![tactic(auto)]

mod laws;
mod sketching;

pub use laws::schemas_have_one_sketch;
pub use sketching::sketch_text;
