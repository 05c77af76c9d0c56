//! The meaning of the values of records: schemas, levels, modes and deletes.
//!
//! A record has a key and the text of a value (`reg_records`). This crate decodes the text under
//! its key, as JSON: the value of a version has to name the subject and the version of its key and
//! hold a plain Avro schema, and a level has to be one of the seven names.
//!
//! One idea: decoding depends on the record alone, and a text that isn't a value of its key gives
//! `None`, not an error. The only error is out of memory.
//!
//! [`decode`] also gives the normal text of a version's schema, by which schemas are compared. A
//! text that brings along the value that it was written for isn't parsed again.
//!
//! This crate doesn't choose the last record of a key (`reg_set`), and builds no registry
//! (`reg_fold`).
//!
//! The main contract is that of [`decode_value`]: the result is `value_of` of the record. The laws
//! are [`written_values_read_back`], that a written value is read back under its key, and
//! [`values_are_of_keys`], that a value that was read is one of its key.
//!
//! Tests: `record_cases` and `test_records`.
#![tactic(auto)]

mod brought;
mod decoding;

pub use avro_schema;
pub use base_text;
pub use decoding::{
    Decoded, decode, decode_value, deleted_in, has_no_items, is_absent, is_avro, is_empty_list,
    is_plain_avro, values_are_of_keys, written_values_have_lines, written_values_read_back,
};
pub use reg_level_names;
pub use reg_records;
