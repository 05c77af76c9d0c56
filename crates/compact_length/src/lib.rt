//! The compact text of a JSON value, and any text that it was read from.
//!
//! The compact text is JSON without spaces, the members of each object in byte order of their
//! names. `avro_schema` uses it as the normal text of a schema. A schema's text has a limit of
//! length, so its normal text is a schema's text too only if it isn't longer.
//!
//! One idea: compacting never makes a text longer. Any text has the tokens of the value, and
//! spaces, escapes and repeated keys only add bytes to them.
//!
//! This crate has no code that runs: it holds one law, and a function that needs the law calls it.
//! It writes no text; `json_tree` does.
//!
//! The law is [`compact_texts_are_no_longer`]: if a text reads as a value, the value's compact text
//! is at most as long.
//!
//! Tests: none of its own, since nothing runs; `avro_cases` has rows of normal texts.
#![tactic(auto)]

ghost use Rattle.std.specs.Prelude.{◌≡◌, ◌≤◌, ℕ, List, Some, length};
ghost use Rattle.serde_json.specs.Data.{Data};
ghost use Rattle.serde_json.specs.Read.{read};
ghost use Rattle.serde_json.specs.Written.{compact_text};

/// States that the compact text of a JSON value is no longer than any text that reads as that
/// value.
///
/// A text may have more bytes because of spaces, escapes and repeated keys. A float counts as zero
/// bytes here, since `compact_text` has no text for one.
pub fn compact_texts_are_no_longer()
    ensures { (text : List ℕ) (d : Data) → read text ≡ Some d → length (compact_text d) ≤ length text }
{}
