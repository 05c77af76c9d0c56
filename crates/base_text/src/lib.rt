//! A text and a list that contracts see as plain lists, for every crate above.
//!
//! [`Text`] is an immutable UTF-8 text; contracts see its bytes. [`Listed`] is an immutable vector;
//! contracts see its elements.
//!
//! One idea: types that are stored in other types should look like data in contracts. A record with
//! a `Text` field is, to a contract, a record with a list of bytes, and nobody has to unwrap an
//! allocation or a reference count.
//!
//! Clones of a [`Text`] share its bytes: cloning copies nothing. Clones of a [`Listed`] copy the
//! elements. An empty text made by [`Text::empty`] has no allocation.
//!
//! This crate has no functions that change, split or parse a text; use `Text::as_str` and the
//! standard library.
//!
//! The main contracts are those of [`Text::copy_of`] and [`Text::of_string`] (the text has the
//! bytes given) and the impls of `Eq` and `Ord` for [`Text`]: both compare bytes, and their clauses
//! `laws`, `total` and `matches_eq` say that the order is total and fits equality.
//!
//! Tests: `test_records`; `avro_cases` uses both types in its rows.
#![tactic(auto)]

mod list;
mod text;

pub use list::Listed;
pub use text::Text;
