//! Lists of items with distinct names, in which an item is found by its name.
//!
//! The fields of a record and the symbols of an enum are such lists. A [`NamedList`] keeps the
//! items in the order in which they were given.
//!
//! One idea: the list is its own specification. A lookup returns what a search from the front
//! returns, so contracts speak of a plain list, and the index behind it is an implementation
//! detail.
//!
//! Up to 8 items are compared one by one. A longer list has an index: the items' positions sorted
//! by the hash of the name, and a table of slots that most lookups need alone. The hash has no
//! secret key: names chosen to collide in one slot cost a binary search each, not a linear one.
//!
//! A list can't be changed after it is built; turn it into a `Vec` and build it again.
//!
//! The main contract is that of [`NamedList::get`] and [`NamedList::place`]: their results are
//! `find` and `position` over the list. [`NamedList::of`] gives `None` if and only if two items
//! have the same name.
//!
//! Tests: `avro_cases` (the `.finds` rows) and `test_records`.
#![tactic(auto)]

mod index;
mod list;
mod lookup;
mod named;
mod slots;

pub use list::NamedList;
pub use named::Named;
