//! The entries of a registry, found by place, by subject and by id.
//!
//! An entry is a version of a subject with its id, its schema's text and its normal text. Its place
//! is its subject and version; a place has at most one entry.
//!
//! One idea: contracts see only the map from places to entries. The indexes beside it (by id, by
//! normal text, the greatest version of each subject, the ids with two schemas) are held to it by
//! the type's invariant, so each look-up is proved against a plain list of entries.
//!
//! The second idea: the soft delete of a subject isn't written into its entries. Look-ups are given
//! the last soft deletes ([`SoftDeletes`]) and show the entries that they cover as soft, so
//! deleting a subject touches no entry.
//!
//! This crate reads no records (`reg_fold` does), and decides no registration.
//!
//! The main contract is that of [`Entries::put`]: `put` says that the entry is at its place, and
//! `refused` that nothing changes if memory is refused. [`two_schemas_is_least`] is the law of
//! [`Entries::two_schemas`].
//!
//! Tests: `record_cases` and `rule_cases`, through registries.
#![tactic(auto)]

mod entries;
mod entry;
mod ids;
mod laws;
mod lists;
mod meanings;
mod names;
mod schemas;
mod soft_delete;
mod stored_entry;
mod tops;
mod version_texts;

pub use entries::Entries;
pub use entry::{Entry, Flag};
pub use laws::two_schemas_is_least;
pub use soft_delete::{SoftDelete, SoftDeletes};
pub use version_texts::texts_of;
