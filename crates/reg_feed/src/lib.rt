//! Published lists: one writer, and readers that never wait.
//!
//! A feed is a list of items with the value that the items fold to ([`Fold`]). The writer appends
//! items, which are *pending* at first, and publishes all pending ones at once. Readers look at the
//! value of the published list.
//!
//! One idea: there are two copies of the value. Readers look at one of them while the writer brings
//! the other up to date, so a read takes no lock; only the writer may have to wait for readers of
//! the older copy. The items aren't stored: a list ([`Seen`]) has their number, and only contracts
//! see the items themselves.
//!
//! What a reader sees only grows. Each list that it is shown begins with all lists that it saw
//! before, or learnt of from others ([`FeedReader::learn`]).
//!
//! A feed has a fact of its own choice, `publishes` of [`Fold`]: each publish requires it of the
//! new list, and each read gives it to the reader.
//!
//! This crate has no files, no sockets and no threads. `reg_pen` writes the topic's feed;
//! `reg_node` and `reg_view` read it.
//!
//! The main contracts are the clause `published` of [`FeedWriter::publish`] and the clauses
//! `published`, `seen` and `longer` of [`FeedReader::read`].
//!
//! Tests: `test_feed`, `world_cases` and `test_join`.
#![tactic(auto)]

mod copies;
mod entry;
mod fold;
mod front;
mod history;
mod reader;
mod right;
mod seen;
mod shelf;
mod shown;
mod stored;
mod writer;

pub use copies::Copies;
pub use fold::Fold;
pub use history::{FeedName, Unnamed};
pub use reader::FeedReader;
pub use seen::Seen;
pub use stored::{Op, Stored};
pub use writer::{FeedWriter, NoPlace, feed};
