//! Queries: what a registry answers.
//!
//! [`answer`] takes a registry and a [`Query`], and returns an [`Answer`]: an HTTP status (RFC
//! 9110) and a body, JSON without spaces (RFC 8259), or a schema's bare text. The queries are the
//! lookups and compatibility checks of the Confluent Schema Registry API. A refusal is an answer
//! too, with its code and message.
//!
//! One idea: an answer depends only on the last record of each key. So a log and each part of it
//! that keeps its last records give the same answer, to the byte ([`keeping_lasts_answers_alike`]).
//!
//! A check may take long. [`Grounds`] copies what it needs from the registry; the answer is then
//! made without it.
//!
//! This crate parses no requests, writes no headers and changes nothing.
//!
//! The main contract is that of [`answer`]: `answered`, that it is the defined answer, and
//! `compactions`, that each part that keeps the last records has it too.
//! [`queries_have_one_answer`] is the law that there is only one.
//!
//! Tests: `rule_cases` (`queries.sessions`) and `world_cases`; `run_cases` has queries in requests.
#![tactic(auto)]

mod answered;
mod answering;
mod bodies;
mod by_id;
mod by_schema;
mod by_subject;
mod checked;
mod error;
mod found;
mod in_string;
mod laws;
mod query;
mod settings;

pub use answered::Answer;
pub use answering::answer;
pub use checked::Grounds;
pub use laws::{keeping_lasts_answers_alike, queries_have_one_answer};
pub use query::Query;
