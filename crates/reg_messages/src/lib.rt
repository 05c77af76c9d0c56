//! Request messages of HTTP/1.1 (RFC 9112): a head, and the body whose length its fields state.
//!
//! There are two ways to one result. [`read_message`] takes a message from a reader, byte by byte
//! in the head and no byte past the body, and copies it. [`read_front`] looks at bytes that already
//! came, says how long the message at their front is, and [`message_parts`] lends its parts without
//! copying.
//!
//! One idea: after each message it is known where the next one begins. A head that can't be parsed,
//! a transfer coding or an unclear length is refused, because nothing can follow such a message. If
//! memory for a message is refused, its bytes are taken all the same.
//!
//! The limits are constants ([`HEAD_LIMIT`], [`HEAD_FIELDS`], [`BODY_LIMIT`], ..), and the reads
//! for one request are bounded ([`REQUEST_READS`]).
//!
//! This crate doesn't know the paths of the registry (`reg_routes`) or what a request asks
//! (`reg_requests`), and reads no chunked body.
//!
//! The contracts are the clause `got` of [`read_message`] and that of [`message_parts`]: both give
//! what the front of the text is (`GetsFrom`, `GetsLent`). [`read_front`] has the clause `takes`:
//! what it says of the length holds whatever bytes come later.
//!
//! Tests: `run_cases`.
#![tactic(auto)]

mod body_reading;
mod digits;
mod field;
mod fields;
mod front;
mod head;
mod head_read;
mod kept_read;
mod limits;
mod lines;
mod message;
mod parsing;
mod parts;
mod placed;
mod reading;
mod request;
mod taking;
mod types;

pub use digits::digits_value;
pub use field::{Fields, HeaderField};
pub use fields::{asks_to_close, find_value, told_length, trim_ows};
pub use front::{FrontRead, read_front};
pub use limits::{
    BODY_LIMIT, HEAD_FIELDS, HEAD_LIMIT, HEAD_LINES, REQUEST_READS, message_limits_are_as_written,
};
pub use message::message_parts;
pub use parts::{LendsParts, RequestParts};
pub use reading::{Got, read_message};
pub use request::Request;
pub use taking::ReadFault;
pub use types::has_accepted_types;
