//! What a request asks: a query, a command, or the reason why it is refused.
//!
//! One idea: a request passes a fixed sequence of tests, and the first one that fails decides the
//! answer. The tests are, in order: the stated length, the path, the method, a length and an
//! accepted type if the method takes a body, the UTF-8 of the path's parts, a whole body, the
//! version in the path, a JSON object as the body, and last the id in the path or the members of
//! the body.
//!
//! A refusal says whether the server closes the connection. A bad version, a bad id or a bad member
//! leaves it open; all other refusals close it.
//!
//! [`route_request`] does all this with a router made before. [`route_told`] starts from an
//! [`Endpoint`] and a length that are known. [`Routed`] makes its own router.
//!
//! This crate answers nothing and knows no registry. The queries are those of `reg_lookup`, the
//! commands those of `reg_leader`.
//!
//! The contract is that of [`route_request`]: the result is `asked_of` of the request.
//!
//! Tests: `run_cases`.
#![tactic(auto)]

mod action;
mod asked;
mod asking;
mod body;
mod routed;

pub use asked::Asked;
pub use asking::{route_request, route_told};
pub use reg_leader;
pub use reg_leader::{avro_schema, reg_fold, reg_levels, reg_records, reg_refusals, reg_set};
pub use reg_lookup;
pub use reg_messages;
pub use reg_messages::{HeaderField, Request, RequestParts};
pub use reg_routes;
pub use reg_routes::{Endpoint, Paths};
pub use routed::Routed;
