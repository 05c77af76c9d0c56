//! The routes of the registry: which path and which action a request's target and method name.
//!
//! One idea: routing looks at the first line of a request alone, before its fields and its body.
//! The 13 paths of the Schema Registry API are in one router ([`Paths`]). An [`Endpoint`] has the
//! path ([`Route`]) and what the method asks of it ([`Action`]), and each may be missing: the
//! target names no path, or the path doesn't offer the method.
//!
//! Once a router is made, routing takes no memory. Only decoding the parts of a path and the pairs
//! of a query does ([`text_part`], [`has_switch`]). Escapes are decoded once, after the path was
//! split, so an escaped slash (`%2F`) is part of a subject.
//!
//! This crate reads no body and no version, and answers nothing: `reg_requests` makes a query or a
//! command of these parts.
//!
//! The contract is that of [`Paths::endpoint`]: the result is `endpoint_of` of the method and the
//! target. [`Route::allow`] has a clause `text`: the field `Allow` lists exactly the methods that
//! the path offers.
//!
//! Tests: `run_cases` (through `reg_requests`), `test_service` and `log_cases`.
#![tactic(auto)]

mod endpoint;
mod path_part;
mod paths;
mod route;
mod switch;
mod target;

pub use endpoint::Endpoint;
pub use path_part::PathPart;
pub use paths::Paths;
pub use route::{Action, Route};
pub use switch::has_switch;
pub use target::{is_path, path_of, query_of, text_part};
