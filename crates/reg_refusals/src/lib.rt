//! The refusals of requests: their codes, HTTP statuses, reasons and messages.
//!
//! A refused request is answered with an HTTP status (RFC 9110) and a body with a code and a
//! message. A code is an HTTP status of three digits, or one with two more digits, as in the
//! Confluent Schema Registry API.
//!
//! One idea: a [`Refusal`] is a plain value, from which the code, the status, the reason and the
//! message follow. The status is the first three digits of the code. Codes with several causes name
//! theirs: [`Reason`] for an operation that isn't permitted, [`StoreFault`] for a fault of the
//! registry or its store.
//!
//! [`Allow`] is the value of the field `Allow` of a response with status 405.
//!
//! This crate decides no refusal, and it writes no response (`reg_responses` does).
//!
//! The main contracts are those of [`Refusal::code`] (`code_of`), [`Refusal::status`] (`status_of`)
//! and [`Refusal::message`] (`message_of`).
//!
//! Tests: `run_cases`.
#![tactic(auto)]

mod allow;
mod reason;
mod refusal;

pub use allow::Allow;
pub use reason::{Reason, StoreFault};
pub use refusal::Refusal;
