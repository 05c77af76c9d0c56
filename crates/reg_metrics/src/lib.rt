//! What an operator looks at: whether a process answers commands, and its numbers, over HTTP.
//!
//! There are two pages. `GET /metrics` gives the numbers in Prometheus' text format. `GET /ready`
//! gives 200 if the process is at [`Stage::Ready`], else 503; its body is the stage in one word.
//!
//! One idea: the pages have a listener and threads of their own ([`serve_pages`]), so they don't
//! wait for the workers of a node. There are 8 threads, each with one connection at a time, which
//! closes after its response. The head of a request has at most 8,192 bytes and 1 second; request
//! and response together have 10 seconds.
//!
//! The numbers are those of `reg_meters` and of the meters here ([`BatchMeters`], [`FileMeters`],
//! [`LineMeters`], [`AdapterMeters`]). Functions such as [`traffic_families`] append them to a
//! page.
//!
//! This crate doesn't know the text format (`exposition`), and looks only at the first line of a
//! request.
//!
//! The main contracts are that of [`answer_to`], which states the whole response, and the clause
//! `ready` of [`Condition::stage`]: a process is ready exactly if its nodes listen and no fault or
//! end of its log is known.
//!
//! Tests: `log_cases` and `test_service`.
#![tactic(auto)]

mod adapter;
mod answering;
mod asked;
mod endpoint;
mod families;
mod log_page;
mod meters;
mod process;
mod stage;
mod standing_page;
mod traffic_page;

pub use adapter::AdapterReply;
pub use answering::answer_to;
pub use asked::{PageRequest, asked_in};
pub use endpoint::{Pages, serve_pages};
pub use log_page::{adapter_families, batch_families, file_families, line_families};
pub use meters::{AdapterMeters, BatchMeters, FileMeters, LineMeters};
pub use process::{ProcessNumbers, numbers_in, process_numbers, started_in};
pub use stage::{Condition, Marks, Stage};
pub use standing_page::{process_families, stage_families};
pub use traffic_page::traffic_families;
