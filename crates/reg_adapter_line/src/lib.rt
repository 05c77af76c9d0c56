//! The line between a process and its adapter, shared by all threads of the process.
//!
//! An *adapter* is a program that keeps the log in a store, which many processes write. One thread
//! reads what it tells ([`read_messages`]), one writes what is asked of it ([`send_requests`]), and
//! the writer of the log asks and takes through [`AdapterChain`]:
//!
//! ```text
//! input  -> read_messages -> AdapterLine -> AdapterChain::next, AdapterChain::append
//! output <- send_requests <- AdapterLine <- AdapterChain::append
//! ```
//!
//! One idea: what was said and what is due is one value, an exchange over a conversation
//! (`reg_adapter_chain`), under one lock that no thread holds while it waits. A caller waits for an
//! answer for its patience at most. If it gives up, nothing more is asked until the answer comes,
//! and a batch that was kept is handed out like any other.
//!
//! [`Overhear`] is called for each message and request, for those who count them.
//!
//! What each call does with the exchange is proved. Threads and pipes aren't: a lock says no more
//! of its value than the value's type does. So [`AdapterChain`] keeps the clause `told` of
//! `Chain::append` (`reg_chain`), and what an answer means is stated in `reg_adapter_chain`.
//!
//! Tests: `test_log`.
#![tactic(auto)]

mod chain;
mod end;
mod exchange;
mod line;
mod overhearing;
mod reading;
mod sending;
mod stalls;
mod told;

pub use chain::AdapterChain;
pub use end::LineEnd;
pub use line::AdapterLine;
pub use overhearing::{AskedFor, Heard, Overhear};
pub use reading::{read_messages, tell_all};
pub use sending::send_requests;
