//! A process that serves a log which other processes write too.
//!
//! An *adapter*, a program beside it, speaks with the store. It tells the base (a log), then the
//! batches after it, then `ready`, then what others write; and it appends what this process asks it
//! to. [`serve_joined`] reads the base, takes in all up to `ready`, and then serves its ports,
//! while one thread takes in what is told.
//!
//! One idea: each batch of others is decided again before it is taken. So processes that share a
//! log need the same [`RULES`]. At a batch that no command writes nothing more is taken in;
//! [`Watch`] tells the operator, commands are refused, and lookups go on.
//!
//! It doesn't speak with a store, and it keeps no file.
//!
//! [`read_base`] carries the theorem about what a process begins with, in its clauses `begins` and
//! `refused`. The theorems about replies are in `reg_join` and `reg_join_desk`; the serving around
//! them is tested, not proved.
//!
//! Tests: `test_join` has those of the pen and the desks.
#![tactic(auto)]

mod base;
mod base_error;
mod desks;
mod error;
mod following;
mod history;
mod opening;
mod rules;
mod serving;
mod size;
mod taking;
mod talking;
mod watch;

pub use base::{Base, read_base};
pub use base_error::JoinBaseError;
pub use error::JoinError;
pub use reg_adapter_line::{AskedFor, Heard, Overhear};
pub use rules::RULES;
pub use serving::serve_joined;
pub use watch::Watch;
