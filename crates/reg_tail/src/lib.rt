//! The tail: follows a log in a file to which another process appends, and writes out its lines,
//! each once.
//!
//! [`follow_file`] looks at the file every 20 ms. [`write_look`] is one look: it reads what was
//! appended, syncs the file, and only then writes the lines out. So no line is given that a crash
//! could take back.
//!
//! One idea: a reader's whole state is a [`Tail`], the place of the file's empty line and the
//! offset to go on from. If another file takes the name (a compaction renames a new one over it),
//! the reader finishes the old file and goes on in the new one from that offset, so no line is
//! given twice.
//!
//! A [`Source`] is the file as its reader sees it. Its clauses assume that the writer never changes
//! a line before the empty line, as a journal doesn't (`reg_journal`). They say nothing of
//! [`StoredTail`], a file of the system: no contract can say what it holds.
//!
//! This crate writes nothing into the log, and keeps no records in memory.
//!
//! [`looks_give_the_file`] is the theorem: the texts of all looks, one behind the other, are the
//! file's lines from the offset on (`given`; from 0 `all` its bytes), and none is given again in a
//! file that takes its place (`once`).
//!
//! Tests: `log_cases` and `test_log`.
#![tactic(auto)]

mod error;
mod following;
mod front;
mod gathered;
mod laws;
mod line;
mod reading;
mod source;
mod stored;
mod tail;
mod writing;

pub use error::TailError;
pub use following::{follow, follow_file, write_begun, write_look, write_more};
pub use laws::looks_give_the_file;
pub use source::Source;
pub use stored::StoredTail;
pub use tail::Tail;
