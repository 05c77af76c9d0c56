//! The journal: a log in a file, as record lines that outlive crashes.
//!
//! A log is lines, and an empty line behind them. What follows the empty line doesn't count: a
//! crash may have left it there. [`open_journal`] reads the log, cuts that off, and returns the
//! [`Journal`], which appends batches.
//!
//! One idea: the empty line's LF is a gate. All of a batch but its first byte goes behind the LF
//! and is synced; then that byte replaces the LF and is synced too. So a crash at any moment leaves
//! the log without the batch or with all of it.
//!
//! Files are reached through [`Disk`], whose clauses say what a read returns and what a crash may
//! leave. [`Memory`] keeps those clauses. No contract can say what a file of the system holds, so
//! they say nothing of [`StoredFile`]: that its syncs reach the disk is assumed.
//!
//! If a write may or may not have happened, the journal is *broken*: it takes no batch any more. A
//! restart reads what the file really has.
//!
//! This crate doesn't compact a log (`reg_compaction`), follow a file (`reg_tail`) or look records
//! up.
//!
//! [`Journal::append`] carries the theorem in its clauses `any_moment` (what a crash leaves) and
//! `acknowledged` (what `Ok` means). [`look`] says when a file is refused.
//!
//! Tests: `log_cases` and `test_log`.
#![tactic(auto)]

mod batch;
mod disk;
mod ended;
mod gate;
mod journal;
mod laws;
mod memory;
mod opening;
mod renewal;
mod stored;
mod system_error;

pub use disk::{Disk, DiskError};
pub use journal::{AppendError, Journal};
pub use laws::{batches_add_records, lines_are_logs};
pub use memory::Memory;
pub use opening::{Found, JournalOpenError, cut_behind, look, open_journal, recover, write_end};
pub use renewal::{RenewError, Renewable};
pub use stored::{StoredFile, Trouble, lock_file, make_alike, remove_if_there};
pub use system_error::SystemError;
