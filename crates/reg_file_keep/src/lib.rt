//! The keep of a log in a file: what makes a pen's batches durable.
//!
//! [`start_file_keep`] reads the log, moves what follows its empty line to another file, appends the
//! mark of ids that the log lacks, and returns the log with an open keep. From then on each batch is
//! appended and synced before the pen publishes it. [`start_closed`] reads a log without ever
//! writing to its file.
//!
//! One idea: the file always says a compaction of what was kept. It is compacted when many of its
//! lines are superseded, by a new file that replaces the old one, so a crash at any moment leaves
//! the old contents or the new.
//!
//! It doesn't know paths or locks: it works on a `Disk` from `reg_journal`, which also holds the
//! model of what a crash may leave. The proofs speak of such a disk; a real one that loses synced
//! bytes is outside them.
//!
//! [`submits_keep_the_file`] is the theorem: after each submit, and after any crash from then on,
//! the file says what the pen has published, up to a compaction. [`opens_keep_the_file`] says the
//! same of a start.
//!
//! Tests of the journal below it: `test_log`.
#![tactic(auto)]

mod closed;
mod keeping;
mod laws;
mod log_keep;
mod marking;
mod room;
mod starting;
mod upkeep;

pub use closed::start_closed;
pub use keeping::FileKeep;
pub use laws::{
    closed_logs_take_no_command, marks_cover_ids, open_logs_keep_as_files, opens_keep_the_file,
    submits_keep_the_file,
};
pub use log_keep::LogKeep;
pub use starting::{NotStarted, StartFault, Started, start_file_keep};
