//! The pen: the single writer of a topic's log.
//!
//! Commands come one after the other. Each is decided on the published log, its batch is lent to a
//! *keep*, which makes it durable (a file or a store, [`Keep`]), and only then is it published to
//! readers.
//!
//! One idea: at most one item is pending. If memory is refused after the keep has taken a batch,
//! the batch stays pending and the client gets an `Unsettled` reply; the next command publishes it
//! first. So no batch is published that isn't kept, and readers see a lawful list at all times.
//!
//! [`Pen::submit_and_compact`] also publishes a compaction every 64 batches, which drops what
//! lookups don't need; its floor (the low-water mark) rises only if many deletes are due.
//!
//! The pen has no lock of its own: callers put it in a `Mutex`, and each has a [`Pass`], which
//! counts its submits.
//!
//! [`Pen::submit`] carries the theorem in its clause `submits`: the reply and the new list are the
//! command's step from the published log, or one of the named exceptions. [`open`] says when a log
//! is refused.
//!
//! Tests: `world_cases`, `test_join` and `test_service`.
#![tactic(auto)]

mod compact_error;
mod deletes;
mod keep;
mod kept_log;
mod laws;
mod lending;
mod open_error;
mod pass;
mod pen;
mod telling;
mod writing;

pub use compact_error::CompactError;
pub use keep::{Keep, Kept, Lack, MemoryAlone};
pub use kept_log::KeptLog;
pub use laws::submits_publish_or_wait;
pub use lending::WithKeep;
pub use open_error::OpenError;
pub use pass::Pass;
pub use pen::{Opened, Pen, Submitted, open, open_begun};
pub use telling::{Tell, Told};
