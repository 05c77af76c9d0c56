// Messages and requests that aren't finished.
use crate::end::LineEnd;
use std::sync::{Mutex, Wait};
use std::time::{Clock, Duration, Instant};

/// The time within which a message or a request has to be finished, in seconds; then the line is
/// over.
const FINISHED_WITHIN: u64 = 30;

/// The time since when a message isn't finished, and since when a request isn't written.
#[derive(Drop)]
struct Since {
    message: Option<Instant>,
    request: Option<Instant>,
}

/// A watch on what an adapter began to say or to take and hasn't finished. If the clock can't be
/// read, nothing is late.
#[derive(Drop)]
pub(crate) struct Stalls {
    since: Mutex<Since>,
}

impl Stalls {
    /// Makes a watch with nothing begun.
    pub(crate) const fn new() -> Stalls {
        Stalls {
            since: Mutex::new(Since {
                message: None,
                request: None,
            }),
        }
    }

    /// Stops the watch on messages while a piece that was read is told. Returns since when the
    /// message that it continues isn't finished.
    pub(crate) fn pause<R: Wait>(&self, rt: &R) -> Option<Instant> {
        self.since.lock(rt).message.take()
    }

    /// Starts the watch on a message that isn't finished: the one from before the pause if
    /// `is_same`, or else a new one.
    pub(crate) fn go_on<R: Wait + Clock>(&self, rt: &R, before: Option<Instant>, is_same: bool) {
        let message = match before {
            Some(before) if is_same => Some(before),
            _ => Instant::now(rt).ok(),
        };
        self.since.lock(rt).message = message;
    }

    /// Starts the watch on a request.
    pub(crate) fn begin_request<R: Wait + Clock>(&self, rt: &R) {
        let now = Instant::now(rt).ok();
        self.since.lock(rt).request = now;
    }

    /// Ends the watch on a request, which is written.
    pub(crate) fn end_request<R: Wait>(&self, rt: &R) {
        self.since.lock(rt).request = None;
    }

    /// Returns what isn't finished in time, if anything.
    pub(crate) fn late<R: Wait + Clock>(&self, rt: &R) -> Option<LineEnd> {
        let now = Instant::now(rt).ok()?;
        let since = self.since.lock(rt);
        if is_late(since.message, now) {
            return Some(LineEnd::Unfinished);
        }
        if is_late(since.request, now) {
            return Some(LineEnd::Unread);
        }
        None
    }
}

fn is_late(since: Option<Instant>, now: Instant) -> bool {
    match since {
        Some(since) => now.duration_since(since) >= Duration::from_secs(FINISHED_WITHIN),
        None => false,
    }
}
