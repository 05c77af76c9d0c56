// The progress of the thread that takes lines, for other threads.
use crate::ended::FollowError;
use std::sync::atomic::{AtomicBool, AtomicU64, Ordering};
use std::sync::{Mutex, Wait};

/// The progress of the thread that takes the lines of a log. Any thread may ask; no call but `fail`
/// and `error` blocks.
#[derive(Drop)]
pub struct Course {
    lines: AtomicU64,
    has_ended: AtomicBool,
    has_failed: AtomicBool,
    is_left: AtomicBool,
    error: Mutex<Option<FollowError>>,
}

impl Course {
    /// Makes the course of a thread that has taken no line.
    pub fn new() -> Course {
        Course {
            lines: AtomicU64::new(0),
            has_ended: AtomicBool::new(false),
            has_failed: AtomicBool::new(false),
            is_left: AtomicBool::new(false),
            error: Mutex::new(None),
        }
    }

    /// Returns how many lines were taken.
    pub fn lines(&self) -> u64 {
        self.lines.load(Ordering::SeqCst)
    }

    /// Notes that so many lines were taken in all.
    pub fn note(&self, lines: u64) {
        self.lines.store(lines, Ordering::SeqCst);
    }

    /// Returns whether no more lines will be taken, for whatever reason.
    pub fn has_ended(&self) -> bool {
        self.has_ended.load(Ordering::SeqCst)
    }

    /// Returns whether lines aren't taken any more because of an error.
    pub fn has_failed(&self) -> bool {
        self.has_failed.load(Ordering::SeqCst)
    }

    /// Notes that no more lines will be taken.
    pub fn end(&self) {
        self.has_ended.store(true, Ordering::SeqCst);
    }

    /// Notes that no more lines will be taken because of this error.
    pub fn fail<R: Wait>(&self, rt: &R, error: FollowError) {
        *self.error.lock(rt) = Some(error);
        self.has_failed.store(true, Ordering::SeqCst);
        self.end();
    }

    /// Returns the error for which lines aren't taken any more; `None` if there is none.
    pub fn error<R: Wait>(&self, rt: &R) -> Option<FollowError> {
        *self.error.lock(rt)
    }

    /// Notes that nobody needs the desks' list any more.
    pub fn leave(&self) {
        self.is_left.store(true, Ordering::SeqCst);
    }

    /// Returns whether nobody needs the desks' list any more.
    pub fn is_left(&self) -> bool {
        self.is_left.load(Ordering::SeqCst)
    }
}
