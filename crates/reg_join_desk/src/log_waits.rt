// Counts the workers that wait for the log.
ghost use Rattle.std.specs.Prelude.{◌≡◌, ◌+◌, ◌*◌, ◌<◌, ◌≤◌, IfNone, IfSome};

use std::sync::atomic::{AtomicU32, Ordering};

/// A limit on how many workers of a port wait for the log at one time, so that the others serve
/// what needs no log. At most half of those that may wait do so with lookups, so that commands find
/// a worker.
#[derive(Drop)]
pub struct LogWaits {
    most: u32,
    waiting: AtomicU32,
    /// How many of them wait with lookups.
    lookups: AtomicU32,
}

impl LogWaits {
    /// Makes a limit of `most` waiting workers, of which none waits yet. Give it one less than the
    /// port has workers.
    pub const fn new(most: u32) -> LogWaits {
        LogWaits {
            most,
            waiting: AtomicU32::new(0),
            lookups: AtomicU32::new(0),
        }
    }

    /// Counts a worker that is about to wait with a command. Returns `false` if too many wait;
    /// otherwise a call of `leave` has to follow.
    pub fn enter(&self) -> bool {
        is_one_more(&self.waiting, self.most)
    }

    /// Counts a worker with a command that has stopped waiting.
    pub fn leave(&self) {
        one_less(&self.waiting);
    }

    /// Counts a worker that is about to wait with a lookup. Returns `false` if too many wait;
    /// otherwise a call of `leave_lookup` has to follow.
    pub fn enter_lookup(&self) -> bool {
        if !is_one_more(&self.lookups, most_lookups(self.most)) {
            return false;
        }
        if !is_one_more(&self.waiting, self.most) {
            one_less(&self.lookups);
            return false;
        }
        true
    }

    /// Counts a worker with a lookup that has stopped waiting.
    pub fn leave_lookup(&self) {
        one_less(&self.waiting);
        one_less(&self.lookups);
    }
}

/// Returns how many of the waiting workers may wait with lookups: half, and at least one.
fn most_lookups(most: u32) -> u32
    ensures some { 0 < result }
    ensures half { result * 2 ≤ most + 1 + 1 }
    ensures left { 1 < most → result < most }
{
    (most / 2).max(1)
}

/// Counts one more, unless there are `most` already. Returns whether it did.
fn is_one_more(count: &AtomicU32, most: u32) -> bool {
    count
        .fetch_update(
            Ordering::SeqCst,
            Ordering::SeqCst,
            |waiting| one_more(waiting, most),
        )
        .is_ok()
}

/// Counts one less.
fn one_less(count: &AtomicU32) {
    let _left = count.fetch_update(Ordering::SeqCst, Ordering::SeqCst, |waiting| {
        waiting.checked_sub(1)
    });
}

/// Returns one more than wait, unless as many as may wait do.
fn one_more(waiting: u32, most: u32) -> Option<u32>
    ensures some { IfSome result (λ more. (more ≡ waiting + 1) × (more ≤ most)) }
    ensures none { IfNone result (most ≤ waiting) }
{
    if waiting < most {
        Some(waiting + 1)
    } else {
        None
    }
}
