// When commands came, by the requests that were made of a chain.
use std::sync::atomic::{AtomicBool, AtomicU64, Ordering};

/// A counter of the requests that a process makes of a chain, so that one answer serves all
/// commands that came before its request was made.
///
/// A command notes the count when it comes. If a request with a higher number is answered `Kept`,
/// nothing stood behind what was told at some moment after the command came.
#[derive(Drop)]
pub struct Arrivals {
    asked: AtomicU64,
    // Of the command that is done now: how many had been asked when it came, and whether it waits for a check only briefly.
    came: AtomicU64,
    is_brief: AtomicBool,
}

impl Arrivals {
    /// Makes a counter at 0.
    pub const fn new() -> Arrivals {
        Arrivals {
            asked: AtomicU64::new(0),
            came: AtomicU64::new(0),
            is_brief: AtomicBool::new(false),
        }
    }

    /// Returns how many requests were made so far. A command that comes now may be answered by any
    /// later one.
    pub fn now(&self) -> u64 {
        self.asked.load(Ordering::SeqCst)
    }

    /// Notes for the command that is carried out next how many requests had been made when it came,
    /// and whether it waits for a check only briefly. Call it while holding the write lock.
    pub fn serve(&self, came: u64, is_brief: bool) {
        self.came.store(came, Ordering::SeqCst);
        self.is_brief.store(is_brief, Ordering::SeqCst);
    }

    /// Counts one more request and returns its number, from 1 on. The chain calls it before it
    /// sends the request.
    pub fn ask(&self) -> u64 {
        let made = self.asked.fetch_add(1, Ordering::SeqCst);
        made.saturating_add(1)
    }

    /// Returns whether the request of that number was made after the current command came. The
    /// chain calls it.
    pub fn is_since(&self, number: u64) -> bool {
        self.came.load(Ordering::SeqCst) < number
    }

    /// Returns whether the current command waits for a check only briefly. The chain calls it.
    pub fn is_brief(&self) -> bool {
        self.is_brief.load(Ordering::SeqCst)
    }
}
