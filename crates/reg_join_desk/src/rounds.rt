// The numbered checks that lookups share.
ghost use Rattle.std.specs.Prelude.{◌≡◌, ◌<◌, ◌≤◌, max, IsTrue, ◌↔◌};
ghost use Rattle.reg_pen.specs.Pen.{counted};

use std::time::{Duration, Instant};

/// The least time from the start of one check to that of the next, in milliseconds: at most 50 a
/// second.
const PACE: u64 = 20;

/// Which checks were begun and which are over, by their numbers from 1 on.
#[derive(Drop)]
pub(crate) struct Rounds {
    pub(crate) begun: u64,
    pub(crate) over: u64,
    // When the last one was begun, if the clock could be read.
    pub(crate) since: Option<Instant>,
}

impl Rounds {
    /// Makes the state in which none was begun.
    pub(crate) const fn new() -> Rounds
        ensures begun { result.begun ≡ 0 }
        ensures over { result.over ≡ 0 }
    {
        Rounds {
            begun: 0,
            over: 0,
            since: None,
        }
    }

    /// Returns the number of the first check that begins after this call.
    pub(crate) fn next(&self) -> u64
        ensures { result ≡ counted self.now.begun }
    {
        self.begun.saturating_add(1)
    }

    /// Returns whether the check of that number hasn't begun yet.
    pub(crate) fn is_ahead(&self, round: u64) -> bool
        ensures { IsTrue result ↔ (self.now.begun < round) }
    {
        self.begun < round
    }

    /// Returns whether the check of that number, or a later one, is over.
    pub(crate) fn is_over(&self, round: u64) -> bool
        ensures { IsTrue result ↔ (round ≤ self.now.over) }
    {
        round <= self.over
    }

    /// Begins the next check and returns its number.
    pub(crate) fn begin(&mut self, now: Option<Instant>) -> u64
        ensures number { result ≡ counted self.old.begun }
        ensures begun { self.new ≡ record self.old { begun = result; since = now } }
    {
        self.begun = self.next();
        self.since = now;
        self.begun
    }

    /// Ends the check of that number.
    pub(crate) fn end(&mut self, round: u64)
        ensures { self.new ≡ record self.old { over = max self.old.over round } }
    {
        self.over = self.over.max(round);
    }

    /// Returns whether no check was begun for `every`. If the clock can't be read, none is due.
    pub(crate) fn is_due(&self, now: Option<Instant>, every: Duration) -> bool {
        match (self.since, now) {
            (Some(since), Some(now)) => now.duration_since(since) >= every,
            (None, Some(_)) => true,
            (_, None) => false,
        }
    }

    /// Returns how long the next check has to wait; zero if the clock can't be read.
    pub(crate) fn pause(&self, now: Option<Instant>) -> Duration {
        match (self.since, now) {
            (Some(since), Some(now)) => {
                Duration::from_millis(PACE).saturating_sub(now.duration_since(since))
            },
            _ => Duration::ZERO,
        }
    }
}
