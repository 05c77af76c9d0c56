// How long a command over a chain is tried.
use reg_join::Patience;
use std::time::{Clock, Duration, Instant};

/// How long an overtaken command is decided again, in seconds.
const TRIED_FOR: u64 = 30;

/// Patience of 30 s. If the clock can't be read, it never ends.
#[derive(Drop)]
pub(crate) struct TimedPatience<'a, R: Clock> {
    rt: &'a R,
    begun: Option<Instant>,
}

impl<'a, R: Clock> TimedPatience<'a, R> {
    /// Starts now.
    pub(crate) fn new(rt: &'a R) -> TimedPatience<'a, R> {
        TimedPatience {
            rt,
            begun: Instant::now(rt).ok(),
        }
    }
}

impl<'a, R: Clock> Patience for TimedPatience<'a, R> {
    fn is_over(&self) -> bool {
        match (self.begun, Instant::now(self.rt)) {
            (Some(begun), Ok(now)) => now.duration_since(begun) >= Duration::from_secs(TRIED_FOR),
            _ => false,
        }
    }
}
