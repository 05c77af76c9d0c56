// What a connection waits for, and for how long.
ghost use Rattle.std.specs.Prelude.{◌≡◌};
ghost use Rattle.reg_connection.specs.Waiting.{is_late, patience};

use crate::limits::Limits;

/// What a connection waits for.
#[derive(Clone, Copy, Debug, PartialEq, Eq)]
pub enum Waits {
    /// The next request, or the rest of it.
    Request,
    /// The client to take the rest of the answers.
    Client,
    /// The client to end its side, after the last answer.
    End,
}

impl Waits {
    /// Returns how long it may wait, in milliseconds. `begun` is whether a request has begun.
    pub fn patience(self, limits: &Limits, begun: bool) -> u64
        ensures { result ≡ patience limits.now self begun }
    {
        match self {
            Waits::Request => { if begun { limits.request } else { limits.idle } }
            Waits::Client => limits.answer,
            Waits::End => limits.linger,
        }
    }

    /// Returns whether it has waited since then as long as its limit, or longer. Times are
    /// milliseconds of one clock.
    pub fn is_late(self, limits: &Limits, begun: bool, since: u64, now: u64) -> bool
        ensures { result ≡ is_late limits.now self begun since now }
    {
        now.saturating_sub(since) >= self.patience(limits, begun)
    }
}
