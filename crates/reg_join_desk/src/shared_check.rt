// What desks ask of the thread that takes in what others wrote.
use crate::rounds::Rounds;
use std::sync::atomic::{AtomicBool, Ordering};
use std::sync::{Condvar, CondvarTimeouts, Mutex, Wait};
use std::thread::Parker;
use std::time::{Clock, Duration, Instant};

/// Checks of the log that lookups share. A lookup that didn't find what another process may just
/// have written waits for one; one thread makes them, at most 50 a second. One check that began
/// after several lookups came serves them all. The thread also makes one if none was made for some
/// time, which shows whether the store answers. A desk whose command found that nothing is taken in
/// any more reports it here.
#[derive(Drop)]
pub struct SharedCheck {
    wanted: AtomicBool,
    has_stopped: AtomicBool,
    rounds: Mutex<Rounds>,
    // Notified when a check begins and when it ends.
    turned: Condvar,
}

impl SharedCheck {
    /// Makes one that nobody waits for.
    pub const fn new() -> SharedCheck {
        SharedCheck {
            wanted: AtomicBool::new(false),
            has_stopped: AtomicBool::new(false),
            rounds: Mutex::new(Rounds::new()),
            turned: Condvar::new(),
        }
    }

    /// Reports that a command found a told batch that no command writes, so that nothing is taken
    /// in any more. Unparks `grown`, whose thread tells the operator.
    pub fn find_stop(&self, grown: &Parker) {
        self.has_stopped.store(true, Ordering::SeqCst);
        grown.unpark();
    }

    /// Returns whether a command found that. Never blocks.
    pub fn has_stopped(&self) -> bool {
        self.has_stopped.load(Ordering::SeqCst)
    }

    /// Returns whether a lookup waits for a check that hasn't begun. Never blocks.
    pub fn is_wanted(&self) -> bool {
        self.wanted.load(Ordering::SeqCst)
    }

    /// Begins a check if a lookup waits for one, or if none was begun for `every`; for `None`, in
    /// the first case alone. Returns its number. The caller then takes in what was told, asks the
    /// chain, publishes the result, and calls `done`.
    pub fn begin<R: Wait + Clock>(&self, rt: &R, every: Option<Duration>) -> Option<u64> {
        let now = Instant::now(rt).ok();
        let mut rounds = self.rounds.lock(rt);
        let is_wanted = self.wanted.swap(false, Ordering::SeqCst);
        let is_due = match every {
            Some(every) => rounds.is_due(now, every),
            None => false,
        };
        if !is_wanted && !is_due {
            return None;
        }
        let round = rounds.begin(now);
        self.turned.notify_all();
        Some(round)
    }

    /// Ends the check of that number and wakes the lookups that wait for it.
    pub fn done<R: Wait>(&self, rt: &R, round: u64) {
        let mut rounds = self.rounds.lock(rt);
        rounds.end(round);
        self.turned.notify_all();
    }

    /// Waits until a check that began after this call is over, for `within` at most, plus up to 20
    /// ms until the next check may begin. Unparks `grown` when it needs the check. Returns `false`
    /// if the time is up.
    pub fn wait_for_one<R: Wait + Clock>(&self, rt: &R, grown: &Parker, within: Duration) -> bool {
        let rounds = self.rounds.lock(rt);
        let round = rounds.next();
        let pause = rounds.pause(Instant::now(rt).ok());
        let (rounds, _paused) = self
            .turned
            .wait_timeout_while(rt, rounds, pause, |rounds| rounds.is_ahead(round));
        if rounds.is_ahead(round) {
            self.wanted.store(true, Ordering::SeqCst);
            grown.unpark();
        }
        let (rounds, _waited) = self
            .turned
            .wait_timeout_while(rt, rounds, within, |rounds| !rounds.is_over(round));
        rounds.is_over(round)
    }
}
