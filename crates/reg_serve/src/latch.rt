// What threads wait for before they begin.
use std::sync::Wait;
use std::sync::atomic::{AtomicU64, Ordering};

const SHUT: u64 = 0;

const OPEN: u64 = 1;

const GIVEN_UP: u64 = 2;

/// Threads wait at it until it is opened, once all of them were started, or given up, where one
/// couldn't be.
#[derive(Drop)]
pub struct Latch {
    state: AtomicU64,
}

impl Latch {
    /// A latch that is shut.
    pub const fn new() -> Latch {
        Latch {
            state: AtomicU64::new(SHUT),
        }
    }

    /// Lets all threads begin.
    pub fn open(&self) {
        self.state.store(OPEN, Ordering::SeqCst);
        self.state.wake_all();
    }

    /// Lets all threads end before they began.
    pub fn give_up(&self) {
        self.state.store(GIVEN_UP, Ordering::SeqCst);
        self.state.wake_all();
    }

    /// Waits until it is opened or given up, and says whether it was opened.
    pub fn pass<T: Wait>(&self, rt: &T) -> bool {
        for _ in rt.forever() {
            let state = self.state.load(Ordering::SeqCst);
            if state != SHUT {
                return state == OPEN;
            }
            self.state.park(rt, SHUT as u32);
        }
        unreachable!()
    }
}
