// One number.
use std::sync::atomic::{AtomicBool, AtomicU64, Ordering};

/// A number that only rises while the process runs. After 2^64 - 1 it begins again at 0.
#[derive(Drop)]
pub struct Counter {
    count: AtomicU64,
}

impl Counter {
    /// Makes a counter at 0.
    pub const fn new() -> Counter {
        Counter {
            count: AtomicU64::new(0),
        }
    }

    /// Adds to the count.
    pub fn add(&self, more: u64) {
        self.count.fetch_add(more, Ordering::Relaxed);
    }

    /// Returns the count.
    pub fn count(&self) -> u64 {
        self.count.load(Ordering::Relaxed)
    }
}

/// A number that rises and falls.
#[derive(Drop)]
pub struct Gauge {
    value: AtomicU64,
}

impl Gauge {
    /// Makes a gauge at 0.
    pub const fn new() -> Gauge {
        Gauge {
            value: AtomicU64::new(0),
        }
    }

    /// Sets the value.
    pub fn set(&self, value: u64) {
        self.value.store(value, Ordering::SeqCst);
    }

    /// Returns the value.
    pub fn value(&self) -> u64 {
        self.value.load(Ordering::SeqCst)
    }
}

/// A flag that is set or not.
#[derive(Drop)]
pub struct Mark {
    is_set: AtomicBool,
}

impl Mark {
    /// Makes a mark that isn't set.
    pub const fn new() -> Mark {
        Mark {
            is_set: AtomicBool::new(false),
        }
    }

    /// Sets the mark or clears it.
    pub fn set(&self, is_set: bool) {
        self.is_set.store(is_set, Ordering::SeqCst);
    }

    /// Returns whether the mark is set.
    pub fn is_set(&self) -> bool {
        self.is_set.load(Ordering::SeqCst)
    }
}
