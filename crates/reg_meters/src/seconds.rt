// How long things took.
use crate::numbers::Counter;
use std::time::Clock;

/// The bounds of the counts of durations, in microseconds.
pub static BOUNDS: [u64; 14] = [
    50, 100, 200, 500, 1_000, 2_000, 5_000, 10_000, 20_000, 50_000, 100_000, 500_000, 1_000_000,
    5_000_000,
];

/// Counts of durations, by bounds, and their sum.
#[derive(Drop)]
pub struct Seconds {
    /// For each bound the durations within it and above the bound before; last those above all
    /// bounds.
    counts: [Counter; 15],
    /// The sum of the durations, in microseconds.
    sum: Counter,
}

impl Seconds {
    /// Makes a meter that has counted nothing.
    pub const fn new() -> Seconds {
        Seconds {
            counts: [
                Counter::new(),
                Counter::new(),
                Counter::new(),
                Counter::new(),
                Counter::new(),
                Counter::new(),
                Counter::new(),
                Counter::new(),
                Counter::new(),
                Counter::new(),
                Counter::new(),
                Counter::new(),
                Counter::new(),
                Counter::new(),
                Counter::new(),
            ],
            sum: Counter::new(),
        }
    }

    /// Counts a duration, in microseconds.
    pub fn count(&self, took: u64) {
        let place = BOUNDS
            .iter()
            .position(|bound| took <= *bound)
            .unwrap_or(BOUNDS.len());
        if let Some(count) = self.counts.get(place) {
            count.add(1);
        }
        self.sum.add(took);
    }

    /// Returns the counts of the bounds, and last that of the durations above all bounds.
    pub fn counts(&self) -> [u64; 15] {
        let c = &self.counts;
        [
            c[0].count(),
            c[1].count(),
            c[2].count(),
            c[3].count(),
            c[4].count(),
            c[5].count(),
            c[6].count(),
            c[7].count(),
            c[8].count(),
            c[9].count(),
            c[10].count(),
            c[11].count(),
            c[12].count(),
            c[13].count(),
            c[14].count(),
        ]
    }

    /// Returns the sum of the durations, in microseconds.
    pub fn sum(&self) -> u64 {
        self.sum.count()
    }
}

/// Returns the time of the monotonic clock in microseconds; 0 if there is no clock.
pub fn microseconds<R: Clock>(rt: &R) -> u64 {
    match rt.monotonic() {
        Ok(now) => now
            .as_secs()
            .saturating_mul(1_000_000)
            .saturating_add(u64::from(now.subsec_micros())),
        Err(_) => 0,
    }
}
