// What a histogram has counted.
ghost use Rattle.std.specs.Prelude.{◌≡◌, ◌+◌, IsTrue, length};
ghost use Rattle.exposition.specs.Measured.{rises};

use crate::label::LabelPair;
use crate::number::Number;
use base_text::Listed;
use std::marker::Model;

/// How many measured values were within each bound: one series of a histogram.
///
/// Contracts see its labels, its bounds and its sum in millionths, and its counts: for each bound
/// how many values are within it and above the one before, and last how many are above all bounds.
#[derive(Drop)]
pub struct Series {
    its_labels: Listed<LabelPair>,
    its_bounds: &'static [u64],
    its_counts: Listed<u64>,
    its_sum: Number,
}

impl Model for Series {
    ghost use Rattle.std.specs.Prelude.{◌≡◌, ◌+◌, IsTrue, length};
    ghost use Rattle.exposition.specs.Measured.{Measured, rises};

    ghost Value = { Measured };

    ghost view = { λ s. record { labels = s.its_labels; bounds = s.its_bounds.now; counts = s.its_counts; sum = s.its_sum } };

    ghost invariant = { λ s. IsTrue (rises s.its_bounds.now) × (length s.its_counts ≡ length s.its_bounds.now + 1) };
}

impl Series {
    /// Makes a series with these counts, one more than there are bounds; the bounds must rise.
    /// Bounds are in microseconds, and are written in seconds.
    pub fn of(
        labels: Listed<LabelPair>,
        bounds: &'static [u64],
        counts: Listed<u64>,
        sum: Number,
    ) -> Series
        requires rising { IsTrue (rises bounds.now) }
        requires whole { length counts ≡ length bounds.now + 1 }
        ensures { result ≡ record { labels = labels; bounds = bounds.now; counts = counts; sum = sum } }
    {
        Series {
            its_labels: labels,
            its_bounds: bounds,
            its_counts: counts,
            its_sum: sum,
        }
    }

    pub(crate) fn labels(&self) -> &[LabelPair]
        ensures { result.now ≡ self.now.labels }
    {
        self.its_labels.as_slice()
    }

    pub(crate) fn bounds(&self) -> &'static [u64]
        ensures bounds { result.now ≡ self.now.bounds }
        ensures rising { IsTrue (rises self.now.bounds) }
    {
        self.its_bounds
    }

    pub(crate) fn counts(&self) -> &[u64]
        ensures counts { result.now ≡ self.now.counts }
        ensures whole { length self.now.counts ≡ length self.now.bounds + 1 }
    {
        self.its_counts.as_slice()
    }

    pub(crate) fn sum(&self) -> &Number
        ensures { result.now ≡ self.now.sum }
    {
        &self.its_sum
    }
}
