// A page of metrics: families of samples.
use crate::label::LabelPair;
use crate::name::{Fixed, Name};
use crate::number::Number;
use crate::series::Series;
use base_text::Listed;

/// A number with its labels.
#[derive(Drop)]
pub struct Sample {
    pub labels: Listed<LabelPair>,
    pub number: Number,
}

/// The samples of a family, which say what kind of metric it is.
#[derive(Drop)]
pub enum Samples {
    /// Numbers that never fall while the program runs.
    Counter(Listed<Sample>),
    /// Numbers that rise and fall.
    Gauge(Listed<Sample>),
    /// Counts of measured values, by bounds.
    Histogram(Listed<Series>),
}

/// All samples of one metric.
#[derive(Drop)]
pub struct Family {
    pub name: Name,
    /// What it means, in one or several lines.
    pub help: Fixed,
    pub samples: Samples,
}
