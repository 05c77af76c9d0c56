// Families of samples.
ghost use Rattle.std.specs.Prelude.{IsTrue};
ghost use Rattle.exposition.specs.Names.{is_label_name};

use base_text::Listed;
use exposition::{Family, Fixed, LabelName, LabelPair, Name, Number, Sample, Samples, Series};
use reg_meters::{BOUNDS, Seconds};
use std::alloc::{AllocError, Global};

/// Makes a family of one number that only rises.
pub(crate) fn counter(
    alloc: Global,
    name: Name,
    help: &'static str,
    number: Number,
) -> Result<Family, AllocError> {
    Ok(Family {
        name,
        help: Fixed::of(help),
        samples: Samples::Counter(alone(alloc, number)?),
    })
}

/// Makes a family of one number that rises and falls.
pub(crate) fn gauge(
    alloc: Global,
    name: Name,
    help: &'static str,
    number: Number,
) -> Result<Family, AllocError> {
    Ok(Family {
        name,
        help: Fixed::of(help),
        samples: Samples::Gauge(alone(alloc, number)?),
    })
}

/// Makes one sample without labels.
fn alone(alloc: Global, number: Number) -> Result<Listed<Sample>, AllocError> {
    let mut samples = Vec::new(alloc);
    samples.push(Sample {
        labels: Listed::from(Vec::new(alloc)),
        number,
    })?;
    Ok(Listed::from(samples))
}

/// Makes a sample for each value of a label, in their order.
pub(crate) fn by_label(
    alloc: Global,
    label: &'static str,
    numbers: &[(&'static str, u64)],
) -> Result<Listed<Sample>, AllocError>
    requires { IsTrue (is_label_name label.now) }
{
    let mut samples = Vec::new(alloc);
    for (value, number) in numbers {
        let mut labels = Vec::new(alloc);
        push_label(label, value, &mut labels)?;
        samples.push(Sample {
            labels: Listed::from(labels),
            number: Number::whole(*number),
        })?;
    }
    Ok(Listed::from(samples))
}

/// Appends a label with its value.
pub(crate) fn push_label(
    name: &'static str,
    value: &'static str,
    out: &mut Vec<LabelPair>,
) -> Result<(), AllocError>
    requires { IsTrue (is_label_name name.now) }
{
    out.push(LabelPair {
        name: LabelName::of(name),
        value: Fixed::of(value),
    })?;
    Ok(())
}

/// Makes a series of a histogram from counts of durations.
pub(crate) fn series(
    alloc: Global,
    labels: Listed<LabelPair>,
    seconds: &Seconds,
) -> Result<Series, AllocError> {
    let counts = Vec::from_array(alloc, seconds.counts())?;
    Ok(Series::of(
        labels,
        &BOUNDS,
        Listed::from(counts),
        Number::seconds(seconds.sum()),
    ))
}
