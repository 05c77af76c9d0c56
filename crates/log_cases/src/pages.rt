// Families of pages. Their names and texts are the program's own, so no file can have them.
use crate::form::{Came, Form};
use base_text::Listed;
use exposition::{
    Family, Fixed, LabelName, LabelPair, Name, Number, Sample, Samples, Series, page_text,
};
use std::alloc::Global;
use test_tools::{CaseError, Made, cut, number_of};

fn label(name: LabelName, value: &'static str) -> LabelPair {
    LabelPair {
        name,
        value: Fixed::of(value),
    }
}

/// One sample.
fn sample(alloc: Global, labels: Vec<LabelPair>, number: Number) -> Made<Listed<Sample>> {
    let labels = Listed::from(labels);
    Ok(Listed::from(vec![in alloc; Sample { labels, number }]?))
}

/// Requests by method and status, as the documentation has them, without their times.
fn requests(alloc: Global) -> Made<Family> {
    let mut samples = Vec::new(alloc);
    for (code, count) in [("200", 1027), ("400", 3)] {
        let method = label(LabelName::of("method"), "post");
        let labels = vec![in alloc; method, label(LabelName::of("code"), code)]?;
        samples.push(Sample {
            labels: Listed::from(labels),
            number: Number::whole(count),
        })?;
    }
    Ok(Family {
        name: Name::of("http_requests_total"),
        help: Fixed::of("The total number of HTTP requests."),
        samples: Samples::Counter(Listed::from(samples)),
    })
}

/// The documentation's labels that have to be escaped.
fn escapes(alloc: Global) -> Made<Family> {
    let path = label(LabelName::of("path"), "C:\\DIR\\FILE.TXT");
    let error = label(LabelName::of("error"), "Cannot find file:\n\"FILE.TXT\"");
    let labels = vec![in alloc; path, error]?;
    let samples = sample(alloc, labels, Number::seconds(1_458_255_915_500_000))?;
    Ok(Family {
        name: Name::of("msdos_file_access_time_seconds"),
        help: Fixed::of("A \"text\" of two lines,\nwith one \\."),
        samples: Samples::Gauge(samples),
    })
}

/// A histogram of one series with the documentation's bounds, or with no counts where there aren't six.
fn histogram(alloc: Global, labels: Vec<LabelPair>, counts: Vec<u64>, sum: Number) -> Made<Family> {
    let mut series = Vec::new(alloc);
    if counts.len() == 6 {
        series.push(Series::of(
            Listed::from(labels),
            &[50_000, 100_000, 200_000, 500_000, 1_000_000],
            Listed::from(counts),
            sum,
        ))?;
    }
    Ok(Family {
        name: Name::of("http_request_duration_seconds"),
        help: Fixed::of("A histogram of the request duration."),
        samples: Samples::Histogram(Listed::from(series)),
    })
}

/// The documentation's histogram.
fn durations(alloc: Global) -> Made<Family> {
    let counts = vec![in alloc; 24054, 9390, 66948, 28997, 4599, 10332]?;
    histogram(alloc, Vec::new(alloc), counts, Number::whole(53423))
}

/// The greatest counts, under a label.
fn greatest(alloc: Global) -> Made<Family> {
    let counts = vec![in alloc; u64::MAX; 6]?;
    let labels = vec![in alloc; label(LabelName::of("class"), "lookup")]?;
    histogram(alloc, labels, counts, Number::seconds(u64::MAX))
}

/// A number of seconds, given in microseconds.
fn seconds(alloc: Global, microseconds: u64) -> Made<Family> {
    let samples = sample(alloc, Vec::new(alloc), Number::seconds(microseconds))?;
    Ok(Family {
        name: Name::of("t"),
        help: Fixed::of(""),
        samples: Samples::Gauge(samples),
    })
}

/// The text of one family.
fn text_of(alloc: Global, family: Family) -> Made<String> {
    let page = page_text(alloc, &vec![in alloc; family]?)?;
    String::from_utf8_lossy(alloc, page.as_slice())
}

/// The number on the page of a gauge.
fn seconds_text(alloc: Global, microseconds: u64) -> Made<String> {
    let text = text_of(alloc, seconds(alloc, microseconds)?)?;
    let line = text
        .as_str()
        .strip_prefix("# HELP t \n# TYPE t gauge\nt ")
        .unwrap_or("-");
    String::from_str(alloc, line.strip_suffix('\n').unwrap_or("-"))
}

/// Families.
#[derive(Drop)]
pub(crate) struct Pages;

impl Form for Pages {
    fn came(&mut self, alloc: Global, asked: &str) -> Came {
        match cut(asked) {
            ("family", "requests") => Ok(text_of(alloc, requests(alloc)?)?),
            ("family", "escapes") => Ok(text_of(alloc, escapes(alloc)?)?),
            ("family", "durations") => Ok(text_of(alloc, durations(alloc)?)?),
            ("family", "greatest") => Ok(text_of(alloc, greatest(alloc)?)?),
            ("seconds", number) => Ok(seconds_text(alloc, number_of(number)?)?),
            _ => Err(CaseError::NotUnderstood),
        }
    }
}
