// The text of a page.
ghost use Rattle.std.specs.Prelude.{◌≡◌, ◌+◌, ◌*◌, ◌^◌, ◌<◌, ◌++◌, [], ◌∷◌, All, IfOk, OnOk, codes, flat_map, length, map, sum};
ghost use Rattle.exposition.specs.Exposition.{IsExposition};
ghost use Rattle.exposition.specs.Lawful.{AreSamples, IsFamily, IsPage, IsSample, IsSeries, IsShort};
ghost use Rattle.exposition.specs.Lines.{kind_text, line_text, lines_text, help_of, type_of, sample_of};
ghost use Rattle.exposition.specs.Page.{bucket_lines, family_lines, kind_of, page_text, sample_line, samples_lines, series_lines};

use crate::escaping::push;
use crate::label::LabelPair;
use crate::laws::pages_are_expositions;
use crate::lines::{push_bucket, push_count, push_help, push_sample};
use crate::page::{Family, Sample, Samples};
use crate::series::Series;
use std::alloc::{AllocError, Global};

/// Writes a page in the text format: the lines of its families, each line with its LF. The only
/// error is out of memory.
pub fn page_text(alloc: Global, page: &[Family]) -> Result<Vec<u8>, AllocError>
    ensures text { IfOk result (λ text. text.items ≡ page_text page.now) }
    ensures lawful { OnOk result (IsPage page.now) }
    ensures format { IfOk result (λ text. IsExposition text.items) }
{
    pages_are_expositions();
    let text = written(alloc, page)?;
    Ok(text)
}

fn written(alloc: Global, page: &[Family]) -> Result<Vec<u8>, AllocError>
    ensures text { IfOk result (λ text. text.items ≡ page_text page.now) }
    ensures lawful { OnOk result (IsPage page.now) }
{
    let mut out = Vec::new(alloc);
    for family in page {
        push_family(&mut out, family)?;
    }
    Ok(out)
}

fn push_family(out: &mut Vec<u8>, family: &Family) -> Result<(), AllocError>
    ensures text { OnOk result (out.new.items ≡ out.old.items ++ lines_text (family_lines family.now)) }
    ensures lawful { OnOk result (IsFamily family.now) }
{
    let name = family.name.as_str();
    push_help(out, name, family.help.as_str())?;
    push_type(out, name, &family.samples)?;
    push_samples(out, name, &family.samples)
}

fn push_type(out: &mut Vec<u8>, name: &str, samples: &Samples) -> Result<(), AllocError>
    ensures { OnOk result (out.new.items ≡ out.old.items ++ (line_text (type_of name.now (kind_of samples.now)) ++ codes "\n")) }
{
    push(out, "# TYPE ")?;
    push(out, name)?;
    push(out, " ")?;
    push(out, kind_of(samples))?;
    push(out, "\n")
}

fn kind_of(samples: &Samples) -> &'static str
    ensures { result.now ≡ kind_text (kind_of samples.now) }
{
    match samples {
        Samples::Counter(_) => "counter",
        Samples::Gauge(_) => "gauge",
        Samples::Histogram(_) => "histogram",
    }
}

fn push_samples(out: &mut Vec<u8>, name: &str, samples: &Samples) -> Result<(), AllocError>
    ensures text { OnOk result (out.new.items ≡ out.old.items ++ lines_text (samples_lines name.now samples.now)) }
    ensures lawful { OnOk result (AreSamples samples.now) }
{
    match samples {
        Samples::Counter(numbers) => push_numbers(out, name, numbers.as_slice()),
        Samples::Gauge(numbers) => push_numbers(out, name, numbers.as_slice()),
        Samples::Histogram(series) => push_histogram(out, name, series.as_slice()),
    }
}

fn push_numbers(out: &mut Vec<u8>, name: &str, samples: &[Sample]) -> Result<(), AllocError>
    ensures text { OnOk result (out.new.items ≡ out.old.items ++ lines_text (map (λ s. sample_line name.now s) samples.now)) }
    ensures lawful { OnOk result (All IsSample samples.now) }
{
    for sample in samples {
        push_one(out, name, sample)?;
    }
    Ok(())
}

fn push_one(out: &mut Vec<u8>, name: &str, sample: &Sample) -> Result<(), AllocError>
    ensures text { OnOk result (out.new.items ≡ out.old.items ++ (line_text (sample_line name.now sample.now) ++ codes "\n")) }
    ensures lawful { OnOk result (IsSample sample.now) }
{
    push_sample(out, name, "", sample.labels.as_slice(), &sample.number)
}

fn push_histogram(out: &mut Vec<u8>, name: &str, series: &[Series]) -> Result<(), AllocError>
    ensures text { OnOk result (out.new.items ≡ out.old.items ++ lines_text (flat_map (λ s. series_lines name.now s) series.now)) }
    ensures lawful { OnOk result (All IsSeries series.now) }
{
    for one in series {
        push_series(out, name, one)?;
    }
    Ok(())
}

#[tactic(auto, using(crate::proofs::Appending::series_is))]
fn push_series(out: &mut Vec<u8>, name: &str, series: &Series) -> Result<(), AllocError>
    ensures text { OnOk result (out.new.items ≡ out.old.items ++ lines_text (series_lines name.now series.now)) }
    ensures lawful { OnOk result (IsSeries series.now) }
{
    let labels = series.labels();
    let count = total(series.counts());
    push_buckets(out, name, labels, series.bounds(), series.counts())?;
    push_bucket(out, name, labels, None, count)?;
    push_sample(out, name, "_sum", labels, series.sum())?;
    push_count(out, name, labels, count)
}

/// Appends a bucket for each bound, with the number of values within it.
fn push_buckets(
    out: &mut Vec<u8>,
    name: &str,
    labels: &[LabelPair],
    bounds: &[u64],
    counts: &[u64],
) -> Result<(), AllocError>
    requires { length counts.now ≡ length bounds.now + 1 }
    ensures text { OnOk result (out.new.items
        ≡ out.old.items ++ lines_text (bucket_lines name.now labels.now 0 bounds.now counts.now)) }
    ensures short { OnOk result (All IsShort bounds.now) }
{
    let mut below: u128 = 0;
    for (i, bound) in bounds.iter().enumerate() {
        below += u128::from(counts[i]);
        push_bucket(out, name, labels, Some(*bound), below)?;
    }
    Ok(())
}

/// Returns the sum of the counts, which is exact.
fn total(counts: &[u64]) -> u128
    ensures sum { result ≡ sum counts.now }
    ensures bound { result < 2 ^ 128 }
{
    let mut all = 0;
    for count in counts {
        all += u128::from(*count);
    }
    all
}
