// The lines of a sketch.
ghost use Rattle.std.specs.Prelude.{◌≡◌, ◌++◌, true, false, Option, IfOk, OnOk};
ghost use Rattle.avro_resolve.specs.declared.resolving.Verdict.{Verdict};
ghost use Rattle.avro_resolve.specs.Trails.{roots};
ghost use Rattle.avro_resolve.specs.Verdict.{IsVerdict};
ghost use Rattle.avro_data.specs.Fits.{fits};
ghost use Rattle.avro_data.specs.Sample.{root, IsSample};
ghost use Rattle.avro_data.specs.Size.{is_too_large};
ghost use Rattle.avro_data.specs.Value.{Value};
ghost use Rattle.avro_data.specs.View.{view};
ghost use Rattle.avro_readings.specs.Reads.{reads};
ghost use Rattle.avro_sketch.specs.Sketch.{HaveOneSketch, IsSketch, reading_line, sample_lines, value_lines, verdict_line};

use crate::laws::schemas_have_one_sketch;
use avro_data::{Data, PiecedText, SampleError, sample};
use avro_readings::{ReadError, read_data};
use avro_resolve::avro_schema::Schema;
use avro_resolve::base_text::Text;
use avro_resolve::{Trail, Verdict, resolve};
use std::alloc::{AllocError, Global};

/// Returns the sketch of a reader's schema `r` and a writer's `w`, in lines that end in LF.
///
/// The first line is `compatible`, or `clash at` with the place and the kind of the clash. The
/// second is `value` with the writer's sample, `value too large` if the sample is past the limits
/// of `sample`, or `no finite value`. After a value the third is `reads` with its reading, `too
/// large` if that is past these limits, or `unreadable`.
///
/// A clash says that a value of the writer's may be unreadable; the sample may have a reading all
/// the same. Whether defaults are valid doesn't count. Names are shared with the schemas, so the
/// text may be longer than memory could hold. The only error is out of memory.
pub fn sketch_text(alloc: Global, r: &Schema, w: &Schema) -> Result<PiecedText, AllocError>
    ensures sketch { IfOk result (λ text. IsSketch r.now.nodes w.now.nodes text) }
    ensures one_sketch { HaveOneSketch r.now.nodes w.now.nodes }
{
    schemas_have_one_sketch();
    let mut out = PiecedText::new(alloc);
    push_verdict(alloc, r, w, &mut out)?;
    push_sample(alloc, r, w, &mut out)?;
    Ok(out)
}

/// Appends the line of the verdict.
fn push_verdict(
    alloc: Global,
    r: &Schema,
    w: &Schema,
    out: &mut PiecedText,
) -> Result<(), AllocError>
    ensures { OnOk result ((verdict : Verdict) × IsVerdict r.now.nodes w.now.nodes verdict
        × (out.new ≡ out.old ++ verdict_line verdict)) }
{
    match resolve(alloc, r, w)? {
        Verdict::Compatible => out.push_fixed("compatible\n"),
        Verdict::Clash(trail) => push_clash(alloc, &trail, out),
    }
}

/// Appends the line of a clash.
fn push_clash(alloc: Global, trail: &Trail, out: &mut PiecedText) -> Result<(), AllocError>
    ensures { OnOk result (out.new ≡ out.old ++ verdict_line (Verdict.Clash trail.now)) }
{
    let line = format!(in alloc; "clash at {trail}: {}\n", trail.kind)?;
    let text = Text::of_string(line)?;
    out.push_shared(&text)
}

/// Appends what is said of the writer's sample.
fn push_sample(
    alloc: Global,
    r: &Schema,
    w: &Schema,
    out: &mut PiecedText,
) -> Result<(), AllocError>
    ensures { OnOk result ((found : Option Value) × IsSample w.now.nodes root found
        × (out.new ≡ out.old ++ sample_lines r.now.nodes w.now.nodes found)) }
{
    match sample(alloc, w) {
        Ok(Some(value)) => push_value(alloc, r, w, value, out),
        Ok(None) => out.push_fixed("no finite value\n"),
        Err(SampleError::TooLarge) => out.push_fixed("value too large\n"),
        Err(SampleError::OutOfMemory) => Err(AllocError),
    }
}

/// Appends what is said of a value.
fn push_value(
    alloc: Global,
    r: &Schema,
    w: &Schema,
    value: Data,
    out: &mut PiecedText,
) -> Result<(), AllocError>
    requires { fits w.now.nodes root (view value) ≡ true }
    ensures { OnOk result (out.new ≡ out.old ++ value_lines r.now.nodes w.now.nodes (view value)) }
{
    out.push_fixed("value ")?;
    value.push_text(out)?;
    out.push_fixed("\n")?;
    push_reading(alloc, r, w, value, out)
}

/// Appends what is said of a value's reading.
fn push_reading(
    alloc: Global,
    r: &Schema,
    w: &Schema,
    value: Data,
    out: &mut PiecedText,
) -> Result<(), AllocError>
    requires { fits w.now.nodes root (view value) ≡ true }
    ensures { OnOk result (out.new ≡ out.old ++ reading_line (reads r.now.nodes w.now.nodes roots (view value))) }
{
    match read_data(alloc, r, w, &value) {
        Ok(read) => push_read(&read, out),
        Err(ReadError::Unreadable) => out.push_fixed("unreadable\n"),
        Err(ReadError::TooLarge) => out.push_fixed("too large\n"),
        Err(ReadError::Unfit) => unreachable!(),
        Err(ReadError::OutOfMemory) => Err(AllocError),
    }
}

/// Appends a reading's line.
fn push_read(read: &Data, out: &mut PiecedText) -> Result<(), AllocError>
    requires { is_too_large (view read.now) ≡ false }
    ensures { OnOk result (out.new ≡ out.old ++ reading_line (Some (view read.now))) }
{
    out.push_fixed("reads ")?;
    read.push_text(out)?;
    out.push_fixed("\n")
}
