// The sketch of the schemas in an input's first two lines.
ghost use Rattle.std.specs.Prelude.{◌≡◌, ◌≤◌, List, ℕ, IfOk, IfErr, IfSome, OnOk};
ghost use Rattle.std.specs.Io.KnownBytes.{Appends};
ghost use Rattle.reg_records.specs.Device.{bytes_in, faults_of, interruptions_of, reads_of};
ghost use Rattle.reg_program.specs.Sketch.{HasNoSketch, HasOneSketch, IsSketchRefusal, LeavesRest, Sketches};
ghost use Rattle.reg_program.specs.Spelling.{as_readers, as_writers};

use crate::spelling::{SpellingError, SpellingFault, read_schema};
use crate::text_writing::write_text;
use avro_data::PiecedText;
use avro_sketch::{schemas_have_one_sketch, sketch_text};
use reg_records::{Device, LINE_READS};
use std::alloc::{AllocError, Global};
use std::io::{BufRead, Write};

/// Why no complete sketch was written.
#[derive(Debug, Drop)]
pub enum SketchError {
    /// The first line isn't a schema. Nothing was written.
    Reader(SpellingFault),
    /// The first line is a schema, and the second isn't. Nothing was written.
    Writer(SpellingFault),
    /// The reader failed, or took too many reads for a line. Nothing was written.
    ReadFault,
    /// The writer failed, or was interrupted too often in a row. A prefix of the sketch was
    /// written.
    WriteFault,
    /// Memory for the lines or the sketch was refused. Nothing was written.
    OutOfMemory,
}

impl From<AllocError> for SketchError {
    ghost use Rattle.reg_program.specs.declared.sketching.SketchError.TheVariants.{OutOfMemory};

    ghost from_gives = { λ _ e. e ≡ OutOfMemory };

    fn from(_refused: AllocError) -> SketchError {
        SketchError::OutOfMemory
    }
}

/// Reads a reader's schema from the first line of `reader` and a writer's from the second, and
/// writes their sketch: whether the reader reads all that the writer writes, and what it reads of
/// one value.
///
/// What follows the second line is left unread. All memory that the sketch needs is taken before
/// its first byte is written. The text is never in memory as a whole: names are shared, and it is
/// written in pieces.
pub fn sketch<R: BufRead, W: Write>(
    alloc: Global,
    reader: &mut Device<R>,
    writer: &mut Device<W>,
) -> Result<(), SketchError>
    ensures written { OnOk result (IfSome (bytes_in R.remaining reader.old) (λ input. (out : List ℕ)
        × Sketches input out × Appends (bytes_in W.contents writer.old) (bytes_in W.contents writer.new) out)) }
    ensures rest { OnOk result (LeavesRest (bytes_in R.remaining reader.old) (bytes_in R.remaining reader.new)) }
    ensures one_sketch { (input : List ℕ) → HasOneSketch input }
    ensures faults { OnOk result ((faults_of reader.new ≡ faults_of reader.old) × (faults_of writer.new ≡ faults_of writer.old)) }
    ensures interruptions { OnOk result (interruptions_of writer.new ≡ 0) }
    ensures reads { reads_of reader.new ≤ LINE_READS }
    ensures refused { IfErr result (IsSketchRefusal reader.old reader.new writer.old writer.new
        (bytes_in R.remaining reader.old) (bytes_in W.contents writer.old) (bytes_in W.contents writer.new)) }
{
    schemas_have_one_sketch();
    let text = sketch_of(alloc, reader)?;
    match write_text(alloc, writer, &text) {
        Ok(()) => Ok(()),
        Err(_) => Err(SketchError::WriteFault),
    }
}

/// Makes the text of the sketch.
fn sketch_of<R: BufRead>(alloc: Global, reader: &mut Device<R>) -> Result<PiecedText, SketchError>
    ensures text { IfOk result (λ text. IfSome (bytes_in R.remaining reader.old) (λ input. Sketches input text)) }
    ensures rest { OnOk result (LeavesRest (bytes_in R.remaining reader.old) (bytes_in R.remaining reader.new)) }
    ensures faults { OnOk result (faults_of reader.new ≡ faults_of reader.old) }
    ensures reads { reads_of reader.new ≤ LINE_READS }
    ensures refused { IfErr result (HasNoSketch reader.old reader.new (bytes_in R.remaining reader.old)) }
{
    let r = match read_schema(alloc, reader) {
        Ok(schema) => schema,
        Err(error) => return Err(as_readers(error)),
    };
    let w = match read_schema(alloc, reader) {
        Ok(schema) => schema,
        Err(error) => return Err(as_writers(error)),
    };
    Ok(sketch_text(alloc, &r, &w)?)
}

/// Returns why the reader's schema wasn't read.
fn as_readers(error: SpellingError) -> SketchError
    ensures { result ≡ as_readers error }
{
    match error {
        SpellingError::Fault(fault) => SketchError::Reader(fault),
        SpellingError::ReadFault => SketchError::ReadFault,
        SpellingError::OutOfMemory => SketchError::OutOfMemory,
    }
}

/// Returns why the writer's schema wasn't read.
fn as_writers(error: SpellingError) -> SketchError
    ensures { result ≡ as_writers error }
{
    match error {
        SpellingError::Fault(fault) => SketchError::Writer(fault),
        SpellingError::ReadFault => SketchError::ReadFault,
        SpellingError::OutOfMemory => SketchError::OutOfMemory,
    }
}
