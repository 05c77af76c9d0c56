// Lines that are schemas.
ghost use Rattle.std.specs.Prelude.{◌≡◌, ◌≤◌, Some, IfOk, IfErr, IfSome, OnOk};
ghost use Rattle.reg_records.specs.Device.{KeepsReads, bytes_in, faults_of, reads_of};
ghost use Rattle.reg_records.specs.TextLine.{after_front};
ghost use Rattle.reg_program.specs.Ended.{spelling_fault_name};
ghost use Rattle.reg_program.specs.Sketch.{SpellsSchema};
ghost use Rattle.avro_schema.specs.Schema.{schema_of};
ghost use Rattle.reg_program.specs.Spelling.{IsSpellingRefusal, IsTextRefused};

use avro_schema::{Schema, SchemaError};
use reg_records::{Device, LINE_READS, LineError, TextLineError, read_text_line};
use std::alloc::Global;
use std::io::BufRead;

/// Why a line isn't a schema.
#[derive(Debug, Drop)]
pub enum SpellingFault {
    /// It isn't a complete line of text: `Truncated`, `TooLong` or `BadUtf8`.
    Line(LineError),
    /// Its text isn't a schema.
    Schema(SchemaError),
}

impl SpellingFault {
    /// Returns its name, as it is reported.
    pub fn name(&self) -> &'static str
        ensures { result.now ≡ spelling_fault_name self.now }
    {
        match self {
            SpellingFault::Line(fault) => fault.name(),
            SpellingFault::Schema(fault) => fault.name(),
        }
    }
}

/// Why no schema was read.
#[derive(Debug, Drop)]
pub(crate) enum SpellingError {
    /// The line isn't a schema.
    Fault(SpellingFault),
    /// The reader failed, or took too many reads for the line.
    ReadFault,
    /// Memory was refused.
    OutOfMemory,
}

/// Reads the schema in the next line of `reader`. Defaults aren't checked.
pub(crate) fn read_schema<R: BufRead>(
    alloc: Global,
    reader: &mut Device<R>,
) -> Result<Schema, SpellingError>
    ensures schema { IfOk result (λ schema. IfSome (bytes_in R.remaining reader.old) (λ input.
        SpellsSchema input schema × (bytes_in R.remaining reader.new ≡ Some (after_front input)))) }
    ensures refused { IfErr result (IsSpellingRefusal reader.old reader.new (bytes_in R.remaining reader.old)) }
    ensures faults { OnOk result (faults_of reader.new ≡ faults_of reader.old) }
    ensures bound { reads_of reader.new ≤ LINE_READS }
    ensures reads { KeepsReads reader.old reader.new }
{
    match read_text_line(alloc, reader) {
        Ok(text) => schema_of(alloc, text.as_str()),
        Err(TextLineError::Line(fault)) => Err(SpellingError::Fault(SpellingFault::Line(fault))),
        Err(TextLineError::ReadFault) => Err(SpellingError::ReadFault),
        Err(TextLineError::OutOfMemory) => Err(SpellingError::OutOfMemory),
    }
}

/// Reads the schema of a text.
fn schema_of(alloc: Global, text: &str) -> Result<Schema, SpellingError>
    ensures schema { IfOk result (λ schema. schema_of text.now ≡ Some schema) }
    ensures refused { IfErr result (IsTextRefused text.now) }
{
    match Schema::read(alloc, text) {
        Ok(schema) => Ok(schema),
        Err(fault) => {
            if fault.is_memory() {
                Err(SpellingError::OutOfMemory)
            } else {
                Err(SpellingError::Fault(SpellingFault::Schema(fault)))
            }
        }
    }
}
