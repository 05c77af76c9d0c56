// A filter from a reader to a writer.
ghost use Rattle.std.specs.Prelude.{◌≡◌, ◌≤◌, List, ℕ, IfErr, IfOk, IfSome, OnErr, OnOk};
ghost use Rattle.std.specs.Io.KnownBytes.{Appends};
ghost use Rattle.reg_journal.specs.Found.{HasFault};
ghost use Rattle.reg_records.specs.declared.limits.TheConstants.{OFFSET_LIMIT};
ghost use Rattle.reg_compaction.specs.Filter.{IsFilterRefusal, IsFilterRefusalTo, IsFlushed, IsNoReading, filter_error_of, filter_error_to};
ghost use Rattle.reg_compaction.specs.Marked.{IsMarkedCompaction, IsMarkedCompactionTo};
ghost use Rattle.reg_compaction.specs.Whole.{IsNotCut};
ghost use Rattle.reg_compaction.specs.declared.filter.FilterError.TheVariants.{WriteFault};

use crate::marking::{compacted_to_with_mark, compacted_with_mark};
use crate::to_floor::ToFloorError;
use crate::whole::check_end;
use reg_records::{LogError, LogFault, Output};
use std::alloc::Global;
use std::error::Error;
use std::fmt;
use std::io::{ErrorKind, Read};

/// An error of a filter, which reads a log from a reader and writes to a writer.
#[derive(Clone, Copy, Debug, PartialEq, Eq)]
pub enum FilterError {
    /// The first line of the log that has a fault; lines count from 1. Nothing was written.
    Log { line: u64, fault: LogFault },
    /// The reader failed. Nothing was written.
    ReadFault,
    /// The writer failed. A part of the output may have been written.
    WriteFault,
    /// The floor is below the log's own, which is given. Nothing was written.
    FloorBelow(u64),
    /// The floor is above the log's next offset, which is given. Nothing was written.
    FloorAhead(u64),
    /// With the floor's line the log would have more lines than a log may have. Nothing was written.
    NoRoom,
    /// The line behind the log says another end than the log has: a part is missing. Nothing was
    /// written.
    Cut,
    /// Memory was refused. Nothing was written.
    OutOfMemory,
}

impl FilterError {
    ghost use Rattle.std.specs.Prelude.{◌≡◌};
    ghost use Rattle.reg_compaction.specs.Filter.{exit_status};

    /// Returns the exit status of a program that ends with this error: 2 for a faulty log or floor,
    /// 1 for a reader, a writer or memory that failed.
    pub fn status(self) -> u8
        ensures { result ≡ exit_status self }
    {
        match self {
            FilterError::Log { line: _, fault: _ }
            | FilterError::FloorBelow(_)
            | FilterError::FloorAhead(_)
            | FilterError::NoRoom
            | FilterError::Cut => 2,
            FilterError::ReadFault | FilterError::WriteFault | FilterError::OutOfMemory => 1,
        }
    }
}

impl fmt::Display for FilterError {
    ghost use Rattle.std.specs.Prelude.{Some};
    ghost use Rattle.reg_compaction.specs.Filter.{filter_error_text};

    ghost output = { λ error. Some (filter_error_text error) };

    fn fmt<W: fmt::Write>(&self, f: &mut fmt::Formatter<W>) -> fmt::Result {
        match *self {
            FilterError::Log { line, fault } => write!(f, "line {line}: {fault}"),
            FilterError::ReadFault => write!(f, "ReadFault"),
            FilterError::WriteFault => write!(f, "WriteFault"),
            FilterError::FloorBelow(own) => write!(f, "below the floor {own}"),
            FilterError::FloorAhead(next) => write!(f, "ahead of the next offset {next}"),
            FilterError::NoRoom => write!(f, "no room for the floor"),
            FilterError::Cut => write!(
                f,
                "the line behind the log says another end: a part is missing"
            ),
            FilterError::OutOfMemory => write!(f, "OutOfMemory"),
        }
    }
}

impl Error for FilterError {}

/// Reads a log to the end of the input, compacts it at its own floor, and writes its lines in the
/// order of their offsets, with the mark of ids that it lacks ([`crate::compacted_with_mark`]).
///
/// The whole input is read before the first byte is written. What is behind the log's empty line is
/// left out; if it is a line that says where the log ends and it is wrong, the log is refused
/// (`Cut`).
pub fn compact<R: Read, W: Output>(
    alloc: Global,
    reader: &mut R,
    writer: &mut W,
) -> Result<(), FilterError>
    ensures written { OnOk result (IfSome (R.remaining reader.old) (λ input. (out : List ℕ) × IsMarkedCompaction input out
        × Appends (W.contents writer.old) (W.contents writer.new) out)) }
    ensures not_cut { OnOk result (IfSome (R.remaining reader.old) IsNotCut) }
    ensures flushed { OnOk result (IsFlushed W.contents W.flushes writer.new) }
    ensures refused { IfErr result (IsFilterRefusal (R.remaining reader.old) (W.contents writer.old) (W.contents writer.new)) }
{
    let input = read_input(alloc, reader)?;
    match compacted_with_mark(alloc, &input) {
        Ok(output) => write_output(writer, &output),
        Err(e) => Err(filter_error(e)),
    }
}

/// Reads a log to the end of the input, compacts it to `floor`, and writes its lines in the order
/// of their offsets, as [`compact`] does.
pub fn compact_to<R: Read, W: Output>(
    alloc: Global,
    floor: u64,
    reader: &mut R,
    writer: &mut W,
) -> Result<(), FilterError>
    requires { floor ≤ OFFSET_LIMIT }
    ensures written { OnOk result (IfSome (R.remaining reader.old) (λ input. (out : List ℕ) × IsMarkedCompactionTo floor input out
        × Appends (W.contents writer.old) (W.contents writer.new) out)) }
    ensures not_cut { OnOk result (IfSome (R.remaining reader.old) IsNotCut) }
    ensures flushed { OnOk result (IsFlushed W.contents W.flushes writer.new) }
    ensures refused { IfErr result (IsFilterRefusalTo floor (R.remaining reader.old) (W.contents writer.old) (W.contents writer.new)) }
{
    let input = read_input(alloc, reader)?;
    match compacted_to_with_mark(alloc, &input, floor) {
        Ok(output) => write_output(writer, &output),
        Err(e) => Err(to_floor_error(e)),
    }
}

/// Reads a filter's input to its end. Refuses it if a line behind its log says that it was cut
/// short.
pub fn read_input<R: Read>(alloc: Global, reader: &mut R) -> Result<Vec<u8>, FilterError>
    ensures read { IfOk result (λ bytes. IfSome (R.remaining reader.old) (λ input. bytes.items ≡ input)) }
    ensures not_cut { OnOk result (IfSome (R.remaining reader.old) IsNotCut) }
    ensures refused { IfErr result (IsNoReading (R.remaining reader.old)) }
{
    let mut bytes = Vec::new(alloc);
    match reader.read_to_end(&mut bytes) {
        Ok(_) => match check_end(alloc, &bytes) {
            Ok(()) => Ok(bytes),
            Err(e) => Err(e),
        },
        Err(e) => match e.kind() {
            ErrorKind::OutOfMemory => Err(FilterError::OutOfMemory),
            _ => Err(FilterError::ReadFault),
        },
    }
}

/// Writes a filter's output whole, and flushes it. If the writer fails, a part may have been
/// written.
pub fn write_output<W: Output>(writer: &mut W, bytes: &[u8]) -> Result<(), FilterError>
    ensures written { OnOk result (Appends (W.contents writer.old) (W.contents writer.new) bytes.now) }
    ensures flushed { OnOk result (IsFlushed W.contents W.flushes writer.new) }
    ensures refused { IfErr result (λ e. e ≡ WriteFault) }
{
    if writer.write_all(bytes).is_err() {
        return Err(FilterError::WriteFault);
    }
    match writer.flush_out() {
        Ok(()) => Ok(()),
        Err(_) => Err(FilterError::WriteFault),
    }
}

/// Turns an error of reading a log into the filter's.
pub fn filter_error(e: LogError) -> FilterError
    ensures { result ≡ filter_error_of e }
{
    match e {
        LogError::Fault { line, fault } => FilterError::Log { line, fault },
        LogError::ReadFault { line: _ } => FilterError::ReadFault,
        LogError::OutOfMemory => FilterError::OutOfMemory,
    }
}

/// Turns an error of compacting a log to a floor into the filter's.
fn to_floor_error(e: ToFloorError) -> FilterError
    ensures { result ≡ filter_error_to e }
{
    match e {
        ToFloorError::Log(e) => filter_error(e),
        ToFloorError::FloorBelow(own) => FilterError::FloorBelow(own),
        ToFloorError::FloorAhead(next) => FilterError::FloorAhead(next),
        ToFloorError::NoRoom => FilterError::NoRoom,
    }
}
