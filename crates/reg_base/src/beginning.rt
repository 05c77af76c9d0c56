// What a log begins with that begins anew.
ghost use Rattle.std.specs.Prelude.{◌≡◌, List, ℕ, IfErr, IfOk, IfSome, OnOk};
ghost use Rattle.std.specs.Io.KnownBytes.{Appends};
ghost use Rattle.reg_compaction.specs.Filter.{IsFlushed};
ghost use Rattle.reg_compaction.specs.Whole.{IsNotCut};
ghost use Rattle.reg_base.specs.Base.{IsBase};
ghost use Rattle.reg_base.specs.Refusals.{IsBaseRefusal, IsNoBase};

use crate::below::part_below;
use crate::error::BaseError;
use crate::marks::{is_crossed, owes_mark};
use reg_compaction::{compacted_with_mark, read_input, write_output};
use reg_fold::reg_records::{Device, Output, read_log};
use std::alloc::Global;
use std::io::Read;

/// Reads a log to the end of the input and writes its base at the offset `below`: a compaction of
/// its lines below that offset, in the order of the offsets, at the log's floor, with `below` as
/// its next offset. A mark of ids that is due there takes the offset of a record that is dropped.
///
/// The whole input is read before the first byte is written. What is behind the log's empty line is
/// left out; if it is a line that says where the log ends and it is wrong, the log is refused.
pub fn base<R: Read, W: Output>(
    alloc: Global,
    below: u64,
    reader: &mut R,
    writer: &mut W,
) -> Result<(), BaseError>
    ensures written { OnOk result (IfSome (R.remaining reader.old) (λ input. (out : List ℕ) × IsBase below input out
        × Appends (W.contents writer.old) (W.contents writer.new) out)) }
    ensures not_cut { OnOk result (IfSome (R.remaining reader.old) IsNotCut) }
    ensures flushed { OnOk result (IsFlushed W.contents W.flushes writer.new) }
    ensures refused { IfErr result (IsBaseRefusal below (R.remaining reader.old) (W.contents writer.old) (W.contents writer.new)) }
{
    let input = read_input(alloc, reader)?;
    match base_of(alloc, &input, below) {
        Ok(output) => Ok(write_output(writer, &output)?),
        Err(error) => Err(error),
    }
}

/// Returns the base of a log at the offset `below`, as [`base`] writes it. Errors: the log has a
/// fault, it can't begin anew there (`NoEnd`, `Crossed`, `MarkDue`), or memory was refused.
pub fn base_of(alloc: Global, log: &[u8], below: u64) -> Result<Vec<u8>, BaseError>
    ensures base { IfOk result (λ text. IsBase below log.now text.items) }
    ensures refused { IfErr result (IsNoBase below log.now) }
{
    let read = read_log(alloc, &mut Device::new(log))?;
    let part = part_below(alloc, log, &read, below)?;
    let begun = read_log(alloc, &mut Device::new(part.as_slice()))?;
    if begun.next != below {
        return Err(BaseError::NoEnd);
    }
    if is_crossed(&read.records, below) {
        return Err(BaseError::Crossed);
    }
    if owes_mark(alloc, &begun.records)? {
        return Err(BaseError::MarkDue);
    }
    Ok(compacted_with_mark(alloc, &part)?)
}
