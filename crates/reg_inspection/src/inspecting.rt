// The inspection of a log as a filter from a reader to a writer.
ghost use Rattle.std.specs.Prelude.{IfErr, IfOk, IfSome, OnOk};
ghost use Rattle.reg_journal.specs.Found.{HasFault};
ghost use Rattle.reg_compaction.specs.Filter.{IsFilterRefusal, IsFlushed};
ghost use Rattle.reg_compaction.specs.Whole.{IsNotCut};
ghost use Rattle.reg_inspection.specs.Inspection.{Describes, Reports};

use crate::inspection::inspected;
use crate::laws::no_obstacle_is_open;
use reg_compaction::{FilterError, filter_error, read_input, write_output};
use reg_fold::reg_records::{LogError, Output};
use std::alloc::Global;
use std::io::Read;

/// Reads a log to the end of the input and writes its inspection, a line for each fact. Returns
/// whether nothing keeps the log from being served.
///
/// The whole input is read before the first byte is written. What is behind the log's empty line is
/// left out; if it is a line that says where the log ends and it is wrong, the log is refused
/// (`Cut`). Errors are those of filters: a faulty log, a reader or writer that failed, or no
/// memory.
pub fn inspect<R: Read, W: Output>(
    alloc: Global,
    reader: &mut R,
    writer: &mut W,
) -> Result<bool, FilterError>
    ensures written { IfOk result (λ servable. IfSome (R.remaining reader.old) (λ input.
        Reports input servable (W.contents writer.old) (W.contents writer.new))) }
    ensures not_cut { OnOk result (IfSome (R.remaining reader.old) IsNotCut) }
    ensures flushed { OnOk result (IsFlushed W.contents W.flushes writer.new) }
    ensures refused { IfErr result (IsFilterRefusal (R.remaining reader.old) (W.contents writer.old) (W.contents writer.new)) }
{
    let input = read_input(alloc, reader)?;
    match described(alloc, &input) {
        Ok(found) => {
            write_output(writer, found.text.as_bytes())?;
            Ok(found.servable)
        }
        Err(e) => Err(filter_error(e)),
    }
}

/// The text of an inspection, and whether nothing keeps the log from being taken over.
#[derive(Drop)]
pub(crate) struct Description {
    pub text: String,
    pub servable: bool,
}

fn described(alloc: Global, log: &[u8]) -> Result<Description, LogError>
    ensures described { IfOk result (Describes log.now) }
    ensures fault { IfErr result (HasFault log.now) }
{
    no_obstacle_is_open();
    let found = inspected(alloc, log)?;
    let text = found.report(alloc)?;
    Ok(Description {
        text,
        servable: found.is_servable(),
    })
}
