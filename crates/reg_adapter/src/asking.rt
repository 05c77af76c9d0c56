// What a process asks its adapter for.
ghost use Rattle.std.specs.Prelude.{◌≡◌, ◌≤◌, All, IfErr, IfOk, OnOk, length};
ghost use Rattle.reg_records.specs.Written.{HasLine, line_text};
ghost use Rattle.reg_records.specs.declared.limits.TheConstants.{LINE_LIMIT};
ghost use Rattle.reg_records.specs.declared.write.WriteLineError.TheVariants.{TooLong};
ghost use Rattle.reg_journal.specs.Lines.{Say, batch_lines, batch_reads};
ghost use Rattle.reg_journal.specs.Refusals.{HasLongLine};
ghost use Rattle.reg_adapter.specs.Requests.{request_text};

use reg_records::{Record, WriteLineError, write_line};
use std::alloc::Global;

/// Writes the request to append these records next in the log: their lines, and an empty one.
/// Without records it is a check. Errors: a record's line would be too long, or memory was refused.
pub fn request(alloc: Global, batch: &[Record]) -> Result<Vec<u8>, WriteLineError>
    requires { All HasLine batch.now }
    ensures text { IfOk result (λ text. text.items ≡ request_text batch.now) }
    ensures say { OnOk result (Say (batch_lines batch.now) (batch_reads batch.now)) }
    ensures short { OnOk result (All (λ r. length (line_text r) ≤ LINE_LIMIT) batch.now) }
    ensures long { IfErr result (λ e. e ≡ TooLong → HasLongLine batch.now) }
{
    let mut text = Vec::new(alloc);
    for record in batch {
        let line = write_line(alloc, record)?;
        text.extend_from_slice(&line)?;
    }
    text.extend_from_slice(b"\n")?;
    Ok(text)
}
