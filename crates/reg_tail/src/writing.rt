// Writing a text whole.
ghost use Rattle.std.specs.Prelude.{◌≡◌, ◌<◌, ◌≤◌, length, take, IfErr, IfOk, OnErr, OnOk};
ghost use Rattle.std.specs.Io.KnownBytes.{Appends, Keeps};
ghost use Rattle.reg_tail.specs.Writing.{HasFailed, IsCutShort, IsWritten};

use reg_records::Output;
use std::io::ErrorKind;

/// The writer failed.
#[derive(Clone, Copy, Debug, PartialEq, Eq)]
pub(crate) struct Failed;

/// Writes a text whole, and flushes it. For none the writer isn't touched.
pub(crate) fn write_text<W: Output>(writer: &mut W, text: &[u8]) -> Result<(), Failed>
    ensures written { OnOk result (IsWritten W.contents W.writes W.flushes text.now writer.old writer.new) }
    ensures cut { OnErr result (IsCutShort W.contents W.writes W.flushes text.now writer.old writer.new) }
{
    if text.is_empty() {
        return Ok(());
    }
    write_bytes(writer, text)?;
    match writer.flush_out() {
        Ok(()) => Ok(()),
        Err(_) => Err(Failed),
    }
}

fn write_bytes<W: Output>(writer: &mut W, bytes: &[u8]) -> Result<(), Failed>
    ensures written { OnOk result (Appends (W.contents writer.old) (W.contents writer.new) bytes.now) }
    ensures cut { OnErr result (IsCutShort W.contents W.writes W.flushes bytes.now writer.old writer.new) }
{
    let mut at = 0;
    while at < bytes.len() {
        at += write_some(writer, &bytes[at..])?;
    }
    Ok(())
}

/// Writes at least one of the bytes, and says how many. A write that is interrupted is tried again.
fn write_some<W: Output>(writer: &mut W, bytes: &[u8]) -> Result<usize, Failed>
    requires { 0 < length bytes.now }
    ensures some { IfOk result (λ n. (0 < n) × (n ≤ length bytes.now)) }
    ensures written { IfOk result (λ n. Appends (W.contents writer.old) (W.contents writer.new) (take n bytes.now)) }
    ensures kept { OnErr result (Keeps (W.contents writer.old) (W.contents writer.new)) }
    ensures failed { OnErr result (HasFailed W.contents W.writes W.flushes writer.new) }
{
    for _turn in 0..u64::MAX {
        match writer.write_out(bytes) {
            Ok(0) => return Err(Failed),
            Ok(n) => return Ok(n),
            Err(e) => {
                if e.kind() != ErrorKind::Interrupted {
                    return Err(Failed);
                }
            }
        }
    }
    Err(Failed)
}
