// Taking bytes from a reader, whose reads for one request are counted.
ghost use Rattle.std.specs.Io.KnownBytes.{Keeps};
ghost use Rattle.std.specs.Prelude.{◌≡◌, ◌<◌, ◌≤◌, length, take, IfOk, OnOk, OnErr};
ghost use Rattle.reg_records.specs.Device.{KeepsEnd, bytes_in, faults_of, reads_of};
ghost use Rattle.reg_messages.specs.Taking.{CountsReads, LosesReader, TakesByte, TakesSome};

use crate::limits::REQUEST_READS;
use reg_records::Device;
use std::io::{ErrorKind, Read};

/// A lost reader: it failed, or was read as often as is allowed for one request.
#[derive(Clone, Copy, Debug)]
pub struct ReadFault;

/// Reads once into the front of the buffer, and returns how many bytes; 0 at the end of the input.
/// An interrupted read is tried again.
#[tactic(auto, using(crate::proofs::Counts::counts_then, reg_records::proofs::Ends::ends_then, reg_records::proofs::Ends::end_kept, reg_records::proofs::Ends::end_read))]
pub(crate) fn take_some<R: Read>(
    reader: &mut Device<R>,
    buffer: &mut [u8],
) -> Result<usize, ReadFault>
    requires some { 0 < length buffer.old }
    requires begun { reads_of reader.old ≤ REQUEST_READS }
    ensures fits { IfOk result (λ n. n ≤ length buffer.new) }
    ensures taken { IfOk result (λ n. TakesSome (bytes_in R.remaining reader.old) (bytes_in R.remaining reader.new) (take n buffer.new)) }
    ensures faults { OnOk result (faults_of reader.new ≡ faults_of reader.old) }
    ensures reads { CountsReads reader.old reader.new }
    ensures end { KeepsEnd R.remaining reader.old reader.new }
    ensures lost { OnErr result (LosesReader reader.old reader.new
        × Keeps (bytes_in R.remaining reader.old) (bytes_in R.remaining reader.new)) }
{
    while reader.reads() < REQUEST_READS {
        match reader.read(buffer) {
            Ok(n) => return Ok(n),
            Err(e) => {
                if e.kind() != ErrorKind::Interrupted {
                    return Err(ReadFault);
                }
            }
        }
    }
    Err(ReadFault)
}

/// Takes one byte; `None` at the end of the input.
#[tactic(auto, using(crate::proofs::Counts::counts_then, reg_records::proofs::Ends::ends_then))]
pub(crate) fn take_byte<R: Read>(reader: &mut Device<R>) -> Result<Option<u8>, ReadFault>
    requires begun { reads_of reader.old ≤ REQUEST_READS }
    ensures taken { IfOk result (TakesByte (bytes_in R.remaining reader.old) (bytes_in R.remaining reader.new)) }
    ensures faults { OnOk result (faults_of reader.new ≡ faults_of reader.old) }
    ensures reads { CountsReads reader.old reader.new }
    ensures end { KeepsEnd R.remaining reader.old reader.new }
    ensures lost { OnErr result (LosesReader reader.old reader.new
        × Keeps (bytes_in R.remaining reader.old) (bytes_in R.remaining reader.new)) }
{
    let mut one = [0u8; 1];
    match take_some(reader, &mut one) {
        Ok(0) => Ok(None),
        Ok(_) => Ok(Some(one[0])),
        Err(fault) => Err(fault),
    }
}
