// Taking the body of a request from a reader.
ghost use Rattle.std.specs.Io.KnownBytes.{Consumes};
ghost use Rattle.std.specs.Prelude.{◌≡◌, ◌≤◌, ◌+◌, ℕ, List, [], Option, length, IfOk, OnOk, OnErr};
ghost use Rattle.reg_records.specs.Device.{KeepsEnd, bytes_in, faults_of, reads_of};
ghost use Rattle.reg_messages.specs.BodyReading.{LosesBody, TakesAll, TakesBody};
ghost use Rattle.reg_messages.specs.Taking.{CountsReads, LosesReader};

use crate::limits::REQUEST_READS;
use crate::taking::{ReadFault, take_some};
use base_text::Listed;
use reg_records::Device;
use std::alloc::Global;
use std::io::Read;

/// The body that was taken.
#[derive(Debug, Drop)]
pub(crate) enum Body {
    Whole(Listed<u8>),
    /// The input ended before its end.
    Short,
    /// Memory was refused, so its bytes were dropped. The input may have ended before its end.
    Dropped,
}

/// Takes a body of `len` bytes.
#[tactic(auto, using(crate::proofs::Counts::counts_then, reg_records::proofs::Ends::ends_then))]
pub(crate) fn take_body<R: Read>(
    alloc: Global,
    reader: &mut Device<R>,
    len: usize,
) -> Result<Body, ReadFault>
    requires begun { reads_of reader.old ≤ REQUEST_READS }
    ensures taken { IfOk result (TakesBody (bytes_in R.remaining reader.old) (bytes_in R.remaining reader.new) len) }
    ensures faults { OnOk result (faults_of reader.new ≡ faults_of reader.old) }
    ensures reads { CountsReads reader.old reader.new }
    ensures end { KeepsEnd R.remaining reader.old reader.new }
    ensures lost { OnErr result (LosesReader reader.old reader.new) }
    ensures short { OnErr result (LosesBody (bytes_in R.remaining reader.old) (bytes_in R.remaining reader.new) len) }
{
    match Vec::with_capacity(alloc, len) {
        Ok(room) => fill_body(reader, room, len),
        Err(_) => drop_body(reader, len),
    }
}

/// Takes `len` bytes into an empty vector.
#[tactic(auto, using(crate::proofs::Counts::counts_then, reg_records::proofs::Ends::ends_then))]
fn fill_body<R: Read>(reader: &mut Device<R>, room: Vec<u8>, len: usize) -> Result<Body, ReadFault>
    requires begun { reads_of reader.old ≤ REQUEST_READS }
    requires empty { room.items ≡ [] }
    ensures taken { IfOk result (TakesBody (bytes_in R.remaining reader.old) (bytes_in R.remaining reader.new) len) }
    ensures faults { OnOk result (faults_of reader.new ≡ faults_of reader.old) }
    ensures reads { CountsReads reader.old reader.new }
    ensures end { KeepsEnd R.remaining reader.old reader.new }
    ensures lost { OnErr result (LosesReader reader.old reader.new) }
    ensures short { OnErr result (LosesBody (bytes_in R.remaining reader.old) (bytes_in R.remaining reader.new) len) }
{
    let mut bytes = room;
    let mut buffer = [0u8; 1024];
    let mut left = len;
    while left > 0 {
        let most = left.min(buffer.len());
        match take_some(reader, &mut buffer[..most]) {
            Ok(0) => return Ok(Body::Short),
            Ok(n) => {
                left -= n;
                if bytes.extend_from_slice(&buffer[..n]).is_err() {
                    return drop_body(reader, left);
                }
            }
            Err(fault) => return Err(fault),
        }
    }
    Ok(Body::Whole(Listed::from(bytes)))
}

/// Takes the last `left` bytes of a body and drops them.
#[tactic(auto, using(crate::proofs::Counts::counts_then, reg_records::proofs::Ends::ends_then))]
fn drop_body<R: Read>(reader: &mut Device<R>, left: usize) -> Result<Body, ReadFault>
    requires begun { reads_of reader.old ≤ REQUEST_READS }
    ensures taken { (start : Option (List ℕ)) (taken : List ℕ) (len : ℕ) → Consumes start (bytes_in R.remaining reader.old) taken
        → len ≡ length taken + left → IfOk result (TakesBody start (bytes_in R.remaining reader.new) len) }
    ensures faults { OnOk result (faults_of reader.new ≡ faults_of reader.old) }
    ensures reads { CountsReads reader.old reader.new }
    ensures end { KeepsEnd R.remaining reader.old reader.new }
    ensures lost { OnErr result (LosesReader reader.old reader.new) }
    ensures short { (start : Option (List ℕ)) (taken : List ℕ) (len : ℕ) → Consumes start (bytes_in R.remaining reader.old) taken
        → len ≡ length taken + left → OnErr result (LosesBody start (bytes_in R.remaining reader.new) len) }
{
    match skip_bytes(reader, left) {
        Ok(_) => Ok(Body::Dropped),
        Err(fault) => Err(fault),
    }
}

/// Takes `len` bytes, and returns whether there were as many.
#[tactic(auto, using(crate::proofs::Counts::counts_then, reg_records::proofs::Ends::ends_then))]
fn skip_bytes<R: Read>(reader: &mut Device<R>, len: usize) -> Result<bool, ReadFault>
    requires begun { reads_of reader.old ≤ REQUEST_READS }
    ensures taken { IfOk result (TakesAll (bytes_in R.remaining reader.old) (bytes_in R.remaining reader.new) len) }
    ensures faults { OnOk result (faults_of reader.new ≡ faults_of reader.old) }
    ensures reads { CountsReads reader.old reader.new }
    ensures end { KeepsEnd R.remaining reader.old reader.new }
    ensures lost { OnErr result (LosesReader reader.old reader.new) }
    ensures short { OnErr result (LosesBody (bytes_in R.remaining reader.old) (bytes_in R.remaining reader.new) len) }
{
    let mut buffer = [0u8; 1024];
    let mut left = len;
    while left > 0 {
        let most = left.min(buffer.len());
        match take_some(reader, &mut buffer[..most]) {
            Ok(0) => return Ok(false),
            Ok(n) => left -= n,
            Err(fault) => return Err(fault),
        }
    }
    Ok(true)
}
