// Reading the head of a request, byte by byte, so that nothing past it is taken.
ghost use Rattle.std.specs.Prelude.{◌≡◌, ◌<◌, ◌≤◌, ℕ, List, Option, length, IfOk, IfSome, OnOk, OnErr};
ghost use Rattle.reg_records.specs.Device.{KeepsEnd, bytes_in, faults_of, reads_of};
ghost use Rattle.reg_messages.specs.Head.{is_skipped, ends_in_empty_line, has_few_lines};
ghost use Rattle.reg_messages.specs.HeadReading.{LosesBlank, LosesHead, TakesBlank, TakesFront, TakesHead, taken_head};
ghost use Rattle.reg_messages.specs.Reading.{TakesShort};
ghost use Rattle.reg_messages.specs.Taking.{CountsReads, LosesReader};

use crate::limits::{HEAD_LIMIT, HEAD_LINES, REQUEST_READS};
use crate::taking::{ReadFault, take_byte};
use reg_records::Device;
use reg_refusals::Refusal;
use std::io::Read;

/// The CR and LF bytes before a request.
#[derive(Clone, Copy)]
pub(crate) struct Blank {
    /// How many CR and LF bytes.
    pub(crate) count: usize,
    /// The byte after them; `None` at the end of the input, or if they are too many.
    pub(crate) next: Option<u8>,
}

/// How the bytes of a head end.
#[derive(Clone, Copy)]
pub(crate) enum HeadEnd {
    /// At an empty line, after this number of bytes.
    Found(usize),
    /// At the end of the input.
    Ended,
    /// Not within the limit.
    Full,
}

/// What was taken before the body of the next request.
#[derive(Debug, Drop)]
pub(crate) enum Taken {
    /// No request.
    Over,
    /// No valid head, and why.
    NoHead(Refusal),
    /// A head of this number of bytes.
    Head(usize),
}

/// Takes the CR and LF bytes at the front, at most one more than a head may have, and the byte
/// after them.
#[tactic(auto, using(crate::proofs::Counts::counts_then, reg_records::proofs::Ends::ends_then))]
pub(crate) fn take_blank<R: Read>(reader: &mut Device<R>) -> Result<Blank, ReadFault>
    requires begun { reads_of reader.old ≤ REQUEST_READS }
    ensures taken { IfOk result (TakesBlank (bytes_in R.remaining reader.old) (bytes_in R.remaining reader.new)) }
    ensures faults { OnOk result (faults_of reader.new ≡ faults_of reader.old) }
    ensures reads { CountsReads reader.old reader.new }
    ensures end { KeepsEnd R.remaining reader.old reader.new }
    ensures lost { OnErr result (LosesReader reader.old reader.new
        × LosesBlank (bytes_in R.remaining reader.old) (bytes_in R.remaining reader.new)) }
{
    let mut count = 0;
    while count <= HEAD_LIMIT {
        match take_byte(reader)? {
            None => return Ok(Blank { count, next: None }),
            Some(b) => {
                if !is_skipped(b) {
                    return Ok(Blank {
                        count,
                        next: Some(b),
                    });
                }
                count += 1;
            }
        }
    }
    Ok(Blank { count, next: None })
}

pub(crate) fn is_skipped(b: u8) -> bool
    ensures { result ≡ is_skipped b }
{
    b == b'\r' || b == b'\n'
}

/// Takes bytes up to an empty line. The first byte of the buffer was taken before.
#[tactic(auto, using(crate::proofs::Counts::counts_then, reg_records::proofs::Ends::ends_then))]
pub(crate) fn take_head<R: Read>(
    reader: &mut Device<R>,
    buffer: &mut [u8],
    limit: usize,
) -> Result<HeadEnd, ReadFault>
    requires begun { reads_of reader.old ≤ REQUEST_READS }
    requires room { limit ≤ length buffer.old }
    requires some { 0 < limit }
    ensures taken { IfOk result (TakesHead (bytes_in R.remaining reader.old) (bytes_in R.remaining reader.new) buffer.old buffer.new limit) }
    ensures faults { OnOk result (faults_of reader.new ≡ faults_of reader.old) }
    ensures reads { CountsReads reader.old reader.new }
    ensures end { KeepsEnd R.remaining reader.old reader.new }
    ensures lost { OnErr result (LosesReader reader.old reader.new
        × LosesHead (bytes_in R.remaining reader.old) (bytes_in R.remaining reader.new) buffer.old limit) }
{
    let mut len = 1;
    while len < limit {
        match take_byte(reader)? {
            None => return Ok(HeadEnd::Ended),
            Some(b) => {
                buffer[len] = b;
                len += 1;
                if ends_in_empty_line(&buffer[..len]) {
                    return Ok(HeadEnd::Found(len));
                }
            }
        }
    }
    Ok(HeadEnd::Full)
}

pub(crate) fn ends_in_empty_line(bytes: &[u8]) -> bool
    ensures { result ≡ ends_in_empty_line bytes.now }
{
    bytes.ends_with(b"\n\n") || bytes.ends_with(b"\n\r\n")
}

/// Takes all bytes before the body of the next request. Those of its head go to the front of the
/// buffer.
#[tactic(auto, using(crate::proofs::Counts::counts_then, reg_records::proofs::Ends::ends_then))]
pub(crate) fn take_front<R: Read>(
    reader: &mut Device<R>,
    buffer: &mut [u8],
) -> Result<Taken, ReadFault>
    requires begun { reads_of reader.old ≤ REQUEST_READS }
    requires room { HEAD_LIMIT ≤ length buffer.old }
    ensures taken { IfOk result (TakesFront (bytes_in R.remaining reader.old) (bytes_in R.remaining reader.new) buffer.new) }
    ensures faults { OnOk result (faults_of reader.new ≡ faults_of reader.old) }
    ensures reads { CountsReads reader.old reader.new }
    ensures end { KeepsEnd R.remaining reader.old reader.new }
    ensures lost { OnErr result (LosesReader reader.old reader.new) }
    ensures short { OnErr result (IfSome (bytes_in R.remaining reader.old) (λ text. TakesShort text (bytes_in R.remaining reader.new))) }
{
    match take_blank(reader) {
        Ok(blank) => take_after_blank(reader, buffer, blank),
        Err(fault) => Err(fault),
    }
}

/// Takes the rest of the bytes before the body, after the CR and LF bytes at the front.
#[tactic(auto, using(crate::proofs::Counts::counts_then, reg_records::proofs::Ends::ends_then))]
fn take_after_blank<R: Read>(
    reader: &mut Device<R>,
    buffer: &mut [u8],
    blank: Blank,
) -> Result<Taken, ReadFault>
    requires begun { reads_of reader.old ≤ REQUEST_READS }
    requires room { HEAD_LIMIT ≤ length buffer.old }
    ensures taken { (start : Option (List ℕ)) → TakesBlank start (bytes_in R.remaining reader.old) blank
        → IfOk result (TakesFront start (bytes_in R.remaining reader.new) buffer.new) }
    ensures faults { OnOk result (faults_of reader.new ≡ faults_of reader.old) }
    ensures reads { CountsReads reader.old reader.new }
    ensures end { KeepsEnd R.remaining reader.old reader.new }
    ensures lost { OnErr result (LosesReader reader.old reader.new) }
    ensures short { (start : Option (List ℕ)) → TakesBlank start (bytes_in R.remaining reader.old) blank
        → OnErr result (IfSome start (λ text. TakesShort text (bytes_in R.remaining reader.new))) }
{
    match blank.next {
        None => {
            if blank.count > HEAD_LIMIT {
                return Ok(Taken::NoHead(Refusal::HeadTooLarge));
            }
            Ok(Taken::Over)
        }
        Some(first) => {
            if blank.count >= HEAD_LIMIT {
                return Ok(Taken::NoHead(Refusal::HeadTooLarge));
            }
            buffer[0] = first;
            match take_head(reader, buffer, HEAD_LIMIT - blank.count) {
                Ok(HeadEnd::Found(len)) => Ok(taken_head(&buffer[..len])),
                Ok(HeadEnd::Ended) => Ok(Taken::NoHead(Refusal::BadRequest)),
                Ok(HeadEnd::Full) => Ok(Taken::NoHead(Refusal::HeadTooLarge)),
                Err(fault) => Err(fault),
            }
        }
    }
}

/// Returns the head that the bytes are, or refuses it if it has too many lines.
fn taken_head(bytes: &[u8]) -> Taken
    ensures { result ≡ taken_head bytes.now }
{
    if has_few_lines(bytes) {
        Taken::Head(bytes.len())
    } else {
        Taken::NoHead(Refusal::HeadTooLarge)
    }
}

pub(crate) fn has_few_lines(bytes: &[u8]) -> bool
    ensures { result ≡ has_few_lines bytes.now }
{
    let mut lines = 0;
    for b in bytes {
        if *b == b'\n' {
            lines += 1;
        }
    }
    lines <= HEAD_LINES + 1
}
