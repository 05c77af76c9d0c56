// The responses to the requests that a reader gives.
ghost use Rattle.std.specs.Prelude.{◌≡◌, ◌≤◌, ◌+◌, ◌*◌, ℕ, List, Bool, Option, IfOk, IfErr, IfSome, OnErr, OnOk};
ghost use Rattle.std.specs.Io.KnownBytes.{Appends};
ghost use Rattle.reg_records.specs.Device.{KeepsEnd, KeepsInterruptions, KeepsReads, all_reads_of, bytes_in, faults_of, interruptions_of, reads_of};
ghost use Rattle.reg_messages.specs.Reading.{GetsLent};
ghost use Rattle.reg_messages.specs.declared.limits.TheConstants.{REQUEST_READS};
ghost use Rattle.reg_responses.specs.declared.limits.TheConstants.{INTERRUPTION_LIMIT};
ghost use Rattle.reg_responses.specs.Writing.{IsLostBy, IsLostSince, LosesWriter};
ghost use Rattle.reg_http.specs.Ends.{EndsAfter, EndsRefused, EndsStep, EndsStepRefused};
ghost use Rattle.reg_http.specs.Serve.{IsOutput, IsPart, IsServeRefusal, ReadsForRequests};
ghost use Rattle.reg_http.specs.ServeSteps.{IsStepRefusal, LosesStep, Steps};

use crate::attending::{Attended, attend};
use crate::desk::Desk;
use crate::doing::{closes_after, status_of, write_done};
use crate::limits::REQUESTS_LIMIT;
use crate::outcome::RequestOutcome;
use reg_messages::{Got, LendsParts, read_message};
use reg_records::{Device, Output};
use reg_requests::Paths;
use reg_responses::WriteFault;
use std::alloc::Global;
use std::io::BufRead;

/// What a call of [`serve`] did.
#[derive(Clone, Copy, Debug, PartialEq, Eq)]
pub struct Served {
    /// How many responses were written.
    pub requests: u64,
}

/// Why a call of [`serve`] failed.
#[derive(Clone, Copy, Debug, PartialEq, Eq)]
pub enum ServeError {
    /// The reader failed, or was read as often as is allowed for one request. Each response before
    /// is written whole.
    ReadFault,
    /// The writer failed, or was interrupted too often in a row. Each response before is written
    /// whole, and a prefix of the last.
    WriteFault,
}

/// Answers the requests from `reader` one after the other. Ends after a response that closes the
/// connection, at the end of the input, or after [`REQUESTS_LIMIT`] requests.
///
/// If memory is refused, the response says so, and the next request is answered. The reads are
/// counted anew for each request, and the interruptions of the writer for each response.
pub fn serve<R: BufRead, W: Output, D: Desk>(
    alloc: Global,
    reader: &mut Device<R>,
    writer: &mut Device<W>,
    desk: &mut D,
) -> Result<Served, ServeError>
    ensures written { IfOk result (λ served. IfSome (bytes_in R.remaining reader.old) (λ text. (out : List ℕ)
        × IsOutput D.asks D.commands desk.old text served.requests out desk.new
        × Appends (bytes_in W.contents writer.old) (bytes_in W.contents writer.new) out)) }
    ensures faults { OnOk result ((faults_of reader.new ≡ faults_of reader.old) × (faults_of writer.new ≡ faults_of writer.old)) }
    ensures refused { IfErr result (λ e. IsServeRefusal D.asks D.commands reader.old reader.new writer.old writer.new
        (bytes_in R.remaining reader.old) (bytes_in R.remaining reader.new)
        (bytes_in W.contents writer.old) (bytes_in W.contents writer.new) desk.old desk.new e) }
    ensures left { IfOk result (λ served. IfSome (bytes_in R.remaining reader.old) (λ text. (goes : Bool)
        × IsPart D.asks D.commands desk.old text served.requests goes
        (bytes_in W.contents writer.old) (bytes_in W.contents writer.new) (bytes_in R.remaining reader.new) desk.new)) }
    ensures reads { (reads_of reader.new ≤ REQUEST_READS)
        × (all_reads_of reader.new ≤ all_reads_of reader.old + REQUESTS_LIMIT * REQUEST_READS) }
    ensures few { IfOk result (λ served. ReadsForRequests reader.old reader.new (served.requests + 1)) }
    ensures interruptions { interruptions_of writer.new ≤ INTERRUPTION_LIMIT }
    ensures flushed { IfOk result (λ served. EndsAfter W.writes W.flushes served.requests writer.old writer.new) }
    ensures cause { IfErr result (EndsRefused W.writes W.flushes writer.old writer.new) }
{
    let mut paths = None;
    writer.begin_count();
    for requests in 0..REQUESTS_LIMIT {
        match answer_next(alloc, &mut paths, reader, writer, desk) {
            Ok(Some(outcome)) => {
                if outcome.closes {
                    return Ok(Served {
                        requests: requests + 1,
                    });
                }
            }
            Ok(None) => return Ok(Served { requests }),
            Err(e) => return Err(e),
        }
    }
    Ok(Served {
        requests: REQUESTS_LIMIT,
    })
}

/// Answers the next request, and returns the result; `None` at the end of the input. The count of
/// reads begins anew. The router is made at the first request; pass `paths` on to the next call.
#[tactic(auto, using(reg_records::proofs::Ends::end_begun, reg_records::proofs::Ends::ends_then))]
pub fn answer_next<R: BufRead, W: Output, D: Desk>(
    alloc: Global,
    paths: &mut Option<Paths>,
    reader: &mut Device<R>,
    writer: &mut Device<W>,
    desk: &mut D,
) -> Result<Option<RequestOutcome>, ServeError>
    requires few { interruptions_of writer.old ≤ INTERRUPTION_LIMIT }
    ensures step { IfOk result (λ outcome. IfSome (bytes_in R.remaining reader.old) (λ text. Steps D.asks D.commands desk.old text
        (bytes_in W.contents writer.old) (bytes_in W.contents writer.new) (bytes_in R.remaining reader.new) desk.new outcome)) }
    ensures faults { OnOk result ((faults_of reader.new ≡ faults_of reader.old) × (faults_of writer.new ≡ faults_of writer.old)) }
    ensures refused { IfErr result (λ e. IsStepRefusal D.asks D.commands reader.old reader.new writer.old writer.new
        (bytes_in R.remaining reader.old) (bytes_in R.remaining reader.new)
        (bytes_in W.contents writer.old) (bytes_in W.contents writer.new) desk.old desk.new e) }
    ensures reads { (reads_of reader.new ≤ REQUEST_READS) × (all_reads_of reader.new ≤ all_reads_of reader.old + REQUEST_READS) }
    ensures counted { KeepsReads reader.old reader.new }
    ensures end { KeepsEnd R.remaining reader.old reader.new }
    ensures lasting { OnOk result (KeepsInterruptions writer.old writer.new) }
    ensures interruptions { interruptions_of writer.new ≤ INTERRUPTION_LIMIT }
    ensures flushed { IfOk result (EndsStep W.writes W.flushes writer.old writer.new) }
    ensures cause { IfErr result (EndsStepRefused W.writes W.flushes writer.old writer.new) }
{
    reader.begin_count();
    match read_message(alloc, reader) {
        Ok(got) => match answer_got(alloc, paths, got, writer, desk) {
            Ok(outcome) => Ok(outcome),
            Err(_) => Err(ServeError::WriteFault),
        },
        Err(_) => Err(ServeError::ReadFault),
    }
}

/// Answers a message that was read, and returns the result; `None` if there is none. Fails if the
/// writer failed or was interrupted too often in a row.
pub fn answer_got<Q: LendsParts + Drop, W: Output, D: Desk>(
    alloc: Global,
    paths: &mut Option<Paths>,
    got: Got<Q>,
    writer: &mut Device<W>,
    desk: &mut D,
) -> Result<Option<RequestOutcome>, WriteFault>
    requires few { interruptions_of writer.old ≤ INTERRUPTION_LIMIT }
    ensures step { (text : List ℕ) (left : Option (List ℕ)) → GetsLent Q.parts text left got → IfOk result (Steps D.asks D.commands desk.old text
        (bytes_in W.contents writer.old) (bytes_in W.contents writer.new) left desk.new) }
    ensures refused { (text : List ℕ) (left : Option (List ℕ)) → GetsLent Q.parts text left got → OnErr result (LosesStep D.asks D.commands
        writer.old writer.new desk.old text (bytes_in W.contents writer.old) (bytes_in W.contents writer.new) desk.new) }
    ensures lost { OnErr result (LosesWriter writer.old writer.new × IsLostSince writer.old writer.new) }
    ensures faults { OnOk result (faults_of writer.new ≡ faults_of writer.old) }
    ensures lasting { OnOk result (KeepsInterruptions writer.old writer.new) }
    ensures interruptions { interruptions_of writer.new ≤ INTERRUPTION_LIMIT }
    ensures flushed { IfOk result (EndsStep W.writes W.flushes writer.old writer.new) }
    ensures cause { OnErr result (IsLostBy W.writes W.flushes writer.new) }
{
    match attend(alloc, paths, got, desk) {
        Attended::Over => Ok(None),
        Attended::Done {
            endpoint,
            done,
            wants_close,
        } => match write_done(writer, &done, wants_close) {
            Ok(()) => Ok(Some(RequestOutcome {
                endpoint,
                status: status_of(&done),
                closes: closes_after(&done, wants_close),
            })),
            Err(fault) => Err(fault),
        },
    }
}
