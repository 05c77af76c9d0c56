// The fold: a log, and the requests that are answered from it.
ghost use Rattle.std.specs.Prelude.{◌≡◌, ◌≤◌, List, ℕ, IfOk, IfErr, IfSome, OnOk, count_by};
ghost use Rattle.std.specs.FinSet as set;
ghost use Rattle.std.specs.Io.KnownBytes.{Appends};
ghost use Rattle.reg_http.specs.Ends.{EndsAfter};
ghost use Rattle.reg_records.specs.Device.{KeepsEnd, KeepsReads, bytes_in, faults_of, interruptions_of, reads_of};
ghost use Rattle.reg_messages.specs.declared.limits.TheConstants.{REQUEST_READS};
ghost use Rattle.reg_responses.specs.declared.limits.TheConstants.{INTERRUPTION_LIMIT};
ghost use Rattle.reg_set.specs.LastRecords.{last_records};
ghost use Rattle.reg_program.specs.Fold.{EndsFoldRefused, Folds, IsFoldRefusal, IsLogRefused, ended_by, fold_error_of};
ghost use Rattle.reg_program.specs.Opening.{IsOpened};

use crate::desk::FoldDesk;
use reg_fold::Registry;
use reg_http::{ServeError, serve};
use reg_records::{Device, LINE_READS, LogError, LogFault, Output, Record, read_log};
use reg_set::{last_records_of_unions, records_are_ordered};
use reg_topic::{
    commits_follow, lawful_items_follow, lawful_lists_keep_ids, lawful_lists_meet_levels,
};
use std::alloc::{AllocError, Global};
use std::io::BufRead;

/// What a fold did.
#[derive(Clone, Copy, Debug, PartialEq, Eq)]
pub struct Folded {
    /// How many lines of the log have a key of an unknown kind.
    pub foreign: u64,
    /// How many responses were written.
    pub requests: u64,
}

/// Why a fold failed.
#[derive(Clone, Copy, Debug, PartialEq, Eq)]
pub enum FoldError {
    /// The first faulty line of the log; lines count from 1. Nothing was written.
    Log { line: u64, fault: LogFault },
    /// The reader failed, or took too many reads for a line or a request. The responses to all
    /// earlier requests were written.
    ReadFault,
    /// The writer failed, or was interrupted too often in a row. A prefix of a response was
    /// written.
    WriteFault,
    /// Memory for the log was refused. Nothing was written.
    OutOfMemory,
}

impl From<AllocError> for FoldError {
    ghost use Rattle.reg_program.specs.declared.folding.FoldError.TheVariants.{OutOfMemory};

    ghost from_gives = { λ _ e. e ≡ OutOfMemory };

    fn from(_refused: AllocError) -> FoldError {
        FoldError::OutOfMemory
    }
}

/// Reads a log, and answers the requests after its empty line, one after the other, from the
/// registry over its records. What a command writes counts for later requests.
///
/// The whole log is read before the first byte is written. If the log takes commands, an id never
/// changes its meaning by what they write, and each registered version meets the level in force
/// against the live versions.
///
/// Fails at a faulty line, if the reader or the writer fails, or if memory for the log is refused.
pub fn fold<R: BufRead, W: Output>(
    alloc: Global,
    reader: &mut Device<R>,
    writer: &mut Device<W>,
) -> Result<Folded, FoldError>
    ensures written { IfOk result (λ folded. IfSome (bytes_in R.remaining reader.old) (λ input. (out : List ℕ)
        × Folds input folded out × Appends (bytes_in W.contents writer.old) (bytes_in W.contents writer.new) out)) }
    ensures faults { OnOk result ((faults_of reader.new ≡ faults_of reader.old) × (faults_of writer.new ≡ faults_of writer.old)) }
    ensures bounds { OnOk result ((reads_of reader.new ≤ REQUEST_READS) × (interruptions_of writer.new ≤ INTERRUPTION_LIMIT)) }
    ensures reads { reads_of reader.new ≤ LINE_READS }
    ensures refused { IfErr result (IsFoldRefusal R.remaining W.contents reader.old reader.new writer.old writer.new) }
    ensures flushed { IfOk result (λ folded. EndsAfter W.writes W.flushes folded.requests writer.old writer.new) }
    ensures cause { IfErr result (EndsFoldRefused W.writes W.flushes writer.old writer.new) }
{
    commits_follow();
    last_records_of_unions();
    lawful_items_follow();
    lawful_lists_keep_ids();
    lawful_lists_meet_levels();
    let Opened { foreign, mut desk } = open(alloc, reader)?;
    match serve(alloc, reader, writer, &mut desk) {
        Ok(served) => Ok(Folded {
            foreign,
            requests: served.requests,
        }),
        Err(error) => Err(ended_by(error)),
    }
}

/// What a log gives.
struct Opened {
    foreign: u64,
    desk: FoldDesk,
}

/// Reads the log, and opens a desk over its records.
fn open<R: BufRead>(alloc: Global, reader: &mut Device<R>) -> Result<Opened, FoldError>
    ensures opened { IfOk result (λ opened.
        IsOpened (bytes_in R.remaining reader.old) (bytes_in R.remaining reader.new) opened.foreign opened.desk) }
    ensures faults { OnOk result (faults_of reader.new ≡ faults_of reader.old) }
    ensures reads { reads_of reader.new ≤ LINE_READS }
    ensures end { OnOk result (KeepsEnd R.remaining reader.old reader.new) }
    ensures counted { OnOk result (KeepsReads reader.old reader.new) }
    ensures refused { IfErr result (IsLogRefused R.remaining reader.old reader.new) }
{
    records_are_ordered();
    let log = match read_log(alloc, reader) {
        Ok(log) => log,
        Err(e) => return Err(fold_error(e)),
    };
    let registry = registry_of(alloc, &log.records)?;
    Ok(Opened {
        foreign: log.foreign,
        desk: FoldDesk {
            alloc,
            registry,
            next: log.next,
        },
    })
}

fn fold_error(e: LogError) -> FoldError
    ensures { result ≡ fold_error_of e }
{
    match e {
        LogError::Fault { line, fault } => FoldError::Log { line, fault },
        LogError::ReadFault { line: _ } => FoldError::ReadFault,
        LogError::OutOfMemory => FoldError::OutOfMemory,
    }
}

fn ended_by(e: ServeError) -> FoldError
    ensures { result ≡ ended_by e }
{
    match e {
        ServeError::ReadFault => FoldError::ReadFault,
        ServeError::WriteFault => FoldError::WriteFault,
    }
}

/// Makes the registry over the set of the records. The only error is out of memory.
fn registry_of(alloc: Global, records: &[Record]) -> Result<Registry, AllocError>
    ensures { IfOk result (λ registry. registry ≡ last_records (set.from_list records.now)) }
{
    records_are_ordered();
    let mut registry = Registry::empty(alloc);
    registry.apply_all(records)?;
    Ok(registry)
}
