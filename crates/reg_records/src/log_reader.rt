// Reading a log line by line.
ghost use Rattle.std.specs.Prelude.{◌≡◌, ◌<◌, ◌≤◌, ◌+◌, ℕ, List, [], length, true, IfOk, IfErr, OnOk, IfSome, MatchOption, Some, Ok, nat_lt, if◌then◌else◌};
ghost use Rattle.reg_records.specs.Device.{KeepsEnd, KeepsReads, bytes_in, faults_of, reads_of, source_of};
ghost use Rattle.reg_records.specs.Floor.{floor_reading, is_floor_line};
ghost use Rattle.reg_records.specs.Line.{IsFaultOf, reading};
ghost use Rattle.reg_records.specs.Log.{LogText, log_of, IsLogOf, IsLogRefusal, ReadsFewTimes, offset_in};
ghost use Rattle.reg_records.specs.LogSteps.{BeginsLog, IsFirstRefusal, IsLineRefusal, IsStepRefusal, IsTakeRefusal, StartsLog, StepsLog, TakesLogLine};
ghost use Rattle.reg_records.specs.Pieces.{Holds};

use crate::device::Device;
use crate::floor::{is_floor_line, read_floor};
use crate::limits::{LINE_LIMIT, LINE_READS, LOG_LINES, OFFSET_LIMIT};
use crate::line::{LineError, ReadLineError, read_whole_line};
use crate::line_reader::{NextLine, take_line};
use crate::log::{Log, LogError, LogFault};
use crate::pieces::LineBuffer;
use crate::record::Read;
use std::alloc::Global;
use std::io::BufRead;

/// Reads the log at the front of `reader`: lines up to an empty line or the end of the input, of
/// which the first may be a floor line. What follows the empty line stays unread.
///
/// A line past its limit is read to its LF, its bytes dropped, before its fault is reported. The
/// count of reads restarts at each line. Errors: the first line with a fault, a fault of the
/// reader, or out of memory.
pub fn read_log<R: BufRead>(alloc: Global, reader: &mut Device<R>) -> Result<Log, LogError>
    ensures read { IfOk result (λ log. IfSome (bytes_in R.remaining reader.old) (λ text. (found : LogText)
        × (log_of text ≡ Ok found) × IsLogOf found.floor found.reads log × (bytes_in R.remaining reader.new ≡ Some found.rest))) }
    ensures refused { IfErr result
        (IsLogRefusal reader.old reader.new (bytes_in R.remaining reader.old) (bytes_in R.remaining reader.new)) }
    ensures faults { OnOk result (faults_of reader.new ≡ faults_of reader.old) }
    ensures end { OnOk result (KeepsEnd R.remaining reader.old reader.new) }
    ensures bound { reads_of reader.new ≤ LINE_READS }
    ensures counted { OnOk result (KeepsReads reader.old reader.new) }
    ensures reads { IfOk result (λ log. ReadsFewTimes reader.old reader.new (length log.records.items + log.foreign + 2)) }
{
    let mut log = Log::new(alloc);
    if read_first(alloc, reader, &mut log)? {
        let mut number = 2;
        while read_next(alloc, reader, number, &mut log)? {
            number += 1;
        }
    }
    Ok(log)
}

/// Reads the first line into a log without lines, and returns whether the log goes on.
fn read_first<R: BufRead>(
    alloc: Global,
    reader: &mut Device<R>,
    log: &mut Log,
) -> Result<bool, LogError>
    requires { IsLogOf 0 [] log.old }
    ensures step { IfOk result
        (StartsLog (source_of R.remaining reader.old) (source_of R.remaining reader.new) log.new) }
    ensures refused { IfErr result
        (IsLogRefusal reader.old reader.new (bytes_in R.remaining reader.old) (bytes_in R.remaining reader.new)) }
    ensures faults { OnOk result (faults_of reader.new ≡ faults_of reader.old) }
    ensures end { OnOk result (KeepsEnd R.remaining reader.old reader.new) }
    ensures bound { reads_of reader.new ≤ LINE_READS }
    ensures reads { KeepsReads reader.old reader.new }
    ensures few { ReadsFewTimes reader.old reader.new 1 }
{
    let Some(line) = take_numbered(alloc, reader, 1)? else {
        return Ok(false);
    };
    begin(alloc, &line, log)?;
    Ok(true)
}

/// Reads the line of that number into the log, and returns whether the log goes on.
fn read_next<R: BufRead>(
    alloc: Global,
    reader: &mut Device<R>,
    number: u64,
    log: &mut Log,
) -> Result<bool, LogError>
    requires counted { log.old.foreign < number }
    requires within { number ≤ LOG_LINES + 1 }
    ensures step { IfOk result
        (StepsLog number (source_of R.remaining reader.old) (source_of R.remaining reader.new) log.old log.new) }
    ensures refused { IfErr result
        (IsStepRefusal number reader.old reader.new (bytes_in R.remaining reader.old) (bytes_in R.remaining reader.new)) }
    ensures faults { OnOk result (faults_of reader.new ≡ faults_of reader.old) }
    ensures end { OnOk result (KeepsEnd R.remaining reader.old reader.new) }
    ensures bound { reads_of reader.new ≤ LINE_READS }
    ensures reads { KeepsReads reader.old reader.new }
    ensures few { ReadsFewTimes reader.old reader.new 1 }
{
    let Some(line) = take_numbered(alloc, reader, number)? else {
        return Ok(false);
    };
    let read = read_numbered(alloc, number, &line)?;
    log.add(read)?;
    Ok(true)
}

/// Takes the line of that number, which has some bytes; `None` is the end of the log.
fn take_numbered<R: BufRead>(
    alloc: Global,
    reader: &mut Device<R>,
    number: u64,
) -> Result<Option<LineBuffer>, LogError>
    ensures taken { IfOk result (TakesLogLine (source_of R.remaining reader.old) (source_of R.remaining reader.new)) }
    ensures refused { IfErr result
        (IsTakeRefusal number reader.old reader.new (bytes_in R.remaining reader.old) (bytes_in R.remaining reader.new)) }
    ensures faults { OnOk result (faults_of reader.new ≡ faults_of reader.old) }
    ensures end { OnOk result (KeepsEnd R.remaining reader.old reader.new) }
    ensures bound { reads_of reader.new ≤ LINE_READS }
    ensures reads { KeepsReads reader.old reader.new }
    ensures few { ReadsFewTimes reader.old reader.new 1 }
{
    let Some(next) = take_line(alloc, reader)? else {
        return Err(LogError::ReadFault { line: number });
    };
    let line = match next {
        NextLine::End => return Ok(None),
        NextLine::Unended => return Err(fault_at(number, LineError::Truncated)),
        NextLine::Line(line) => line,
    };
    if line.is_empty() {
        return Ok(None);
    }
    Ok(Some(line))
}

/// Begins a log with its first line, which may be a floor line.
fn begin(alloc: Global, line: &LineBuffer, log: &mut Log) -> Result<(), LogError>
    requires { IsLogOf 0 [] log.old }
    ensures said { (bytes : List ℕ) → Holds line.now bytes → OnOk result (BeginsLog bytes log.new) }
    ensures refused { (bytes : List ℕ) → Holds line.now bytes → IfErr result (IsFirstRefusal bytes) }
{
    match floor_of(line) {
        Some(Ok(floor)) => log.begin_at(floor),
        Some(Err(fault)) => return Err(LogError::Fault { line: 1, fault }),
        None => log.add(read_numbered(alloc, 1, line)?)?,
    }
    Ok(())
}

/// Reads a floor line; `None` for any other line, and for one that is too long.
fn floor_of(line: &LineBuffer) -> Option<Result<u64, LogFault>>
    ensures { (bytes : List ℕ) → Holds line.now bytes → MatchOption result
        (is_floor_line bytes ≡ true → LINE_LIMIT < length bytes)
        (λ said. (is_floor_line bytes ≡ true) × (said ≡ floor_reading bytes)) }
{
    match line.within_limit() {
        Some(bytes) if is_floor_line(bytes) => Some(read_floor(bytes)),
        _ => None,
    }
}

/// Reads the record in the line of that number.
fn read_numbered(alloc: Global, number: u64, line: &LineBuffer) -> Result<Read, LogError>
    ensures read { (bytes : List ℕ) → Holds line.now bytes → IfOk result (λ read. (number ≤ LOG_LINES) × (reading bytes ≡ Ok read)) }
    ensures within { IfOk result (λ read. offset_in read ≤ OFFSET_LIMIT) }
    ensures refused { (bytes : List ℕ) → Holds line.now bytes → IfErr result (IsLineRefusal number bytes) }
{
    match read_taken(alloc, line) {
        Err(ReadLineError::OutOfMemory) => Err(LogError::OutOfMemory),
        Err(ReadLineError::Line(fault)) => Err(fault_at(number, fault)),
        Ok(_) if number > LOG_LINES => Err(LogError::Fault {
            line: number,
            fault: LogFault::TooManyLines,
        }),
        Ok(read) => Ok(read),
    }
}

/// Reads the record in a line that was taken.
fn read_taken(alloc: Global, line: &LineBuffer) -> Result<Read, ReadLineError>
    ensures record { (bytes : List ℕ) → Holds line.now bytes → IfOk result (λ read. reading bytes ≡ Ok read) }
    ensures fault { (bytes : List ℕ) → Holds line.now bytes → IfErr result (IsFaultOf (reading bytes)) }
    ensures within { IfOk result (λ read. offset_in read ≤ OFFSET_LIMIT) }
{
    match line.within_limit() {
        Some(bytes) => read_whole_line(alloc, bytes),
        None => Err(ReadLineError::Line(LineError::TooLong)),
    }
}

/// Returns the fault of a line, or `TooManyLines` if its number is past the limit.
fn fault_at(number: u64, fault: LineError) -> LogError
    ensures { result ≡ LogError.Fault number (if nat_lt LOG_LINES number then LogFault.TooManyLines else LogFault.Line fault) }
{
    let fault = if number > LOG_LINES {
        LogFault::TooManyLines
    } else {
        LogFault::Line(fault)
    };
    LogError::Fault {
        line: number,
        fault,
    }
}
