// Following a file, for as long as it can be read and written out.
ghost use Rattle.std.specs.Prelude.{◌≡◌, ◌≢◌, ◌↔◌, ℕ, List, IfErr, IfOk, IsTrue, OnOk};
ghost use Rattle.reg_tail.specs.Steps.{Begins, Continues, IsLookRefusal, Looks};
ghost use Rattle.reg_tail.specs.Tail.{IsBeginRefusal, IsMoreRefusal, IsNoReading};
ghost use Rattle.reg_tail.specs.Writing.{HasFailed, IsCutShort, IsWritten};
ghost use Rattle.reg_tail.specs.declared.error.TailError.TheVariants.{WriteFault};

use crate::error::TailError;
use crate::source::Source;
use crate::stored::StoredTail;
use crate::tail::Tail;
use crate::writing::write_text;
use reg_journal::DiskError;
use reg_records::Output;
use std::alloc::Global;
use std::fs::{File, Files};
use std::sync::Wait;
use std::thread;
use std::time::{Clock, Duration};

/// Milliseconds between two looks at the file.
const PAUSE: u64 = 20;

/// Follows the file of a path: writes its lines from an offset on, and then those that are
/// appended. Looks every 20 ms. If another file takes its name, it goes on there from the offset
/// behind the lines that it has passed. `None` or 0 asks for the whole file. Returns only with an
/// error.
pub fn follow_file<R: Wait + Clock + Files<File = File>, W: Output>(
    rt: &R,
    alloc: Global,
    path: &str,
    from: Option<u64>,
    writer: &mut W,
) -> TailError {
    match StoredTail::open(rt, path) {
        Ok(mut source) => follow(rt, alloc, &mut source, from.unwrap_or(0), writer),
        Err(error) => fault_of(error),
    }
}

/// Follows a source: writes its lines from an offset on, and then what each look finds, every 20
/// ms. Returns only with an error.
pub fn follow<R: Wait + Clock, S: Source, W: Output>(
    rt: &R,
    alloc: Global,
    source: &mut S,
    from: u64,
    writer: &mut W,
) -> TailError {
    let mut tail = match write_begun(alloc, source, from, writer) {
        Ok(tail) => tail,
        Err(error) => return error,
    };
    for _ in rt.forever() {
        thread::sleep(rt, Duration::from_millis(PAUSE));
        if let Err(error) = write_look(alloc, &mut tail, source, writer) {
            return error;
        }
    }
    unreachable!()
}

/// Writes what was appended since the last look. If another file has the name by now, writes the
/// rest of the old one, and then the other's lines from the offset behind those. Returns whether
/// the file was replaced.
pub fn write_look<S: Source, W: Output>(
    alloc: Global,
    tail: &mut Tail,
    source: &mut S,
    writer: &mut W,
) -> Result<bool, TailError>
    ensures looked { IfOk result (Looks S.known S.seen S.may_leave S.left W.contents W.writes W.flushes
        source.old source.new tail.old tail.new writer.old writer.new) }
    ensures known { S.known source.old → OnOk result (S.known source.new) }
    ensures refused { IfErr result (IsLookRefusal S.known S.seen S.may_leave S.left W.contents W.writes W.flushes
        source.old source.new tail.old tail.new writer.old writer.new) }
{
    // Whatever was appended to a file that was replaced stands in it by now.
    let is_replaced = is_replaced(source)?;
    write_more(alloc, tail, source, writer)?;
    if is_replaced {
        reopen(source)?;
        *tail = write_begun(alloc, source, tail.next, writer)?;
    }
    Ok(is_replaced)
}

/// Reads a file from its start, syncs it, writes its lines from an offset on, and flushes them.
/// Returns the tail behind them. After an error other than `WriteFault` nothing was written.
pub fn write_begun<S: Source, W: Output>(
    alloc: Global,
    source: &mut S,
    from: u64,
    writer: &mut W,
) -> Result<Tail, TailError>
    ensures written { IfOk result (λ tail. (text : List ℕ) × IsWritten W.contents W.writes W.flushes text writer.old writer.new
        × (S.known source.old → Begins (S.may_leave source.new) (S.seen source.new) from tail text)) }
    ensures from { IfOk result (λ tail. tail.from ≡ from) }
    ensures known { S.known source.old → OnOk result (S.known source.new) }
    ensures kept { IfErr result (λ e. e ≢ WriteFault → writer.new ≡ writer.old) }
    ensures refused { IfErr result (λ e. e ≢ WriteFault → S.known source.old → IsBeginRefusal from (S.seen source.new) e) }
    ensures cut { IfErr result (λ e. e ≡ WriteFault → (tail : Tail) × (text : List ℕ)
        × IsCutShort W.contents W.writes W.flushes text writer.old writer.new
        × (S.known source.old → Begins (S.may_leave source.new) (S.seen source.new) from tail text)) }
{
    let (tail, text) = Tail::begin(alloc, source, from)?;
    match write_text(writer, &text) {
        Ok(()) => Ok(tail),
        Err(_failed) => Err(TailError::WriteFault),
    }
}

/// Reads the lines that were appended since, syncs the file, writes them, and flushes. After an
/// error other than `WriteFault` nothing was written, and the tail is as it was.
pub fn write_more<S: Source, W: Output>(
    alloc: Global,
    tail: &mut Tail,
    source: &mut S,
    writer: &mut W,
) -> Result<(), TailError>
    ensures written { OnOk result ((text : List ℕ) × IsWritten W.contents W.writes W.flushes text writer.old writer.new
        × (S.known source.old → Continues (S.may_leave source.new) (S.seen source.old) (S.seen source.new) tail.old tail.new text)) }
    ensures known { S.known source.old → OnOk result (S.known source.new) }
    ensures left { S.known source.old → OnOk result (S.left source.new ≡ S.left source.old) }
    ensures last { S.known source.old → S.is_left source.old → OnOk result (S.seen source.new ≡ S.left source.old) }
    ensures kept { IfErr result (λ e. e ≢ WriteFault → (writer.new ≡ writer.old) × (tail.new ≡ tail.old)) }
    ensures refused { IfErr result (λ e. e ≢ WriteFault → S.known source.old → IsMoreRefusal (S.seen source.new) tail.old e) }
    ensures cut { IfErr result (λ e. e ≡ WriteFault → (text : List ℕ)
        × IsCutShort W.contents W.writes W.flushes text writer.old writer.new
        × (S.known source.old → Continues (S.may_leave source.new) (S.seen source.old) (S.seen source.new) tail.old tail.new text)) }
{
    let text = tail.more(alloc, source)?;
    match write_text(writer, &text) {
        Ok(()) => Ok(()),
        Err(_failed) => Err(TailError::WriteFault),
    }
}

/// Returns whether another file has this one's name.
fn is_replaced<S: Source>(source: &mut S) -> Result<bool, TailError>
    ensures seen { S.known source.old → S.known source.new × (S.seen source.new ≡ S.seen source.old) }
    ensures left { S.known source.old → S.left source.new ≡ S.left source.old }
    ensures found { S.known source.old → IfOk result (λ is. IsTrue is ↔ S.is_left source.new) }
    ensures refused { IfErr result IsNoReading }
{
    match source.is_replaced() {
        Ok(is_replaced) => Ok(is_replaced),
        Err(error) => Err(fault_of(error)),
    }
}

/// Opens the file that has this one's name now.
fn reopen<S: Source>(source: &mut S) -> Result<(), TailError>
    ensures known { S.known source.old → OnOk result (S.known source.new) }
    ensures refused { IfErr result IsNoReading }
{
    if let Err(error) = source.reopen() {
        return Err(fault_of(error));
    }
    Ok(())
}

/// Turns an error of the file into one of following it.
pub(crate) fn fault_of(error: DiskError) -> TailError
    ensures { IsNoReading result }
{
    match error {
        DiskError::OutOfMemory => TailError::OutOfMemory,
        DiskError::Failed => TailError::ReadFault,
    }
}
