// Reading a file from its beginning, and what was appended to it since.
ghost use Rattle.std.specs.Prelude.{◌≡◌, ◌≢◌, ◌<◌, ◌++◌, ℕ, List, drop, length, IfErr, IfOk, OnOk};
ghost use Rattle.reg_tail.specs.Front.{HasNoFloorAbove};
ghost use Rattle.reg_tail.specs.Gathered.{BeginsFrom};
ghost use Rattle.reg_tail.specs.Source.{Stand};
ghost use Rattle.reg_tail.specs.Tail.{GoesOn, HasGiven, IsBeginRefusal, IsMoreRefusal, IsNoReading};
ghost use Rattle.reg_tail.specs.declared.error.TailError.TheVariants.{SyncFault, WriteFault};

use crate::error::TailError;
use crate::front::front_of;
use crate::gathered::Gathered;
use crate::source::Source;
use crate::tail::Tail;
use reg_journal::DiskError;
use std::alloc::Global;

impl Tail {
    /// Reads a file from its start and syncs it. Returns the tail behind its lines and the text of
    /// those from an offset on, each with its LF; from 0 on all lines, the floor's too. If the
    /// floor is above another offset than 0, the error is `Floor`.
    pub fn begin<S: Source>(
        alloc: Global,
        source: &mut S,
        from: u64,
    ) -> Result<(Tail, Vec<u8>), TailError>
        ensures given { S.known source.old → IfOk result (λ begun. HasGiven begun.0 (S.seen source.new) begun.1.items) }
        ensures from { IfOk result (λ begun. begun.0.from ≡ from) }
        ensures floor { S.known source.old → OnOk result (HasNoFloorAbove from (S.seen source.new)) }
        ensures synced { S.known source.old → IfOk result (λ begun. 0 < length begun.1.items
            → (c : List ℕ) → S.may_leave source.new c → Stand (S.seen source.new) c) }
        ensures known { S.known source.old → OnOk result (S.known source.new) }
        ensures refused { S.known source.old → IfErr result (IsBeginRefusal from (S.seen source.new)) }
        ensures apart { IfErr result (λ e. e ≢ WriteFault) }
    {
        let file = read(alloc, source, 0)?;
        let begun = begin_at(alloc, &file, from)?;
        let place = begun.tail.place;
        let Gathered { tail, text } = begun.take_lines(alloc, &file[place..])?;
        sync(source, &text)?;
        Ok((tail, text))
    }

    /// Reads the lines that were appended since and syncs the file. Returns their text from the
    /// tail's offset on, each with its LF; empty if nothing was appended. After an error the tail
    /// is as it was. An appended line that says a floor is a fault.
    pub fn more<S: Source>(&mut self, alloc: Global, source: &mut S) -> Result<Vec<u8>, TailError>
        ensures given { S.known source.old → IfOk result (λ text. GoesOn (S.seen source.new) self.old self.new text.items) }
        ensures whole { S.known source.old → (before : List ℕ) → HasGiven self.old (S.seen source.old) before
            → IfOk result (λ text. HasGiven self.new (S.seen source.new) (before ++ text.items)) }
        ensures synced { S.known source.old → IfOk result (λ text. 0 < length text.items
            → (c : List ℕ) → S.may_leave source.new c → Stand (S.seen source.new) c) }
        ensures known { S.known source.old → OnOk result (S.known source.new) }
        ensures left { S.known source.old → OnOk result (S.left source.new ≡ S.left source.old) }
        ensures last { S.known source.old → S.is_left source.old → OnOk result (S.seen source.new ≡ S.left source.old) }
        ensures refused { S.known source.old → IfErr result (IsMoreRefusal (S.seen source.new) self.old) }
        ensures apart { IfErr result (λ e. e ≢ WriteFault) }
        ensures unchanged { IfErr result (λ _. self.new ≡ self.old) }
    {
        let before = *self;
        let text = self.take_more(alloc, source)?;
        match sync(source, &text) {
            Ok(()) => Ok(text),
            Err(error) => {
                *self = before;
                Err(error)
            }
        }
    }

    /// Reads what was appended since, of which nothing is synced yet.
    pub(crate) fn take_more<S: Source>(
        &mut self,
        alloc: Global,
        source: &mut S,
    ) -> Result<Vec<u8>, TailError>
        ensures given { S.known source.old → IfOk result (λ text. GoesOn (S.seen source.new) self.old self.new text.items) }
        ensures whole { S.known source.old → (before : List ℕ) → HasGiven self.old (S.seen source.old) before
            → IfOk result (λ text. HasGiven self.new (S.seen source.new) (before ++ text.items)) }
        ensures known { S.known source.old → OnOk result (S.known source.new) }
        ensures left { S.known source.old → OnOk result (S.left source.new ≡ S.left source.old) }
        ensures last { S.known source.old → S.is_left source.old → OnOk result (S.seen source.new ≡ S.left source.old) }
        ensures refused { S.known source.old → IfErr result (IsMoreRefusal (S.seen source.new) self.old) }
        ensures apart { IfErr result (λ e. e ≢ WriteFault) }
        ensures unchanged { IfErr result (λ _. self.new ≡ self.old) }
    {
        let piece = read(alloc, source, self.place)?;
        let begun = Gathered {
            tail: *self,
            text: Vec::new(alloc),
        };
        let Gathered { tail, text } = begun.take_lines(alloc, &piece)?;
        *self = tail;
        Ok(text)
    }
}

/// A tail behind the line of a file's floor, which is given from offset 0 on.
fn begin_at(alloc: Global, file: &[u8], from: u64) -> Result<Gathered, TailError>
    ensures begun { IfOk result (BeginsFrom from file.now) }
    ensures refused { IfErr result (IsBeginRefusal from file.now) }
{
    let front = match front_of(file) {
        Ok(front) => front,
        Err(fault) => return Err(TailError::Line { line: 1, fault }),
    };
    if from > 0 && from < front.floor {
        return Err(TailError::Floor(front.floor));
    }
    let given = if from > 0 { 0 } else { front.len };
    let text = file[..given].to_vec(alloc)?;
    let tail = Tail {
        place: front.len,
        lines: front.lines,
        from,
        next: from.max(front.floor),
    };
    Ok(Gathered { tail, text })
}

/// Reads a file from a place on.
fn read<S: Source>(alloc: Global, source: &mut S, place: usize) -> Result<Vec<u8>, TailError>
    ensures bytes { S.known source.old → IfOk result (λ bytes. bytes.items ≡ drop place (S.seen source.new)) }
    ensures stand { S.known source.old → S.known source.new × Stand (S.seen source.old) (S.seen source.new) }
    ensures left { S.known source.old → S.left source.new ≡ S.left source.old }
    ensures last { S.known source.old → S.is_left source.old → OnOk result (S.seen source.new ≡ S.left source.old) }
    ensures refused { IfErr result IsNoReading }
{
    match source.read_from(alloc, place) {
        Ok(bytes) => Ok(bytes),
        Err(DiskError::OutOfMemory) => Err(TailError::OutOfMemory),
        Err(DiskError::Failed) => Err(TailError::ReadFault),
    }
}

/// Syncs a file of which a text is given. For none it isn't touched.
pub(crate) fn sync<S: Source>(source: &mut S, text: &[u8]) -> Result<(), TailError>
    ensures synced { S.known source.old → OnOk result (0 < length text.now
        → (c : List ℕ) → S.may_leave source.new c → Stand (S.seen source.old) c) }
    ensures seen { S.known source.old → OnOk result (S.known source.new × (S.seen source.new ≡ S.seen source.old)) }
    ensures left { S.known source.old → OnOk result (S.left source.new ≡ S.left source.old) }
    ensures refused { IfErr result (λ e. e ≡ SyncFault) }
{
    if text.is_empty() {
        return Ok(());
    }
    match source.sync() {
        Ok(()) => Ok(()),
        Err(_) => Err(TailError::SyncFault),
    }
}
