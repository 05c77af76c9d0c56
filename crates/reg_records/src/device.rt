// Readers and writers whose faults are counted.
ghost use Rattle.std.specs.Prelude.{◌≡◌, IfOk, IsTrue, MatchResult, ◌↔◌, ◌≢◌};
ghost use Rattle.std.specs.Io.{ReadsAtMost, WritesAtMost};
ghost use Rattle.std.specs.Io.KnownBytes.{ReadConsumes, WriteAppends, Keeps};
ghost use Rattle.reg_records.specs.Device.{inner_of, faults_of, reads_of, all_reads_of, place_of, begun_of, interruptions_of, all_interruptions_of};
ghost use Rattle.reg_records.specs.Device.{bytes_in, counted, counted_by, CountsBytes, CountsFault, CountsWrite, CountsInterruption};
ghost use Rattle.reg_records.specs.Pieces.{CountsPiece, TakesPiece, piece_len};

use crate::output::Output;
use crate::pieces::{LineBuffer, Piece, take_piece};
use std::alloc::AllocError;
use std::io::{self, BufRead, ErrorKind, Read, Write};

/// A reader or a writer with counts of its faults, reads, bytes and interruptions.
///
/// A fault is an error of a read, a write or a flush other than an interruption, or a write that
/// takes no byte of a piece that has some.
#[derive(Debug, Drop)]
pub struct Device<T> {
    inner: T,
    faults: u64,
    reads: u64,
    all_reads: u64,
    place: u64,
    begun: u64,
    interruptions: u64,
    all_interruptions: u64,
}

impl<T> Device<T> {
    /// Wraps `inner`, with all counts at 0.
    pub fn new(inner: T) -> Device<T>
        ensures faults { faults_of result ≡ 0 }
        ensures reads { reads_of result ≡ 0 }
        ensures all_reads { all_reads_of result ≡ 0 }
        ensures place { place_of result ≡ 0 }
        ensures begun { begun_of result ≡ 0 }
        ensures interruptions { interruptions_of result ≡ 0 }
        ensures all_interruptions { all_interruptions_of result ≡ 0 }
        ensures inner { inner_of result ≡ inner }
    {
        Device {
            inner,
            faults: 0,
            reads: 0,
            all_reads: 0,
            place: 0,
            begun: 0,
            interruptions: 0,
            all_interruptions: 0,
        }
    }

    /// Returns the number of faults so far, up to `u64::MAX`.
    pub fn faults(&self) -> u64
        ensures { result ≡ faults_of self.now }
    {
        self.faults
    }

    /// Returns the number of reads since the count began, up to `u64::MAX`.
    pub fn reads(&self) -> u64
        ensures { result ≡ reads_of self.now }
    {
        self.reads
    }

    /// Returns the number of all reads, up to `u64::MAX`.
    pub fn all_reads(&self) -> u64
        ensures { result ≡ all_reads_of self.now }
    {
        self.all_reads
    }

    /// Returns the number of bytes read in all, up to `u64::MAX`: the position in the input.
    pub fn place(&self) -> u64
        ensures { result ≡ place_of self.now }
    {
        self.place
    }

    /// Returns the position at which the count of reads began.
    pub fn begun(&self) -> u64
        ensures { result ≡ begun_of self.now }
    {
        self.begun
    }

    /// Returns how many writes and flushes in a row were interrupted, up to `u64::MAX`.
    pub fn interruptions(&self) -> u64
        ensures { result ≡ interruptions_of self.now }
    {
        self.interruptions
    }

    /// Returns how many writes and flushes were interrupted in all, up to `u64::MAX`.
    pub fn all_interruptions(&self) -> u64
        ensures { result ≡ all_interruptions_of self.now }
    {
        self.all_interruptions
    }

    /// Restarts the counts of reads and of interruptions in a row, for example for a line or a
    /// request, at the present position.
    pub fn begin_count(&mut self)
        ensures inner { inner_of self.new ≡ inner_of self.old }
        ensures faults { faults_of self.new ≡ faults_of self.old }
        ensures reads { reads_of self.new ≡ 0 }
        ensures all_reads { all_reads_of self.new ≡ all_reads_of self.old }
        ensures place { place_of self.new ≡ place_of self.old }
        ensures begun { begun_of self.new ≡ place_of self.old }
        ensures interruptions { interruptions_of self.new ≡ 0 }
        ensures all_interruptions { all_interruptions_of self.new ≡ all_interruptions_of self.old }
    {
        self.reads = 0;
        self.begun = self.place;
        self.interruptions = 0;
    }

    /// Counts an error of a read.
    fn count_read_error(&mut self, kind: ErrorKind)
        ensures inner { inner_of self.new ≡ inner_of self.old }
        ensures reads { reads_of self.new ≡ reads_of self.old }
        ensures all_reads { all_reads_of self.new ≡ all_reads_of self.old }
        ensures place { place_of self.new ≡ place_of self.old }
        ensures begun { begun_of self.new ≡ begun_of self.old }
        ensures fault { kind ≢ ErrorKind.Interrupted → faults_of self.new ≡ counted (faults_of self.old) }
        ensures interruption { kind ≡ ErrorKind.Interrupted → faults_of self.new ≡ faults_of self.old }
    {
        if is_fault(kind) {
            self.faults = one_more(self.faults);
        }
    }

    /// Counts an error of a write or a flush.
    fn count_write_error(&mut self, kind: ErrorKind)
        ensures inner { inner_of self.new ≡ inner_of self.old }
        ensures fault { kind ≢ ErrorKind.Interrupted → faults_of self.new ≡ counted (faults_of self.old) }
        ensures anew { kind ≢ ErrorKind.Interrupted
            → (interruptions_of self.new ≡ 0) × (all_interruptions_of self.new ≡ all_interruptions_of self.old) }
        ensures no_fault { kind ≡ ErrorKind.Interrupted → faults_of self.new ≡ faults_of self.old }
        ensures interruption { kind ≡ ErrorKind.Interrupted → (interruptions_of self.new ≡ counted (interruptions_of self.old))
            × (all_interruptions_of self.new ≡ counted (all_interruptions_of self.old)) }
    {
        if is_fault(kind) {
            self.faults = one_more(self.faults);
            self.interruptions = 0;
        } else {
            self.interruptions = one_more(self.interruptions);
            self.all_interruptions = one_more(self.all_interruptions);
        }
    }

    /// Counts bytes that were read.
    fn count_bytes(&mut self, len: usize)
        ensures inner { inner_of self.new ≡ inner_of self.old }
        ensures faults { faults_of self.new ≡ faults_of self.old }
        ensures reads { reads_of self.new ≡ reads_of self.old }
        ensures all_reads { all_reads_of self.new ≡ all_reads_of self.old }
        ensures place { place_of self.new ≡ counted_by len (place_of self.old) }
        ensures begun { begun_of self.new ≡ begun_of self.old }
    {
        self.place = self.place.saturating_add(len as u64);
    }

    /// Returns the wrapped reader or writer.
    pub fn into_inner(self) -> T
        ensures { result ≡ inner_of self }
    {
        let Device {
            inner,
            faults: _,
            reads: _,
            all_reads: _,
            place: _,
            begun: _,
            interruptions: _,
            all_interruptions: _,
        } = self;
        inner
    }
}

impl<R: BufRead> Device<R> {
    /// Takes bytes of a line in one read, up to its LF. Counts the read, and its fault if it has
    /// one.
    pub(crate) fn take_piece(&mut self, line: &mut LineBuffer) -> Result<Piece, AllocError>
        ensures taken { IfOk result (TakesPiece (bytes_in R.remaining self.old) (bytes_in R.remaining self.new) line.old line.new) }
        ensures faults { MatchResult result (CountsPiece self.old self.new) (λ _. faults_of self.new ≡ faults_of self.old) }
        ensures reads { reads_of self.new ≡ counted (reads_of self.old) }
        ensures all_reads { all_reads_of self.new ≡ counted (all_reads_of self.old) }
        ensures place { IfOk result (λ piece. place_of self.new ≡ counted_by (piece_len piece) (place_of self.old)) }
        ensures begun { begun_of self.new ≡ begun_of self.old }
    {
        self.reads = one_more(self.reads);
        self.all_reads = one_more(self.all_reads);
        let piece = take_piece(&mut self.inner, line)?;
        match piece {
            Piece::Ended(len) | Piece::More(len) => self.count_bytes(len),
            Piece::NoMore => self.count_bytes(0),
            Piece::Failed(kind) => {
                self.count_bytes(0);
                self.count_read_error(kind);
            }
        }
        Ok(piece)
    }
}

impl<R: Read> Read for Device<R> {
    ghost remaining = { bytes_in R.remaining };

    fn read(&mut self, buf: &mut [u8]) -> io::Result<usize>
        ensures bound { ReadsAtMost result buf.new }
        ensures bytes { ReadConsumes (bytes_in R.remaining self.old) (bytes_in R.remaining self.new) result buf.new }
        ensures faults { CountsFault self.old self.new result }
        ensures reads { reads_of self.new ≡ counted (reads_of self.old) }
        ensures all_reads { all_reads_of self.new ≡ counted (all_reads_of self.old) }
        ensures place { CountsBytes self.old self.new result }
        ensures begun { begun_of self.new ≡ begun_of self.old }
    {
        self.reads = one_more(self.reads);
        self.all_reads = one_more(self.all_reads);
        let answer = self.inner.read(buf);
        match &answer {
            Ok(n) => self.count_bytes(*n),
            Err(e) => self.count_read_error(e.kind()),
        }
        answer
    }
}

impl<W: Output> Write for Device<W> {
    ghost contents = { bytes_in W.contents };

    fn write(&mut self, buf: &[u8]) -> io::Result<usize>
        ensures bound { WritesAtMost result buf.now }
        ensures bytes { WriteAppends (bytes_in W.contents self.old) (bytes_in W.contents self.new) result buf.now }
        ensures answer { W.writes (inner_of self.old) buf.now result (inner_of self.new) }
        ensures faults { CountsWrite self.old self.new buf.now result }
        ensures interruptions { CountsInterruption self.old self.new result }
    {
        let answer = self.inner.write_out(buf);
        match &answer {
            Ok(n) => {
                self.interruptions = 0;
                if *n == 0 && !buf.is_empty() {
                    self.faults = one_more(self.faults);
                }
            }
            Err(e) => self.count_write_error(e.kind()),
        }
        answer
    }

    fn flush(&mut self) -> io::Result<()>
        ensures bytes { Keeps (bytes_in W.contents self.old) (bytes_in W.contents self.new) }
        ensures answer { W.flushes (inner_of self.old) result (inner_of self.new) }
        ensures faults { CountsFault self.old self.new result }
        ensures interruptions { CountsInterruption self.old self.new result }
    {
        let answer = self.inner.flush_out();
        match &answer {
            Ok(()) => self.interruptions = 0,
            Err(e) => self.count_write_error(e.kind()),
        }
        answer
    }
}

/// Returns whether an error of that kind is a fault: each kind but an interruption.
fn is_fault(kind: ErrorKind) -> bool
    ensures { IsTrue result ↔ (kind ≢ ErrorKind.Interrupted) }
{
    kind != ErrorKind::Interrupted
}

/// Returns the count plus one, up to `u64::MAX`.
fn one_more(count: u64) -> u64
    ensures { result ≡ counted count }
{
    count.saturating_add(1)
}
