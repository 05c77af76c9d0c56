// Bytes of a log as they come, and the lines that are whole.
ghost use Rattle.std.specs.Prelude.{◌≡◌, ◌≤◌, ◌<◌, ◌++◌, ◌∷◌, ◌&&◌, ℕ, List, [], length, nat_eq, Ok, IfErr, IfOk, MatchBool, OnErr, OnOk};
ghost use Rattle.reg_records.specs.Floor.{is_floor_line};
ghost use Rattle.reg_records.specs.Pieces.{HasNoLineFeed};
ghost use Rattle.reg_records.specs.declared.record.Read.{Read};
ghost use Rattle.reg_intake.specs.Intake.{Comes, HasRead, IsLineFault, IsRefusal, said_at, with_bytes};

use crate::fault::IntakeError;
use reg_records::{
    LINE_LIMIT, LineError, LogFault, Read, ReadLineError, is_floor_line, line_len, read_floor,
    read_line,
};
use std::alloc::{AllocError, Global};
use std::marker::Model;

/// The next thing that came of a log.
#[derive(Debug, Drop)]
pub enum Came {
    /// A line, and what it says.
    Line(Read),
    /// The first line, which says the log's floor.
    Floor,
    /// The empty line, which ends the log. It isn't passed: the next call returns it again.
    End,
    /// No whole line has come yet.
    Nothing,
}

/// A buffer of the bytes of a log as they come, which gives each whole line once.
///
/// Contracts see the bytes that no line was read of, and how many lines were read.
#[derive(Drop)]
pub struct Incoming {
    alloc: Global,
    held: Vec<u8>,
    /// How many of the held bytes were read.
    passed: usize,
    /// How many lines were read, up to `u64::MAX`.
    count: u64,
    ghost within: { passed ≤ length held.items },
}

impl Model for Incoming {
    ghost use Rattle.std.specs.Prelude.{drop};
    ghost use Rattle.reg_intake.specs.Intake.{Unread};

    ghost Value = { Unread };

    ghost view = { λ i. record { bytes = drop i.passed i.held.items; count = i.count } };
}

impl Incoming {
    /// Makes a buffer to which nothing has come.
    pub fn new(alloc: Global) -> Incoming
        ensures { HasRead [] [] result }
    {
        Incoming {
            alloc,
            held: Vec::new(alloc),
            passed: 0,
            count: 0,
        }
    }

    /// Returns how many lines were read, up to `u64::MAX`.
    pub fn count(&self) -> u64
        ensures { result ≡ self.now.count }
    {
        self.count
    }

    /// Returns whether nothing is unread.
    pub fn is_empty(&self) -> bool
        ensures { MatchBool result (self.now.bytes ≡ []) (0 < length self.now.bytes) }
    {
        self.unread().is_empty()
    }

    fn unread(&self) -> &[u8]
        ensures { result.now ≡ self.now.bytes }
    {
        &self.held[self.passed..]
    }

    /// Appends bytes that came. The only error is out of memory, with nothing changed.
    pub fn take(&mut self, bytes: &[u8]) -> Result<(), AllocError>
        ensures taken { OnOk result (self.new ≡ with_bytes self.old bytes.now) }
        ensures read { (text : List ℕ) (read : List Read) → HasRead text read self.old → OnOk result (HasRead (text ++ bytes.now) read self.new) }
        ensures refused { OnErr result (self.new ≡ self.old) }
    {
        let rest = self.unread();
        let mut held = Vec::with_capacity(self.alloc, rest.len().saturating_add(bytes.len()))?;
        held.extend_from_slice(rest)?;
        held.extend_from_slice(bytes)?;
        self.held = held;
        self.passed = 0;
        Ok(())
    }

    /// Reads the next line, if it is whole. A line over the limit is refused before its LF has
    /// come. An error changes nothing, and the next call returns it again, unless memory was
    /// refused.
    pub fn next(&mut self) -> Result<Came, IntakeError>
        ensures came { (text : List ℕ) (read : List Read) → HasRead text read self.old → IfOk result (λ came. Comes text read self.old came self.new) }
        ensures refused { IfErr result (IsRefusal self.old) }
        ensures same { OnErr result (self.new ≡ self.old) }
    {
        let rest = self.unread();
        let Some(len) = line_len(rest) else {
            if rest.len() > LINE_LIMIT {
                return Err(IntakeError::Fault {
                    line: self.count.saturating_add(1),
                    fault: LogFault::Line(LineError::TooLong),
                });
            }
            return Ok(Came::Nothing);
        };
        if len == 0 {
            return Ok(Came::End);
        }
        let came = came_at(self.alloc, &rest[..len + 1], self.count)?;
        self.passed += len + 1;
        self.count = self.count.saturating_add(1);
        Ok(came)
    }
}

/// Returns what a line (with its LF) says, or its fault. `before` is the number of lines before it.
fn came_at(alloc: Global, bytes: &[u8], before: u64) -> Result<Came, IntakeError>
    ensures came { (line : List ℕ) → bytes.now ≡ line ++ 10 ∷ [] → HasNoLineFeed line → IfOk result (λ came. said_at before line ≡ Ok came) }
    ensures refused { (line : List ℕ) → bytes.now ≡ line ++ 10 ∷ [] → HasNoLineFeed line → IfErr result (IsLineFault before line) }
{
    let line = &bytes[..bytes.len().saturating_sub(1)];
    if says_floor(before, line) {
        return match read_floor(line) {
            Ok(_floor) => Ok(Came::Floor),
            Err(fault) => Err(IntakeError::Fault { line: 1, fault }),
        };
    }
    match read_line(alloc, bytes) {
        Ok(read) => Ok(Came::Line(read)),
        Err(ReadLineError::Line(fault)) => Err(IntakeError::Fault {
            line: before.saturating_add(1),
            fault: LogFault::Line(fault),
        }),
        Err(ReadLineError::OutOfMemory) => Err(IntakeError::OutOfMemory),
    }
}

/// Returns whether a line says a floor, or should. `before` is the number of lines before it.
fn says_floor(before: u64, line: &[u8]) -> bool
    ensures { result ≡ (nat_eq before 0 && is_floor_line line.now) }
{
    before == 0 && is_floor_line(line)
}
