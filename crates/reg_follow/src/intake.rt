// Takes the lines of a log as they come, and publishes their records to views.
ghost use Rattle.std.specs.Prelude.{◌≡◌, ◌<◌, ◌++◌, List, ℕ, [], length, IfErr, IfOk, MatchBool, OnErr, OnOk};
ghost use Rattle.std.specs.FinSet.{empty};
ghost use Rattle.std.specs.Io.KnownBytes.{Keeps};
ghost use Rattle.reg_intake.specs.Pieces.{Gives, IsGiveFault};
ghost use Rattle.reg_records.specs.declared.record.Read.{Read};
ghost use Rattle.reg_follow.specs.Following.{Adds, ComesTo, GoesOn, HasTaken, IsStopped, TakesLine, published};

use reg_feed::{Copies, FeedName, FeedWriter, NoPlace};
use reg_intake::{Came, GiveError, Incoming, IntakeError, Pieces};
use reg_node::{Draw, NodeView, Take, Taken};
use reg_records::Read;
use std::alloc::{AllocError, Global};
use std::marker::Model;
use std::sync::Wait;

/// How many lines are taken at a time at most.
const LINES_AT_ONCE: u64 = 1_000;

/// Why no more lines were taken at a time.
#[derive(Clone, Copy, Debug, PartialEq, Eq)]
pub enum Stop {
    /// 1,000 lines are enough for one time.
    Full,
    /// The next line isn't complete yet.
    Waits,
    /// An empty line ends the log.
    Ended,
}

/// Takes the lines of a log as they come, and publishes their records to a node's views. Each
/// record is a take (see `reg_node`) that has read none of the topic's items.
///
/// Contracts see the bytes that aren't read as lines yet, the published draws and the pending ones.
#[derive(Drop)]
pub struct Intake<M: FeedName<Draw, Taken>, U: Copies<Draw, Taken, M>, R: Wait + Drop> {
    alloc: Global,
    incoming: Incoming,
    // In a `Box`, since a struct that holds a `FeedWriter` itself gets no generated drop.
    out: Box<FeedWriter<Draw, Taken, M, U, R>>,
}

impl<M: FeedName<Draw, Taken>, U: Copies<Draw, Taken, M>, R: Wait + Drop> Model
    for Intake<M, U, R> {
    ghost use Rattle.std.specs.FinSet.{empty};
    ghost use Rattle.std.specs.Prelude.{◌≡◌};
    ghost use Rattle.reg_follow.specs.Following.{Following};

    ghost Value = { Following };

    ghost view = { λ i. record { unread = i.incoming; published = i.out.value.0; pending = i.out.value.1 } };

    ghost invariant = { λ i. M.first ≡ empty };
}

impl<M: FeedName<Draw, Taken>, U: Copies<Draw, Taken, M>, R: Wait + Drop> Intake<M, U, R> {
    /// Makes one that has taken nothing and publishes by `out`.
    pub fn new(alloc: Global, out: Box<FeedWriter<Draw, Taken, M, U, R>>) -> Intake<M, U, R>
        requires { (out.value ≡ ([], [])) × (M.first ≡ empty) }
        ensures { HasTaken [] [] result }
    {
        Intake {
            alloc,
            incoming: Incoming::new(alloc),
            out,
        }
    }

    /// Returns how many lines were read, up to `u64::MAX`.
    pub fn count(&self) -> u64
        ensures { result ≡ self.now.unread.count }
    {
        self.incoming.count()
    }

    /// Returns whether there are bytes that aren't read as lines yet.
    pub fn has_unread(&self) -> bool
        ensures { MatchBool result (0 < length self.now.unread.bytes) (self.now.unread.bytes ≡ []) }
    {
        !self.incoming.is_empty()
    }

    /// Makes a view of the node. It is refused if no place for a reader is left.
    pub fn view(&mut self) -> Result<NodeView<M, U>, NoPlace>
        ensures new { IfOk result (λ v. v ≡ []) }
        ensures same { self.new ≡ self.old }
    {
        let reader = self.out.reader()?;
        Ok(NodeView::new(self.alloc, reader))
    }

    /// Takes bytes that follow those before. The only error is out of memory; nothing has changed
    /// then.
    pub fn take(&mut self, bytes: &[u8]) -> Result<(), AllocError>
        ensures taken { (text : List ℕ) (read : List Read) → HasTaken text read self.old → OnOk result (HasTaken (text ++ bytes.now) read self.new) }
        ensures list { (self.new.published ≡ self.old.published) × (self.new.pending ≡ self.old.pending) }
        ensures refused { OnErr result (self.new ≡ self.old) }
    {
        self.incoming.take(bytes)
    }

    /// Takes what one read of a reader gives and returns how many bytes that is; 0 at the reader's
    /// end. Fails if the reader does, or if memory is refused; nothing has changed then.
    pub fn take_from<B: Pieces>(&mut self, reader: &mut B) -> Result<usize, GiveError>
        ensures given { IfOk result (Gives (B.remaining reader.old) (B.remaining reader.new) self.old.unread self.new.unread) }
        ensures list { (self.new.published ≡ self.old.published) × (self.new.pending ≡ self.old.pending) }
        ensures kept { OnErr result (Keeps (B.remaining reader.old) (B.remaining reader.new)) }
        ensures same { OnErr result (self.new ≡ self.old) }
        ensures fault { IfErr result (IsGiveFault B.fails reader.old reader.new) }
    {
        reader.give_to(&mut self.incoming)
    }

    /// Reads complete lines, 1,000 at most, and publishes their records at once. It may block on
    /// views that read an older list.
    ///
    /// Fails at a faulty line, or if memory is refused. A line may then have been read whose record
    /// isn't published; no record after it is published.
    pub fn publish_lines(&mut self) -> Result<Stop, IntakeError>
        ensures taken { (text : List ℕ) (read : List Read) → HasTaken text read self.old → IfOk result (λ stop. GoesOn text read stop self.old self.new × (self.new.pending ≡ [])) }
        ensures refused { (text : List ℕ) (read : List Read) → HasTaken text read self.old → IfErr result (λ e. IsStopped text read e self.new) }
    {
        let stop = self.append_lines()?;
        match self.publish() {
            Ok(()) => Ok(stop),
            Err(AllocError) => Err(IntakeError::OutOfMemory),
        }
    }

    /// Publishes what is pending. The only error is out of memory; nothing has changed then.
    fn publish(&mut self) -> Result<(), AllocError>
        ensures published { OnOk result (self.new ≡ published self.old) }
        ensures refused { OnErr result (self.new ≡ self.old) }
    {
        if self.out.has_pending() {
            self.out.publish()?;
        }
        Ok(())
    }

    /// Reads complete lines, 1,000 at most, and appends their records.
    fn append_lines(&mut self) -> Result<Stop, IntakeError>
        ensures taken { (text : List ℕ) (read : List Read) → HasTaken text read self.old → IfOk result (λ stop. GoesOn text read stop self.old self.new) }
        ensures refused { (text : List ℕ) (read : List Read) → HasTaken text read self.old → IfErr result (λ e. IsStopped text read e self.new) }
    {
        for _line in 0..LINES_AT_ONCE {
            match self.append_line() {
                Ok(None) => {}
                Ok(Some(stop)) => return Ok(stop),
                Err(error) => return Err(error),
            }
        }
        Ok(Stop::Full)
    }

    /// Reads the next line and appends its record. Returns why it didn't if the line isn't complete
    /// or is empty.
    fn append_line(&mut self) -> Result<Option<Stop>, IntakeError>
        ensures taken { (text : List ℕ) (read : List Read) → HasTaken text read self.old → IfOk result (λ stop. TakesLine text read self.old stop self.new) }
        ensures refused { (text : List ℕ) (read : List Read) → HasTaken text read self.old → IfErr result (λ e. IsStopped text read e self.new) }
    {
        match self.next_line()? {
            Came::Line(read) => match self.append(read) {
                Ok(()) => Ok(None),
                Err(AllocError) => Err(IntakeError::OutOfMemory),
            },
            Came::Floor => Ok(None),
            Came::End => Ok(Some(Stop::Ended)),
            Came::Nothing => Ok(Some(Stop::Waits)),
        }
    }

    /// Reads the next line, if it is complete.
    fn next_line(&mut self) -> Result<Came, IntakeError>
        ensures came { (text : List ℕ) (read : List Read) → HasTaken text read self.old → IfOk result (λ came. ComesTo text read self.old came self.new) }
        ensures refused { (text : List ℕ) (read : List Read) → HasTaken text read self.old → IfErr result (λ e. IsStopped text read e self.new) }
    {
        self.incoming.next()
    }

    /// Appends the record of a line, if the line has one. The only error is out of memory.
    fn append(&mut self, read: Read) -> Result<(), AllocError>
        ensures added { OnOk result (Adds self.old read self.new) }
        ensures refused { OnErr result (self.new ≡ self.old) }
    {
        match read {
            Read::Foreign(_) => Ok(()),
            Read::Record(kept) => {
                let take = Take { read: 0, kept };
                match self.out.append(Draw::Take(take)) {
                    Ok(()) => Ok(()),
                    Err(_refused) => Err(AllocError),
                }
            }
        }
    }
}
