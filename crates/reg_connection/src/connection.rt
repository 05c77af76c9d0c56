// A connection: the bytes that came, the answers left to send, and what it waits for.
ghost use Rattle.std.specs.Prelude.{◌≡◌, ◌≢◌, ◌⊎◌, [], length, nat_lt};
ghost use Rattle.std.specs.declared.io.ErrorKind.TheVariants as kinds;
ghost use Rattle.reg_connection.specs.Connection.{Gives, IsDone, IsGone, KeepsTimes, WaitsOn, weight_of};
ghost use Rattle.reg_connection.specs.Waiting.{is_late};

use crate::limits::Limits;
use crate::sending::send_some;
use crate::stream::Stream;
use crate::turn_kinds::TurnKind;
use crate::waiting::Waits;
use reg_conversation::Conversation;
use std::alloc::Global;
use std::io::ErrorKind;

/// The most reads in one look at a connection.
const READS_AT_ONCE: u64 = 128;

/// The next step of a connection after a look at it.
#[derive(Clone, Copy, Debug, PartialEq, Eq)]
pub enum Turn {
    /// Wait until its client does something.
    Waits,
    /// Look at it again: more may be there.
    Again,
    /// Have a worker answer: a request is whole, or the client has ended its side.
    Ready,
    /// Close it.
    Over,
}

/// A connection, held by the poller or by a worker. Times are milliseconds of one clock.
#[derive(Drop)]
pub struct Connection<S: Stream, T: Drop> {
    pub stream: S,
    /// Its place in the table of the poller.
    pub place: usize,
    pub conversation: Conversation,
    /// What its last answer stood on.
    pub standing: Option<T>,
    /// Answers that the client hasn't taken yet; the first `sent` bytes are sent.
    unsent: Vec<u8>,
    sent: usize,
    /// Whether it is closed after these answers.
    closes: bool,
    waits: Waits,
    /// The time since which it waits.
    since: u64,
    /// The time at which its last whole request came, or it was accepted.
    asked: u64,
    /// How many bytes were read and dropped.
    dropped: u64,
    /// Whether the client has ended its side.
    pub ended: bool,
    /// Whether the poll watches it.
    pub watched: bool,
    /// Whether there may be bytes that weren't read at the last look.
    pub stirred: bool,
    /// The turn (slot for a long request) that it got, until its request is answered.
    pub turn: Option<TurnKind>,
}

impl<S: Stream, T: Drop> Connection<S, T> {
    /// Makes a connection that was just accepted.
    pub fn new(alloc: Global, stream: S, place: usize, now: u64) -> Connection<S, T>
        ensures since { result.since ≡ now }
        ensures asked { result.asked ≡ now }
        ensures waits { result.waits ≡ Waits.Request }
        ensures empty { result.conversation ≡ [] }
    {
        Connection {
            stream,
            place,
            conversation: Conversation::new(alloc),
            standing: None,
            unsent: Vec::new(alloc),
            sent: 0,
            closes: false,
            waits: Waits::Request,
            since: now,
            asked: now,
            dropped: 0,
            ended: false,
            watched: false,
            stirred: true,
            turn: None,
        }
    }

    /// Returns the time at which its last whole request came, or it was accepted.
    pub fn asked(&self) -> u64
        ensures { result ≡ self.now.asked }
    {
        self.asked
    }

    /// Returns how many bytes of unfinished requests and unsent answers it holds.
    pub fn weight(&self) -> usize
        ensures { result ≡ weight_of self.now }
    {
        self.conversation
            .held_len()
            .saturating_add(self.unsent.len())
    }

    /// Returns whether it has waited as long as its limit, or longer.
    pub fn is_late(&self, limits: &Limits, now: u64) -> bool
        ensures { result ≡ is_late limits.now self.now.waits (nat_lt 0 (length self.now.conversation)) self.now.since now }
    {
        let begun = self.conversation.held_len() > 0;
        self.waits.is_late(limits, begun, self.since, now)
    }

    /// Puts it back after a worker is done with it: its waiting begins now. Frees memory that it
    /// doesn't need.
    pub fn rest(&mut self, alloc: Global, now: u64)
        ensures since { self.new.since ≡ now }
        ensures asked { self.new.asked ≡ now }
        ensures waits { self.new.waits ≡ self.old.waits }
        ensures held { self.new.conversation ≡ self.old.conversation }
    {
        self.since = now;
        self.asked = now;
        self.conversation.release(alloc);
    }

    /// Does what can be done without waiting and without an answer, and returns the next step. The
    /// waiting time begins anew when the first byte of a request comes, and when the client has
    /// taken the last byte of the answers. It is over only if the client has ended its side, the
    /// stream broke, or it dropped as much as it may.
    pub fn look(&mut self, alloc: Global, limits: &Limits, buffer: &mut [u8], now: u64) -> Turn
        ensures request { self.old.waits ≡ Waits.Request → WaitsOn now self.old self.new }
        ensures answering { self.old.waits ≡ Waits.Client → self.new.waits ≡ Waits.Client → self.new.since ≡ self.old.since }
        ensures answered { self.old.waits ≡ Waits.Client → self.new.waits ≢ Waits.Client → self.new.since ≡ now }
        ensures given { self.old.waits ≡ Waits.Client → Gives S.took self.old self.new }
        ensures ending { self.old.waits ≡ Waits.End → (self.new.waits ≡ Waits.End) × (self.new.since ≡ self.old.since) }
        ensures over { result ≡ Turn.Over → IsDone S.broke limits.now.dropped self.new }
    {
        match self.waits {
            Waits::Request => self.take(buffer, now),
            Waits::Client => self.give(alloc, buffer, now),
            Waits::End => self.linger(limits, buffer),
        }
    }

    /// Reads what came of a request.
    fn take(&mut self, buffer: &mut [u8], now: u64) -> Turn
        requires { self.old.waits ≡ Waits.Request }
        ensures times { WaitsOn now self.old self.new }
        ensures stream { self.new.stream ≡ self.old.stream }
        ensures over { result ≡ Turn.Over → IsGone S.broke self.new }
    {
        let begun = self.conversation.held_len() > 0;
        let turn = self.take_some(buffer);
        if self.waits == Waits::End {
            self.since = now;
        }
        if !begun && self.conversation.held_len() > 0 {
            self.since = now;
        }
        if turn == Turn::Ready {
            self.asked = now;
        }
        turn
    }

    fn take_some(&mut self, buffer: &mut [u8]) -> Turn
        requires { self.old.waits ≡ Waits.Request }
        ensures times { KeepsTimes self.old self.new }
        ensures stream { self.new.stream ≡ self.old.stream }
        ensures over { result ≡ Turn.Over → IsGone S.broke self.new }
    {
        'reads: for _ in 0..READS_AT_ONCE {
            let turn = self.receive(buffer);
            if turn != Turn::Again || self.waits == Waits::End {
                return turn;
            }
        }
        Turn::Again
    }

    /// Reads a request once; `Again` if it isn't whole yet. If memory for the bytes is refused, the
    /// connection is closed as after a last answer.
    pub fn receive(&mut self, buffer: &mut [u8]) -> Turn
        ensures times { KeepsTimes self.old self.new }
        ensures stream { self.new.stream ≡ self.old.stream }
        ensures over { result ≡ Turn.Over → IsGone S.broke self.new }
    {
        self.stirred = true;
        match self.stream.receive(buffer) {
            Ok(0) => {
                self.ended = true;
                self.stirred = false;
                if self.conversation.held_len() == 0 {
                    Turn::Over
                } else {
                    Turn::Ready
                }
            }
            Ok(n) => self.came(buffer.get(..n).unwrap_or(&[])),
            Err(e) => self.missed(e.kind()),
        }
    }

    /// Adds bytes that came. If memory for them is refused, it is closed as after a last answer, so
    /// that the client still reads the answers sent before.
    fn came(&mut self, bytes: &[u8]) -> Turn
        ensures times { KeepsTimes self.old self.new }
        ensures stream { self.new.stream ≡ self.old.stream }
        ensures over { result ≡ Turn.Over → IsGone S.broke self.new }
    {
        if self.conversation.feed(bytes).is_err() {
            self.close()
        } else if self.conversation.front_len().is_some() {
            Turn::Ready
        } else {
            Turn::Again
        }
    }

    /// Returns the next step after a read or a write that failed.
    fn missed(&mut self, kind: ErrorKind) -> Turn
        ensures times { KeepsTimes self.old self.new }
        ensures waits { self.new.waits ≡ self.old.waits }
        ensures stream { self.new.stream ≡ self.old.stream }
        ensures over { result ≡ Turn.Over → (kind ≢ kinds.Interrupted) × (kind ≢ kinds.WouldBlock) }
    {
        match kind {
            ErrorKind::WouldBlock => {
                self.stirred = false;
                Turn::Waits
            }
            ErrorKind::Interrupted => Turn::Again,
            _ => Turn::Over,
        }
    }

    /// Keeps answers that the client hasn't taken; the first `sent` bytes are sent. Waits for the
    /// client then.
    pub fn keep(&mut self, answers: Vec<u8>, sent: usize, closes: bool)
        ensures answers { self.new.unsent.items ≡ answers.items }
        ensures sent { self.new.sent ≡ sent }
        ensures waits { self.new.waits ≡ Waits.Client }
        ensures since { self.new.since ≡ self.old.since }
    {
        self.unsent = answers;
        self.sent = sent;
        self.closes = closes;
        self.waits = Waits::Client;
    }

    /// Writes as much of the kept answers as the client takes.
    fn give(&mut self, alloc: Global, buffer: &mut [u8], now: u64) -> Turn
        requires { self.old.waits ≡ Waits.Client }
        ensures answering { self.new.waits ≡ Waits.Client → self.new.since ≡ self.old.since }
        ensures answered { self.new.waits ≢ Waits.Client → self.new.since ≡ now }
        ensures given { Gives S.took self.old self.new }
        ensures over { result ≡ Turn.Over → IsGone S.broke self.new }
    {
        match send_some(&mut self.stream, &self.unsent, &mut self.sent) {
            Ok(true) => {
                self.unsent = Vec::new(alloc);
                self.sent = 0;
                self.waits = Waits::Request;
                self.since = now;
                self.go_on(buffer, now)
            }
            Ok(false) => Turn::Waits,
            Err(_) => Turn::Over,
        }
    }

    /// Goes on after the client has taken all answers.
    fn go_on(&mut self, buffer: &mut [u8], now: u64) -> Turn
        requires since { self.old.since ≡ now }
        requires waits { self.old.waits ≡ Waits.Request }
        ensures since { self.new.since ≡ now }
        ensures waits { self.new.waits ≢ Waits.Client }
        ensures stream { self.new.stream ≡ self.old.stream }
        ensures over { result ≡ Turn.Over → IsGone S.broke self.new }
    {
        if self.closes {
            return self.close();
        }
        if self.ended || self.conversation.front_len().is_some() {
            return Turn::Ready;
        }
        self.take(buffer, now)
    }

    /// Closes it after the last answer: ends its own side, and then drops what the client still
    /// sends, so that the client reads that answer and gets no reset.
    pub fn close(&mut self) -> Turn
        ensures times { KeepsTimes self.old self.new }
        ensures stream { self.new.stream ≡ self.old.stream }
        ensures over { result ≡ Turn.Over → IsGone S.broke self.new }
    {
        if self.ended || self.stream.end_writing().is_err() {
            return Turn::Over;
        }
        self.waits = Waits::End;
        self.stirred = true;
        Turn::Again
    }

    /// Reads and drops what came.
    fn linger(&mut self, limits: &Limits, buffer: &mut [u8]) -> Turn
        requires { self.old.waits ≡ Waits.End }
        ensures since { self.new.since ≡ self.old.since }
        ensures waits { self.new.waits ≡ Waits.End }
        ensures over { result ≡ Turn.Over → IsDone S.broke limits.now.dropped self.new }
    {
        'reads: for _ in 0..READS_AT_ONCE {
            match self.stream.receive(buffer) {
                Ok(0) => {
                    self.ended = true;
                    return Turn::Over;
                }
                Ok(n) => {
                    self.dropped = self.dropped.saturating_add(n as u64);
                    if self.dropped >= limits.dropped {
                        return Turn::Over;
                    }
                }
                Err(e) => match self.missed(e.kind()) {
                    Turn::Again => {}
                    other => return other,
                },
            }
        }
        Turn::Again
    }
}
