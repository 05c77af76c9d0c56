// The line between a process and its adapter.
ghost use Rattle.reg_adapter_line.specs.Answers.{IsRefusal};

use crate::end::LineEnd;
use crate::exchange::Exchange;
use crate::stalls::Stalls;
use base_text::Listed;
use reg_adapter::AdapterMessage;
use reg_adapter_chain::TellError;
use reg_chain::{Arrivals, ChainAnswer};
use reg_records::Record;
use std::alloc::Global;
use std::sync::atomic::{AtomicBool, Ordering};
use std::sync::{Condvar, CondvarTimeouts, Mutex, Wait};
use std::thread::{self, Parker};
use std::time::{Clock, Duration};

/// How long after memory was refused for a message it is told again, in milliseconds.
pub(crate) const AGAIN: u64 = 20;

/// How long a batch waits for the answer to a request that nobody waits for any more, in milliseconds.
const OPEN_WITHIN: u64 = 300;

/// The line of a process to its adapter, shared by all its threads. No thread holds its lock while
/// it waits.
#[derive(Drop)]
pub struct AdapterLine {
    exchange: Mutex<Exchange>,
    /// A message was taken, an answer was, or it is over.
    heard: Condvar,
    /// A request is to be written, or it is over.
    asked: Condvar,
    /// A batch was handed out, somebody waits for an answer, or it is over.
    taken: Condvar,
    grown: Parker,
    arrivals: Arrivals,
    pub(crate) stalls: Stalls,
    is_ready: AtomicBool,
    has_due: AtomicBool,
    is_over: AtomicBool,
}

impl AdapterLine {
    /// Makes a line on which nothing was said, behind a base whose next offset is `next`.
    pub fn new(alloc: Global, next: u64) -> AdapterLine {
        AdapterLine {
            exchange: Mutex::new(Exchange::new(alloc, next)),
            heard: Condvar::new(),
            asked: Condvar::new(),
            taken: Condvar::new(),
            grown: Parker::new(),
            arrivals: Arrivals::new(),
            stalls: Stalls::new(),
            is_ready: AtomicBool::new(false),
            has_due: AtomicBool::new(false),
            is_over: AtomicBool::new(false),
        }
    }

    /// Returns the parker that is unparked after each message and at the end. One thread may park
    /// on it.
    pub fn grown(&self) -> &Parker {
        &self.grown
    }

    /// Returns the counter of the requests made on this line.
    pub fn arrivals(&self) -> &Arrivals {
        &self.arrivals
    }

    /// Returns whether `ready` was read: all was told that had been acknowledged before the adapter
    /// began.
    pub fn is_ready(&self) -> bool {
        self.is_ready.load(Ordering::SeqCst)
    }

    /// Returns whether a batch that was told isn't handed out yet.
    pub fn has_due(&self) -> bool {
        self.has_due.load(Ordering::SeqCst)
    }

    /// Returns whether the line is over: nothing more is told. What is due is still handed out.
    pub fn is_over(&self) -> bool {
        self.is_over.load(Ordering::SeqCst)
    }

    /// Returns why the line is over, once it is.
    pub fn end<R: Wait>(&self, rt: &R) -> Option<LineEnd> {
        self.exchange.lock(rt).end
    }

    /// Waits until a batch is due, `ready` was read, or the line is over, for `within` at most.
    /// Returns `false` if the time is up.
    pub fn wait_for_news<R: Wait + Clock>(&self, rt: &R, within: Duration) -> bool {
        let exchange = self.exchange.lock(rt);
        let (exchange, _result) = self
            .heard
            .wait_timeout_while(rt, exchange, within, |held| held.is_silent());
        !exchange.is_silent()
    }

    /// Ends the line if a message isn't finished, or a request isn't read, within 30 s.
    pub fn end_stalls<R: Wait + Clock>(&self, rt: &R) {
        if let Some(end) = self.stalls.late(rt) {
            self.end_with(rt, end);
        }
    }

    /// Answers a batch that can't be asked for.
    pub(crate) fn refuse<R: Wait>(&self, rt: &R) -> ChainAnswer
        ensures { IsRefusal result }
    {
        self.exchange.lock(rt).at_once()
    }

    /// Sends a batch, as these bytes, and waits for the answer for `patience` at most. Returns the
    /// answer and the request's number, or 0 if it wasn't made.
    ///
    /// If another caller waits for an answer, it waits for that one first, for `patience` at most.
    /// If an answer is missing that nobody waits for, a batch waits for it for 300 ms at most, and
    /// a check isn't sent.
    pub(crate) fn ask<R: Wait + Clock>(
        &self,
        rt: &R,
        batch: &[Record],
        bytes: Vec<u8>,
        patience: Duration,
    ) -> (ChainAnswer, u64) {
        let exchange = self.exchange.lock(rt);
        let (mut exchange, _result) = self
            .heard
            .wait_timeout_while(rt, exchange, patience, |held| held.is_taken());
        if !batch.is_empty() {
            let within = patience.min(Duration::from_millis(OPEN_WITHIN));
            (exchange, _) = self
                .heard
                .wait_timeout_while(rt, exchange, within, |held| held.is_open());
        }
        if let Some(answer) = exchange.ask(batch, bytes) {
            return (answer, 0);
        }
        let number = self.arrivals.ask();
        self.asked.notify_one();
        self.taken.notify_one();
        let (mut exchange, _result) = self
            .heard
            .wait_timeout_while(rt, exchange, patience, |held| held.is_waiting());
        let answer = exchange.settle(batch);
        drop(exchange);
        self.heard.notify_all();
        (answer, number)
    }

    /// Hands out the next batch that is due, if one is.
    pub(crate) fn next<R: Wait>(&self, rt: &R) -> Option<Listed<Record>> {
        let mut exchange = self.exchange.lock(rt);
        let batch = exchange.conversation.next();
        self.note(&exchange);
        drop(exchange);
        self.taken.notify_one();
        batch
    }

    /// Takes a message once there is room for it. Tries again while memory is refused.
    pub(crate) fn tell<R: Wait + Clock>(&self, rt: &R, told: AdapterMessage) {
        let mut told = told;
        for _ in rt.forever() {
            let Some(back) = self.hear(rt, told) else {
                break;
            };
            told = back;
            thread::sleep(rt, Duration::from_millis(AGAIN));
        }
    }

    /// Ends the line: nothing more is told.
    pub(crate) fn end_with<R: Wait>(&self, rt: &R, end: LineEnd) {
        let mut exchange = self.exchange.lock(rt);
        exchange.end_with(end);
        self.note(&exchange);
        drop(exchange);
        self.wake();
    }

    /// Waits for a request to write, and returns its bytes; `None` once the line is over.
    pub fn wait_for_request<R: Wait>(&self, rt: &R) -> Option<Vec<u8>> {
        let exchange = self.exchange.lock(rt);
        let mut exchange = self.asked.wait_while(rt, exchange, |held| held.is_idle());
        if exchange.end.is_some() {
            return None;
        }
        exchange.request.take()
    }

    /// Takes a message once there is room for it, and returns it if memory is refused.
    fn hear<R: Wait>(&self, rt: &R, told: AdapterMessage) -> Option<AdapterMessage> {
        let exchange = self.exchange.lock(rt);
        let mut exchange = self.taken.wait_while(rt, exchange, |held| held.is_full());
        let back = match exchange.hear(told) {
            Ok(()) => None,
            Err(TellError::Fault) => {
                exchange.end_with(LineEnd::NobodyAsked);
                None
            }
            Err(TellError::OutOfMemory(back)) => Some(back),
        };
        self.note(&exchange);
        drop(exchange);
        self.wake();
        back
    }

    /// Updates the flags that others read without the lock.
    fn note(&self, exchange: &Exchange) {
        self.is_ready.store(exchange.is_ready, Ordering::SeqCst);
        self.has_due
            .store(exchange.conversation.due_count() > 0, Ordering::SeqCst);
        self.is_over.store(exchange.end.is_some(), Ordering::SeqCst);
    }

    /// Wakes all that wait for a message, and once the line is over, all that wait.
    fn wake(&self) {
        self.heard.notify_all();
        if self.is_over() {
            self.asked.notify_all();
            self.taken.notify_all();
        }
        self.grown.unpark();
    }
}
