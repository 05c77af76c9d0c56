// What threads do with what a process and its adapter say to each other.
ghost use Rattle.std.specs.Prelude.{◌≡◌, ◌↔◌, ◌<◌, ◌≤◌, false, length, [], None, Some, IfErr, IfNone, IfSome, IsSome, IsTrue, OnErr, OnOk, OnSome, unwrap_or};
ghost use Rattle.reg_adapter_line.specs.Messages.{is_ready_message};

use crate::end::LineEnd;
use reg_adapter::AdapterMessage;
use reg_adapter_chain::{AdapterConversation, Asking, TellError};
use reg_chain::ChainAnswer;
use reg_records::Record;
use std::alloc::Global;

/// The most batches that may be due while nobody waits for an answer: a reader then waits until
/// some are taken. While somebody waits it reads on, since the answer follows them.
pub(crate) const DUE_LIMIT: usize = 4_096;

/// The exchange of a process and its adapter: what was said, and what is still to be done about it.
#[derive(Drop)]
pub(crate) struct Exchange {
    pub(crate) conversation: AdapterConversation,
    /// The bytes of a request that isn't written yet.
    pub(crate) request: Option<Vec<u8>>,
    /// An answer that its command hasn't taken.
    pub(crate) answer: Option<ChainAnswer>,
    /// Whether `ready` was read.
    pub(crate) is_ready: bool,
    /// Why the line is over, once it is.
    pub(crate) end: Option<LineEnd>,
}

impl Exchange {
    ghost use Rattle.reg_adapter_line.specs.Answers.{settled};
    ghost use Rattle.reg_adapter_line.specs.Exchanges.{IsAskedFor, IsAtOnce, IsFull, IsHeard, IsNotHeard, IsOpen, IsTaken, IsWaiting, begun, by_settling};

    /// Makes an exchange in which nothing was said, behind a base whose next offset is `next`.
    pub(crate) fn new(alloc: Global, next: u64) -> Exchange
        ensures { result ≡ begun next }
    {
        Exchange {
            conversation: AdapterConversation::new(alloc, next),
            request: None,
            answer: None,
            is_ready: false,
            end: None,
        }
    }

    /// Asks for a batch with these bytes. `None` means that it is asked for, and its answer has to
    /// be waited for. Otherwise nothing changes, and the answer is returned at once.
    pub(crate) fn ask(&mut self, batch: &[Record], bytes: Vec<u8>) -> Option<ChainAnswer>
        ensures asked { IfNone result (IsAskedFor self.old batch.now bytes self.new) }
        ensures answered { IfSome result (IsAtOnce self.old) }
        ensures same { OnSome result (self.new ≡ self.old) }
    {
        if self.end.is_some() {
            return Some(self.at_once());
        }
        let Ok(Asking::Asked) = self.conversation.ask(batch) else {
            return Some(self.at_once());
        };
        self.request = Some(bytes);
        self.answer = None;
        None
    }

    /// Returns the answer to a batch that isn't asked for: `Behind` if a batch is due, and
    /// otherwise `Declined`.
    pub(crate) fn at_once(&self) -> ChainAnswer
        ensures { IsAtOnce self.now result }
    {
        if self.conversation.due_count() > 0 {
            ChainAnswer::Behind
        } else {
            ChainAnswer::Declined
        }
    }

    /// Takes a message. An error changes nothing.
    pub(crate) fn hear(&mut self, told: AdapterMessage) -> Result<(), TellError>
        ensures heard { OnOk result (IsHeard self.old told self.new) }
        ensures refused { IfErr result (IsNotHeard self.old told) }
        ensures same { OnErr result (self.new ≡ self.old) }
    {
        let is_ready = is_ready_message(&told);
        let answer = self.conversation.tell(told)?;
        if answer.is_some() {
            self.answer = answer;
        }
        if is_ready {
            self.is_ready = true;
        }
        Ok(())
    }

    /// Ends the line. The first reason stays.
    pub(crate) fn end_with(&mut self, end: LineEnd)
        ensures { self.new ≡ record self.old { end = Some (unwrap_or self.old.end end) } }
    {
        if self.end.is_none() {
            self.end = Some(end);
        }
    }

    /// Returns the answer for the command that stops waiting, if it came. Otherwise the command
    /// goes on without it: `Unknown` for a batch, `Declined` for a check.
    pub(crate) fn settle(&mut self, batch: &[Record]) -> ChainAnswer
        ensures answers { result ≡ settled self.old.answer batch.now }
        ensures stands { self.new ≡ by_settling self.old }
    {
        if let Some(answer) = self.answer.take() {
            return answer;
        }
        self.conversation.give_up();
        if batch.is_empty() {
            ChainAnswer::Declined
        } else {
            ChainAnswer::Unknown
        }
    }

    /// Returns whether an answer may still come to the command that waits for one.
    pub(crate) fn is_waiting(&self) -> bool
        ensures { IsTrue result ↔ IsWaiting self.now }
    {
        self.answer.is_none() && self.end.is_none()
    }

    /// Returns whether the next caller has to wait: the line isn't over, and an answer is waited
    /// for or not taken yet.
    pub(crate) fn is_taken(&self) -> bool
        ensures { IsTrue result ↔ IsTaken self.now }
    {
        self.end.is_none() && (self.answer.is_some() || self.conversation.is_waited_for())
    }

    /// Returns whether a request has no answer, and one may still come.
    pub(crate) fn is_open(&self) -> bool
        ensures { IsTrue result ↔ IsOpen self.now }
    {
        self.end.is_none() && self.conversation.is_open()
    }

    /// Returns whether a message has to wait until batches are taken.
    pub(crate) fn is_full(&self) -> bool
        ensures { IsTrue result ↔ IsFull self.now }
    {
        !self.conversation.is_waited_for()
            && self.end.is_none()
            && self.conversation.due_count() >= DUE_LIMIT
    }

    /// Returns whether there is nothing to take: no batch is due, `ready` wasn't read, and the line
    /// isn't over.
    pub(crate) fn is_silent(&self) -> bool {
        !self.is_ready && self.end.is_none() && self.conversation.due_count() == 0
    }

    /// Returns whether no request is to be written, and one may still come.
    pub(crate) fn is_idle(&self) -> bool {
        self.request.is_none() && self.end.is_none()
    }
}

fn is_ready_message(told: &AdapterMessage) -> bool
    ensures { result ≡ is_ready_message told.now }
{
    matches!(told, AdapterMessage::Ready)
}
