// The bytes that came on a connection, and the responses to the requests at their front.
ghost use Rattle.std.specs.Prelude.{◌≡◌, ◌<◌, ◌≤◌, ◌++◌, ℕ, List, [], length, take, drop, Option, IfOk, IfErr, IfSome, IfNone, MatchOption, OnOk, OnErr, option_map};
ghost use Rattle.reg_records.specs.Device.{bytes_in, faults_of, interruptions_of};
ghost use Rattle.reg_messages.specs.Head.{front_of};
ghost use Rattle.reg_messages.specs.FrontRead.{IsFrontOf};
ghost use Rattle.reg_messages.specs.Reading.{IsShort};
ghost use Rattle.reg_responses.specs.declared.limits.TheConstants.{INTERRUPTION_LIMIT};
ghost use Rattle.reg_messages.specs.Extent.{IsWhole, LacksHead};
ghost use Rattle.reg_http.specs.ServeSteps.{Steps};
ghost use Rattle.reg_conversation.specs.Conversation.{AnswersAs, EndsAs, FailsFirst, IsNeeded, RepliesAll};

use reg_http::{Desk, Paths, RequestOutcome, ServeError, answer_got};
use reg_messages::{FrontRead, message_parts, read_front};
use reg_records::Device;
use std::alloc::{AllocError, Global};
use std::io::Write;
use std::marker::Model;

/// The bytes of a connection that came and aren't answered yet. Contracts see the bytes.
#[derive(Drop)]
pub struct Conversation {
    held: Vec<u8>,
    // What was read of the request at the front, once its head has ended or is refused.
    front: Option<FrontRead>,
}

impl Model for Conversation {
    ghost use Rattle.std.specs.Prelude.{ℕ, List, IfSome};
    ghost use Rattle.reg_conversation.specs.Conversation.{IsKnownFront};

    ghost Value = { List ℕ };

    ghost view = { λ c. c.held.items };

    ghost invariant = { λ c. IfSome c.front (IsKnownFront c.held.items) };
}

impl Conversation {
    /// Makes a conversation without bytes.
    pub fn new(alloc: Global) -> Conversation
        ensures { result ≡ [] }
    {
        Conversation {
            held: Vec::new(alloc),
            front: None,
        }
    }

    /// Returns how many bytes are held.
    pub fn held_len(&self) -> usize
        ensures { result ≡ length self.now }
    {
        self.held.len()
    }

    /// Returns the bytes that are held.
    pub fn bytes(&self) -> &[u8]
        ensures { result.now ≡ self.now }
    {
        &self.held
    }

    /// Frees the memory of answered bytes if no bytes are held.
    pub fn release(&mut self, alloc: Global)
        ensures { self.new ≡ self.old }
    {
        if self.held.is_empty() {
            self.held = Vec::new(alloc);
        }
    }

    /// Adds bytes that came. The only error is out of memory; then nothing is added.
    pub fn feed(&mut self, bytes: &[u8]) -> Result<(), AllocError>
        ensures fed { OnOk result (self.new ≡ self.old ++ bytes.now) }
        ensures refused { OnErr result (self.new ≡ self.old) }
    {
        self.held.extend_from_slice(bytes)
    }

    /// Returns how many bytes the request at the front has, once it is whole; `None` before. Its
    /// head is read once, however many pieces its body comes in.
    pub fn front_len(&mut self) -> Option<usize>
        ensures same { self.new ≡ self.old }
        ensures some { IfSome result (λ n. 0 < n) }
        ensures fits { IfSome result (λ n. n ≤ length self.old) }
        ensures whole { IfSome result (λ n. IsWhole (take n self.old)) }
        ensures short { IfNone result (IsShort (front_of self.old)) }
    {
        match self.needed() {
            Some(len) => {
                if len <= self.held_len() {
                    Some(len)
                } else {
                    None
                }
            }
            None => None,
        }
    }

    /// Returns how many bytes the request at the front has in all, once the end of its head is
    /// there.
    #[tactic(auto, using(crate::proofs::Needs::known_read, crate::proofs::Needs::needed_read, crate::proofs::Needs::needed_known, crate::proofs::Needs::lacks_read))]
    fn needed(&mut self) -> Option<usize>
        ensures same { self.new ≡ self.old }
        ensures needed { IfSome result (IsNeeded self.old) }
        ensures lacks { IfNone result (LacksHead (front_of self.old)) }
    {
        match &self.front {
            Some(front) => Some(front.len()),
            None => {
                let front = read_front(&self.held);
                let needs = len_of(&front);
                self.front = front;
                needs
            }
        }
    }

    /// Answers the request at the front, which is whole and has `len` bytes, and drops its bytes.
    /// Returns the result. Fails with `WriteFault` only; the bytes are dropped then too.
    pub fn answer_front<W: Write, D: Desk>(
        &mut self,
        alloc: Global,
        paths: &mut Option<Paths>,
        len: usize,
        writer: &mut Device<W>,
        desk: &mut D,
    ) -> Result<RequestOutcome, ServeError>
        requires fits { len ≤ length self.old }
        requires whole { IsWhole (take len self.old) }
        requires few { interruptions_of writer.old ≤ INTERRUPTION_LIMIT }
        ensures answered { IfOk result (AnswersAs D.asks D.commands desk.old self.old
            (bytes_in W.contents writer.old) (bytes_in W.contents writer.new) self.new desk.new) }
        ensures refused { IfErr result (λ e. (more : List ℕ) → FailsFirst D.asks D.commands writer.old writer.new desk.old (self.old ++ more)
            (bytes_in W.contents writer.old) (bytes_in W.contents writer.new) desk.new e) }
        ensures dropped { self.new ≡ drop len self.old }
        ensures faults { OnOk result (faults_of writer.new ≡ faults_of writer.old) }
        ensures interruptions { interruptions_of writer.new ≤ INTERRUPTION_LIMIT }
    {
        match self.answer_held(alloc, paths, len, writer, desk) {
            Ok(Some(outcome)) => Ok(outcome),
            Ok(None) => unreachable!(),
            Err(e) => Err(e),
        }
    }

    /// Answers the rest at the end of the input, which is short of a request: with one response, or
    /// with none if no request was begun. Drops all bytes and returns the result. Fails with
    /// `WriteFault` only.
    pub fn answer_last<W: Write, D: Desk>(
        &mut self,
        alloc: Global,
        paths: &mut Option<Paths>,
        writer: &mut Device<W>,
        desk: &mut D,
    ) -> Result<Option<RequestOutcome>, ServeError>
        requires short { IsShort (front_of self.old) }
        requires few { interruptions_of writer.old ≤ INTERRUPTION_LIMIT }
        ensures answered { OnOk result (RepliesAll D.asks D.commands desk.old self.old
            (bytes_in W.contents writer.old) (bytes_in W.contents writer.new) desk.new) }
        ensures outcome { IfOk result (EndsAs self.old (bytes_in W.contents writer.old) (bytes_in W.contents writer.new)) }
        ensures refused { IfErr result (FailsFirst D.asks D.commands writer.old writer.new desk.old self.old
            (bytes_in W.contents writer.old) (bytes_in W.contents writer.new) desk.new) }
        ensures dropped { self.new ≡ [] }
        ensures faults { OnOk result (faults_of writer.new ≡ faults_of writer.old) }
        ensures interruptions { interruptions_of writer.new ≤ INTERRUPTION_LIMIT }
    {
        let len = self.held_len();
        self.answer_held(alloc, paths, len, writer, desk)
    }

    /// Answers the request in the first `len` bytes, as if nothing came after them, and drops them.
    fn answer_held<W: Write, D: Desk>(
        &mut self,
        alloc: Global,
        paths: &mut Option<Paths>,
        len: usize,
        writer: &mut Device<W>,
        desk: &mut D,
    ) -> Result<Option<RequestOutcome>, ServeError>
        requires fits { len ≤ length self.old }
        requires few { interruptions_of writer.old ≤ INTERRUPTION_LIMIT }
        ensures step { IfOk result (λ outcome. (left : Option (List ℕ)) × Steps D.asks D.commands desk.old (take len self.old)
            (bytes_in W.contents writer.old) (bytes_in W.contents writer.new) left desk.new outcome) }
        ensures refused { IfErr result (FailsFirst D.asks D.commands writer.old writer.new desk.old (take len self.old)
            (bytes_in W.contents writer.old) (bytes_in W.contents writer.new) desk.new) }
        ensures dropped { self.new ≡ drop len self.old }
        ensures faults { OnOk result (faults_of writer.new ≡ faults_of writer.old) }
        ensures interruptions { interruptions_of writer.new ≤ INTERRUPTION_LIMIT }
    {
        let front = self.take_front(len);
        let got = message_parts(&self.held[..len], front);
        let answered = answer_got(alloc, paths, got, writer, desk);
        self.drop_front(len);
        match answered {
            Ok(outcome) => Ok(outcome),
            Err(_) => Err(ServeError::WriteFault),
        }
    }

    /// Returns what was read of the request at the front if it has `len` bytes; else reads it from
    /// these bytes.
    fn take_front(&mut self, len: usize) -> Option<FrontRead>
        requires fits { len ≤ length self.old }
        ensures same { self.new ≡ self.old }
        ensures read { MatchOption result (LacksHead (front_of (take len self.old))) (IsFrontOf (take len self.old)) }
    {
        match self.front.take() {
            Some(front) => {
                if front.len() == len {
                    Some(front)
                } else {
                    read_front(&self.held[..len])
                }
            }
            None => read_front(&self.held[..len]),
        }
    }

    /// Drops the first `len` bytes.
    fn drop_front(&mut self, len: usize)
        requires { len ≤ length self.old }
        ensures { self.new ≡ drop len self.old }
    {
        self.front = None;
        let left = self.held.len() - len;
        if left == 0 {
            self.held.clear();
        } else {
            self.held.rotate_left(len);
            self.held.truncate(left);
        }
    }
}

/// Returns how many bytes a message has, if its head was read.
fn len_of(front: &Option<FrontRead>) -> Option<usize>
    ensures { result ≡ option_map (λ read. read.len) front.now }
{
    match front {
        Some(front) => Some(front.len()),
        None => None,
    }
}
