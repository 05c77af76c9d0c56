// The messages of an adapter, read as they come.
ghost use Rattle.std.specs.Prelude.{◌≡◌, ◌++◌, ℕ, List, [], true, false, IfErr, IfOk, OnErr, OnOk};
ghost use Rattle.reg_adapter.specs.Messages.{Comes, EndsWithin, HasRead, IsBetween, IsRefusal};
ghost use Rattle.reg_adapter.specs.Steps.{IsLess, IsSame, IsStepRefusal, TakesPart, TakesWord, told_after};
ghost use Rattle.reg_adapter.specs.declared.told.AdapterMessage.{AdapterMessage};

use crate::fault::{MessageError, MessageFault};
use crate::line::{Part, Word, fault_behind, part_in, word_in};
use crate::lines::Lines;
use crate::told::AdapterMessage;
use base_text::Listed;
use reg_records::{LINE_LIMIT, LineError, Read};
use std::alloc::{AllocError, Global};
use std::mem;

/// A reader of an adapter's messages, which takes bytes as they come and gives each message once.
/// The base is read before, with `read_log`, off the same reader: it is a log up to its empty line,
/// and `read_log` leaves what is behind that.
#[derive(Drop)]
pub struct Messages {
    alloc: Global,
    lines: Lines,
    /// Whether a batch is begun.
    is_begun: bool,
    /// What the lines of that batch say.
    begun: Vec<Read>,
}

/// What the line at the front was.
#[derive(Drop)]
enum Step {
    /// The end of this message.
    Told(AdapterMessage),
    /// A line of a batch that goes on.
    Within,
    /// No whole line has come.
    Nothing,
}

impl Messages {
    /// Makes a reader to which nothing has come.
    pub fn new(alloc: Global) -> Messages
        ensures { HasRead [] [] result }
    {
        Messages {
            alloc,
            lines: Lines::new(alloc),
            is_begun: false,
            begun: Vec::new(alloc),
        }
    }

    /// Appends bytes that came. The only error is out of memory, with nothing changed.
    pub fn take(&mut self, bytes: &[u8]) -> Result<(), AllocError>
        ensures read { (text : List ℕ) (told : List AdapterMessage) → HasRead text told self.old → OnOk result (HasRead (text ++ bytes.now) told self.new) }
        ensures refused { OnErr result (self.new ≡ self.old) }
    {
        self.lines.add(bytes)
    }

    /// Returns the next message, if it is whole. A line over the limit is refused before its LF has
    /// come. An error loses no message, and the next call returns it again, unless memory was
    /// refused.
    pub fn next(&mut self) -> Result<Option<AdapterMessage>, MessageError>
        ensures came { (text : List ℕ) (told : List AdapterMessage) → HasRead text told self.old → IfOk result (λ came. Comes text told came self.new) }
        ensures refused { (text : List ℕ) (told : List AdapterMessage) → HasRead text told self.old → IfErr result (IsRefusal text told self.new) }
    {
        'lines: loop {
            match self.step()? {
                Step::Told(told) => return Ok(Some(told)),
                Step::Within => {}
                Step::Nothing => return Ok(None),
            }
        }
    }

    /// Checks that the input may end here, once `next` returns nothing more. Returns a fault within
    /// a line or a batch.
    pub fn end(&self) -> Result<(), MessageError>
        ensures ended { OnOk result (IsBetween self.now) }
        ensures refused { IfErr result (EndsWithin self.now) }
    {
        if !self.lines.unread().is_empty() {
            return Err(fault_behind(self.lines.count(), MessageFault::Line(LineError::Truncated)));
        }
        if self.is_begun {
            return Err(fault_behind(self.lines.count(), MessageFault::Unended));
        }
        Ok(())
    }

    /// Reads the line at the front, if it is whole.
    fn step(&mut self) -> Result<Step, MessageError>
        ensures steps { (text : List ℕ) (told : List AdapterMessage) → HasRead text told self.old → IfOk result (λ step. HasRead text (told_after told step) self.new) }
        ensures less { IfOk result (λ step. IsLess self.old step self.new) }
        ensures refused { IfErr result (IsStepRefusal self.old) }
        ensures same { OnErr result (IsSame self.old self.new) }
    {
        let Some(line) = self.lines.front() else {
            if self.lines.unread().len() > LINE_LIMIT {
                return Err(fault_behind(
                    self.lines.count(),
                    MessageFault::Line(LineError::TooLong),
                ));
            }
            return Ok(Step::Nothing);
        };
        let len = line.len();
        let step = if self.is_begun {
            let part = part_in(self.alloc, &self.begun, line, self.lines.count())?;
            self.take_part(part)?
        } else {
            let word = word_in(line, self.lines.count())?;
            self.take_word(word)
        };
        self.lines.pass(len);
        Ok(step)
    }

    /// Takes what a line says between two messages.
    fn take_word(&mut self, word: Word) -> Step
        requires { self.old.is_begun ≡ false }
        ensures { TakesWord self.old word result self.new }
    {
        match word {
            Word::Batch => {
                self.is_begun = true;
                self.begun = Vec::new(self.alloc);
                Step::Within
            }
            Word::Answer(answer) => Step::Told(AdapterMessage::Answer(answer)),
            Word::Ready => Step::Told(AdapterMessage::Ready),
        }
    }

    /// Takes what a line says within a batch. The only error is out of memory.
    fn take_part(&mut self, part: Part) -> Result<Step, AllocError>
        requires { self.old.is_begun ≡ true }
        ensures taken { IfOk result (λ step. TakesPart self.old part step self.new) }
        ensures refused { OnErr result (IsSame self.old self.new) }
    {
        match part {
            Part::Line(read) => {
                self.begun.push(read)?;
                Ok(Step::Within)
            }
            Part::End => {
                let reads = mem::replace(&mut self.begun, Vec::new(self.alloc));
                self.is_begun = false;
                Ok(Step::Told(AdapterMessage::Batch(Listed::from(reads))))
            }
        }
    }
}
