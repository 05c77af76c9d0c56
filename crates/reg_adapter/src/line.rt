// What one line of an adapter says.
ghost use Rattle.std.specs.Prelude.{◌≡◌, ◌+◌, ◌==◌, ◌++◌, ◌∷◌, ℕ, List, [], Ok, IfErr, IfOk, bytes_eq};
ghost use Rattle.reg_records.specs.Device.{counted};
ghost use Rattle.reg_records.specs.Pieces.{HasNoLineFeed};
ghost use Rattle.reg_adapter.specs.Said.{IsFault, follows, part_in, word_in, word_of};

use crate::fault::{MessageError, MessageFault};
use crate::told::AdapterAnswer;
use reg_records::{LINE_LIMIT, LineError, Read, ReadLineError, read_line};
use std::alloc::Global;

/// What a line says between two messages.
#[derive(Clone, Copy, Debug, PartialEq, Eq)]
pub(crate) enum Word {
    /// A batch begins.
    Batch,
    Answer(AdapterAnswer),
    Ready,
}

/// What a line says within a batch.
#[derive(Debug, Drop)]
pub(crate) enum Part {
    Line(Read),
    /// The batch ends.
    End,
}

/// Returns what a line (with its LF) says between two messages. `before` is the number of lines
/// before it.
pub(crate) fn word_in(line: &[u8], before: u64) -> Result<Word, MessageError>
    ensures word { (text : List ℕ) → line.now ≡ text ++ 10 ∷ [] → IfOk result (λ word. word_in text ≡ Ok word) }
    ensures fault { (text : List ℕ) → line.now ≡ text ++ 10 ∷ [] → IfErr result (IsFault before (word_in text)) }
{
    let text = &line[..line.len().saturating_sub(1)];
    if text.len() > LINE_LIMIT {
        return Err(fault_behind(before, MessageFault::Line(LineError::TooLong)));
    }
    match word_of(text) {
        Some(word) => Ok(word),
        None => Err(fault_behind(before, MessageFault::NoMessage)),
    }
}

/// Returns what a line (with its LF) says within a batch, whose lines so far are `begun`. `before`
/// is the number of lines before it.
pub(crate) fn part_in(
    alloc: Global,
    begun: &[Read],
    line: &[u8],
    before: u64,
) -> Result<Part, MessageError>
    ensures part { (text : List ℕ) → line.now ≡ text ++ 10 ∷ [] → HasNoLineFeed text → IfOk result (λ part. part_in begun.now text ≡ Ok part) }
    ensures fault { (text : List ℕ) → line.now ≡ text ++ 10 ∷ [] → HasNoLineFeed text → IfErr result (IsFault before (part_in begun.now text)) }
{
    if line.len() <= 1 {
        return if begun.is_empty() {
            Err(fault_behind(before, MessageFault::EmptyBatch))
        } else {
            Ok(Part::End)
        };
    }
    match read_line(alloc, line) {
        Ok(read) => {
            if follows(begun, &read) {
                Ok(Part::Line(read))
            } else {
                Err(fault_behind(before, MessageFault::Gap))
            }
        }
        Err(ReadLineError::Line(fault)) => Err(fault_behind(before, MessageFault::Line(fault))),
        Err(ReadLineError::OutOfMemory) => Err(MessageError::OutOfMemory),
    }
}

/// Returns the word that a line (without its LF) is, if it is one.
fn word_of(text: &[u8]) -> Option<Word>
    ensures { result ≡ word_of text.now }
{
    if is_word(text, "batch") {
        Some(Word::Batch)
    } else if is_word(text, "kept") {
        Some(Word::Answer(AdapterAnswer::Kept))
    } else if is_word(text, "behind") {
        Some(Word::Answer(AdapterAnswer::Behind))
    } else if is_word(text, "declined") {
        Some(Word::Answer(AdapterAnswer::Declined))
    } else if is_word(text, "lost") {
        Some(Word::Answer(AdapterAnswer::Lost))
    } else if is_word(text, "ready") {
        Some(Word::Ready)
    } else {
        None
    }
}

fn is_word(text: &[u8], word: &str) -> bool
    ensures { result ≡ bytes_eq text.now word.now }
{
    text == word.as_bytes()
}

/// Returns whether a line has the offset that follows those of its batch so far.
fn follows(begun: &[Read], read: &Read) -> bool
    ensures { result ≡ follows begun.now read.now }
{
    match begun.first() {
        Some(first) => is_behind(first.offset(), begun.len(), read.offset()),
        None => true,
    }
}

/// Returns whether an offset is `count` behind the first one.
fn is_behind(first: u64, count: usize, offset: u64) -> bool
    ensures { result ≡ (offset == first + count) }
{
    offset >= first && offset - first == count as u64
}

/// Returns the error for a fault of the line with `before` lines before it.
pub(crate) fn fault_behind(before: u64, fault: MessageFault) -> MessageError
    ensures { result ≡ MessageError.Fault (counted before) fault }
{
    MessageError::Fault {
        line: before.saturating_add(1),
        fault,
    }
}
