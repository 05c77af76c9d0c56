// What an adapter says, and what it is asked for.
use crate::batches::batch_of;
use crate::form::{Came, Form, shown};
use reg_adapter::{AdapterAnswer, AdapterMessage, MessageError, Messages, request};
use reg_records::{Device, Read, has_line, read_log};
use std::alloc::Global;
use test_tools::{CaseError, Made, bytes_of, cut, number_of};

/// A word for an answer.
fn answer_word(answer: AdapterAnswer) -> &'static str {
    match answer {
        AdapterAnswer::Kept => "kept",
        AdapterAnswer::Behind => "behind",
        AdapterAnswer::Declined => "declined",
        AdapterAnswer::Lost => "lost",
    }
}

/// Adds the offsets of a batch, each with a star where its line is foreign.
fn add_batch(words: &mut String, reads: &[Read]) -> Made<()> {
    words.push_str("batch")?;
    for read in reads {
        match read {
            Read::Record(record) => write!(words, " {}", record.offset)?,
            Read::Foreign(offset) => write!(words, " {offset}*")?,
        }
    }
    Ok(())
}

/// Adds what was told.
fn add_told(words: &mut String, told: &AdapterMessage) -> Made<()> {
    match told {
        AdapterMessage::Batch(reads) => add_batch(words, reads.as_slice())?,
        AdapterMessage::Answer(answer) => words.push_str(answer_word(*answer))?,
        AdapterMessage::Ready => words.push_str("ready")?,
    }
    words.push_str("; ")
}

/// Adds each message that is whole.
fn add_words(words: &mut String, messages: &mut Messages) -> Result<(), MessageError> {
    for _message in 0..100 {
        let Some(told) = messages.next()? else {
            break;
        };
        add_told(words, &told)?;
    }
    Ok(())
}

/// Takes a text in pieces of so many bytes, and adds what each one brings; then the input ends.
fn add_pieces(
    words: &mut String,
    messages: &mut Messages,
    text: &[u8],
    size: usize,
) -> Result<(), MessageError> {
    let mut rest = text;
    for _piece in 0..text.len() {
        let (piece, more) = rest.split_at(size.min(rest.len()));
        messages.take(piece)?;
        add_words(words, messages)?;
        rest = more;
    }
    messages.end()
}

/// What comes of a text in pieces of so many bytes.
fn words_of(alloc: Global, text: &[u8], size: usize) -> Made<String> {
    let mut words = String::new(alloc);
    match add_pieces(&mut words, &mut Messages::new(alloc), text, size) {
        Ok(()) => words.push_str("ends")?,
        Err(error) => write!(words, "{error}")?,
    }
    Ok(words)
}

/// What comes of a text given whole, and in what pieces something else comes of it.
fn said(alloc: Global, text: &[u8]) -> Made<String> {
    let whole = words_of(alloc, text, text.len())?;
    for size in 1..text.len() {
        let words = words_of(alloc, text, size)?;
        if words.as_str() != whole.as_str() {
            return format!(in alloc;
                "{} in pieces of {size}: {}",
                whole.as_str(),
                words.as_str()
            );
        }
    }
    Ok(whole)
}

/// The next offset of the base that a text begins with, and what comes of the rest.
fn based(alloc: Global, text: &[u8]) -> Came {
    let mut reader = Device::new(text);
    let Ok(base) = read_log(alloc, &mut reader) else {
        return Err(CaseError::NotUnderstood);
    };
    let rest = said(alloc, reader.into_inner())?;
    Ok(format!(in alloc; "next {}; {}", base.next, rest.as_str())?)
}

/// How a look at messages ends.
fn looked(alloc: Global, messages: &mut Messages) -> Made<String> {
    match add_words(&mut String::new(alloc), messages) {
        Ok(()) => String::from_str(alloc, "goes on"),
        Err(error) => format!(in alloc; "{error}"),
    }
}

/// What comes of a text that hasn't ended yet, which is looked at twice.
fn unended(alloc: Global, text: &[u8]) -> Made<String> {
    let mut messages = Messages::new(alloc);
    messages.take(text)?;
    let first = looked(alloc, &mut messages)?;
    let second = looked(alloc, &mut messages)?;
    format!(in alloc; "{}; {}", first.as_str(), second.as_str())
}

/// What asks for so many records.
fn requested(alloc: Global, asked: &str) -> Came {
    let (first, count) = cut(asked);
    let records = batch_of(alloc, number_of(first)?, number_of(count)?, None)?;
    if records.iter().all(|record| has_line(record)) {
        return match request(alloc, &records) {
            Ok(text) => shown(alloc, &text),
            Err(_) => Err(CaseError::OutOfMemory),
        };
    }
    Err(CaseError::NotUnderstood)
}

/// What an adapter and its process say to each other.
#[derive(Drop)]
pub(crate) struct Talk;

impl Form for Talk {
    fn came(&mut self, alloc: Global, asked: &str) -> Came {
        let (command, rest) = cut(asked);
        let text = bytes_of(alloc, rest)?;
        match command {
            "say" => Ok(said(alloc, &text)?),
            "base" => based(alloc, &text),
            "unended" => Ok(unended(alloc, &text)?),
            "request" => requested(alloc, rest),
            _ => Err(CaseError::NotUnderstood),
        }
    }
}
