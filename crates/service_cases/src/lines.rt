// Lines that come in pieces.
use reg_intake::{Came, Incoming, IntakeError};
use reg_records::Read;
use std::alloc::{AllocError, Global};
use test_tools::{Made, bytes_of, cut};

/// Adds a word for what came; whether more may come.
fn add_word(words: &mut String, came: &Came) -> Made<bool> {
    match came {
        Came::Floor => words.push_str("floor ")?,
        Came::Line(Read::Foreign(offset)) => write!(words, "foreign {offset} ")?,
        Came::Line(Read::Record(record)) => write!(words, "record {} ", record.offset)?,
        Came::End => words.push_str("end")?,
        Came::Nothing => return Ok(false),
    }
    Ok(!matches!(came, Came::End))
}

/// Adds what comes of bytes, until no line is whole or one has a fault: a word each.
fn add_words(words: &mut String, incoming: &mut Incoming) -> Result<(), IntakeError> {
    for _line in 0..100 {
        let came = incoming.next()?;
        if !add_word(words, &came)? {
            break;
        }
    }
    Ok(())
}

/// Adds what comes of two texts, one after the other.
fn add_both(
    words: &mut String,
    incoming: &mut Incoming,
    first: &[u8],
    second: &[u8],
) -> Result<(), IntakeError> {
    incoming.take(first)?;
    add_words(words, incoming)?;
    if !words.as_str().ends_with("end") {
        incoming.take(second)?;
        add_words(words, incoming)?;
    }
    Ok(())
}

/// What comes of a text of which so many bytes come first.
fn words_of_cut(alloc: Global, text: &[u8], cut: usize) -> Made<String> {
    let mut words = String::new(alloc);
    let (first, second) = text.split_at(cut.min(text.len()));
    let mut incoming = Incoming::new(alloc);
    match add_both(&mut words, &mut incoming, first, second) {
        Ok(()) => Ok(words),
        Err(IntakeError::OutOfMemory) => Err(AllocError),
        Err(error) => format!(in alloc; "{error}"),
    }
}

/// What comes of a text, wherever it is cut in two.
pub(crate) fn cut_text(alloc: Global, given: &str) -> Made<String> {
    let text = bytes_of(alloc, given)?;
    let whole = words_of_cut(alloc, &text, text.len())?;
    for cut in 0..text.len() {
        let words = words_of_cut(alloc, &text, cut)?;
        if words != whole {
            return format!(in alloc; "{words}, cut at {cut}");
        }
    }
    Ok(whole)
}

/// What reading on ends with.
fn end_of(alloc: Global, incoming: &mut Incoming) -> Made<String> {
    let mut words = String::new(alloc);
    match add_words(&mut words, incoming) {
        Ok(()) => String::from_str(alloc, "nothing"),
        Err(IntakeError::OutOfMemory) => Err(AllocError),
        Err(error) => format!(in alloc; "{error}, {} read", incoming.count()),
    }
}

fn ends_of(alloc: Global, incoming: &mut Incoming) -> Made<String> {
    let first = end_of(alloc, incoming)?;
    let second = end_of(alloc, incoming)?;
    if first == second {
        return Ok(first);
    }
    format!(in alloc; "{first}, and then {second}")
}

/// What reading a text ends with, asked for twice.
pub(crate) fn fault_text(alloc: Global, given: &str) -> Made<String> {
    let mut incoming = Incoming::new(alloc);
    incoming.take(&bytes_of(alloc, given)?)?;
    ends_of(alloc, &mut incoming)
}
