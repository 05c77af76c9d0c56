// Bytes as the cases write them.
use crate::tally::Made;
use std::alloc::Global;

/// The value of a hexadecimal digit.
fn digit_of(digit: u8) -> u8 {
    match digit {
        b'0'..=b'9' => digit - b'0',
        b'a'..=b'f' => digit - b'a' + 10,
        _ => 0,
    }
}

/// What stands behind a `^`, so far.
#[derive(Clone, Copy)]
enum Escape {
    None,
    Begun,
    /// Its first digit.
    Digit(u8),
}

/// Adds the byte that a `^` and that letter stand for, or keeps a first digit.
fn begin_escape(out: &mut Vec<u8>, letter: u8) -> Made<Escape> {
    match letter {
        b'n' => out.push(b'\n')?,
        b'r' => out.push(b'\r')?,
        b't' => out.push(b'\t')?,
        _ => return Ok(Escape::Digit(digit_of(letter))),
    }
    Ok(Escape::None)
}

fn push_plain(out: &mut Vec<u8>, byte: u8) -> Made<Escape> {
    match byte {
        b'^' => return Ok(Escape::Begun),
        b'|' => out.extend_from_slice(b"\r\n")?,
        _ => out.push(byte)?,
    }
    Ok(Escape::None)
}

/// Adds the bytes of a text in which nothing is repeated.
fn push_text(out: &mut Vec<u8>, text: &str) -> Made<()> {
    let mut escape = Escape::None;
    for byte in text.bytes() {
        escape = match escape {
            Escape::None => push_plain(out, byte)?,
            Escape::Begun => begin_escape(out, byte)?,
            Escape::Digit(first) => {
                out.push((first << 4) | digit_of(byte))?;
                Escape::None
            }
        };
    }
    Ok(())
}

/// Adds a text as often as is said, and the text after it.
fn push_repeated(out: &mut Vec<u8>, part: &str) -> Made<()> {
    let (repeated, rest) = part.split_once('>').unwrap_or((part, ""));
    let (times, text) = repeated.split_once('*').unwrap_or(("1", repeated));
    for _ in 0..times.parse::<u32>().unwrap_or(0) {
        push_text(out, text)?;
    }
    push_text(out, rest)
}

/// Adds the bytes of a text: `|` stands for CR LF, `^t`, `^n` and `^r` for TAB, LF and CR, `^` and two hexadecimal digits for any
/// byte, and `<3*text>` for a text three times.
pub fn push_bytes(out: &mut Vec<u8>, text: &str) -> Made<()> {
    let mut is_first = true;
    for part in text.split('<') {
        if is_first {
            push_text(out, part)?;
            is_first = false;
        } else {
            push_repeated(out, part)?;
        }
    }
    Ok(())
}

/// The bytes of a text.
pub fn bytes_of(alloc: Global, text: &str) -> Made<Vec<u8>> {
    let mut out = Vec::new(alloc);
    push_bytes(&mut out, text)?;
    Ok(out)
}

/// The text of those bytes.
pub fn text_in(alloc: Global, text: &str) -> Made<String> {
    let bytes = bytes_of(alloc, text)?;
    String::from_utf8_lossy(alloc, bytes.as_slice())
}

/// Adds a text that is repeated, for the time of that number of so many.
fn push_numbered(out: &mut String, text: &str, number: u64, times: u64) -> Made<()> {
    for letter in text.chars() {
        match letter {
            '@' => write!(out, "{number}")?,
            '#' => write!(out, "{}", number.saturating_add(1))?,
            '%' => write!(out, "{}", times.saturating_sub(number))?,
            _ => out.push(letter)?,
        }
    }
    Ok(())
}

/// A text in which `<3*text>` is a text three times: there `@` is 0, 1 and 2, `#` is 1, 2 and 3, and `%` is 3, 2 and 1.
pub fn numbered_text(alloc: Global, written: &str) -> Made<String> {
    let (front, rest) = written.split_once('<').unwrap_or((written, ""));
    let mut out = String::from_str(alloc, front)?;
    if rest.is_empty() {
        return Ok(out);
    }
    for part in rest.split('<') {
        let (repeated, behind) = part.split_once('>').unwrap_or((part, ""));
        let (times, text) = repeated.split_once('*').unwrap_or(("1", repeated));
        let times = times.parse::<u64>().unwrap_or(0);
        for number in 0..times {
            push_numbered(&mut out, text, number, times)?;
        }
        out.push_str(behind)?;
    }
    Ok(out)
}
