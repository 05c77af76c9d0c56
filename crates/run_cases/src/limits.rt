// Values at the limits: schemas that are large, and inputs that don't end or are given again and again.
use crate::cases::{came_of, end_of, outcome_of, responses_of};
use crate::desk::{NotingDesk, served};
use reg_records::Device;
use std::alloc::Global;
use std::io::{self, BufRead, ErrorKind, Read, Write};
use test_tools::{
    Fault, Made, PiecedBytes, Said, Tally, bytes_of, chain, cut, doubling, halves, number_of,
};

/// The most bytes that are shown of what came.
const SHOWN: usize = 1000;

/// A record without fields, inside as many records as that, each with a field of the one inside it; a second field stands behind that.
fn nested(alloc: Global, count: usize, is_read_twice: bool) -> Made<String> {
    let mut text = String::from_str(alloc, r#"{"type":"record","name":"R0","fields":[]}"#)?;
    for k in 0..count {
        let name = format!(in alloc; "{}", k + 1)?;
        let mut next = format!(in alloc;
            r#"{{"type":"record","name":"R{name}","fields":[{{"name":"a","type":{text}}}"#
        )?;
        if is_read_twice {
            write!(next, r#",{{"name":"b","type":"R{k}","aliases":["a"]}}"#)?;
        }
        next.push_str("]}")?;
        text = next;
    }
    Ok(text)
}

/// The records of `doubling`, whose fields' names have 33 letters.
fn long_names(alloc: Global, count: usize) -> Made<String> {
    let short = doubling(alloc, count)?;
    let first = short
        .as_str()
        .replace(alloc, r#""a""#, r#""aaaaaaaaaaaaaaaaaaaaaaaaaaaaaaaaa""#)?;
    first
        .as_str()
        .replace(alloc, r#""b""#, r#""bbbbbbbbbbbbbbbbbbbbbbbbbbbbbbbbb""#)
}

/// The schema of a word and a number of records, or of a text.
fn schema_of(alloc: Global, words: &str) -> Made<String> {
    let (word, count) = cut(words);
    let count = count.parse::<usize>().unwrap_or(0);
    match word {
        "doubling" => doubling(alloc, count),
        "chain" => chain(alloc, count),
        "nested" => nested(alloc, count, false),
        "twice" => nested(alloc, count, true),
        "long" => long_names(alloc, count),
        _ => String::from_str(alloc, words),
    }
}

/// Whether that came, or what begins and ends so, with ` ... ` between the two.
fn is_told(alloc: Global, came: &[u8], told: &str) -> Made<bool> {
    let (start, end) = match told.split_once(" ... ") {
        Some((start, end)) => (bytes_of(alloc, start)?, end),
        None => (Vec::new(alloc), told),
    };
    let end = outcome_of(alloc, &bytes_of(alloc, end)?, "0")?;
    let is_whole = !start.is_empty() || came.len() == end.len();
    Ok(is_whole && came.starts_with(start.as_slice()) && came.ends_with(end.as_slice()))
}

/// Tries the sketch of a row's schemas, of a reader and a writer, which is, or begins and ends, as the row says.
pub(crate) fn try_size(tally: &mut Tally, row: &str) -> Made<()> {
    let alloc = tally.alloc;
    let (put, told) = halves(row);
    let (reader, writer) = put.split_once(" & ").unwrap_or((put, ""));
    let (reader, writer) = (schema_of(alloc, reader)?, schema_of(alloc, writer)?);
    let input = format!(in alloc; "{}\n{}\n", reader.as_str(), writer.as_str())?;
    let came = came_of(alloc, "sketch", input.as_bytes())?;
    let is_met = is_told(alloc, &came, told)?;
    let shown = came.as_slice().get(..SHOWN).unwrap_or(came.as_slice());
    tally.count(row, if is_met { shown } else { told.as_bytes() }, shown)
}

/// Keeps of what is written the number of its bytes and its FNV-1a hash of 64 bits.
#[derive(Drop)]
struct Checksum {
    bytes: u64,
    hash: u64,
}

impl Write for Checksum {
    fn write(&mut self, buf: &[u8]) -> io::Result<usize> {
        for byte in buf {
            self.bytes = self.bytes.wrapping_add(1);
            self.hash = (self.hash ^ u64::from(*byte)).wrapping_mul(0x0100_0000_01b3);
        }
        Ok(buf.len())
    }

    fn flush(&mut self) -> io::Result<()> {
        Ok(())
    }
}

/// How much is written of a schema and itself, its hash, and what that ends with.
pub(crate) fn sum_of(alloc: Global, words: &str) -> Made<String> {
    let schema = schema_of(alloc, words)?;
    let schema = schema.as_str();
    let input = format!(in alloc; "{schema}\n{schema}\n")?;
    let mut reader = Device::new(input.as_bytes());
    let mut writer = Device::new(Checksum {
        bytes: 0,
        hash: 0xcbf2_9ce4_8422_2325,
    });
    let end = end_of(alloc, "sketch", &mut reader, &mut writer)?;
    let Checksum { bytes, hash } = writer.into_inner();
    format!(in alloc; "{bytes} bytes, hash {hash:x}, ends with {end}")
}

/// After how many reads a reader is given up, with how many faults, with what status, and how much is written, where a command's
/// input is interrupted without end behind so many bytes.
pub(crate) fn reads_of(alloc: Global, put: &str) -> Said<String> {
    let (command, rest) = cut(put);
    let (left, input) = cut(rest);
    let left = number_of(left)? as usize;
    let (kind, times) = (ErrorKind::Interrupted, u64::MAX);
    let input = bytes_of(alloc, input)?;
    let fault = Fault { left, kind, times };
    let mut reader = Device::new(PiecedBytes::new(input.as_slice(), 1, fault));
    let mut writer = Device::new(Vec::new(alloc));
    let end = end_of(alloc, command, &mut reader, &mut writer)?;
    let end = end.as_str();
    let (_told, status) = end.rsplit_once('\n').unwrap_or(("", end));
    let (reads, faults) = (reader.reads(), reader.faults());
    let written = writer.into_inner().len();
    Ok(format!(in alloc; "{reads} reads, {faults} faults, status {status}, {written} written")?)
}

/// Gives the same text so many times, one byte at each read. Before each of them, and before the end,
/// it is interrupted so many times.
#[derive(Drop)]
struct Repeated<'a> {
    text: &'a [u8],
    rest: &'a [u8],
    times: u64,
    interruptions: u64,
    left: u64,
}

impl Repeated<'_> {
    fn interrupt(&mut self) -> io::Result<()> {
        let is_between = self.rest.is_empty() || self.rest.len() == self.text.len();
        if is_between && self.left > 0 {
            self.left -= 1;
            return Err(io::Error::from(ErrorKind::Interrupted));
        }
        Ok(())
    }

    /// Begins the text again after its last byte.
    fn step(&mut self) {
        if self.rest.is_empty() {
            self.times = self.times.saturating_sub(1);
            self.left = self.interruptions;
            if self.times > 0 {
                self.rest = self.text;
            }
        }
    }
}

impl Read for Repeated<'_> {
    fn read(&mut self, buf: &mut [u8]) -> io::Result<usize> {
        self.interrupt()?;
        match (self.rest.split_first(), buf.first_mut()) {
            (Some((byte, rest)), Some(place)) => {
                *place = *byte;
                self.rest = rest;
                self.step();
                Ok(1)
            }
            _ => Ok(0),
        }
    }
}

impl BufRead for Repeated<'_> {
    fn fill_buf(&mut self) -> io::Result<&[u8]> {
        self.interrupt()?;
        Ok(&self.rest[..self.rest.len().min(1)])
    }

    fn consume(&mut self, amount: usize) {
        if amount > 0 {
            self.rest = &self.rest[amount.min(self.rest.len())..];
            self.step();
        }
    }
}

/// The most that is told of what is left.
const MOST_LEFT: u64 = 9;

/// What a call of `serve` answers, and behind it how it ended, how much was noted, the faults, and how often the text is left.
fn answered(alloc: Global, reader: Repeated<'_>) -> Made<Vec<u8>> {
    let mut reader = Device::new(reader);
    let mut writer = Device::new(Vec::new(alloc));
    let mut desk = NotingDesk::new(alloc);
    let end = served(alloc, &mut reader, &mut writer, &mut desk)?;
    let (noted, read, written) = (desk.count, reader.faults(), writer.faults());
    let left = reader.into_inner().times.min(MOST_LEFT);
    let end = format!(in alloc; "{end}, {noted} noted, faults {read} {written}, {left} left")?;
    outcome_of(alloc, writer.into_inner().as_slice(), end.as_str())
}

/// Tries the text of a row, which is given so often, with so many interruptions before each time and before the end.
pub(crate) fn try_repeats(tally: &mut Tally, row: &str) -> Made<()> {
    let alloc = tally.alloc;
    let (put, told) = halves(row);
    let (end, answers) = halves(told);
    let (times, rest) = cut(put);
    let (interruptions, text) = cut(rest);
    let (Ok(times), Ok(interruptions)) = (number_of(times), number_of(interruptions)) else {
        return tally.refuse(row);
    };
    let text = bytes_of(alloc, text)?;
    let reader = Repeated {
        text: text.as_slice(),
        rest: text.as_slice(),
        times,
        interruptions,
        left: interruptions,
    };
    let came = answered(alloc, reader)?;
    let wanted = outcome_of(alloc, responses_of(alloc, answers)?.as_slice(), end)?;
    tally.count(row, wanted.as_slice(), came.as_slice())
}
