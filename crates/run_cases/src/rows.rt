// Cases in rows: requests on one log, whole inputs, and command lines.
use crate::cases::{bytes_told, came_of, outcome_of, responses_of, words_of};
use crate::paragraphs::log_of;
use reg_program::{Folded, command_of, fold, run};
use reg_records::Device;
use std::alloc::Global;
use std::io::Write;
use test_tools::{
    Made, NO_FAULT, PiecedBytes, Tally, bytes_of, cut, halves, push_bytes, rows_of, text_in,
};

/// Tries each row, whose requests are given whole and in pieces of one byte, on the log that stands above them.
pub(crate) fn try_raw(tally: &mut Tally, text: &str) -> Made<()> {
    let alloc = tally.alloc;
    let (above, rows) = text.split_once("\n\n").unwrap_or(("", text));
    let log = log_of(alloc, above)?;
    for row in &rows_of(alloc, rows)? {
        let (requests, answers) = halves(row);
        let mut input = Vec::from_slice(alloc, log.as_bytes())?;
        push_bytes(&mut input, requests)?;
        let wanted = outcome_of(alloc, &responses_of(alloc, answers)?, "0")?;
        let whole = came_of(alloc, "fold", input.as_slice())?;
        tally.count(row, &wanted, &whole)?;
        let pieces = came_of(alloc, "fold", PiecedBytes::new(&input, 1, NO_FAULT))?;
        tally.compare(row, &wanted, &pieces)?;
    }
    Ok(())
}

/// Tries the input of a row.
pub(crate) fn try_input(tally: &mut Tally, row: &str) -> Made<()> {
    let alloc = tally.alloc;
    let (asked, told) = halves(row);
    let (command, input) = cut(asked);
    let came = came_of(alloc, command, bytes_of(alloc, input)?.as_slice())?;
    let (end, output) = halves(told);
    let output = match command {
        "fold" => responses_of(alloc, output)?,
        _ => bytes_of(alloc, output)?,
    };
    let wanted = outcome_of(alloc, &output, text_in(alloc, end)?.as_str())?;
    tally.count(row, &wanted, &came)
}

/// The command that a line's words ask for.
pub(crate) fn command_in(alloc: Global, line: &str) -> Made<String> {
    let command = command_of(&words_of(alloc, line)?);
    format!(in alloc; "{command:?}")
}

/// How many lines of an input's log are foreign, and how many responses are written.
pub(crate) fn counts_of(alloc: Global, put: &str) -> Made<String> {
    let input = bytes_told(alloc, put)?;
    let mut reader = Device::new(input.as_slice());
    let mut writer = Device::new(Vec::new(alloc));
    match fold(alloc, &mut reader, &mut writer) {
        Ok(Folded { foreign, requests }) => format!(in alloc; "{foreign} {requests}"),
        Err(error) => format!(in alloc; "{error:?}"),
    }
}

/// A run: its row, its words and its input.
#[derive(Clone, Copy)]
struct Run<'a> {
    alloc: Global,
    row: &'a str,
    line: &'a str,
    input: &'a [u8],
}

/// The output of a run, how much of its input is left, and its status with what was served, and how often. Nodes end with the status 9.
#[derive(Drop)]
struct Came {
    output: Vec<u8>,
    left: usize,
    status: String,
}

impl Run<'_> {
    fn came<E: Write>(self, errors: &mut Device<E>) -> Made<Came> {
        let alloc = self.alloc;
        let words = words_of(alloc, self.line)?;
        let mut reader = Device::new(self.input);
        let mut writer = Device::new(Vec::new(alloc));
        let (mut served, mut calls) = ((0u64, 0u64, 0u64), 0u64);
        let mut serve = |port: u64, nodes: u64, workers: u64| {
            served = (port, nodes, workers);
            calls = calls.saturating_add(1);
            9u8
        };
        let status = run(alloc, &words, &mut reader, &mut writer, errors, &mut serve);
        let (port, nodes, workers) = served;
        let status = match calls {
            0 => format!(in alloc; "{status}")?,
            _ => format!(in alloc; "{status} serves {port} {nodes} {workers}, {calls} time")?,
        };
        Ok(Came {
            output: writer.into_inner(),
            left: reader.into_inner().len(),
            status,
        })
    }

    /// What comes of it, with what it tells, and what is left.
    fn shown(self) -> Made<Vec<u8>> {
        let mut errors = Device::new(Vec::new(self.alloc));
        let came = self.came(&mut errors)?;
        let told = String::from_utf8_lossy(self.alloc, errors.into_inner().as_slice())?;
        let end = format!(in self.alloc; "{}{}\n", told.as_str(), came.status.as_str())?;
        let mut shown = outcome_of(self.alloc, came.output.as_slice(), end.as_str())?;
        let read = self.input.len().saturating_sub(came.left);
        shown.extend_from_slice(self.input.get(read..).unwrap_or(b""))?;
        Ok(shown)
    }

    /// Tries it where standard error takes so many bytes: no status changes.
    fn try_room(self, tally: &mut Tally, end: &str, room: usize) -> Made<()> {
        let (told, status) = match end.rsplit_once('\n') {
            Some((front, status)) => (front.len().saturating_add(1), status),
            None => (0, end),
        };
        let wanted = format!(in self.alloc; "{status} with {} faults", u64::from(told > room))?;
        let mut bytes = [0u8; 16];
        let mut errors = Device::new(&mut bytes[..room.min(16)]);
        let status = self.came(&mut errors)?.status;
        let came = format!(in self.alloc; "{status} with {} faults", errors.faults())?;
        tally.compare(self.row, wanted.as_bytes(), came.as_bytes())
    }
}

/// Tries the run of a row: behind ` => ` stand the end, the output and what is left.
pub(crate) fn try_program(tally: &mut Tally, row: &str) -> Made<()> {
    let alloc = tally.alloc;
    let (put, told) = halves(row);
    let (line, input) = put.split_once(" <- ").unwrap_or((put, ""));
    let (end, rest) = halves(told);
    let (output, left) = halves(rest);
    let input = bytes_told(alloc, input)?;
    let run = Run {
        alloc,
        row,
        line,
        input: input.as_slice(),
    };
    let end = text_in(alloc, end)?;
    let end_line = format!(in alloc; "{end}\n")?;
    let mut wanted = outcome_of(alloc, &bytes_told(alloc, output)?, end_line.as_str())?;
    wanted.extend_from_slice(bytes_told(alloc, left)?.as_slice())?;
    tally.count(row, &wanted, &run.shown()?)?;
    run.try_room(tally, end.as_str(), 0)?;
    run.try_room(tally, end.as_str(), 7)
}
