// Cases in paragraphs: a log and requests, two schemas, or a log and commands of `registrylog`.
use crate::cases::{came_of, outcome_of, push_request, push_response, words_of};
use log_arguments::{LogCommand, Settings, read_arguments};
use reg_base::{BaseError, base};
use reg_compaction::{compact, compact_to};
use reg_inspection::inspect;
use std::alloc::Global;
use test_tools::{Made, Tally, is_remark};

/// What a line of a paragraph is by its first letter: one of the log, a request, what a run ends with, or a remark.
fn is_logged(line: &str) -> bool {
    matches!(line.as_bytes().first(), Some(b'0'..=b'9' | b'f'))
}

fn is_request(line: &str) -> bool {
    matches!(line.as_bytes().first(), Some(b'A'..=b'Z'))
}

fn is_other(line: &str) -> bool {
    is_remark(line) || line.starts_with("ends with ")
}

/// The log of a paragraph, with the empty line behind it.
pub(crate) fn log_of(alloc: Global, paragraph: &str) -> Made<String> {
    let mut log = String::new(alloc);
    for line in paragraph.lines() {
        if is_logged(line) {
            log.push_str(line.replace(alloc, "|", "\t")?.as_str())?;
            log.push_str("\n")?;
        }
    }
    log.push_str("\n")?;
    Ok(log)
}

/// What stands behind `ends with ` in some lines.
fn end_in(lines: &str) -> &str {
    for line in lines.lines() {
        if let Some(end) = line.strip_prefix("ends with ") {
            return end;
        }
    }
    "0"
}

/// What is to stand on standard error, and the status behind it.
fn wanted_of(alloc: Global, output: &str, paragraph: &str) -> Made<Vec<u8>> {
    let end = match end_in(paragraph).split_once(": ") {
        Some((status, error)) => format!(in alloc; "{error}\n{status}")?,
        None => String::from_str(alloc, end_in(paragraph))?,
    };
    outcome_of(alloc, output.as_bytes(), end.as_str())
}

/// Tries those of the lines that are requests, one after the other, on the log of the paragraph.
fn try_requests(tally: &mut Tally, paragraph: &str, lines: &str) -> Made<()> {
    let alloc = tally.alloc;
    let mut input = log_of(alloc, paragraph)?;
    let mut output = String::new(alloc);
    for line in lines.lines() {
        if is_request(line) {
            let (request, answer) = line.split_once(" => ").unwrap_or((line, ""));
            push_request(&mut input, request)?;
            if !answer.is_empty() {
                push_response(&mut output, alloc, answer)?;
            }
        }
    }
    let came = came_of(alloc, "fold", input.as_bytes())?;
    let wanted = wanted_of(alloc, output.as_str(), paragraph)?;
    tally.count(lines, wanted.as_slice(), came.as_slice())
}

/// Tries the requests of a paragraph one after the other, or each by itself.
pub(crate) fn try_run(tally: &mut Tally, paragraph: &str, are_apart: bool) -> Made<()> {
    for line in paragraph.lines() {
        if !(is_logged(line) || is_request(line) || is_other(line)) {
            tally.refuse(line)?;
        }
        if are_apart && is_request(line) {
            try_requests(tally, paragraph, line)?;
        }
    }
    if are_apart {
        return Ok(());
    }
    try_requests(tally, paragraph, paragraph)
}

/// Tries a paragraph of two schemas, and the lines that are written of them.
pub(crate) fn try_sketch(tally: &mut Tally, paragraph: &str) -> Made<()> {
    let alloc = tally.alloc;
    let (mut input, mut output) = (String::new(alloc), String::new(alloc));
    let mut schemas = 0u64;
    for line in paragraph.lines() {
        if !is_other(line) {
            let text = if schemas < 2 { &mut input } else { &mut output };
            text.push_str(line)?;
            text.push_str("\n")?;
            schemas = schemas.saturating_add(1);
        }
    }
    let came = came_of(alloc, "sketch", input.as_bytes())?;
    let wanted = wanted_of(alloc, output.as_str(), paragraph)?;
    tally.count(paragraph, wanted.as_slice(), came.as_slice())
}

/// What is written in the place of a byte that isn't seen, or of none.
static UNSEEN: [(&str, &str); 4] = [
    ("|", "\t"),
    ("(empty)", ""),
    ("(CR)", "\r"),
    ("(space)", " "),
];

/// The bytes that some lines stand for.
fn bytes_in(alloc: Global, lines: &str) -> Made<Vec<u8>> {
    let mut out = String::new(alloc);
    for line in lines.lines() {
        if line.starts_with("# ") || line.starts_with("ends with ") {
            continue;
        }
        let (front, end) = match line.strip_suffix("(no LF)") {
            Some(front) => (front, ""),
            None => (line, "\n"),
        };
        let mut text = String::from_str(alloc, front)?;
        for (written, byte) in &UNSEEN {
            text = text.as_str().replace(alloc, *written, *byte)?;
        }
        out.push_str(text.as_str())?;
        out.push_str(end)?;
    }
    Ok(out.into_bytes())
}

/// Whether a filter found nothing wrong; no other command finds that.
fn filter(
    alloc: Global,
    words: &[String],
    log: &[u8],
    output: &mut Vec<u8>,
) -> Result<bool, BaseError> {
    let mut reader = log;
    let unset = Settings {
        listen: None,
        nodes: None,
        workers: None,
        metrics: None,
        quiet: None,
        new: None,
        check_every: None,
    };
    match read_arguments(alloc, words, unset) {
        Ok(LogCommand::Check { .. }) => return Ok(inspect(alloc, &mut reader, output)?),
        Ok(LogCommand::Base { below, .. }) => base(alloc, below, &mut reader, output)?,
        Ok(LogCommand::Compact { to: None, .. }) => compact(alloc, &mut reader, output)?,
        Ok(
            LogCommand::Compact {
                to: Some(floor),
                ..
            },
        ) => { compact_to(alloc, floor, &mut reader, output)? }
        _ => return Ok(false),
    }
    Ok(true)
}

/// What comes of a command over a log.
fn filtered(alloc: Global, command: &str, log: &[u8]) -> Made<Vec<u8>> {
    let line = format!(in alloc; "registrylog {command}")?;
    let words = words_of(alloc, line.as_str())?;
    let mut output = Vec::new(alloc);
    let end = match filter(alloc, &words, log, &mut output) {
        Ok(is_right) => String::from_str(alloc, if is_right { "0" } else { "2" })?,
        Err(error) => format!(in alloc; "{}: {error}", error.status())?,
    };
    outcome_of(alloc, output.as_slice(), end.as_str())
}

/// Tries the commands of a paragraph on its log. What one leaves of a log goes through the command too.
pub(crate) fn try_log(tally: &mut Tally, paragraph: &str) -> Made<()> {
    let alloc = tally.alloc;
    let (above, below) = paragraph
        .split_once("registrylog ")
        .unwrap_or((paragraph, ""));
    let log = bytes_in(alloc, above)?;
    for told in below.split("registrylog ") {
        let (command, lines) = told.split_once('\n').unwrap_or((told, ""));
        let (left, end) = (bytes_in(alloc, lines)?, end_in(lines));
        let wanted = outcome_of(alloc, left.as_slice(), end)?;
        let came = filtered(alloc, command, &log)?;
        tally.count(paragraph, wanted.as_slice(), came.as_slice())?;
        if command != "check" && end == "0" {
            let again = filtered(alloc, command, left.as_slice())?;
            tally.count(paragraph, wanted.as_slice(), again.as_slice())?;
        }
    }
    Ok(())
}
