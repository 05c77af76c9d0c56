//! Runs the cases that lie in `data/` through the commands of the program, the filters `registrylog check`, `registrylog compact` and
//! `registrylog base`, the HTTP front and conversations, and prints for each file how many there are.
//!
//! A case that goes otherwise is printed with what was wanted and what came, so that the output is no longer the stored one.
//! In every file a line that begins with `#` is a remark. The ending of a file's name says what its cases are.
//!
//! Paragraphs, with an empty line between two of them:
//!
//! - `.runs`: first the lines of a log, with a `|` in the place of each TAB; then requests, each with its body, if it has
//!   one, and behind ` => ` its answer. A line `ends with 2: TEXT` gives the exit status and what is written on standard error; where
//!   there is none, the status is 0 and nothing is written there.
//! - `.each`: the same, but each request of a paragraph is put to the log by itself.
//! - `.sketches`: a reader's schema, a writer's schema, and the lines that are written.
//! - `.logs`: the lines of a log, each with a `|` in the place of a TAB.
//!   Then comes a command, as `registrylog compact --to 10`, and below it what it writes, likewise; further commands, each on that log, may
//!   follow. A line `ends with 2: TEXT` gives the exit status and the text of the error; where there is none, the status is 0 and there is
//!   no error. `(empty)` is an empty line, and a line has no LF where it ends with `(no LF)`; `(CR)` and `(space)` stand for a CR and a
//!   space. Compacting again leaves what was left: so each log that is left goes through the same command too, and is a case of its own.
//!
//! Files whose rows belong together:
//!
//! - `.raw`: a paragraph with the log, and then in each line the bytes of requests and behind ` => ` the answers. Each line is tried
//!   twice, whole and in pieces of one byte.
//! - `.folded`, `.sketched`, `.served`: the parts of one input of `fold`, of `sketch`, and of the HTTP front at a desk that notes what it is
//!   asked, each with the answer to it, or `-` for a line that has none, and with what is noted. The input is tried where it ends, where
//!   its reader fails, and where its writer fails or is full, at each place.
//!
//! Rows, each with what is wanted behind ` => `; more may follow behind a further ` => `, and `-` is for nothing:
//!
//! - `.bytes`: the command and its input; what it ends with (standard error and the status); its output.
//! - `.programs`: the words of a command line, ` <- ` and the input; what it ends with, and what was served; its output; what is left of
//!   its input. Each row is tried also where standard error is full.
//! - `.sizes`: ` & ` between the schemas of a reader and a writer; what `sketch` writes, or with ` ... ` what it begins and ends with.
//! - `.sums`: a schema, of a reader and a writer; how many bytes `sketch` writes, their FNV-1a hash of 64 bits, and what it ends with.
//! - `.reads`: a command, behind how many bytes its reader is interrupted without end, and the input; after how many reads that is given
//!   up, the faults, the status, and how many bytes are written.
//! - `.repeats`: how often a text is given, how often its reader is interrupted before each time and before the end, and the text; how the
//!   HTTP front ends, at a desk that notes, how much it notes, the faults, and how often the text is left, up to 9; the answers.
//! - `.talks`: a text; the answers; what a desk notes. Each text is tried in pieces of several sizes, and a short one also cut at each
//!   place, and with a writer that is full at each place.
//! - `.asks`: fields, with ` & ` between two (where a row has none, those of a length); a request, whose body is `(end)` where the input ends
//!   in it; what is asked, as Rust writes it.
//! - `.lengths`, `.closes`: fields; the length of the body, or `refused` and a code; whether they ask to close the connection.
//! - `.words`: the words of a command line; what they ask for, as Rust writes it.
//! - `.counts`: an input of `fold`; how many lines of its log are foreign, and how many responses are written.
//! - `.refusals`: a refusal, as Rust writes it, with `, closes` where the connection is closed; its code, status and reason; the response.
//! - `.replies`: the status and body of an answer, `NoMemory`, `Refusal` and a refusal, or the kind of a reply and what it holds, likewise;
//!   the response. Each is tried also with writers that are full, are interrupted or fail.
//!
//! An answer is `200` and the body; or the code of a refusal and its message; or `405` and the methods; `close` stands before it
//! where the client asked to close. A response is its status and phrase, `|`, the length of its body, and all behind that. Of bytes, `|`
//! stands for CR LF, `^t`, `^n` and `^r` for TAB, LF and CR, `^` and two hexadecimal digits for any byte, and `<3*text>` for a text three
//! times.
#![tactic(auto)]

mod asked;
mod cases;
mod cuts;
mod desk;
mod limits;
mod paragraphs;
mod responses;
mod rows;
mod talks;

use crate::asked::{closing_of, length_of, try_ask};
use crate::cuts::try_cuts;
use crate::limits::{reads_of, sum_of, try_repeats, try_size};
use crate::paragraphs::{try_log, try_run, try_sketch};
use crate::responses::{try_refusal, try_response};
use crate::rows::{command_in, counts_of, try_input, try_program, try_raw};
use crate::talks::try_talk;
use std::io;
use test_tools::{Made, Tally, halves, paragraphs_of, print_cases, rows_of};

/// The endings of the files that hold cases.
static KINDS: [&str; 22] = [
    "runs", "each", "sketches", "logs", "raw", "served", "folded", "sketched", "bytes", "programs",
    "sizes", "sums", "reads", "repeats", "talks", "asks", "lengths", "closes", "words", "counts",
    "refusals", "replies",
];

/// Tries a row.
fn try_row(tally: &mut Tally, kind: &str, row: &str) -> Made<()> {
    let alloc = tally.alloc;
    let (put, wanted) = halves(row);
    match kind {
        "bytes" => try_input(tally, row),
        "programs" => try_program(tally, row),
        "sizes" => try_size(tally, row),
        "repeats" => try_repeats(tally, row),
        "sums" => tally.tell(row, wanted, Ok(sum_of(alloc, put)?)),
        "reads" => tally.tell(row, wanted, reads_of(alloc, put)),
        "talks" => try_talk(tally, row),
        "asks" => try_ask(tally, row),
        "replies" => try_response(tally, row),
        "refusals" => try_refusal(tally, row),
        "words" => tally.tell(row, wanted, Ok(command_in(alloc, put)?)),
        "counts" => tally.tell(row, wanted, Ok(counts_of(alloc, put)?)),
        "lengths" => tally.tell(row, wanted, length_of(alloc, put)),
        _ => tally.tell(row, wanted, closing_of(alloc, put)),
    }
}

/// Tries the cases of a file.
fn try_file(tally: &mut Tally, kind: &str, text: &str) -> Made<()> {
    match kind {
        "raw" => return try_raw(tally, text),
        "served" => return try_cuts(tally, "serve", text),
        "folded" => return try_cuts(tally, "fold", text),
        "sketched" => return try_cuts(tally, "sketch", text),
        _ => {}
    }
    for paragraph in &paragraphs_of(tally.alloc, text)? {
        tally.begin(paragraph)?;
        match kind {
            "runs" => try_run(tally, paragraph, false)?,
            "each" => try_run(tally, paragraph, true)?,
            "sketches" => try_sketch(tally, paragraph)?,
            "logs" => try_log(tally, paragraph)?,
            _ => {
                for row in &rows_of(tally.alloc, paragraph)? {
                    try_row(tally, kind, row)?;
                }
            }
        }
    }
    Ok(())
}

fn main(rt: HostRuntime) -> io::Result<()> {
    print_cases(&rt, &KINDS, try_file)
}
