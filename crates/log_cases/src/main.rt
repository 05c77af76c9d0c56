//! Runs the cases that lie in `data/` through what `registrylog` stands on, and prints for each file how many there are.
//!
//! A line of a file is `ASKED => WANTED`: what is asked, and what is to come of it. A case that goes otherwise is printed with what was
//! wanted and what came, so that the output is no longer the stored one; so is a line that can't be understood. A line that begins with
//! `#` is a remark, and a line without an arrow only changes what the later ones of its paragraph ask. `^t`, `^n` and `^r` stand for TAB,
//! LF and CR, `|` for CR LF, `^` and two hexadecimal digits for any byte, and `<3*text>` for a text three times; a `-` is wanted where no
//! bytes are to come. The ending of a file's name says what its lines ask:
//!
//! - `.lines`: a command line, and what it asks for or the first line of why it is refused; behind `whole `, all of that. Variables of the
//!   environment stand in front of it, with a `; `; a `~` in one isn't text.
//! - `.messages`: `say TEXT`: an adapter's messages, given in pieces of each size, with a star at a foreign line, and how they end.
//!   `base TEXT`: the same behind a base, after the base's next offset. `unended TEXT`: how two looks at a text end that goes on.
//!   `request FIRST COUNT`: what asks for so many records of no operation.
//! - `.metrics`: `answer TIMES METHOD TARGET STATUS MICROSECONDS`: so many requests are answered, of 10 bytes each by 100. `page NAME`: the
//!   number of a line on a page of metrics. `samples NAME`: all samples of a metric. `stat TEXT`, `started TEXT`: what the system says.
//!   `request TEXT`: what is asked for, and the response. `stage WORDS`: how far a process is of which these are true.
//! - `.replies`: paragraphs, each with numbers of its own. `batch SECOND ANSWER`, `check SECOND ANSWER`: a request that is answered 100
//!   microseconds later. `ask SECOND`: a request for a batch. `hear SECOND DATE ANSWER`: an answer. `told`: others' batch. `batches`,
//!   `checks`: how often each answer came. `last`: when a check was answered last. `away SECOND`: whether the store counts as away.
//! - `.pages`: `family NAME`: the text of one of the families in `pages.rt`. `seconds MICROSECONDS`: how a page has that time.
//! - `.bytes`: `compact LOG`, `order LOG`, `compact-to FLOOR LOG`, `order-to FLOOR LOG`: what is left of a log, in its place or in the order
//!   of the offsets. `causes LOG`: why its records can't be read. `obstacles LOG`: what keeps it from being taken over.
//! - `.journals`: `open FILE`: how many lines a file has, what is left of it, and what is put aside. `find FILE`: its log. `append FIRST COUNT
//!   FILE`: the file with a batch. `shrink LEAST FILE`, `shrink-to FLOOR LEAST FILE`: how many lines stay if at least so many are superseded, how
//!   many it has then, and the file.
//! - `.tails`: paragraphs, each with a file of its own that another process writes. `file BYTES`: these are its bytes now. `renamed BYTES`: a
//!   file of these took its place. `fails WHAT`: from now on a read, sync, write or flush fails, or nothing. `begin FROM`, `more`, `look`: what is
//!   written, the next offset at first, and whether another file was found. `both FROM`: two texts in one, and where the reader is. `syncs`:
//!   how often the file was synced since that was asked last, and whether too early.
#![tactic(auto)]

mod batches;
mod bytes;
mod form;
mod journals;
mod lines;
mod messages;
mod metrics;
mod page;
mod pages;
mod replies;
mod tails;

use crate::bytes::Bytes;
use crate::form::try_lines;
use crate::journals::Journals;
use crate::lines::Lines;
use crate::messages::Talk;
use crate::metrics::Metrics;
use crate::pages::Pages;
use crate::replies::try_replies;
use crate::tails::try_tails;
use std::io;
use test_tools::{Made, Tally, print_cases};

/// The endings of the files that hold cases.
static KINDS: [&str; 8] = [
    "bytes", "journals", "lines", "messages", "metrics", "pages", "replies", "tails",
];

/// Tries the cases of a file.
fn try_file(tally: &mut Tally, kind: &str, text: &str) -> Made<()> {
    let alloc = tally.alloc;
    match kind {
        "bytes" => try_lines(tally, text, &mut Bytes),
        "journals" => try_lines(tally, text, &mut Journals),
        "lines" => try_lines(tally, text, &mut Lines),
        "messages" => try_lines(tally, text, &mut Talk),
        "metrics" => try_lines(tally, text, &mut Metrics::new(alloc)?),
        "pages" => try_lines(tally, text, &mut Pages),
        "replies" => try_replies(tally, text),
        _ => try_tails(tally, text),
    }
}

fn main(rt: HostRuntime) -> io::Result<()> {
    print_cases(&rt, &KINDS, try_file)
}
