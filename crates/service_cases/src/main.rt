//! Runs the cases that lie in `data/` through what a node's connections, their places and the lines that it follows are made of, and
//! prints for each file how many there are.
//!
//! A case that goes otherwise is printed with what was wanted and what came, so that the output is no longer the stored one. Each case
//! is a line: what is put in, ` => `, and what comes of it. A line that begins with `#` is a remark. The ending of a file's name says
//! what its cases are:
//!
//! - `.turns`: the front of a request, and the turn that it takes: `Command`, `Check` or `none`.
//! - `.patience`: what a connection waits for, `begun` or `idle` for whether a request has begun, and since when; then the first
//!   millisecond at which it is late.
//! - `.looks`: what a client does, step by step, the last step again and again, with ` & ` between two; and what is so after a look at
//!   its connection. A step is bytes that come, or `(nothing)`, `(interrupted)`, `(ended)` or `(reset)`. Brackets before the steps
//!   say what is otherwise: `left 5` for answers of so many bytes that are to be sent, `closes` where they are the last ones,
//!   `takes 5` for how many bytes the client takes at each look, `drops 5` for the limit of what is dropped, and `until` with what
//!   is to be so for how long it is looked at. What is so: how it goes on, and `looks`, `held`, `taken` and `told` or `open`, of which
//!   a case names what it wants, with ` or ` between two choices.
//! - `.places`: how many places there are, the steps of each client, and behind a `:` what is done with the places and asked of them,
//!   with `, ` between two; then what comes of each, which is `done` for `leave` and `lend`. What is lent has 7 bytes.
//! - `.cuts`: a log, and a word for each line that is read of it, wherever it is cut in two: `floor`, `record 4`, `foreign 3`, `end`.
//! - `.faults`: a text, and what reading it ends with, asked for twice: `nothing`, or the fault, with how many lines were read.
//!
//! Of bytes, `|` stands for CR LF, `^t`, `^n` and `^r` for TAB, LF and CR, `^` and two hexadecimal digits for any byte, and `<3*text>`
//! for a text three times.
#![tactic(auto)]

mod lines;
mod looks;
mod places;
mod stream;
mod turns;

use crate::lines::{cut_text, fault_text};
use crate::looks::look_text;
use crate::places::places_text;
use crate::turns::{patience_text, turn_text};
use std::alloc::Global;
use std::io;
use test_tools::{Made, Said, Tally, halves, print_cases, rows_of};

/// The endings of the files that hold cases.
static KINDS: [&str; 6] = ["turns", "patience", "looks", "places", "cuts", "faults"];

/// What comes of a case.
fn came_of(alloc: Global, kind: &str, given: &str, wanted: &str) -> Said<String> {
    match kind {
        "turns" => turn_text(alloc, given),
        "patience" => patience_text(alloc, given, wanted),
        "looks" => look_text(alloc, given, wanted),
        "places" => places_text(alloc, given),
        "cuts" => Ok(cut_text(alloc, given)?),
        _ => Ok(fault_text(alloc, given)?),
    }
}

/// Tries the cases of a file.
fn try_file(tally: &mut Tally, kind: &str, text: &str) -> Made<()> {
    for row in &rows_of(tally.alloc, text)? {
        let (given, wanted) = halves(row);
        tally.tell(row, wanted, came_of(tally.alloc, kind, given, wanted))?;
    }
    Ok(())
}

fn main(rt: HostRuntime) -> io::Result<()> {
    print_cases(&rt, &KINDS, try_file)
}
