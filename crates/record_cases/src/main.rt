//! Tries the cases of `data/` with the libraries of records: lines and logs, sets of records, also with floors, and registries. It prints
//! how many cases each file holds, and each case that goes otherwise, so that the output is no longer the stored one.
//!
//! In every file a line that begins with `#` is a remark. `|` stands for a TAB, `^t`, `^n` and `^r` for TAB, LF and CR, `^` and two
//! hexadecimal digits for any byte, and `<3*text>` for a text three times.
//!
//! A file `.rows` has a case in each line, a word with what it asks, and behind ` => ` the answer:
//!
//! - `read LINE => KEY|VALUE`: a record's key as it is written, or `=` if its whole line is written as it stands, and what its value says,
//!   `no operation` or `nothing`. Or `=> foreign 7`, the offset of a line of another key; or `=> BadTabs`, its fault.
//! - `write OFFSET VERSION VALUE => a line`: whether a record of the subject `s` has a line, from which it is read again; `no line`, or the
//!   fault. With `-` for the version it is a record of no operation.
//! - `share BROUGHT READ => READ`: the schema that is shared by a value that brings one along; `-` is an empty one.
//! - `log LOG => floor 3, next 8, records 1, foreign 0`, or its fault, as `=> line 1: BadFloor`.
//! - `rest LOG => line 1: BadFloor, BYTES`: the fault, and what the reader has left.
//! - `floor 3 => LINE`: how a floor is written. `begins LINE => yes`: whether a line begins as one of a floor.
//! - `let NAME = LINE`: no case. It names the record of the line for the rows below, which speak of sets by the names of their records.
//! - `set A B and C => fresh older; A B C; B C`: what taking records one after the other answers, and then the records and the last
//!   records of the set, merged with one of the records behind `and`.
//! - `compact A B at 3 to 7 9 => B at 9`: a set with the floor 3 that is compacted to these floors in turn, with the refusal before it, if
//!   there is one. `merge SET with SET` and `rebase SET on SET` answer the same; with ` and take A` the rebased set takes a record.
//! - `part SET of SET => yes`: whether the first set is a compaction of the other.
//! - `new => none at 0`: a new set.
//!
//! A file `.registries` has paragraphs with the lines of a log, and below them questions, each with its answer behind ` => `. A registry is
//! asked them for each order of the lines, whichever way it takes the records. Questions are `versions`, `live SUBJECT`, `named ID`,
//! `greatest-id`, `mark`, `last-id`, `greatest-version SUBJECT`, `id-of SCHEMA`, `two-schemas`, `opaque`, `closed`, and `level` or
//! `level SUBJECT`.
#![tactic(auto)]

mod answers;
mod kept;
mod lines;
mod named;
mod registries;
mod rows;
mod sets;

use crate::registries::try_registries;
use crate::rows::try_rows;
use std::io;
use test_tools::print_cases;

fn main(rt: HostRuntime) -> io::Result<()> {
    print_cases(
        &rt,
        &["rows", "registries"],
        |tally, kind, text| match kind {
            "rows" => try_rows(tally, text),
            _ => try_registries(tally, text),
        },
    )
}
