//! Runs the cases that lie in `data/`: lists of events in worlds, commands at pens and desks, and what nodes judge, and prints for each
//! file how many there are. Some of the files hold tables of which lists of events, commands and queries are drawn.
//!
//! A case that goes otherwise is printed with what was wanted and what came, so that the output is no longer the stored one. A line that
//! begins with `#` is a remark. A row does what its words say, and behind ` => ` stands what comes of it; where nothing stands there, it
//! is only done. The ending of a file's name says what its rows are:
//!
//! - `.events`: paragraphs, each under a remark: the records of a base, `nodes 2`, and events at so many nodes, with the records that
//!   commands write below them. Each list is gone through event by event, at once, and without the events that are refused. `entries` gives
//!   the entries of the log, with `; ` between two: an `S` for a live one and an `X` for a soft one, the offset, the subject, the version,
//!   the id and the text.
//! - `.bases`: in each line the records of a base, and what comes of a world over it.
//! - `.followed`: a paragraph of queries, and one of events of a world of three nodes without a base. Behind each event the nodes take what
//!   is kept, each in its own way, and are asked some of the queries, beside plain lists of records.
//! - `.drawn`: tables of lines, of which so many lists of events are drawn, which go in a world as on plain lists. A line is drawn, and of
//!   each of its words, whose alternatives stand between bars, one.
//! - `.topics`: likewise tables of commands and queries. They are drawn, with compactions and takes, at three nodes and in a world.
//! - `.pens`: paragraphs: the records of a log, the `keep` of a pen over it (below), and what is done at the pen. Of a command comes how
//!   many batches are published then, and the body of its answer or that its batch isn't settled. `compact_to 3` gives the end of a
//!   compaction, the floor and the next offset of the last compaction, and the offsets that are kept; `is_compacted 3` whether it is done;
//!   `kept` those offsets; `batches` how many are published; `serve` what is written of requests, both as bytes, at a desk that answers
//!   each query with that count. `new` and a query are the answer of a node that is made then and took all that is kept; `new takes` how
//!   many takes it has. `judge` and a command give what such a node's view judges of it: at a level, a new text, and old versions with
//!   their texts; behind ` over `, whether its case stands or has changed over those records, and what it is judged at there. `has int
//!   long` is whether the verdict of two texts is kept by the judge of the paragraph.
//! - `.desks`: the same, where a first node has a desk, and a second node hasn't taken anything. `do 31` and commands, with `; ` between
//!   two, give the bodies of the answers of the desk, which is fresh behind each, and does them so many times with the same answers;
//!   `submits` is how many submits it has, and `ask` its answer. `node` and a query are the answer of the second node; by `node takes` it
//!   takes what is new, and by `node renew` its view is made anew; `learn` tells it what the desk has seen.
//!
//! A keep is `all`, which takes each batch, or fates of batches, with `, ` between two: `taken`, `lost`, `unknown`, `declined memory` (or
//! `numbers`, `overtaken`, `store`). What comes behind them is lost; `none` are no fates.
//!
//! Commands, queries, replies and schemas are in the words of `test_words`, records in those of `test_tools`. In a row `; ` stands between
//! two records, and `none` for none. An event is a kind and its arguments. Records are named by their places among those of the base and
//! the list, which count from 0. In requests, `|` stands for CR LF, and `<3*text>` for a text three times.
#![tactic(auto)]

mod both;
mod desks;
mod drawn;
mod events;
mod following;
mod judgements;
mod nodes;
mod pens;
mod plain;
mod scripts;
mod topics;
mod worlds;

use crate::drawn::try_topics;
use crate::following::try_followed;
use crate::pens::try_pens;
use crate::scripts::{try_bases, try_events};
use crate::worlds::try_worlds;
use std::hash::RandomState;
use std::io;
use std::sync::Wait;
use test_tools::{Made, Tally, print_cases};

/// The endings of the files that hold cases.
static KINDS: [&str; 7] = [
    "bases", "desks", "drawn", "events", "followed", "pens", "topics",
];

/// Tries the cases of a file.
fn try_file<R: Wait + Drop + Copy>(
    tally: &mut Tally,
    rt: R,
    keys: RandomState,
    kind: &str,
    text: &str,
) -> Made<()> {
    match kind {
        "bases" => try_bases(tally, text),
        "drawn" => try_worlds(tally, text),
        "events" => try_events(tally, text),
        "followed" => try_followed(tally, text),
        "topics" => try_topics(tally, rt, text),
        _ => try_pens(tally, rt, keys, text, kind == "desks"),
    }
}

fn main(rt: HostRuntime) -> io::Result<()> {
    let keys = RandomState::new(&rt)?;
    print_cases(
        &rt,
        &KINDS,
        |tally, kind, text| try_file(tally, &rt, keys, kind, text),
    )
}
