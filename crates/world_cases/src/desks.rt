// A desk on the first of two nodes.
ghost use Rattle.std.specs.Prelude.{◌≡◌};
ghost use Rattle.std.specs.FinSet.{empty};

use crate::judgements::judge_of;
use crate::nodes::{Node, Peer, make_node, node_text, number_text};
use crate::pens::{Rows, Turning, came_of};
use crate::topics::{Place, Writing};
use base_text::Text;
use reg_desk::{Gate, NodeDesk, Wake};
use reg_feed::{Copies, FeedName, Seen, Unnamed};
use reg_http::{Desk, reply_answer};
use reg_judge::Judge;
use reg_node::{Draw, Taken};
use reg_pen::Pass;
use reg_shared::Shared;
use reg_topic::Item;
use std::alloc::Global;
use std::marker::Brand;
use std::sync::atomic::AtomicU64;
use std::sync::{Mutex, Wait};
use test_tools::{Made, Said, cut, deed_of, small_of};
use test_words::{answer_text, command_in_words, query_in_words};

/// Lets each call pass.
#[derive(Drop)]
struct NoGate;

impl Gate for NoGate {
    fn before_answer(&self, _call: u64) {}
}

/// Wakes nobody.
#[derive(Drop)]
struct NoWake;

impl<N: FeedName<Item, Shared>> Wake<N> for NoWake {
    ghost use Rattle.std.specs.Prelude.{⊤};

    ghost wakes = { λ _ _ _. ⊤ };

    fn topic_grew(&mut self, _front: &Seen<Item, Shared, N>) {}
}

/// A desk, whatever its feeds are named.
trait Worker: Desk {
    /// Whether nothing was refused behind the last command.
    fn is_fresh(&self) -> bool;

    /// How many submits it has.
    fn submitted(&self) -> u64;
}

impl<
    'a,
    N: FeedName<Item, Shared>,
    S: Copies<Item, Shared, N>,
    M: FeedName<Draw, Taken>,
    U: Copies<Draw, Taken, M>,
    R: Wait + Drop,
> Worker for NodeDesk<'a, N, S, Turning, M, U, R, NoGate, NoWake> {
    fn is_fresh(&self) -> bool {
        self.fresh()
    }

    fn submitted(&self) -> u64 {
        self.submits()
    }
}

/// The body of the answer to a command, where the desk is fresh then.
fn body_of<D: Worker>(alloc: Global, desk: &mut D, words: &str) -> Said<Text> {
    let reply = desk.command(&command_in_words(alloc, words)?);
    if !desk.is_fresh() {
        return Ok(Text::copy_of(alloc, "a stale desk")?);
    }
    let answer = reply_answer(alloc, &reply)?;
    Ok(answer.body)
}

/// Does the commands, between which `; ` stands, and gives the bodies of the answers.
fn round_text<D: Worker>(alloc: Global, desk: &mut D, commands: &str) -> Said<String> {
    let mut bodies = String::new(alloc);
    for words in commands.split("; ") {
        if !bodies.is_empty() {
            bodies.push(' ')?;
        }
        bodies.push_str(body_of(alloc, desk, words)?.as_str())?;
    }
    Ok(bodies)
}

/// Does the commands so many times, and gives what comes of them each time.
fn work_text<D: Worker>(alloc: Global, desk: &mut D, words: &str) -> Said<String> {
    let (times, commands) = cut(words);
    let bodies = round_text(alloc, desk, commands)?;
    for time in 1..small_of(times)? {
        let later = round_text(alloc, desk, commands)?;
        if later.as_str() != bodies.as_str() {
            return Ok(format!(in alloc; "{bodies}, and behind {time} times {later}")?);
        }
    }
    Ok(bodies)
}

/// The answer of the desk.
fn asked_text<D: Desk>(alloc: Global, desk: &mut D, words: &str) -> Said<String> {
    let answer = desk.ask(alloc, &query_in_words(alloc, words)?)?;
    Ok(answer_text(alloc, &answer)?)
}

/// What comes of what a row does at the desk, at the second node or in the topic.
fn desk_text<D: Worker, A: Peer, P: Place>(
    alloc: Global,
    desk: &mut D,
    second: &mut A,
    place: &mut P,
    judge: &mut Judge,
    row: &str,
) -> Said<String> {
    let (words, wanted) = deed_of(row);
    let (act, rest) = cut(words);
    match act {
        "do" => work_text(alloc, desk, rest),
        "submits" => Ok(number_text(alloc, desk.submitted())?),
        "ask" => asked_text(alloc, desk, rest),
        "node" => node_text(alloc, second, rest),
        _ => came_of(alloc, place, judge, words, wanted.unwrap_or("")),
    }
}

/// Tries the rows. The desk is lent, so that it hasn't to be dropped on the way.
fn try_at_desk<
    'a,
    N: FeedName<Item, Shared>,
    S: Copies<Item, Shared, N>,
    M: FeedName<Draw, Taken>,
    U: Copies<Draw, Taken, M>,
    L: FeedName<Draw, Taken>,
    T: Copies<Draw, Taken, L>,
    R: Wait + Drop + Copy,
>(
    desk: &mut NodeDesk<'a, N, S, Turning, M, U, R, NoGate, NoWake>,
    second: &mut Node<N, S, L, T, R>,
    place: &mut Writing<N, S, Turning, R>,
    run: &mut Rows,
) -> Made<()> {
    for row in run.rows {
        if *row != "learn" {
            let came = desk_text(run.tally.alloc, desk, second, place, run.judge, row);
            run.tell(row, came)?;
            continue;
        }
        match desk.seen() {
            Some(seen) => second.follower.learn(seen),
            None => run.tally.refuse(row)?,
        }
    }
    Ok(())
}

/// Tries the rows at a desk of the first node.
fn desk_of<
    N: FeedName<Item, Shared>,
    S: Copies<Item, Shared, N>,
    M: FeedName<Draw, Taken>,
    U: Copies<Draw, Taken, M>,
    L: FeedName<Draw, Taken>,
    T: Copies<Draw, Taken, L>,
    R: Wait + Drop + Copy,
>(
    place: &mut Writing<N, S, Turning, R>,
    pass: Pass<N>,
    first: Node<N, S, M, U, R>,
    second: &mut Node<N, S, L, T, R>,
    run: &mut Rows,
) -> Made<()> {
    let judge = judge_of(run.tally.alloc, run.keys, 64)?;
    let Node { follower, view } = first;
    let (rt, pen, follower) = (place.rt, place.pen, Mutex::new(follower));
    let (gate, calls) = (NoGate, AtomicU64::new(0));
    let mut desk = NodeDesk::new(
        &rt, pen, &follower, &gate, NoWake, &calls, pass, view, judge,
    );
    try_at_desk(&mut desk, second, place, run)
}

fn with_nodes<
    N: FeedName<Item, Shared>,
    S: Copies<Item, Shared, N>,
    M: FeedName<Draw, Taken>,
    L: FeedName<Draw, Taken>,
    R: Wait + Drop + Copy,
>(
    place: &mut Writing<N, S, Turning, R>,
    pass: Pass<N>,
    one: Unnamed<Draw>,
    other: Unnamed<Draw>,
    run: &mut Rows,
) -> Made<()>
    requires one { (one.reached.book ≡ M.book) × (M.first ≡ empty) }
    requires other { (other.reached.book ≡ L.book) × (L.first ≡ empty) }
{
    let alloc = run.tally.alloc;
    let mut second = make_node::<N, S, Turning, L, R>(alloc, place, other)?;
    let first = make_node::<N, S, Turning, M, R>(alloc, place, one)?;
    desk_of(place, pass, first, &mut second, run)
}

/// Makes two nodes, and tries the rows at a desk of the first one.
pub(crate) fn at_desk<N: FeedName<Item, Shared>, S: Copies<Item, Shared, N>, R: Wait + Drop + Copy>(
    place: &mut Writing<N, S, Turning, R>,
    pass: Pass<N>,
    run: &mut Rows,
) -> Made<()> {
    with_nodes::<N, S, Brand, Brand, R>(place, pass, Unnamed::new(), Unnamed::new(), run)
}
