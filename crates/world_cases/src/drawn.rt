// Commands, compactions, takes and lookups that are drawn, at three nodes and in a world beside them.
ghost use Rattle.std.specs.Prelude.{◌≡◌, ◌≤◌};
ghost use Rattle.std.specs.FinSet.{empty};

use crate::nodes::{Node, Peer, make_node};
use crate::topics::{Course, Place, Writing, go_through};
use base_text::Listed;
use reg_feed::{Copies, FeedName, Stored, Unnamed};
use reg_http::reply_answer;
use reg_leader::Command;
use reg_lookup::{Answer, Query};
use reg_node::{Draw, Taken};
use reg_pen::{KeptLog, MemoryAlone, Pass, Pen};
use reg_shared::Shared;
use reg_topic::Item;
use reg_world::{Event, Fate, Outcome, World};
use std::alloc::{AllocError, Global};
use std::marker::Brand;
use std::sync::{Mutex, Wait};
use test_tools::{Draws, Grammar, Made, Said, Tally, drawn_line};
use test_words::{command_in_words, empty_log, query_in_words};

/// What comes of a topic in which everything goes alike.
static ALIKE: &str = "all as in a world";

/// What is drawn of in a topic, the world beside it, and the first step that comes out otherwise there, if there is one.
#[derive(Drop)]
struct Drawing<'x> {
    alloc: Global,
    draws: Draws,
    grammar: &'x Grammar<'x>,
    world: &'x mut World,
    wrong: Option<u64>,
}

/// Does a command in the world; whether the answer that its reply has is that one.
fn replies(alloc: Global, world: &mut World, command: Command, answer: &Answer) -> Said<bool> {
    let outcome = world.step(&Event::Command {
        node: 0,
        command,
        fate: Fate::Published,
    })?;
    match &outcome {
        Outcome::Replied(reply) => Ok(reply_answer(alloc, reply)? == *answer),
        _ => Ok(false),
    }
}

/// Asks the node of the world; whether it answers so.
fn answers(world: &mut World, node: usize, query: Query, answer: &Answer) -> Said<bool> {
    let outcome = world.step(&Event::Lookup { node, query })?;
    Ok(matches!(&outcome, Outcome::Answered(answered) if *answered == *answer))
}

/// Whether the event is allowed; then it is done.
fn does(world: &mut World, event: &Event) -> Made<bool> {
    let outcome = world.step(event)?;
    Ok(matches!(&outcome, Outcome::Done))
}

impl<'x> Drawing<'x> {
    /// Submits a command; whether the answer is that of the world.
    fn submit<P: Place>(&mut self, source: &mut P) -> Said<bool> {
        let words = drawn_line(self.alloc, &mut self.draws, self.grammar.table("commands"))?;
        let command = command_in_words(self.alloc, words.as_str())?;
        let answer = reply_answer(self.alloc, &source.submit(&command))?;
        replies(self.alloc, self.world, command, &answer)
    }

    /// Publishes a compaction to the kept floor, or to what the next offset was at the last one; whether the world allows it.
    fn compact<P: Place>(&mut self, source: &mut P) -> Said<bool> {
        let numbers = source.numbers();
        let rises = self.draws.below(2) == 0;
        let floor = if rises {
            numbers.compacted
        } else {
            numbers.floor
        };
        let dropped = Listed::from(source.dropped_to(floor)?);
        if source.compact_to(floor).is_some() {
            return Ok(false);
        }
        Ok(does(self.world, &Event::CompactTo { floor, dropped })?)
    }

    /// Lets the node draw what is new, where in the world it is rebased and takes all that is kept; whether
    /// that is allowed.
    fn take<P: Place, A: Peer>(
        &mut self,
        source: &mut P,
        node: &mut A,
        place: usize,
    ) -> Said<bool> {
        let _takes = node.take()?;
        let records = Listed::from(source.kept()?);
        let may_rebase = does(self.world, &Event::Rebase(place))?;
        let node = place;
        Ok(does(self.world, &Event::Take { node, records })? && may_rebase)
    }

    /// Asks the node; whether the answer is that of the world.
    fn ask<A: Peer>(&mut self, node: &mut A, place: usize) -> Said<bool> {
        let words = drawn_line(self.alloc, &mut self.draws, self.grammar.table("queries"))?;
        let query = query_in_words(self.alloc, words.as_str())?;
        let answer = node.answer_to(self.alloc, &query)?;
        answers(self.world, place, query, &answer)
    }

    /// Lets the node take what is new, or makes its view anew, or neither, and asks it; whether all is as in
    /// the world.
    fn visit<P: Place, A: Peer>(
        &mut self,
        source: &mut P,
        node: &mut A,
        place: usize,
    ) -> Said<bool> {
        let may_take = match self.draws.below(5) {
            0 | 1 => self.take(source, node, place)?,
            2 => {
                node.renew()?;
                true
            }
            _ => true,
        };
        Ok(self.ask(node, place)? && may_take)
    }

    /// Does what is drawn; whether it comes out as in the world.
    fn step<P: Place, A: Peer, B: Peer, C: Peer>(
        &mut self,
        source: &mut P,
        first: &mut A,
        second: &mut B,
        third: &mut C,
    ) -> Said<bool> {
        match self.draws.below(13) {
            0 => self.compact(source),
            1 | 2 => self.visit(source, first, 0),
            3 | 4 => self.visit(source, second, 1),
            5 | 6 => self.visit(source, third, 2),
            _ => self.submit(source),
        }
    }

    fn drive<P: Place, A: Peer, B: Peer, C: Peer>(
        &mut self,
        source: &mut P,
        first: &mut A,
        second: &mut B,
        third: &mut C,
    ) -> Made<()> {
        for count in 0..self.grammar.number("steps") {
            if self.step(source, first, second, third) != Ok(true) {
                self.wrong = Some(count);
                return Ok(());
            }
        }
        Ok(())
    }
}

impl<'x> Course<MemoryAlone> for Drawing<'x> {
    fn go<N: FeedName<Item, Shared>, S: Copies<Item, Shared, N>, R: Wait + Drop + Copy>(
        &mut self,
        rt: R,
        pen: &Mutex<Pen<N, S, MemoryAlone, R>>,
        pass: Pass<N>,
        _other: Pass<N>,
    ) -> Made<()> {
        by_nodes(rt, pen, pass, self)
    }
}

fn by_nodes<N: FeedName<Item, Shared>, S: Copies<Item, Shared, N>, R: Wait + Drop + Copy>(
    rt: R,
    pen: &Mutex<Pen<N, S, MemoryAlone, R>>,
    pass: Pass<N>,
    drawing: &mut Drawing,
) -> Made<()>
    requires { N.first.kept.floor ≤ N.first.next }
{
    let mut place = Writing { rt, pen, pass };
    with_nodes::<N, S, Brand, Brand, Brand, R>(
        &mut place,
        Unnamed::new(),
        Unnamed::new(),
        Unnamed::new(),
        drawing,
    )
}

fn with_nodes<
    N: FeedName<Item, Shared>,
    S: Copies<Item, Shared, N>,
    L: FeedName<Draw, Taken>,
    M: FeedName<Draw, Taken>,
    O: FeedName<Draw, Taken>,
    R: Wait + Drop + Copy,
>(
    place: &mut Writing<N, S, MemoryAlone, R>,
    one: Unnamed<Draw>,
    two: Unnamed<Draw>,
    three: Unnamed<Draw>,
    drawing: &mut Drawing,
) -> Made<()>
    requires one { (one.reached.book ≡ L.book) × (L.first ≡ empty) }
    requires two { (two.reached.book ≡ M.book) × (M.first ≡ empty) }
    requires three { (three.reached.book ≡ O.book) × (O.first ≡ empty) }
{
    let mut first = make_node::<N, S, MemoryAlone, L, R>(drawing.alloc, place, one)?;
    with_second::<N, S, Node<N, S, L, Stored<Draw, Taken, L>, R>, M, O, R>(
        place, &mut first, two, three, drawing,
    )
}

/// Makes the second node, and goes on with the third. Each is dropped by itself.
fn with_second<
    N: FeedName<Item, Shared>,
    S: Copies<Item, Shared, N>,
    A: Peer,
    M: FeedName<Draw, Taken>,
    O: FeedName<Draw, Taken>,
    R: Wait + Drop + Copy,
>(
    place: &mut Writing<N, S, MemoryAlone, R>,
    first: &mut A,
    two: Unnamed<Draw>,
    three: Unnamed<Draw>,
    drawing: &mut Drawing,
) -> Made<()>
    requires two { (two.reached.book ≡ M.book) × (M.first ≡ empty) }
    requires three { (three.reached.book ≡ O.book) × (O.first ≡ empty) }
{
    let mut second = make_node::<N, S, MemoryAlone, M, R>(drawing.alloc, place, two)?;
    with_third::<N, S, A, Node<N, S, M, Stored<Draw, Taken, M>, R>, O, R>(
        place,
        first,
        &mut second,
        three,
        drawing,
    )
}

fn with_third<
    N: FeedName<Item, Shared>,
    S: Copies<Item, Shared, N>,
    A: Peer,
    B: Peer,
    O: FeedName<Draw, Taken>,
    R: Wait + Drop + Copy,
>(
    place: &mut Writing<N, S, MemoryAlone, R>,
    first: &mut A,
    second: &mut B,
    three: Unnamed<Draw>,
    drawing: &mut Drawing,
) -> Made<()>
    requires three { (three.reached.book ≡ O.book) × (O.first ≡ empty) }
{
    let mut third = make_node::<N, S, MemoryAlone, O, R>(drawing.alloc, place, three)?;
    drawing.drive(place, first, second, &mut third)
}

/// What comes of the topic of that number beside the world.
fn came_of<R: Wait + Drop + Copy>(
    rt: R,
    topic: u64,
    grammar: &Grammar,
    alloc: Global,
    world: &mut World,
) -> Made<String> {
    let mut drawing = Drawing {
        alloc,
        draws: Draws::new(topic),
        grammar,
        world,
        wrong: None,
    };
    let kept = KeptLog::new(empty_log(alloc)?, MemoryAlone);
    match (go_through(alloc, rt, kept, &mut drawing)?, drawing.wrong) {
        (None, None) => String::from_str(alloc, ALIKE),
        (None, Some(step)) => format!(in alloc; "step {step} comes out otherwise"),
        (Some(_refused), _) => String::from_str(alloc, "no pen is opened"),
    }
}

/// Tries the topics in which everything is drawn, each of which is a case, beside a world of three nodes without a base.
pub(crate) fn try_topics<R: Wait + Drop + Copy>(tally: &mut Tally, rt: R, text: &str) -> Made<()> {
    let alloc = tally.alloc;
    let grammar = Grammar::of(alloc, text)?;
    for topic in 0..grammar.number("topics") {
        let case = format!(in alloc; "topic {topic}")?;
        let started = World::start(alloc, 3, &empty_log(alloc)?).ok();
        let mut world = started.ok_or(AllocError)?;
        let came = came_of(rt, topic, &grammar, alloc, &mut world)?;
        tally.tell(case.as_str(), ALIKE, Ok(came))?;
    }
    Ok(())
}
