// A topic over a log, whose pen and pass are given to what is done there. Each feed has a name of its own, which is
// picked where the function that is generic in it is called.
ghost use Rattle.std.specs.Prelude.{◌≡◌, ◌≤◌};
ghost use Rattle.reg_topic.specs.Topic.{topic_from};
ghost use Rattle.reg_shared.specs.Held.{held_of};

use crate::nodes::{Visit, lend_node};
use reg_feed::{Copies, FeedName, FeedReader, Seen, Unnamed};
use reg_leader::{Command, Reply};
use reg_pen::{CompactError, Keep, KeptLog, OpenError, Opened, Pass, Pen, Submitted, open};
use reg_records::Record;
use reg_shared::Shared;
use reg_topic::Item;
use std::alloc::{AllocError, Global};
use std::marker::Brand;
use std::sync::{Mutex, Wait};
use test_tools::Made;

/// How many passes the topic has: the one of who does something there, and one for a desk.
const PASSES: u32 = 2;

/// How many readers the topic has: one a node, of which there are three and one that is made anew, and the
/// one of who does something there.
const READERS: usize = 5;

/// A topic's pen, and a pass to submit to it.
#[derive(Drop)]
pub(crate) struct Writing<
    'x,
    N: FeedName<Item, Shared>,
    S: Copies<Item, Shared, N>,
    K: Keep + Drop,
    R: Wait + Drop,
> {
    pub(crate) rt: R,
    pub(crate) pen: &'x Mutex<Pen<N, S, K, R>>,
    pub(crate) pass: Pass<N>,
    pub(crate) ghost floor: { N.first.kept.floor ≤ N.first.next },
}

/// What is done in a topic, with a pass for who does something there, and one for a desk.
pub(crate) trait Course<K: Keep + Drop> {
    fn go<N: FeedName<Item, Shared>, S: Copies<Item, Shared, N>, R: Wait + Drop + Copy>(
        &mut self,
        rt: R,
        pen: &Mutex<Pen<N, S, K, R>>,
        pass: Pass<N>,
        other: Pass<N>,
    ) -> Made<()>
        requires { N.first.kept.floor ≤ N.first.next };
}

/// Does it over the log and its keep; or gives why no pen is opened.
pub(crate) fn go_through<K: Keep + Drop, R: Wait + Drop + Copy, C: Course<K>>(
    alloc: Global,
    rt: R,
    kept: KeptLog<K>,
    course: &mut C,
) -> Made<Option<OpenError>> {
    in_topic::<Brand, K, R, C>(alloc, rt, Unnamed::new(), kept, course)
}

fn in_topic<N: FeedName<Item, Shared>, K: Keep + Drop, R: Wait + Drop + Copy, C: Course<K>>(
    alloc: Global,
    rt: R,
    list: Unnamed<Item>,
    kept: KeptLog<K>,
    course: &mut C,
) -> Made<Option<OpenError>>
    requires { (list.reached.book ≡ N.book) × (N.first ≡ held_of (topic_from kept.log.records.items kept.log.next kept.log.floor)) }
{
    match open::<N, K, R>(rt, alloc, list, kept, PASSES, READERS) {
        Ok(opened) => {
            let Opened { pen, mut passes } = opened;
            let (Some(pass), Some(other)) = (passes.pop(), passes.pop()) else {
                return Err(AllocError);
            };
            let pen = Mutex::new(pen);
            match course.go(rt, &pen, pass, other) {
                Ok(()) => Ok(None),
                Err(AllocError) => Err(AllocError),
            }
        }
        Err(error) => Ok(Some(error)),
    }
}

/// How many batches are published, the kept floor, and what the next offset was at the last compaction.
#[derive(Clone, Copy)]
pub(crate) struct Numbers {
    pub(crate) batches: u64,
    pub(crate) floor: u64,
    pub(crate) compacted: u64,
}

/// A topic, whatever its feed is named.
pub(crate) trait Place {
    /// What is replied to a command.
    fn submit(&mut self, command: &Command) -> Reply;

    /// Publishes a compaction to that floor, or gives why not.
    fn compact_to(&mut self, floor: u64) -> Option<CompactError>;

    fn numbers(&self) -> Numbers;

    /// All records that are kept.
    fn kept(&self) -> Made<Vec<Record>>;

    /// The records that a compaction to that floor drops.
    fn dropped_to(&self, floor: u64) -> Made<Vec<Record>>;

    /// Makes a node, and lends it.
    fn with_node<V: Visit>(&self, alloc: Global, visit: &mut V) -> Made<()>;
}

impl<
    'x,
    N: FeedName<Item, Shared>,
    S: Copies<Item, Shared, N>,
    K: Keep + Drop,
    R: Wait + Drop + Copy,
> Place for Writing<'x, N, S, K, R> {
    fn submit(&mut self, command: &Command) -> Reply {
        let unseen: Option<Seen<Item, Shared, N>> = None;
        let mut pen = self.pen.lock(&self.rt);
        let Submitted { reply, seen: _ } = pen.submit(
            &mut self.pass,
            unseen.as_ref(),
            command,
            None,
        );
        reply
    }

    fn compact_to(&mut self, floor: u64) -> Option<CompactError> {
        let mut pen = self.pen.lock(&self.rt);
        pen.compact_to(floor).err()
    }

    fn numbers(&self) -> Numbers {
        let pen = self.pen.lock(&self.rt);
        Numbers {
            batches: pen.batches(),
            floor: pen.floor(),
            compacted: pen.compacted(),
        }
    }

    fn kept(&self) -> Made<Vec<Record>> {
        let mut topic = reader_of(&self.rt, self.pen)?;
        match topic.read(|shared| shared.since(0)) {
            Some(records) => records,
            None => Err(AllocError),
        }
    }

    fn dropped_to(&self, floor: u64) -> Made<Vec<Record>> {
        let mut topic = reader_of(&self.rt, self.pen)?;
        match topic.read(|shared| shared.dropped_to(floor)) {
            Some(records) => records,
            None => Err(AllocError),
        }
    }

    fn with_node<V: Visit>(&self, alloc: Global, visit: &mut V) -> Made<()> {
        lend_node(alloc, self, visit)
    }
}

/// A reader of the topic's list.
pub(crate) fn reader_of<
    N: FeedName<Item, Shared>,
    S: Copies<Item, Shared, N>,
    K: Keep + Drop,
    R: Wait + Drop,
>(rt: &R, pen: &Mutex<Pen<N, S, K, R>>) -> Made<FeedReader<Item, Shared, N, S>> {
    let mut pen = pen.lock(rt);
    match pen.reader() {
        Ok(reader) => Ok(reader),
        Err(_) => Err(AllocError),
    }
}
