// The follower of a node: it reads the topic and publishes to the node's views.
ghost use Rattle.std.specs.Prelude.{◌≡◌, ◌⊎◌, ◌≤◌, ◌++◌, [], IfOk, IfSome, MatchBool, OnErr, OnOk};
ghost use Rattle.std.specs.FinSet.{empty};
ghost use mathlib.Core.List.{IsPrefix};
ghost use Rattle.reg_floored.specs.Compaction.{IsCompactionOf};
ghost use Rattle.reg_shared.specs.Held.{held_of, topic_at};
ghost use Rattle.reg_topic.specs.Topic.{whole_log};
ghost use Rattle.reg_node.specs.Caught.{IsNews};
ghost use Rattle.reg_node.specs.Takes.{AreDrawnFrom, Pulls, draws_of, taken, taken_set};
ghost use Rattle.reg_set.specs.LastRecords.{last_records};

use crate::laws::{draws_fold_to_last_records, followers_catch_up};
use crate::news::{News, add_draws, read_news};
use crate::take::{Draw, NodeView, Taken};
use reg_feed::{Copies, FeedName, FeedReader, FeedWriter, NoPlace, Seen};
use reg_shared::Shared;
use reg_topic::Item;
use std::alloc::AllocError;
use std::collections::VecDeque;
use std::marker::Model;
use std::sync::Wait;

/// A replica of the topic on a node: it reads the topic's list and publishes what is new to the
/// node's views. What it adds to the node's list are *draws*: a take of one kept record, or a
/// rebase, which replaces the records below a floor. Each draw comes from the kept set of a prefix
/// of the topic's list, and these prefixes never get shorter.
///
/// Contracts see the prefix of the topic's list (its *front*) that it saw or learnt of, the
/// published draws, and the pending ones.
#[derive(Drop)]
pub struct Follower<
    N: FeedName<Item, Shared>,
    S: Copies<Item, Shared, N>,
    M: FeedName<Draw, Taken>,
    U: Copies<Draw, Taken, M>,
    R: Wait + Drop,
> {
    topic: FeedReader<Item, Shared, N, S>,
    // In a `Box`, since a struct that holds a `FeedWriter` itself gets no generated drop.
    out: Box<FeedWriter<Draw, Taken, M, U, R>>,
    // The last of the pending draws, which `out` doesn't have yet.
    rest: VecDeque<Draw>,
    // The topic's next offset at the last pull. All taken records are below it, and each last
    // record below it was taken or was compacted away.
    upto: u64,
    // The floor, with the pending draws.
    floor: u64,
    // Whether the hidden copy of the value lacks what was published last.
    lags: bool,
}

impl<
    N: FeedName<Item, Shared>,
    S: Copies<Item, Shared, N>,
    M: FeedName<Draw, Taken>,
    U: Copies<Draw, Taken, M>,
    R: Wait + Drop,
> Model for Follower<N, S, M, U, R> {
    ghost use Rattle.std.specs.FinSet.{empty};
    ghost use Rattle.std.specs.Prelude.{◌≡◌, ◌≤◌, ◌++◌, List};
    ghost use Rattle.reg_node.specs.Caught.{IsCaught};
    ghost use Rattle.reg_node.specs.Takes.{floor_of};
    ghost use Rattle.reg_node.specs.declared.take.Draw.{Draw};
    ghost use Rattle.reg_topic.specs.declared.published.Item.{Item};

    ghost Value = { List Item × (List Draw × List Draw) };

    ghost view = { λ f. (f.topic, (f.out.value.0, f.out.value.1 ++ f.rest.items)) };

    ghost invariant = { λ f. (M.first ≡ empty) × (N.first.kept.floor ≤ N.first.next)
        × IsCaught N.first f.topic (f.out.value.0 ++ (f.out.value.1 ++ f.rest.items)) f.upto
        × (f.floor ≡ floor_of (f.out.value.0 ++ (f.out.value.1 ++ f.rest.items))) };
}

impl<
    N: FeedName<Item, Shared>,
    S: Copies<Item, Shared, N>,
    M: FeedName<Draw, Taken>,
    U: Copies<Draw, Taken, M>,
    R: Wait + Drop,
> Follower<N, S, M, U, R> {
    /// Makes a follower that has taken nothing. It reads the topic by `topic` and publishes by
    /// `out`.
    pub fn new(
        topic: FeedReader<Item, Shared, N, S>,
        out: Box<FeedWriter<Draw, Taken, M, U, R>>,
    ) -> Follower<N, S, M, U, R>
        requires nothing { (out.value ≡ ([], [])) × (M.first ≡ empty) }
        requires floor { N.first.kept.floor ≤ N.first.next }
        ensures { result ≡ (topic, ([], [])) }
    {
        let alloc = *Box::allocator(&out);
        Follower {
            topic,
            out,
            rest: VecDeque::new(alloc),
            upto: 0,
            floor: 0,
            lags: false,
        }
    }

    /// Returns the prefix of the topic's list that it saw or learnt of.
    pub fn topic_seen(&self) -> &Seen<Item, Shared, N>
        ensures front { result.now ≡ self.now.0 }
        ensures drawn { AreDrawnFrom N.first (self.now.1.0 ++ self.now.1.1) self.now.0 }
        ensures published { AreDrawnFrom N.first self.now.1.0 self.now.0 }
    {
        self.topic.seen()
    }

    /// Moves to the longer of its own prefix of the topic's list and the told one.
    pub fn learn(&mut self, seen: &Seen<Item, Shared, N>)
        ensures one { (self.new.0 ≡ self.old.0) ⊎ (self.new.0 ≡ seen.now) }
        ensures this { IsPrefix self.old.0 self.new.0 }
        ensures that { IsPrefix seen.now self.new.0 }
        ensures out { self.new.1 ≡ self.old.1 }
    {
        followers_catch_up();
        self.topic.learn(seen);
    }

    /// Draws what is new in the kept set of a published list of the topic that extends all that was
    /// seen or learnt of. Returns whether anything was new. If the floors differ, it rebases on
    /// that kept set first. Once published, all taken records are a compaction of that list's log.
    /// The only error is out of memory; it also comes if the topic's writer is gone. No draw is
    /// added then.
    pub fn pull(&mut self) -> Result<bool, AllocError>
        ensures longer { IsPrefix self.old.0 self.new.0 }
        ensures published { self.new.1.0 ≡ self.old.1.0 }
        ensures pulled { IfOk result (λ more. MatchBool more (Pulls N.first self.new.0 self.old.1 self.new.1) (self.new.1 ≡ self.old.1)) }
        ensures compaction { OnOk result
            (IsCompactionOf (taken_set (self.new.1.0 ++ self.new.1.1)) (whole_log (topic_at N.first self.new.0))) }
        ensures refused { OnErr result (self.new.1 ≡ self.old.1) }
    {
        followers_catch_up();
        let found = read_news(&mut self.topic, self.upto, self.floor)?;
        if found.is_nothing() {
            self.upto = found.next;
            return Ok(false);
        }
        let next = found.next;
        let floor = found.floor;
        let read = self.topic.seen().len();
        add_news(&mut self.out, &mut self.rest, read, found)?;
        self.upto = next;
        self.floor = floor;
        Ok(true)
    }

    /// Publishes the pending draws and returns the node's whole list. The only error is out of
    /// memory; nothing has changed then.
    pub fn publish(&mut self) -> Result<Seen<Draw, Taken, M>, AllocError>
        ensures published { OnOk result (self.new ≡ (self.old.0, (self.old.1.0 ++ self.old.1.1, []))) }
        ensures drawn { OnOk result (AreDrawnFrom N.first self.new.1.0 self.new.0) }
        ensures told { IfOk result (λ seen. seen ≡ self.new.1.0) }
        ensures refused { OnErr result (self.new ≡ self.old) }
    {
        append_all(&mut self.out, &mut self.rest)?;
        if self.out.has_pending() {
            self.out.publish()?;
            self.lags = true;
        }
        Ok(self.out.tell())
    }

    /// Brings the hidden copy of the value up to date, so that the next publish applies only what
    /// is new. Without this call the next publish also applies the last one's draws; after a start
    /// these are all kept records. Publishes nothing. If memory is refused, the work is left to the
    /// next publish. It may block on readers.
    pub fn catch_up_unshown(&mut self)
        ensures { self.new ≡ self.old }
    {
        if self.lags && !self.out.has_pending() {
            self.lags = self.out.publish().is_err();
        }
    }

    /// States that every list that anybody saw or learnt of on this node is a prefix of what the
    /// follower has published.
    pub fn covers(&mut self, seen: &Seen<Draw, Taken, M>)
        ensures begins { IsPrefix seen.now self.old.1.0 }
        ensures same { self.new ≡ self.old }
    {
        self.out.covers(seen);
    }

    /// Makes a view of the node. It is refused if no place for a reader is left.
    pub fn view(&mut self) -> Result<NodeView<M, U>, NoPlace>
        ensures new { IfOk result (λ v. v ≡ []) }
        ensures same { self.new ≡ self.old }
    {
        let alloc = *Box::allocator(&self.out);
        let reader = self.out.reader()?;
        Ok(NodeView::new(alloc, reader))
    }
}

/// Adds what is new behind all draws of a node's list. The only error is out of memory; none is
/// added then.
fn add_news<M: FeedName<Draw, Taken>, U: Copies<Draw, Taken, M>, R: Wait + Drop>(
    out: &mut Box<FeedWriter<Draw, Taken, M, U, R>>,
    rest: &mut VecDeque<Draw>,
    read: u64,
    found: News,
) -> Result<(), AllocError>
    requires nothing { M.first ≡ empty }
    requires whole { IfSome found.whole (λ registry. registry
        ≡ last_records (taken ((out.old.value.0 ++ (out.old.value.1 ++ rest.old.items)) ++ draws_of read found.floor found.below found.records.items))) }
    ensures published { out.new.value.0 ≡ out.old.value.0 }
    ensures added { OnOk result (out.new.value.1 ++ rest.new.items
        ≡ (out.old.value.1 ++ rest.old.items) ++ draws_of read found.floor found.below found.records.items) }
    ensures refused { OnErr result (out.new.value.1 ++ rest.new.items ≡ out.old.value.1 ++ rest.old.items) }
{
    let News {
        below,
        records,
        floor,
        whole,
        ..
    } = found;
    let Some(registry) = whole else {
        return add_draws(rest, read, floor, below, records);
    };
    let alloc = *Box::allocator(out);
    let mut draws = VecDeque::new(alloc);
    add_draws(&mut draws, read, floor, below, records)?;
    append_whole(out, rest, draws, Taken::of(alloc, registry))
}

/// Appends all draws to a node's list, with the value that the whole list then folds to. The only
/// error is out of memory; draws that weren't appended stay where they are.
fn append_whole<M: FeedName<Draw, Taken>, U: Copies<Draw, Taken, M>, R: Wait + Drop>(
    out: &mut FeedWriter<Draw, Taken, M, U, R>,
    rest: &mut VecDeque<Draw>,
    draws: VecDeque<Draw>,
    whole: Taken,
) -> Result<(), AllocError>
    requires nothing { M.first ≡ empty }
    requires whole { whole ≡ last_records (taken (out.old.0 ++ (out.old.1 ++ rest.old.items) ++ draws.items)) }
    ensures published { out.new.0 ≡ out.old.0 }
    ensures added { OnOk result (out.new.1 ++ rest.new.items ≡ (out.old.1 ++ rest.old.items) ++ draws.items) }
    ensures refused { OnErr result (out.new.1 ++ rest.new.items ≡ out.old.1 ++ rest.old.items) }
{
    draws_fold_to_last_records();
    append_all(out, rest)?;
    out.append_all(draws, whole)
}

/// Appends the draws to a node's list. The only error is out of memory; draws that weren't appended
/// stay where they are.
fn append_all<M: FeedName<Draw, Taken>, U: Copies<Draw, Taken, M>, R: Wait + Drop>(
    out: &mut FeedWriter<Draw, Taken, M, U, R>,
    draws: &mut VecDeque<Draw>,
) -> Result<(), AllocError>
    ensures published { out.new.0 ≡ out.old.0 }
    ensures pending { out.new.1 ++ draws.new.items ≡ out.old.1 ++ draws.old.items }
    ensures all { OnOk result (draws.new.items ≡ []) }
{
    while let Some(draw) = draws.pop_front() {
        if let Err(refused) = out.append(draw) {
            draws.push_front_reserved(refused);
            return Err(AllocError);
        }
    }
    // A first pull may take a million records.
    draws.shrink_to_fit();
    Ok(())
}
