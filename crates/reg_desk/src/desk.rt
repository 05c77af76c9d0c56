// The desk (request handler) of a node. Each worker has one for all its connections.
ghost use Rattle.std.specs.Prelude.{◌≡◌, true, false, None, MatchBool, option_map};
ghost use mathlib.Core.List.{IsPrefix};
ghost use Rattle.reg_desk.specs.Desk.{IsFresh, front_of};

use crate::catching::catch_up;
use crate::gate::{Gate, pass_gate};
use crate::pen_handle::PenHandle;
use crate::ruling::Ruling;
use crate::standing::Standing;
use crate::wake::Wake;
use reg_conversation::SharedDesk;
use reg_feed::{Copies, FeedName, Seen};
use reg_http::Desk;
use reg_judge::Judge;
use reg_leader::{Command, Reply};
use reg_lookup::{Answer, Query};
use reg_node::{Draw, Follower, NodeView, Taken};
use reg_pen::{Keep, Pass, Pen, Submitted};
use reg_shared::Shared;
use reg_topic::Item;
use std::alloc::{AllocError, Global};
use std::marker::Model;
use std::sync::atomic::AtomicU64;
use std::sync::{Mutex, Wait};

/// The request handler of a node. Queries are answered from the view. A registration is judged over
/// what the view shows; then the command goes to the pen, once. The other nodes are woken, the
/// node's follower learns, pulls and publishes, and the view learns, all before the reply is given.
///
/// Contracts see the prefix of the topic's list after the last command (its own or one that it
/// learnt of), the view's prefix, the count of submits, whether the view is known to show that
/// command (*fresh*), and what wakes the other nodes.
#[derive(Drop)]
pub struct NodeDesk<
    'a,
    N: FeedName<Item, Shared>,
    S: Copies<Item, Shared, N>,
    K: Keep + Drop,
    M: FeedName<Draw, Taken>,
    U: Copies<Draw, Taken, M>,
    R: Wait + Drop,
    G: Gate,
    W: Wake<N> + Drop,
> {
    rt: &'a R,
    pen: PenHandle<'a, N, S, K, R>,
    follower: &'a Mutex<Follower<N, S, M, U, R>>,
    gate: &'a G,
    wake: W,
    calls: &'a AtomicU64,
    view: NodeView<M, U>,
    judge: Judge,
    seen: Option<Seen<Item, Shared, N>>,
    fresh: bool,
}

impl<
    'a,
    N: FeedName<Item, Shared>,
    S: Copies<Item, Shared, N>,
    K: Keep + Drop,
    M: FeedName<Draw, Taken>,
    U: Copies<Draw, Taken, M>,
    R: Wait + Drop,
    G: Gate,
    W: Wake<N> + Drop,
> Model for NodeDesk<'a, N, S, K, M, U, R, G, W> {
    ghost use Rattle.std.specs.Prelude.{◌≡◌, true};
    ghost use Rattle.reg_desk.specs.Desk.{IsFresh, Known, front_of};

    ghost Value = { Known W };

    ghost view = { λ d. record { seen = d.seen; view = d.view; submits = d.pen; fresh = d.fresh; wake = d.wake } };

    ghost invariant = { λ d. d.fresh ≡ true → IsFresh N.first (front_of d.seen) d.view };
}

impl<
    'a,
    N: FeedName<Item, Shared>,
    S: Copies<Item, Shared, N>,
    K: Keep + Drop,
    M: FeedName<Draw, Taken>,
    U: Copies<Draw, Taken, M>,
    R: Wait + Drop,
    G: Gate,
    W: Wake<N> + Drop,
> NodeDesk<'a, N, S, K, M, U, R, G, W> {
    /// Makes a desk that has carried out no command.
    pub fn new(
        rt: &'a R,
        pen: &'a Mutex<Pen<N, S, K, R>>,
        follower: &'a Mutex<Follower<N, S, M, U, R>>,
        gate: &'a G,
        wake: W,
        calls: &'a AtomicU64,
        pass: Pass<N>,
        view: NodeView<M, U>,
        judge: Judge,
    ) -> NodeDesk<'a, N, S, K, M, U, R, G, W>
        ensures { result ≡ record { seen = None; view = view; submits = pass.submits; fresh = false; wake = wake } }
    {
        NodeDesk {
            rt,
            pen: PenHandle::new(rt, pen, pass),
            follower,
            gate,
            wake,
            calls,
            view,
            judge,
            seen: None,
            fresh: false,
        }
    }

    /// Returns the prefix of the topic's list after the last command, or a longer one that it
    /// learnt of; `None` if there was neither.
    pub fn seen(&self) -> Option<&Seen<Item, Shared, N>>
        ensures { option_map (λ s. s.now) result ≡ self.now.seen }
    {
        self.seen.as_ref()
    }

    /// Returns whether the view is known to show what this prefix holds. It isn't before the first
    /// command, and if memory was refused after that command's submit.
    pub fn fresh(&self) -> bool
        ensures fresh { result ≡ self.now.fresh }
        ensures shown { result ≡ true → IsFresh N.first (front_of self.now.seen) self.now.view }
    {
        self.fresh
    }

    /// Returns how many commands its pass was used for, refused ones too; up to `u64::MAX`.
    pub fn submits(&self) -> u64
        ensures { result ≡ self.now.submits }
    {
        self.pen.submits()
    }
}

impl<
    'a,
    N: FeedName<Item, Shared>,
    S: Copies<Item, Shared, N>,
    K: Keep + Drop,
    M: FeedName<Draw, Taken>,
    U: Copies<Draw, Taken, M>,
    R: Wait + Drop,
    G: Gate,
    W: Wake<N> + Drop,
> Desk for NodeDesk<'a, N, S, K, M, U, R, G, W> {
    ghost use Rattle.reg_desk.specs.Desk.{DeskAsks, DeskCommands};

    ghost asks = { DeskAsks };

    ghost commands = { DeskCommands K.keeps W.wakes N.first };

    fn ask(&mut self, alloc: Global, query: &Query) -> Result<Answer, AllocError> {
        pass_gate(self.gate, self.calls);
        self.view.lookup(alloc, query)
    }

    fn command(&mut self, command: &Command) -> Reply {
        pass_gate(self.gate, self.calls);
        let ruling = Ruling::of(&mut self.view, &mut self.judge, command);
        let Submitted { reply, seen } = self
            .pen
            .submit_from(&self.seen, command, ruling, &mut self.judge);
        self.wake.topic_grew(&seen);
        self.fresh = catch_up(self.rt, self.follower, &mut self.view, &seen);
        self.seen = Some(seen);
        reply
    }
}

impl<
    'a,
    N: FeedName<Item, Shared>,
    S: Copies<Item, Shared, N>,
    K: Keep + Drop,
    M: FeedName<Draw, Taken>,
    U: Copies<Draw, Taken, M>,
    R: Wait + Drop,
    G: Gate,
    W: Wake<N> + Drop,
> SharedDesk for NodeDesk<'a, N, S, K, M, U, R, G, W> {
    type Standing = Standing<N, M>;

    ghost use Rattle.reg_desk.specs.Desk.{LearnsFronts, StandsOn};

    ghost stands = { StandsOn };

    ghost learns = { LearnsFronts N.first };

    fn standing(&self) -> Standing<N, M> {
        let topic = match &self.seen {
            Some(seen) => Some(seen.again()),
            None => None,
        };
        Standing::of(topic, self.view.seen().again(), self.fresh)
    }

    #[tactic(auto, using(crate::proofs::Learnt::stays_learnt, crate::proofs::Learnt::takes_learnt))]
    fn learn(&mut self, standing: &Standing<N, M>) {
        self.view.learn(standing.node());
        if let Some(topic) = standing.topic() {
            if is_news(&self.seen, topic) {
                self.seen = Some(topic.again());
                self.fresh = standing.fresh();
            }
        }
    }
}

/// Returns whether a prefix goes beyond the known one.
fn is_news<N: FeedName<Item, Shared>>(
    known: &Option<Seen<Item, Shared, N>>,
    told: &Seen<Item, Shared, N>,
) -> bool
    ensures { MatchBool result (IsPrefix (front_of known.now) told.now) (IsPrefix told.now (front_of known.now)) }
{
    match known {
        Some(known) => !told.begins(known),
        None => true,
    }
}
