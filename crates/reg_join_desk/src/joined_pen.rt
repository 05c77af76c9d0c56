// A pen over a chain, whose batches are those that the chain told.
ghost use Rattle.std.specs.Prelude.{◌≡◌, [], IfOk};
ghost use mathlib.Core.List.{IsPrefix};
ghost use Rattle.reg_fold.specs.GiveAlike.{GiveAlike};
ghost use Rattle.reg_topic.specs.Topic.{registry_of};
ghost use Rattle.reg_shared.specs.Held.{base_of, topic_at};
ghost use Rattle.reg_pen.specs.Pen.{IsPen};
ghost use Rattle.reg_join.specs.Ending.{Ends};
ghost use Rattle.reg_join.specs.Joined.{IsJoined};
ghost use Rattle.reg_join.specs.Joining.{IsNotAsked};
ghost use Rattle.reg_join.specs.Taking.{StopsAtNobodys, Takes, TellsTaken};

use reg_chain::Chain;
use reg_feed::{Copies, FeedName, FeedReader, NoPlace, Seen};
use reg_fold::Registry;
use reg_join::{JoinKeep, JoinSubmitted, Patience, TakenIn, submit_joined, take_in};
use reg_leader::Command;
use reg_levels::Judged;
use reg_pen::{Pass, Pen};
use reg_shared::Shared;
use reg_topic::Item;
use std::alloc::{AllocError, Global};
use std::marker::Model;
use std::sync::Wait;

/// The single writer of one process over a shared log: a pen whose batches are those that its keep
/// took of what the chain told, in their order, none of them lost. It takes nothing any more only
/// where the chain told a batch that no command writes. Contracts see the pen. Callers put it in a
/// `Mutex`.
#[derive(Drop)]
pub struct JoinedPen<
    N: FeedName<Item, Shared>,
    S: Copies<Item, Shared, N>,
    C: Chain + Drop,
    R: Wait + Drop,
> {
    // In a `Box`, since a struct that holds a `Pen` over such a keep itself gets no generated drop.
    pen: Box<Pen<N, S, JoinKeep<C>, R>>,
}

impl<N: FeedName<Item, Shared>, S: Copies<Item, Shared, N>, C: Chain + Drop, R: Wait + Drop> Model
    for JoinedPen<N, S, C, R> {
    ghost use Rattle.reg_pen.specs.Pen.{PenState};
    ghost use Rattle.reg_shared.specs.Held.{base_of};
    ghost use Rattle.reg_join.specs.Joined.{IsJoined};
    ghost use Rattle.reg_join.specs.Taking.{StopsAtNobodys};
    ghost use Rattle.reg_join.specs.declared.join_keep.JoinKeep.{JoinKeep};

    ghost Value = { PenState (JoinKeep C) };

    ghost view = { λ p. p.pen.value };

    ghost invariant = { λ p. IsJoined C.told p.pen.value × StopsAtNobodys C.told (base_of N.first) p.pen.value };
}

impl<
    N: FeedName<Item, Shared>,
    S: Copies<Item, Shared, N>,
    C: Chain + Drop,
    R: Wait + Drop,
> JoinedPen<N, S, C, R> {
    /// Makes one of a pen that was opened over a chain which had told nothing; no id mark may have
    /// been due.
    pub fn new(pen: Box<Pen<N, S, JoinKeep<C>, R>>) -> JoinedPen<N, S, C, R>
        requires joined { IsJoined C.told pen.value }
        requires stops { StopsAtNobodys C.told (base_of N.first) pen.value }
        ensures { result ≡ pen.value }
    {
        JoinedPen { pen }
    }

    /// Takes in the next batch that others wrote, if one is told, as `take_in` of `reg_join` does.
    /// The only error is out of memory; the next call tries the same batch again.
    pub fn take_in(&mut self, alloc: Global, pass: &mut Pass<N>) -> Result<TakenIn, AllocError>
        ensures joined { IsJoined C.told self.new }
        ensures grows { IsPrefix self.old.published self.new.published }
        ensures own { IsNotAsked self.old.keep self.new.keep }
        ensures taken { IfOk result (λ taken. Takes taken self.old self.new) }
        ensures told { IfOk result (λ taken. TellsTaken C.told taken self.old self.new) }
        ensures stops { StopsAtNobodys C.told (base_of N.first) self.new }
    {
        take_in(alloc, &mut self.pen, pass)
    }

    /// Carries out a command as `submit_joined` of `reg_join` does. If others come first, it is
    /// decided again, 64 times at most and as long as `patience` lasts. `since` is the prefix that
    /// the caller saw last.
    pub fn submit<P: Patience>(
        &mut self,
        alloc: Global,
        pass: &mut Pass<N>,
        since: Option<&Seen<Item, Shared, N>>,
        command: &Command,
        judged: Option<&Judged>,
        patience: &P,
    ) -> JoinSubmitted<N>
        ensures was { IsPen (base_of N.first) self.old.published self.old.pending }
        ensures was_joined { IsJoined C.told self.old }
        ensures joined { IsJoined C.told self.new }
        ensures grows { IsPrefix self.old.published self.new.published }
        ensures stops { StopsAtNobodys C.told (base_of N.first) self.new }
        ensures ends { Ends C.told C.answers (base_of N.first) self.old command.now result.outcome result.seen self.new }
    {
        // This call's contract says that the pen's list is lawful.
        let _batches = self.pen.batches();
        submit_joined(alloc, &mut self.pen, pass, since, command, judged, patience)
    }

    /// Returns a registry that answers as the one over the published log does. Takes no memory.
    pub fn registry(&self) -> &Registry
        ensures { GiveAlike result.now (registry_of (topic_at N.first self.now.published)) }
    {
        self.pen.registry()
    }

    /// States that every list that anybody saw or learnt of is a prefix of what this pen has
    /// published.
    pub fn covers(&mut self, seen: &Seen<Item, Shared, N>)
        ensures begins { IsPrefix seen.now self.old.published }
        ensures same { self.new ≡ self.old }
    {
        self.pen.covers(seen);
    }

    /// Makes a reader of the list that has seen nothing; a desk's view looks through it. It is
    /// refused if no place for a reader is left.
    pub fn reader(&mut self) -> Result<FeedReader<Item, Shared, N, S>, NoPlace>
        ensures new { IfOk result (λ reader. reader ≡ []) }
        ensures same { self.new ≡ self.old }
    {
        self.pen.reader()
    }
}
