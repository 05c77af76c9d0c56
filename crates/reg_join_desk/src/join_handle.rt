// One of several users of the pen of a shared log.
ghost use Rattle.std.specs.Prelude.{◌≡◌};
ghost use mathlib.Core.List.{IsPrefix};
ghost use Rattle.reg_shared.specs.Held.{base_of};
ghost use Rattle.reg_desk.specs.Desk.{front_of};
ghost use Rattle.reg_join_desk.specs.JoinedDesk.{IsOrdered};

use crate::joined_pen::JoinedPen;
use crate::patience::TimedPatience;
use reg_chain::{Arrivals, Chain};
use reg_desk::{Case, PenAccess, Ruling, overtaken};
use reg_feed::{Copies, FeedName, Seen};
use reg_join::JoinSubmitted;
use reg_leader::Command;
use reg_levels::Judged;
use reg_pen::Pass;
use reg_shared::Shared;
use reg_topic::Item;
use std::alloc::Global;
use std::marker::Model;
use std::sync::{Mutex, Wait};
use std::time::Clock;

/// Carries out commands at the pen of a shared log, each as long as its patience lasts. Contracts
/// see nothing of it.
#[derive(Drop)]
pub(crate) struct JoinHandle<
    'a,
    N: FeedName<Item, Shared>,
    S: Copies<Item, Shared, N>,
    C: Chain + Drop,
    R: Wait + Clock + Drop,
> {
    rt: &'a R,
    alloc: Global,
    pen: &'a Mutex<JoinedPen<N, S, C, R>>,
    pass: Pass<N>,
    arrivals: &'a Arrivals,
    patience: TimedPatience<'a, R>,
    /// How many requests had been made of the log when the command came, and whether it waits for a check only briefly.
    came: u64,
    is_brief: bool,
}

impl<
    'a,
    N: FeedName<Item, Shared>,
    S: Copies<Item, Shared, N>,
    C: Chain + Drop,
    R: Wait + Clock + Drop,
> Model for JoinHandle<'a, N, S, C, R> {
    ghost Value = { Unit {0} };

    ghost view = { λ _. tt };
}

impl<
    'a,
    N: FeedName<Item, Shared>,
    S: Copies<Item, Shared, N>,
    C: Chain + Drop,
    R: Wait + Clock + Drop,
> JoinHandle<'a, N, S, C, R> {
    /// Makes a handle that submits to `pen` by `pass`.
    pub(crate) fn new(
        rt: &'a R,
        alloc: Global,
        pen: &'a Mutex<JoinedPen<N, S, C, R>>,
        pass: Pass<N>,
        arrivals: &'a Arrivals,
    ) -> JoinHandle<'a, N, S, C, R> {
        JoinHandle {
            rt,
            alloc,
            pen,
            pass,
            arrivals,
            patience: TimedPatience::new(rt),
            came: 0,
            is_brief: false,
        }
    }

    /// Notes that the next command came now, and starts its patience. A registration waits for a
    /// check only briefly: the id of a schema that is live may be told without.
    pub(crate) fn begin(&mut self, command: &Command) {
        self.patience = TimedPatience::new(self.rt);
        self.came = self.arrivals.now();
        self.is_brief = matches!(command, Command::Register { .. });
    }
}

impl<
    'a,
    N: FeedName<Item, Shared>,
    S: Copies<Item, Shared, N>,
    C: Chain + Drop,
    R: Wait + Clock + Drop,
> PenAccess<N> for JoinHandle<'a, N, S, C, R> {
    type Done = JoinSubmitted<N>;

    ghost use Rattle.reg_shared.specs.Held.{base_of};
    ghost use Rattle.reg_desk.specs.Desk.{front_of};
    ghost use Rattle.reg_join_desk.specs.JoinedDesk.{IsOrdered};

    ghost does = { λ _ since c done _. IsOrdered C.told C.answers (base_of N.first) (front_of since) c done.outcome done.seen };

    fn submit(
        &mut self,
        since: &Option<Seen<Item, Shared, N>>,
        command: &Command,
        judged: Option<&Judged>,
    ) -> JoinSubmitted<N> {
        let mut pen = self.pen.lock(self.rt);
        self.arrivals.serve(self.came, self.is_brief);
        submit_at(
            &mut pen,
            self.alloc,
            &mut self.pass,
            since,
            command,
            judged,
            &self.patience,
        )
    }

    fn submit_if_fits(
        &mut self,
        since: &Option<Seen<Item, Shared, N>>,
        command: &Command,
        ruling: Ruling,
    ) -> Result<JoinSubmitted<N>, Case> {
        let Ruling { case, judged } = ruling;
        let mut pen = self.pen.lock(self.rt);
        if let Some(case) = overtaken(case, pen.registry()) {
            return Err(case);
        }
        self.arrivals.serve(self.came, self.is_brief);
        Ok(submit_at(
            &mut pen,
            self.alloc,
            &mut self.pass,
            since,
            command,
            Some(&judged),
            &self.patience,
        ))
    }
}

/// Carries out the command. Notes first that the pen's list begins with what the caller has seen.
fn submit_at<
    N: FeedName<Item, Shared>,
    S: Copies<Item, Shared, N>,
    C: Chain + Drop,
    R: Wait + Clock + Drop,
>(
    pen: &mut JoinedPen<N, S, C, R>,
    alloc: Global,
    pass: &mut Pass<N>,
    since: &Option<Seen<Item, Shared, N>>,
    command: &Command,
    judged: Option<&Judged>,
    patience: &TimedPatience<'_, R>,
) -> JoinSubmitted<N>
    ensures { IsOrdered C.told C.answers (base_of N.first) (front_of since.now) command.now result.outcome result.seen }
{
    cover(pen, since);
    pen.submit(alloc, pass, since.as_ref(), command, judged, patience)
}

/// States that what was seen of the pen's list is a prefix of what the pen has published.
#[tactic(auto, using(crate::proofs::Ordered::nothing_begins))]
fn cover<N: FeedName<Item, Shared>, S: Copies<Item, Shared, N>, C: Chain + Drop, R: Wait + Drop>(
    pen: &mut JoinedPen<N, S, C, R>,
    since: &Option<Seen<Item, Shared, N>>,
)
    ensures begun { IsPrefix (front_of since.now) pen.old.published }
    ensures same { pen.new ≡ pen.old }
{
    match since {
        Some(since) => pen.covers(since),
        None => {}
    }
}
