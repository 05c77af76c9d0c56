// The pen of a shared log as the commander of desks.
ghost use Rattle.std.specs.Prelude.{◌≡◌};
ghost use Rattle.reg_shared.specs.Held.{base_of};
ghost use Rattle.reg_join_desk.specs.JoinedDesk.{JoinOrders, ShowsTold};

use crate::hidden::may_be_hidden;
use crate::join_handle::JoinHandle;
use crate::joined_pen::JoinedPen;
use crate::log_waits::LogWaits;
use crate::outcomes::{declined_reply, outcome_reply};
use crate::shared_check::SharedCheck;
use reg_chain::{Arrivals, Chain};
use reg_desk::{Commander, Ruling, View, submit_ruled};
use reg_feed::{Copies, FeedName, Seen};
use reg_join::{JoinOutcome, JoinSubmitted};
use reg_judge::Judge;
use reg_leader::{Command, Reply};
use reg_lookup::{Answer, Query};
use reg_pen::Pass;
use reg_shared::Shared;
use reg_topic::Item;
use std::alloc::Global;
use std::marker::Model;
use std::sync::{Mutex, Wait};
use std::thread::Parker;
use std::time::{Clock, Duration};

/// How long a lookup waits for a check at most, in milliseconds.
const CHECKED_WITHIN: u64 = 1_000;

/// Carries out commands at the pen of a log that other processes write too. A registration is
/// judged over what the view shows; then the command goes to the pen, which takes in what others
/// wrote; then the view shows the result. If a lookup finds no such id or version, another process
/// may have written it, and the lookup waits for a check. If too many workers of the port wait for
/// the log already, a command is refused and a lookup waits for no check.
///
/// Contracts see nothing of it.
#[derive(Drop)]
pub struct JoinCommander<
    'a,
    N: FeedName<Item, Shared>,
    S: Copies<Item, Shared, N>,
    C: Chain + Drop,
    R: Wait + Clock + Drop,
> {
    rt: &'a R,
    pen: JoinHandle<'a, N, S, C, R>,
    check: &'a SharedCheck,
    waits: &'a LogWaits,
    grown: &'a Parker,
    judge: Judge,
}

impl<
    'a,
    N: FeedName<Item, Shared>,
    S: Copies<Item, Shared, N>,
    C: Chain + Drop,
    R: Wait + Clock + Drop,
> Model for JoinCommander<'a, N, S, C, R> {
    ghost Value = { Unit {0} };

    ghost view = { λ _. tt };
}

impl<
    'a,
    N: FeedName<Item, Shared>,
    S: Copies<Item, Shared, N>,
    C: Chain + Drop,
    R: Wait + Clock + Drop,
> JoinCommander<'a, N, S, C, R> {
    /// Makes a commander that submits to `pen` by `pass` and judges registrations by `judge`. All
    /// workers of a port share `waits`; the thread that makes the shared checks parks on `grown`.
    pub fn new(
        rt: &'a R,
        alloc: Global,
        pen: &'a Mutex<JoinedPen<N, S, C, R>>,
        check: &'a SharedCheck,
        waits: &'a LogWaits,
        grown: &'a Parker,
        arrivals: &'a Arrivals,
        pass: Pass<N>,
        judge: Judge,
    ) -> JoinCommander<'a, N, S, C, R> {
        JoinCommander {
            rt,
            pen: JoinHandle::new(rt, alloc, pen, pass, arrivals),
            check,
            waits,
            grown,
            judge,
        }
    }

    /// Waits for a shared check, if one more worker of the port may wait with a lookup. Returns
    /// whether a check was made.
    fn wait_for_check(&self) -> bool {
        if !self.waits.enter_lookup() {
            return false;
        }
        let within = Duration::from_millis(CHECKED_WITHIN);
        let checked = self.check.wait_for_one(self.rt, self.grown, within);
        self.waits.leave_lookup();
        checked
    }

    /// Carries out the command at the pen, shows the result, and returns the reply.
    #[tactic(auto, using(crate::proofs::Ordered::orders))]
    fn order<U: Copies<Item, Shared, N>>(
        &mut self,
        view: &mut View<Item, Shared, N, U>,
        command: &Command,
    ) -> Reply
        ensures { JoinOrders C.told C.answers (base_of N.first) view.old command.now result view.new }
    {
        self.pen.begin(command);
        let ruling = Ruling::of(view, &mut self.judge, command);
        let since = Some(view.seen().again());
        let JoinSubmitted { outcome, seen } = submit_ruled(
            &mut self.pen,
            &since,
            command,
            ruling,
            &mut self.judge,
        );
        show(view, &seen);
        if matches!(outcome, JoinOutcome::Stopped) {
            self.check.find_stop(self.grown);
        }
        outcome_reply(outcome)
    }
}

impl<
    'a,
    N: FeedName<Item, Shared>,
    S: Copies<Item, Shared, N>,
    C: Chain + Drop,
    R: Wait + Clock + Drop,
> Commander<Item, Shared, N> for JoinCommander<'a, N, S, C, R> {
    ghost use Rattle.reg_shared.specs.Held.{base_of};
    ghost use Rattle.reg_join_desk.specs.JoinedDesk.{JoinCarries};

    ghost carries = { λ _ since c reply front _. JoinCarries C.told C.answers (base_of N.first) since c reply front };

    #[tactic(auto, using(crate::proofs::Ordered::nothing_more, crate::proofs::Ordered::orders_grow))]
    fn carry_out<U: Copies<Item, Shared, N>>(
        &mut self,
        view: &mut View<Item, Shared, N, U>,
        command: &Command,
    ) -> Reply {
        if !self.waits.enter() {
            return declined_reply();
        }
        let reply = self.order(view, command);
        self.waits.leave();
        reply
    }

    fn has_news(&self, query: &Query, answer: &Answer) -> bool {
        may_be_hidden(query, answer) && self.wait_for_check()
    }
}

/// Moves the view to the prefix that a command's submit gave, if it gave one.
fn show<N: FeedName<Item, Shared>, S: Copies<Item, Shared, N>>(
    view: &mut View<Item, Shared, N, S>,
    told: &Option<Seen<Item, Shared, N>>,
)
    ensures { ShowsTold view.old told.now view.new }
{
    if let Some(told) = told {
        view.learn(told);
    }
}
