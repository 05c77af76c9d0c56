// The pen of a log as the commander of desks.
ghost use Rattle.std.specs.Prelude.{◌≡◌};

use crate::commander::Commander;
use crate::pen_handle::PenHandle;
use crate::ruling::Ruling;
use reg_feed::{Copies, FeedName};
use reg_judge::Judge;
use reg_leader::{Command, Reply};
use reg_lookup::{Answer, Query};
use reg_node::View;
use reg_pen::{Keep, Pass, Pen, Submitted};
use reg_shared::Shared;
use reg_topic::Item;
use std::marker::Model;
use std::sync::{Mutex, Wait};

/// Submits commands to the pen of a log, which other desks share. A registration is judged over
/// what the view shows before the pen is taken.
///
/// Contracts see how many commands it has submitted.
#[derive(Drop)]
pub struct PenCommander<
    'a,
    N: FeedName<Item, Shared>,
    S: Copies<Item, Shared, N>,
    K: Keep + Drop,
    R: Wait + Drop,
> {
    pen: PenHandle<'a, N, S, K, R>,
    judge: Judge,
}

impl<
    'a,
    N: FeedName<Item, Shared>,
    S: Copies<Item, Shared, N>,
    K: Keep + Drop,
    R: Wait + Drop,
> Model for PenCommander<'a, N, S, K, R> {
    ghost use Rattle.std.specs.Prelude.{ℕ};

    ghost Value = { ℕ };

    ghost view = { λ c. c.pen };
}

impl<
    'a,
    N: FeedName<Item, Shared>,
    S: Copies<Item, Shared, N>,
    K: Keep + Drop,
    R: Wait + Drop,
> PenCommander<'a, N, S, K, R> {
    /// Makes a commander that submits to `pen` by `pass`, and judges registrations by `judge`.
    pub fn new(
        rt: &'a R,
        pen: &'a Mutex<Pen<N, S, K, R>>,
        pass: Pass<N>,
        judge: Judge,
    ) -> PenCommander<'a, N, S, K, R>
        ensures { result ≡ pass.submits }
    {
        PenCommander {
            pen: PenHandle::new(rt, pen, pass),
            judge,
        }
    }
}

impl<
    'a,
    N: FeedName<Item, Shared>,
    S: Copies<Item, Shared, N>,
    K: Keep + Drop,
    R: Wait + Drop,
> Commander<Item, Shared, N> for PenCommander<'a, N, S, K, R> {
    ghost use Rattle.reg_shared.specs.Held.{base_of};
    ghost use Rattle.reg_desk.specs.FeedDesk.{PenCarries};

    ghost carries = { PenCarries K.keeps (base_of N.first) };

    #[tactic(auto, using(crate::proofs::Fronts::pen_carries))]
    fn carry_out<U: Copies<Item, Shared, N>>(
        &mut self,
        view: &mut View<Item, Shared, N, U>,
        command: &Command,
    ) -> Reply {
        let ruling = Ruling::of(view, &mut self.judge, command);
        let since = Some(view.seen().again());
        let Submitted { reply, seen } = self
            .pen
            .submit_from(&since, command, ruling, &mut self.judge);
        view.learn(&seen);
        reply
    }

    // The view shows a write before its reply is given, and nobody else writes to this log.
    fn has_news(&self, _query: &Query, _answer: &Answer) -> bool {
        false
    }
}
