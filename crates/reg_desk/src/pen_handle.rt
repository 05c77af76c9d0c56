// One of several users of a pen.
ghost use Rattle.std.specs.Prelude.{◌≡◌};
ghost use mathlib.Core.List.{IsPrefix};
ghost use Rattle.reg_pen.specs.Pen.{counted};
ghost use Rattle.reg_shared.specs.Held.{base_of};
ghost use Rattle.reg_desk.specs.Desk.{IsNext, IsWritten, front_of};

use crate::ruling::{Ruling, overtaken};
use crate::submitting::{PenAccess, submit_ruled};
use reg_feed::{Copies, FeedName, Seen};
use reg_judge::Judge;
use reg_leader::Command;
use reg_levels::Judged;
use reg_node::Case;
use reg_pen::{Keep, Pass, Pen, Submitted};
use reg_shared::Shared;
use reg_topic::Item;
use std::marker::Model;
use std::sync::{Mutex, Wait};

/// Submits to the pen of a log, which others share. Contracts see how many commands it has
/// submitted.
#[derive(Drop)]
pub(crate) struct PenHandle<
    'a,
    N: FeedName<Item, Shared>,
    S: Copies<Item, Shared, N>,
    K: Keep + Drop,
    R: Wait + Drop,
> {
    rt: &'a R,
    pen: &'a Mutex<Pen<N, S, K, R>>,
    pass: Pass<N>,
}

impl<
    'a,
    N: FeedName<Item, Shared>,
    S: Copies<Item, Shared, N>,
    K: Keep + Drop,
    R: Wait + Drop,
> Model for PenHandle<'a, N, S, K, R> {
    ghost use Rattle.std.specs.Prelude.{ℕ};

    ghost Value = { ℕ };

    ghost view = { λ h. h.pass.submits };
}

impl<
    'a,
    N: FeedName<Item, Shared>,
    S: Copies<Item, Shared, N>,
    K: Keep + Drop,
    R: Wait + Drop,
> PenHandle<'a, N, S, K, R> {
    /// Makes a handle that submits to `pen` by `pass`.
    pub(crate) fn new(
        rt: &'a R,
        pen: &'a Mutex<Pen<N, S, K, R>>,
        pass: Pass<N>,
    ) -> PenHandle<'a, N, S, K, R>
        ensures { result ≡ pass.submits }
    {
        PenHandle { rt, pen, pass }
    }

    /// Returns how many commands it has submitted, up to `u64::MAX`.
    pub(crate) fn submits(&self) -> u64
        ensures { result ≡ self.now }
    {
        self.pass.submits()
    }

    /// Submits the command, once. The prefix in the result is the longer one of `before` and the
    /// one that the pen gave.
    #[tactic(auto, using(crate::proofs::Told::is_next, crate::proofs::Told::is_written, crate::proofs::Told::submitted_told))]
    pub(crate) fn submit_from(
        &mut self,
        before: &Option<Seen<Item, Shared, N>>,
        command: &Command,
        ruling: Option<Ruling>,
        judge: &mut Judge,
    ) -> Submitted<N>
        ensures written { IsWritten K.keeps (base_of N.first) before.now command.now result.reply result.seen }
        ensures next { IsNext K.keeps (base_of N.first) (front_of before.now) command.now result.reply result.seen }
        ensures counted { self.new ≡ counted self.old }
    {
        let Submitted { reply, seen } = submit_ruled(self, before, command, ruling, judge);
        Submitted {
            reply,
            seen: later(before, seen),
        }
    }
}

impl<
    'a,
    N: FeedName<Item, Shared>,
    S: Copies<Item, Shared, N>,
    K: Keep + Drop,
    R: Wait + Drop,
> PenAccess<N> for PenHandle<'a, N, S, K, R> {
    type Done = Submitted<N>;

    ghost use Rattle.std.specs.Prelude.{◌≡◌};
    ghost use Rattle.reg_pen.specs.Pen.{counted};
    ghost use Rattle.reg_shared.specs.Held.{base_of};
    ghost use Rattle.reg_desk.specs.Desk.{IsSubmitted};

    ghost does = { λ before since c done after. IsSubmitted K.keeps (base_of N.first) since c done.reply done.seen × (after ≡ counted before) };

    // A compaction may follow.
    #[tactic(auto, using(crate::proofs::Told::is_submitted))]
    fn submit(
        &mut self,
        since: &Option<Seen<Item, Shared, N>>,
        command: &Command,
        judged: Option<&Judged>,
    ) -> Submitted<N> {
        let mut pen = self.pen.lock(self.rt);
        pen.submit_and_compact(&mut self.pass, since.as_ref(), command, judged)
    }

    #[tactic(auto, using(crate::proofs::Told::is_submitted))]
    fn submit_if_fits(
        &mut self,
        since: &Option<Seen<Item, Shared, N>>,
        command: &Command,
        ruling: Ruling,
    ) -> Result<Submitted<N>, Case> {
        let Ruling { case, judged } = ruling;
        let mut pen = self.pen.lock(self.rt);
        if let Some(case) = overtaken(case, pen.registry()) {
            return Err(case);
        }
        Ok(pen.submit_and_compact(&mut self.pass, since.as_ref(), command, Some(&judged)))
    }
}

/// Returns the longer one of two prefixes.
#[tactic(auto, using(crate::proofs::Told::same_front))]
fn later<N: FeedName<Item, Shared>>(
    before: &Option<Seen<Item, Shared, N>>,
    told: Seen<Item, Shared, N>,
) -> Seen<Item, Shared, N>
    ensures grows { IsPrefix (front_of before.now) result }
    ensures same { IsPrefix (front_of before.now) told → result ≡ told }
{
    match before {
        Some(before) => before.longer(&told),
        None => told,
    }
}
