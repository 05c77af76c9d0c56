// Commands at a shared pen.
ghost use Rattle.std.specs.Prelude.{◌≡◌, IfOk, OnErr};

use crate::ruling::Ruling;
use reg_feed::{FeedName, Seen};
use reg_judge::Judge;
use reg_leader::Command;
use reg_levels::Judged;
use reg_node::Case;
use reg_shared::Shared;
use reg_topic::Item;

/// How often a registration is judged again before its command takes the pen for good.
const JUDGED_AGAIN: u32 = 3;

/// The way to a shared pen; each user takes it for one command at a time.
pub trait PenAccess<N: FeedName<Item, Shared>> {
    /// The result of a command.
    type Done: Drop;

    ghost use Rattle.std.specs.Prelude.{List, Option};
    ghost use Rattle.reg_topic.specs.declared.published.Item.{Item};
    ghost use Rattle.reg_leader.specs.declared.command.Command.{Command};

    // The state before, the prefix that the caller has seen, the command, its result, the state
    // after.
    ghost does: { Self → Option (List Item) → Command → Self.Done → Self → Type 0 };

    /// Takes the pen for one command. `judged` is the command's judgement, if there is one.
    fn submit(
        &mut self,
        since: &Option<Seen<Item, Shared, N>>,
        command: &Command,
        judged: Option<&Judged>,
    ) -> Self::Done
        ensures { does self.old since.now command.now result self.new };

    /// Takes the pen for one registration if its judgement still fits. If not, does nothing and
    /// returns the case that has to be judged now.
    fn submit_if_fits(
        &mut self,
        since: &Option<Seen<Item, Shared, N>>,
        command: &Command,
        ruling: Ruling,
    ) -> Result<Self::Done, Case>
        ensures done { IfOk result (λ done. does self.old since.now command.now done self.new) }
        ensures same { OnErr result (self.new ≡ self.old) };
}

/// Takes the pen for one command, once. A registration whose judgement doesn't fit any more is
/// judged again without the pen, three times at most; then it takes the pen with the last
/// judgement.
pub fn submit_ruled<N: FeedName<Item, Shared>, A: PenAccess<N>>(
    pen: &mut A,
    since: &Option<Seen<Item, Shared, N>>,
    command: &Command,
    ruling: Option<Ruling>,
    judge: &mut Judge,
) -> A::Done
    ensures { A.does pen.old since.now command.now result pen.new }
{
    let Some(ruling) = ruling else {
        return pen.submit(since, command, None);
    };
    let mut ruling = ruling;
    for _again in 0..JUDGED_AGAIN {
        let case = match pen.submit_if_fits(since, command, ruling) {
            Ok(done) => return done,
            Err(case) => case,
        };
        let Some(anew) = Ruling::on(case, judge) else {
            return pen.submit(since, command, None);
        };
        ruling = anew;
    }
    pen.submit(since, command, Some(&ruling.judged))
}
