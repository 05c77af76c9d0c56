// A process is opened over the shared chain, with one desk.
ghost use Rattle.std.specs.Prelude.{◌≡◌, ◌≤◌, []};
ghost use Rattle.reg_topic.specs.Topic.{topic_from};
ghost use Rattle.reg_shared.specs.Held.{held_of};

use crate::chains::{Handle, on_shelf};
use crate::opening::Common;
use crate::runs::len_of;
use crate::turns::{Turn, comes_out};
use reg_chain::Arrivals;
use reg_feed::{Copies, FeedName, Unnamed};
use reg_join::JoinKeep;
use reg_join_desk::{FeedDesk, JoinCommander, JoinedPen, LogWaits, SharedCheck, View};
use reg_judge::Judge;
use reg_pen::{KeptLog, Opened, Pass, open};
use reg_records::Log;
use reg_shared::Shared;
use reg_topic::Item;
use std::alloc::AllocError;
use std::hash::RandomState;
use std::marker::Brand;
use std::sync::{Mutex, Wait};
use std::test::Fail;
use std::thread::Parker;
use std::time::Clock;
use test_tools::chain;
use test_words::empty_log;

/// Takes the turn at the desk of a new process. Gives its first step that doesn't come out as it says, or their number where its end doesn't.
pub(crate) fn wrong_step<R: Wait + Clock + Drop + Copy>(
    common: &Common<R>,
    turn: &Turn<'_>,
    keys: RandomState,
) -> Result<Option<usize>, Fail> {
    if turn.is_spoilt {
        on_shelf(&common.shelf, Err(AllocError), |shelf| shelf.spoil())?;
    }
    let log = empty_log(common.alloc)?;
    let chain = Handle::new(common.alloc, common.shelf.clone()?);
    with_pen::<Brand, R>(common, Unnamed::new(), log, chain, turn, keys)
}

#[tactic(auto, using(crate::proofs::Begun::opened_joined))]
fn with_pen<N: FeedName<Item, Shared>, R: Wait + Clock + Drop + Copy>(
    common: &Common<R>,
    list: Unnamed<Item>,
    log: Log,
    chain: Handle,
    turn: &Turn<'_>,
    keys: RandomState,
) -> Result<Option<usize>, Fail>
    requires name { (list.reached.book ≡ N.book) × (N.first ≡ held_of (topic_from log.records.items log.next log.floor)) }
    requires new { chain.mine.told ≡ [] }
{
    let (rt, alloc) = (common.rt, common.alloc);
    let keep = JoinKeep::new(chain);
    let kept = KeptLog::new(log, keep);
    let Opened { pen, mut passes } = open::<N, JoinKeep<Handle>, R>(rt, alloc, list, kept, 1, 1)?;
    let pass = passes.pop().ok_or(AllocError)?;
    // A mark of ids that the log owed would be the first batch.
    if pen.keep().kept() != 0 {
        return Err(Fail::from("a mark is kept"));
    }
    let boxed = Box::new(alloc, pen)?;
    let joined = JoinedPen::new(boxed);
    let mut pen = Mutex::new(joined);
    beside_pen(common, &mut pen, pass, turn, keys)
}

/// Takes the turn at a desk over the pen's list.
fn beside_pen<N: FeedName<Item, Shared>, S: Copies<Item, Shared, N>, R: Wait + Clock + Drop + Copy>(
    common: &Common<R>,
    pen: &mut Mutex<JoinedPen<N, S, Handle, R>>,
    pass: Pass<N>,
    turn: &Turn<'_>,
    keys: RandomState,
) -> Result<Option<usize>, Fail>
    requires { N.first.kept.floor ≤ N.first.next }
{
    let view = View::new(common.alloc, pen.get_mut().reader()?);
    at_desk(common, pen, pass, view, turn, keys)
}

/// Takes the turn at a desk. Nobody makes the checks that lookups want.
fn at_desk<N: FeedName<Item, Shared>, S: Copies<Item, Shared, N>, R: Wait + Clock + Drop + Copy>(
    common: &Common<R>,
    pen: &Mutex<JoinedPen<N, S, Handle, R>>,
    pass: Pass<N>,
    view: View<Item, Shared, N, S>,
    turn: &Turn<'_>,
    keys: RandomState,
) -> Result<Option<usize>, Fail> {
    let (rt, alloc) = (&common.rt, common.alloc);
    let (check, waits, grown) = (SharedCheck::new(), LogWaits::new(turn.waits), Parker::new());
    let arrivals = Arrivals::new();
    let judge = Judge::new(alloc, keys, 16, 64)?;
    let commander = JoinCommander::new(
        rt, alloc, pen, &check, &waits, &grown, &arrivals, pass, judge,
    );
    let mut desk = FeedDesk::new(commander, view);
    for (place, step) in turn.steps.iter().enumerate() {
        if !comes_out(alloc, &mut desk, step)? {
            return Ok(Some(place));
        }
    }
    let is_right = len_of(&common.shelf) == turn.batches
        && check.is_wanted() == turn.is_wanted
        && check.has_stopped() == turn.is_spoilt;
    Ok(if is_right {
        None
    } else {
        Some(turn.steps.len())
    })
}
