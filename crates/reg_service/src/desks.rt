// The desks over a log.
ghost use Rattle.std.specs.Prelude.{◌≤◌};

use crate::error::ServiceError;
use reg_desk::{FeedDesk, Keep, Pass, Pen, PenCommander, View, desk_judge};
use reg_feed::{Copies, FeedName, NoPlace};
use reg_shared::Shared;
use reg_topic::Item;
use std::alloc::Global;
use std::hash::RandomState;
use std::sync::{Mutex, Wait};

/// A desk that answers from the log's own list, and submits to its pen.
pub(crate) type LogDesk<'a, N, S, K, R> = FeedDesk<
    Item,
    Shared,
    N,
    S,
    PenCommander<'a, N, S, K, R>,
>;

/// So many desks, each with one of the passes.
pub(crate) fn make_desks<
    'a,
    N: FeedName<Item, Shared>,
    S: Copies<Item, Shared, N>,
    K: Keep + Drop,
    R: Wait + Drop,
>(
    rt: &'a R,
    alloc: Global,
    pen: &'a Mutex<Pen<N, S, K, R>>,
    passes: &mut Vec<Pass<N>>,
    keys: RandomState,
    count: u32,
) -> Result<Vec<LogDesk<'a, N, S, K, R>>, ServiceError>
    requires { N.first.kept.floor ≤ N.first.next }
{
    let mut desks = Vec::new(alloc);
    for _desk in 0..count {
        let pass = passes.pop().ok_or(ServiceError::NoPlace)?;
        let view = view_of(rt, alloc, pen)?;
        let judge = desk_judge(alloc, keys)?;
        let commander = PenCommander::new(rt, pen, pass, judge);
        desks.push(FeedDesk::new(commander, view))?;
    }
    Ok(desks)
}

/// A view of the pen's list.
fn view_of<N: FeedName<Item, Shared>, S: Copies<Item, Shared, N>, K: Keep + Drop, R: Wait + Drop>(
    rt: &R,
    alloc: Global,
    pen: &Mutex<Pen<N, S, K, R>>,
) -> Result<View<Item, Shared, N, S>, NoPlace>
    requires { N.first.kept.floor ≤ N.first.next }
{
    let mut pen = pen.lock(rt);
    let reader = pen.reader()?;
    Ok(View::new(alloc, reader))
}
