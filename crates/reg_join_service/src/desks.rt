// The desks of a process.
ghost use Rattle.std.specs.Prelude.{◌≤◌};

use crate::following::Following;
use reg_chain::Chain;
use reg_feed::{Copies, FeedName, NoPlace};
use reg_join_desk::{FeedDesk, JoinCommander, JoinedPen, LogWaits, View, desk_judge};
use reg_pen::Pass;
use reg_service::{ServiceError, Size};
use reg_shared::Shared;
use reg_topic::Item;
use std::alloc::Global;
use std::hash::RandomState;
use std::sync::{Mutex, Wait};
use std::time::Clock;

/// A desk that answers from the process's own list and submits to its pen.
pub(crate) type JoinedDesk<'a, N, S, C, R> = FeedDesk<
    Item,
    Shared,
    N,
    S,
    JoinCommander<'a, N, S, C, R>,
>;

/// Makes the limit of waiting workers for each port: one less than it has workers.
pub(crate) fn waits_of(alloc: Global, size: Size) -> Result<Vec<LogWaits>, ServiceError> {
    let mut waits = Vec::new(alloc);
    for _port in 0..size.ports() {
        waits.push(LogWaits::new(size.port_workers() - 1))?;
    }
    Ok(waits)
}

/// Makes the desks of all ports, those of the first port last. Each takes one of the passes.
pub(crate) fn make_desks<
    'a,
    N: FeedName<Item, Shared>,
    S: Copies<Item, Shared, N>,
    C: Chain + Drop,
    R: Wait + Clock + Drop,
    W,
>(
    following: &'a Following<'a, N, S, C, R, W>,
    alloc: Global,
    size: Size,
    waits: &'a [LogWaits],
    passes: &mut Vec<Pass<N>>,
    keys: RandomState,
) -> Result<Vec<JoinedDesk<'a, N, S, C, R>>, ServiceError>
    requires { N.first.kept.floor ≤ N.first.next }
{
    let mut desks = Vec::new(alloc);
    for own in waits.iter().rev() {
        for _worker in 0..size.port_workers() {
            let pass = passes.pop().ok_or(ServiceError::NoPlace)?;
            desks.push(make_desk(following, alloc, own, pass, keys)?)?;
        }
    }
    Ok(desks)
}

/// Makes a desk of the port whose limit is `waits`.
fn make_desk<
    'a,
    N: FeedName<Item, Shared>,
    S: Copies<Item, Shared, N>,
    C: Chain + Drop,
    R: Wait + Clock + Drop,
    W,
>(
    following: &'a Following<'a, N, S, C, R, W>,
    alloc: Global,
    waits: &'a LogWaits,
    pass: Pass<N>,
    keys: RandomState,
) -> Result<JoinedDesk<'a, N, S, C, R>, ServiceError>
    requires { N.first.kept.floor ≤ N.first.next }
{
    let view = view_of(following.rt, alloc, following.pen)?;
    let judge = desk_judge(alloc, keys)?;
    let commander = JoinCommander::new(
        following.rt,
        alloc,
        following.pen,
        following.check,
        waits,
        following.line.grown(),
        following.line.arrivals(),
        pass,
        judge,
    );
    Ok(FeedDesk::new(commander, view))
}

/// Makes a view of the pen's list.
fn view_of<N: FeedName<Item, Shared>, S: Copies<Item, Shared, N>, C: Chain + Drop, R: Wait + Drop>(
    rt: &R,
    alloc: Global,
    pen: &Mutex<JoinedPen<N, S, C, R>>,
) -> Result<View<Item, Shared, N, S>, NoPlace>
    requires { N.first.kept.floor ≤ N.first.next }
{
    let mut pen = pen.lock(rt);
    let reader = pen.reader()?;
    Ok(View::new(alloc, reader))
}
