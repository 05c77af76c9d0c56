// A log, served by its pen and the list that this publishes.
ghost use Rattle.std.specs.Prelude.{◌≡◌, ◌≤◌};
ghost use Rattle.reg_topic.specs.Topic.{topic_from};
ghost use Rattle.reg_shared.specs.Held.{held_of};

use crate::desks::make_desks;
use crate::endpoints::Endpoints;
use crate::error::ServiceError;
use crate::ports::serve_desks;
use crate::size::Size;
use reg_desk::{Keep, KeptLog, Opened, Pass, Pen, open};
use reg_feed::{Copies, FeedName, Unnamed};
use reg_meters::Traffic;
use reg_serve::Follow;
use reg_shared::Shared;
use reg_topic::Item;
use std::alloc::Global;
use std::hash::RandomState;
use std::marker::Brand;
use std::net::Net;
use std::random::RandomSource;
use std::sync::{Mutex, Wait};
use std::thread::{Parker, Threads};
use std::time::Clock;

/// Serves a log, whose batches are lent to the keep at its end, at so many ports, each with a poller, which holds the connections, and
/// workers. All of them answer from the one list that the log's pen publishes: what a command wrote is shown at each port once it is
/// replied to. Connections and requests of all ports are counted in the traffic. The log has been read before a port listens.
///
/// With a limit the call returns once all ports have ended. Without one it returns only where they can't be started.
pub fn serve_log<
    K: Keep + Send + Drop,
    R: Threads + Wait + Clock + Net + RandomSource + Sync + Send + Copy + Drop,
    E: Endpoints,
>(
    rt: R,
    alloc: Global,
    size: Size,
    traffic: &Traffic,
    endpoints: &mut E,
    kept: KeptLog<K>,
) -> Result<(), ServiceError> {
    serve_list::<Brand, K, R, E>(&rt, alloc, size, traffic, endpoints, Unnamed::new(), kept)
}

/// Opens the pen over a log, and goes on with the desks.
fn serve_list<
    N: FeedName<Item, Shared> + Send + Sync,
    K: Keep + Send + Drop,
    R: Threads + Wait + Clock + Net + RandomSource + Sync + Send + Copy + Drop,
    E: Endpoints,
>(
    rt: &R,
    alloc: Global,
    size: Size,
    traffic: &Traffic,
    endpoints: &mut E,
    list: Unnamed<Item>,
    kept: KeptLog<K>,
) -> Result<(), ServiceError>
    requires name { (list.reached.book ≡ N.book) × (N.first ≡ held_of (topic_from kept.log.records.items kept.log.next kept.log.floor)) }
{
    let count = size.desks();
    let reached = kept.log().next;
    let Opened { pen, mut passes } = open::<N, K, R>(
        *rt,
        alloc,
        list,
        kept,
        count,
        count as usize,
    )?;
    let pen = Mutex::new(pen);
    serve_pen(
        rt,
        alloc,
        size,
        traffic,
        endpoints,
        &pen,
        &mut passes,
        reached,
    )
}

/// Makes the desks, and serves by them.
fn serve_pen<
    N: FeedName<Item, Shared> + Send + Sync,
    S: Copies<Item, Shared, N> + Send + Sync,
    K: Keep + Send + Drop,
    R: Threads + Wait + Clock + Net + RandomSource + Sync + Send + Copy + Drop,
    E: Endpoints,
>(
    rt: &R,
    alloc: Global,
    size: Size,
    traffic: &Traffic,
    endpoints: &mut E,
    pen: &Mutex<Pen<N, S, K, R>>,
    passes: &mut Vec<Pass<N>>,
    reached: u64,
) -> Result<(), ServiceError>
    requires { N.first.kept.floor ≤ N.first.next }
{
    let keys = RandomState::new(rt)?;
    let mut desks = make_desks(rt, alloc, pen, passes, keys, size.desks())?;
    let nobody: Option<&NoFollower> = None;
    serve_desks(
        rt, alloc, size, traffic, &mut desks, endpoints, reached, nobody,
    )
}

/// Follows nothing, since the pen of a log publishes the list that its ports read: no thread is started for it.
struct NoFollower {
    grown: Parker,
}

impl Follow for NoFollower {
    fn follow(&self) {}

    fn is_over(&self) -> bool {
        true
    }

    fn grown(&self) -> &Parker {
        &self.grown
    }
}
