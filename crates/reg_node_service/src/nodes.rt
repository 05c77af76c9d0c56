// Nodes over one topic. Each feed has a name of its own as a type, picked at the call of the
// function that is generic in it; so each node's feed has a function of its own, which calls the
// next.
ghost use Rattle.std.specs.Prelude.{◌≡◌};
ghost use Rattle.std.specs.FinSet.{empty};
ghost use Rattle.reg_topic.specs.Topic.{topic_from};
ghost use Rattle.reg_shared.specs.Held.{held_of};

use crate::common::Common;
use crate::making::make_first;
use crate::parts::{Parts, Resources, TopicHandles, make_parts};
use reg_desk::Gate;
use reg_feed::{Copies, FeedName, FeedReader, Stored, Unnamed};
use reg_meters::Traffic;
use reg_node::{Draw, Taken};
use reg_pen::{Keep, KeptLog, MemoryAlone, Opened, Pen, open};
use reg_records::{Device, read_log};
use reg_serve::{Latch, Limits};
use reg_service::{Endpoints, NODES_LIMIT, ServiceError, Size};
use reg_shared::Shared;
use reg_topic::Item;
use std::alloc::Global;
use std::hash::RandomState;
use std::marker::Brand;
use std::net::Net;
use std::random::RandomSource;
use std::sync::atomic::AtomicU64;
use std::sync::{Mutex, Wait};
use std::thread::{Parker, Threads};
use std::time::Clock;

/// Serves an empty topic, which ends with the process, by the nodes that `size` asks for: from one
/// to `NODES_LIMIT`. Each node has a poller, which holds the connections, and workers. A worker
/// calls the gate before it answers a query or carries out a command. `traffic` counts the
/// connections and requests of all nodes.
///
/// With a limit the call returns once all nodes have ended. Without one it returns only if the
/// nodes can't be started.
pub fn serve_nodes<
    R: Threads + Wait + Clock + Net + RandomSource + Sync + Send + Copy + Drop,
    G: Gate + Sync,
    E: Endpoints,
>(
    rt: R,
    alloc: Global,
    size: Size,
    gate: &G,
    traffic: &Traffic,
    endpoints: &mut E,
) -> Result<(), ServiceError> {
    let mut nothing = Device::new(b"".as_slice());
    let base = read_log(alloc, &mut nothing)?;
    serve_kept(
        rt,
        alloc,
        size,
        gate,
        traffic,
        endpoints,
        KeptLog::new(base, MemoryAlone),
    )
}

/// Serves a topic that begins with a log. Each node has read the log before it listens.
fn serve_kept<
    K: Keep + Send + Drop,
    R: Threads + Wait + Clock + Net + RandomSource + Sync + Send + Copy + Drop,
    G: Gate + Sync,
    E: Endpoints,
>(
    rt: R,
    alloc: Global,
    size: Size,
    gate: &G,
    traffic: &Traffic,
    endpoints: &mut E,
    kept: KeptLog<K>,
) -> Result<(), ServiceError> {
    let nodes = size.nodes.clamp(1, NODES_LIMIT);
    let workers = size.workers.max(1);
    let mut grown = Vec::new(alloc);
    for _node in 0..nodes {
        grown.push(Parker::new())?;
    }
    let latch = Latch::new();
    let calls = AtomicU64::new(0);
    let common = Common {
        rt: &rt,
        alloc,
        keys: RandomState::new(&rt)?,
        grown: &grown,
        latch: &latch,
        gate,
        calls: &calls,
        nodes,
        workers,
        limit: size.limit.map(|connections| connections.saturating_mul(u64::from(workers))),
        limits: Limits::of_nodes(nodes),
        traffic,
    };
    serve_topic::<Brand, K, R, G, E>(&common, Unnamed::new(), kept, endpoints)
}

/// Opens the pen of the topic, and goes on with the nodes.
fn serve_topic<
    N: FeedName<Item, Shared> + Send + Sync,
    K: Keep + Send + Drop,
    R: Threads + Wait + Clock + Net + Sync + Send + Copy + Drop,
    G: Gate + Sync,
    E: Endpoints,
>(
    common: &Common<'_, R, G>,
    list: Unnamed<Item>,
    kept: KeptLog<K>,
    endpoints: &mut E,
) -> Result<(), ServiceError>
    requires name { (list.reached.book ≡ N.book) × (N.first ≡ held_of (topic_from kept.log.records.items kept.log.next kept.log.floor)) }
{
    let readers = common.nodes.clamp(1, NODES_LIMIT);
    let passes = common.workers.saturating_mul(readers as u32);
    let Opened { pen, passes } = open::<N, K, R>(
        *common.rt,
        common.alloc,
        list,
        kept,
        passes,
        readers,
    )?;
    let mut pen = Mutex::new(pen);
    let mut handles = TopicHandles {
        passes,
        readers: Vec::new(common.alloc),
    };
    serve_pen(common, &mut pen, &mut handles, readers, endpoints)
}

/// Makes the readers of the topic, and goes on with the nodes.
fn serve_pen<
    N: FeedName<Item, Shared> + Send + Sync,
    S: Copies<Item, Shared, N> + Send + Sync,
    K: Keep + Send + Drop,
    R: Threads + Wait + Clock + Net + Sync + Send + Copy + Drop,
    G: Gate + Sync,
    E: Endpoints,
>(
    common: &Common<'_, R, G>,
    pen: &mut Mutex<Pen<N, S, K, R>>,
    handles: &mut TopicHandles<N, S>,
    readers: usize,
    endpoints: &mut E,
) -> Result<(), ServiceError> {
    add_readers(pen.get_mut(), &mut handles.readers, readers)?;
    // A copy that may be borrowed for as long as the pen.
    let here = Common {
        rt: common.rt,
        alloc: common.alloc,
        keys: common.keys,
        grown: common.grown,
        latch: common.latch,
        gate: common.gate,
        calls: common.calls,
        nodes: common.nodes,
        workers: common.workers,
        limit: common.limit,
        limits: common.limits,
        traffic: common.traffic,
    };
    add_first::<N, S, K, Brand, R, G, E>(&here, pen, handles, Unnamed::new(), endpoints)
}

/// Adds `count` readers of the topic.
fn add_readers<
    N: FeedName<Item, Shared>,
    S: Copies<Item, Shared, N>,
    K: Keep + Drop,
    R: Wait + Drop,
>(
    pen: &mut Pen<N, S, K, R>,
    readers: &mut Vec<FeedReader<Item, Shared, N, S>>,
    count: usize,
) -> Result<(), ServiceError> {
    for _reader in 0..count {
        readers.push(pen.reader()?)?;
    }
    Ok(())
}

/// Makes the first node's feed, and goes on with the second.
fn add_first<
    'x,
    N: FeedName<Item, Shared> + Send + Sync,
    S: Copies<Item, Shared, N> + Send + Sync,
    K: Keep + Send + Drop,
    L: FeedName<Draw, Taken> + Send + Sync,
    R: Threads + Wait + Clock + Net + Sync + Send + Copy + Drop,
    G: Gate + Sync,
    E: Endpoints,
>(
    common: &'x Common<'x, R, G>,
    pen: &'x Mutex<Pen<N, S, K, R>>,
    handles: &mut TopicHandles<N, S>,
    list: Unnamed<Draw>,
    endpoints: &mut E,
) -> Result<(), ServiceError>
    requires { (list.reached.book ≡ L.book) × (L.first ≡ empty) }
{
    let first = make_parts::<N, S, L, R, G>(common, handles, 0, list)?;
    add_second::<N, S, K, L, Stored<Draw, Taken, L>, Brand, R, G, E>(
        common,
        pen,
        handles,
        &first,
        Unnamed::new(),
        endpoints,
    )
}

/// Makes the second node's feed, if there is one, and goes on with the third.
fn add_second<
    'x,
    N: FeedName<Item, Shared> + Send + Sync,
    S: Copies<Item, Shared, N> + Send + Sync,
    K: Keep + Send + Drop,
    L: FeedName<Draw, Taken> + Send + Sync,
    T: Copies<Draw, Taken, L> + Send + Sync,
    M: FeedName<Draw, Taken> + Send + Sync,
    R: Threads + Wait + Clock + Net + Sync + Send + Copy + Drop,
    G: Gate + Sync,
    E: Endpoints,
>(
    common: &'x Common<'x, R, G>,
    pen: &'x Mutex<Pen<N, S, K, R>>,
    handles: &mut TopicHandles<N, S>,
    first: &'x Option<Parts<N, S, L, T, R>>,
    list: Unnamed<Draw>,
    endpoints: &mut E,
) -> Result<(), ServiceError>
    requires { (list.reached.book ≡ M.book) × (M.first ≡ empty) }
{
    let second = make_parts::<N, S, M, R, G>(common, handles, 1, list)?;
    add_third::<N, S, K, L, T, M, Stored<Draw, Taken, M>, Brand, R, G, E>(
        common,
        pen,
        handles,
        first,
        &second,
        Unnamed::new(),
        endpoints,
    )
}

/// Makes the third node's feed, if there is one. Then the ports listen, and the nodes are made.
fn add_third<
    'x,
    N: FeedName<Item, Shared> + Send + Sync,
    S: Copies<Item, Shared, N> + Send + Sync,
    K: Keep + Send + Drop,
    L: FeedName<Draw, Taken> + Send + Sync,
    T: Copies<Draw, Taken, L> + Send + Sync,
    M: FeedName<Draw, Taken> + Send + Sync,
    U: Copies<Draw, Taken, M> + Send + Sync,
    O: FeedName<Draw, Taken> + Send + Sync,
    R: Threads + Wait + Clock + Net + Sync + Send + Copy + Drop,
    G: Gate + Sync,
    E: Endpoints,
>(
    common: &'x Common<'x, R, G>,
    pen: &'x Mutex<Pen<N, S, K, R>>,
    handles: &mut TopicHandles<N, S>,
    first: &'x Option<Parts<N, S, L, T, R>>,
    second: &'x Option<Parts<N, S, M, U, R>>,
    list: Unnamed<Draw>,
    endpoints: &mut E,
) -> Result<(), ServiceError>
    requires { (list.reached.book ≡ O.book) × (O.first ≡ empty) }
{
    let third = make_parts::<N, S, O, R, G>(common, handles, 2, list)?;
    let listeners = endpoints.listen()?;
    let resources = Resources {
        common,
        pen,
        listeners: &listeners,
    };
    make_first(
        &resources,
        &mut handles.passes,
        first,
        second,
        &third,
        endpoints,
    )
}
