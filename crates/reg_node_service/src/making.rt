// Makes the nodes, one after the other; each stays on the stack here while the threads of all run.
use crate::common::{Others, take_all};
use crate::following::Following;
use crate::parts::{NamedDesk, Parts, Resources, make_desks, make_server};
use crate::running::serve;
use reg_desk::Gate;
use reg_feed::{Copies, FeedName};
use reg_node::{Draw, Taken};
use reg_pen::{Keep, Pass};
use reg_serve::{Follow, NodeServer, Observe, SharedDesk};
use reg_service::{Endpoints, ServiceError};
use reg_shared::Shared;
use reg_topic::Item;
use std::net::Net;
use std::sync::Wait;
use std::thread::Threads;
use std::time::Clock;

/// Makes the first node, and goes on with the second.
pub(crate) fn make_first<
    'y,
    N: FeedName<Item, Shared> + Send + Sync,
    S: Copies<Item, Shared, N> + Send + Sync,
    K: Keep + Send + Drop,
    L: FeedName<Draw, Taken> + Send + Sync,
    T: Copies<Draw, Taken, L> + Send + Sync,
    M: FeedName<Draw, Taken> + Send + Sync,
    U: Copies<Draw, Taken, M> + Send + Sync,
    O: FeedName<Draw, Taken> + Send + Sync,
    V: Copies<Draw, Taken, O> + Send + Sync,
    R: Threads + Wait + Clock + Net + Sync + Send + Copy + Drop,
    G: Gate + Sync,
    E: Endpoints,
>(
    resources: &'y Resources<'y, N, S, K, R, G>,
    passes: &mut Vec<Pass<N>>,
    first: &'y Option<Parts<N, S, L, T, R>>,
    second: &'y Option<Parts<N, S, M, U, R>>,
    third: &'y Option<Parts<N, S, O, V, R>>,
    endpoints: &mut E,
) -> Result<(), ServiceError> {
    let mut desks = desks_of(resources, passes, 0, first)?;
    let servers = servers_of(resources, 0, first)?;
    make_second(
        resources, passes, &servers, &mut desks, second, third, endpoints,
    )
}

/// Makes the second node, if there is one, and goes on with the third.
fn make_second<
    'y,
    T1: Send + Drop + 'y,
    D1: SharedDesk<Standing = T1> + Send + Drop + 'y,
    W1: Observe + Follow + Sync + Drop + 'y,
    N: FeedName<Item, Shared> + Send + Sync,
    S: Copies<Item, Shared, N> + Send + Sync,
    K: Keep + Send + Drop,
    M: FeedName<Draw, Taken> + Send + Sync,
    U: Copies<Draw, Taken, M> + Send + Sync,
    O: FeedName<Draw, Taken> + Send + Sync,
    V: Copies<Draw, Taken, O> + Send + Sync,
    R: Threads + Wait + Clock + Net + Sync + Send + Copy + Drop,
    G: Gate + Sync,
    E: Endpoints,
>(
    resources: &'y Resources<'y, N, S, K, R, G>,
    passes: &mut Vec<Pass<N>>,
    first: &'y [NodeServer<'y, W1, T1>],
    first_desks: &mut Vec<D1>,
    second: &'y Option<Parts<N, S, M, U, R>>,
    third: &'y Option<Parts<N, S, O, V, R>>,
    endpoints: &mut E,
) -> Result<(), ServiceError> {
    let mut desks = desks_of(resources, passes, 1, second)?;
    let servers = servers_of(resources, 1, second)?;
    make_third(
        resources,
        passes,
        first,
        first_desks,
        &servers,
        &mut desks,
        third,
        endpoints,
    )
}

/// Makes the third node, if there is one, and serves by all.
fn make_third<
    'y,
    T1: Send + Drop + 'y,
    D1: SharedDesk<Standing = T1> + Send + Drop + 'y,
    W1: Observe + Follow + Sync + Drop + 'y,
    T2: Send + Drop + 'y,
    D2: SharedDesk<Standing = T2> + Send + Drop + 'y,
    W2: Observe + Follow + Sync + Drop + 'y,
    N: FeedName<Item, Shared> + Send + Sync,
    S: Copies<Item, Shared, N> + Send + Sync,
    K: Keep + Send + Drop,
    O: FeedName<Draw, Taken> + Send + Sync,
    V: Copies<Draw, Taken, O> + Send + Sync,
    R: Threads + Wait + Clock + Net + Sync + Send + Copy + Drop,
    G: Gate + Sync,
    E: Endpoints,
>(
    resources: &'y Resources<'y, N, S, K, R, G>,
    passes: &mut Vec<Pass<N>>,
    first: &'y [NodeServer<'y, W1, T1>],
    first_desks: &mut Vec<D1>,
    second: &'y [NodeServer<'y, W2, T2>],
    second_desks: &mut Vec<D2>,
    third: &'y Option<Parts<N, S, O, V, R>>,
    endpoints: &mut E,
) -> Result<(), ServiceError> {
    let mut desks = desks_of(resources, passes, 2, third)?;
    let servers = servers_of(resources, 2, third)?;
    serve(
        resources.common,
        first,
        first_desks,
        second,
        second_desks,
        &servers,
        &mut desks,
        endpoints,
    )
}

/// Makes the desks of the node of that number; none if it has no parts.
fn desks_of<
    'y,
    N: FeedName<Item, Shared>,
    S: Copies<Item, Shared, N>,
    K: Keep + Drop,
    M: FeedName<Draw, Taken>,
    U: Copies<Draw, Taken, M>,
    R: Wait + Drop,
    G: Gate,
>(
    resources: &'y Resources<'y, N, S, K, R, G>,
    passes: &mut Vec<Pass<N>>,
    number: usize,
    parts: &'y Option<Parts<N, S, M, U, R>>,
) -> Result<Vec<NamedDesk<'y, N, S, K, M, U, R, G>>, ServiceError> {
    let common = resources.common;
    let Some(parts) = parts else {
        return Ok(Vec::new(common.alloc));
    };
    let others = Others {
        grown: common.grown,
        own: number,
    };
    let views = take_all(common.rt, common.alloc, &parts.views);
    make_desks(
        common,
        resources.pen,
        passes,
        &parts.follower,
        others,
        views,
    )
}

/// Makes the server of the node of that number; none if it has no parts.
fn servers_of<
    'y,
    N: FeedName<Item, Shared>,
    S: Copies<Item, Shared, N>,
    K: Keep + Drop,
    M: FeedName<Draw, Taken>,
    U: Copies<Draw, Taken, M>,
    R: Wait + Net + Drop,
    G,
    T: Drop,
>(
    resources: &'y Resources<'y, N, S, K, R, G>,
    number: usize,
    parts: &'y Option<Parts<N, S, M, U, R>>,
) -> Result<Vec<NodeServer<'y, Following<'y, N, S, M, U, R>, T>>, ServiceError> {
    let (common, listeners) = (resources.common, resources.listeners);
    let mut servers = Vec::new(common.alloc);
    if let Some(parts) = parts {
        servers.push(make_server(common, listeners, number, &parts.follower)?)?;
    }
    Ok(servers)
}
