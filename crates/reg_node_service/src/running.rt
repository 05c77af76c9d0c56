// Threads over one, two or three nodes, each with types of its own. A node that doesn't exist has
// no server.
use crate::common::Common;
use reg_serve::{
    Follow, NodeServer, Observe, SharedDesk, StartError, begin, follow_list, open_node,
};
use reg_service::{Endpoints, ServiceError};
use std::mem;
use std::sync::Wait;
use std::thread::{self, Scope, Threads};
use std::time::Clock;

/// Starts the threads of all nodes, lets them begin, and returns once all have ended.
pub(crate) fn serve<
    's,
    T1: Send + Drop + 's,
    D1: SharedDesk<Standing = T1> + Send + Drop + 's,
    W1: Observe + Follow + Sync + Drop + 's,
    T2: Send + Drop + 's,
    D2: SharedDesk<Standing = T2> + Send + Drop + 's,
    W2: Observe + Follow + Sync + Drop + 's,
    T3: Send + Drop + 's,
    D3: SharedDesk<Standing = T3> + Send + Drop + 's,
    W3: Observe + Follow + Sync + Drop + 's,
    R: Threads + Wait + Clock + Sync,
    G,
    E: Endpoints,
>(
    common: &'s Common<'s, R, G>,
    first: &'s [NodeServer<'s, W1, T1>],
    first_desks: &mut Vec<D1>,
    second: &'s [NodeServer<'s, W2, T2>],
    second_desks: &mut Vec<D2>,
    third: &'s [NodeServer<'s, W3, T3>],
    third_desks: &mut Vec<D3>,
    endpoints: &mut E,
) -> Result<(), ServiceError> {
    thread::scope(
        thread::scope_env(),
        common.rt,
        |scope| -> Result<(), ServiceError> {
            let started = start_nodes(
                scope,
                common,
                first,
                first_desks,
                second,
                second_desks,
                third,
                third_desks,
            );
            // An empty topic goes on at offset 0.
            begin(common.latch, started, || endpoints.ready(0))?;
            Ok(())
        },
    )
}

/// Starts the threads of all nodes, in the order of their numbers.
fn start_nodes<
    's,
    X,
    T1: Send + Drop + 's,
    D1: SharedDesk<Standing = T1> + Send + Drop + 's,
    W1: Observe + Follow + Sync + Drop + 's,
    T2: Send + Drop + 's,
    D2: SharedDesk<Standing = T2> + Send + Drop + 's,
    W2: Observe + Follow + Sync + Drop + 's,
    T3: Send + Drop + 's,
    D3: SharedDesk<Standing = T3> + Send + Drop + 's,
    W3: Observe + Follow + Sync + Drop + 's,
    R: Threads + Wait + Clock + Sync,
    G,
>(
    scope: &Scope<'s, X>,
    common: &'s Common<'s, R, G>,
    first: &'s [NodeServer<'s, W1, T1>],
    first_desks: &mut Vec<D1>,
    second: &'s [NodeServer<'s, W2, T2>],
    second_desks: &mut Vec<D2>,
    third: &'s [NodeServer<'s, W3, T3>],
    third_desks: &mut Vec<D3>,
) -> Result<(), StartError> {
    start_node(scope, common, first, first_desks)?;
    start_node(scope, common, second, second_desks)?;
    start_node(scope, common, third, third_desks)
}

/// Starts a node's threads; does nothing if there is no such node.
fn start_node<
    's,
    X,
    T: Send + Drop + 's,
    D: SharedDesk<Standing = T> + Send + Drop + 's,
    W: Observe + Follow + Sync + Drop + 's,
    R: Threads + Wait + Clock + Sync + 's,
    G,
>(
    scope: &Scope<'s, X>,
    common: &'s Common<'s, R, G>,
    servers: &'s [NodeServer<'s, W, T>],
    desks: &mut Vec<D>,
) -> Result<(), StartError> {
    let (rt, alloc, latch) = (common.rt, common.alloc, common.latch);
    let Some(server) = servers.first() else {
        return Ok(());
    };
    let desks = mem::replace(desks, Vec::new(alloc));
    open_node(scope, rt, alloc, latch, server, desks, common.limit)?;
    follow_list(scope, rt, latch, servers, server.observer())
}
