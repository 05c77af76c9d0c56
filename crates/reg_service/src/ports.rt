// The ports of a process, which all answer from one list, and their threads.
use crate::endpoints::Endpoints;
use crate::error::ServiceError;
use crate::size::Size;
use reg_meters::Traffic;
use reg_serve::{
    Follow, Latch, Limits, NodeServer, SharedDesk, StartError, Watched, begin, follow_list,
    open_node,
};
use std::alloc::Global;
use std::net::{Net, TcpListener};
use std::sync::Wait;
use std::thread::{self, Parker, Scope, Threads};
use std::time::Clock;

/// A port, whose answers stand on fronts of that type.
type Port<'a, T> = NodeServer<'a, Watched<'a>, T>;

/// Serves by the desks at so many ports, each with a poller, which holds the connections, and workers, of which each has a desk: the first
/// port takes the last ones. Connections and requests of all ports are counted in the traffic; `ready` is told what was reached. Where
/// something is to be followed, one thread does it for all ports, which end once it is over.
///
/// With a limit the call returns once all ports have ended. It fails where they can't be started.
pub fn serve_desks<
    T: Send + Drop,
    D: SharedDesk<Standing = T> + Send + Drop,
    R: Threads + Wait + Clock + Net + Sync,
    E: Endpoints,
    W: Follow + Sync,
>(
    rt: &R,
    alloc: Global,
    size: Size,
    traffic: &Traffic,
    desks: &mut Vec<D>,
    endpoints: &mut E,
    reached: u64,
    follow: Option<&W>,
) -> Result<(), ServiceError> {
    let listeners = endpoints.listen()?;
    let ended = follow.map(|follow| follow.grown());
    let ports = make_ports::<T, R>(rt, alloc, size, traffic, ended, &listeners)?;
    let latch = Latch::new();
    run_ports(
        rt, alloc, &latch, size, &ports, desks, endpoints, reached, follow,
    )
}

/// The ports, which aren't opened yet: one for each listener.
fn make_ports<'a, T: Drop, R: Net>(
    net: &R,
    alloc: Global,
    size: Size,
    traffic: &'a Traffic,
    ended: Option<&'a Parker>,
    listeners: &'a [TcpListener],
) -> Result<Vec<Port<'a, T>>, ServiceError> {
    let limits = Limits::of_nodes(size.ports());
    let workers = size.port_workers() as usize;
    let mut ports = Vec::new(alloc);
    for listener in listeners {
        let watched = Watched::new(traffic, ended);
        ports.push(NodeServer::new(net, alloc, listener, watched, workers, limits)?)?;
    }
    Ok(ports)
}

/// Starts all threads, lets them begin, and returns once all have ended.
fn run_ports<
    's,
    T: Send + Drop + 's,
    D: SharedDesk<Standing = T> + Send + Drop + 's,
    R: Threads + Wait + Clock + Sync + 's,
    E: Endpoints,
    W: Follow + Sync + 's,
>(
    rt: &'s R,
    alloc: Global,
    latch: &'s Latch,
    size: Size,
    ports: &'s [Port<'s, T>],
    desks: &mut Vec<D>,
    endpoints: &mut E,
    reached: u64,
    follow: Option<&'s W>,
) -> Result<(), ServiceError> {
    thread::scope(
        thread::scope_env(),
        rt,
        |scope| -> Result<(), ServiceError> {
            let started = start_threads(scope, rt, alloc, latch, size, ports, desks, follow);
            begin(latch, started, || endpoints.ready(reached))?;
            Ok(())
        },
    )
}

/// Starts the threads of all ports, and the one that follows for them, if there is one.
fn start_threads<
    's,
    X,
    T: Send + Drop + 's,
    D: SharedDesk<Standing = T> + Send + Drop + 's,
    R: Threads + Wait + Clock + Sync + 's,
    W: Follow + Sync + 's,
>(
    scope: &Scope<'s, X>,
    rt: &'s R,
    alloc: Global,
    latch: &'s Latch,
    size: Size,
    ports: &'s [Port<'s, T>],
    desks: &mut Vec<D>,
    follow: Option<&'s W>,
) -> Result<(), StartError> {
    open_ports(scope, rt, alloc, latch, size, ports, desks)?;
    match follow {
        Some(follow) => follow_list(scope, rt, latch, ports, follow),
        None => Ok(()),
    }
}

/// Starts the threads of each port, with as many of the desks as it has workers.
fn open_ports<
    's,
    X,
    T: Send + Drop + 's,
    D: SharedDesk<Standing = T> + Send + Drop + 's,
    R: Threads + Wait + Clock + Sync + 's,
>(
    scope: &Scope<'s, X>,
    rt: &'s R,
    alloc: Global,
    latch: &'s Latch,
    size: Size,
    ports: &'s [Port<'s, T>],
    desks: &mut Vec<D>,
) -> Result<(), StartError> {
    for port in ports {
        let mut own = Vec::new(alloc);
        for _worker in 0..size.port_workers() {
            let Some(desk) = desks.pop() else {
                return Err(StartError);
            };
            if own.push(desk).is_err() {
                return Err(StartError);
            }
        }
        open_node(scope, rt, alloc, latch, port, own, size.connections())?;
    }
    Ok(())
}
