// A node over a listening socket, and what its clients meet.
use crate::asking::listen;
use crate::serve::fakes::{EchoDesk, Ledger};
use crate::trials::Machine;
use reg_connection::Limits;
use reg_meters::Traffic;
use reg_serve::{Follow, Latch, NodeServer, Observe, StartError, begin, follow_list, open_node};
use std::alloc::{AllocError, Global};
use std::io;
use std::net::SocketAddr;
use std::sync::atomic::Ordering;
use std::thread::{self, Parker, Scope};

/// Follows nothing, and tells when the node is over.
#[derive(Drop)]
struct Watching<'a> {
    ledger: &'a Ledger,
    grown: Parker,
    traffic: Traffic,
}

impl Observe for Watching<'_> {
    fn traffic(&self) -> &Traffic {
        &self.traffic
    }

    fn thread_ended(&self) {
        self.grown.unpark();
    }
}

impl Follow for Watching<'_> {
    fn follow(&self) {}

    fn is_over(&self) -> bool {
        self.ledger.over.load(Ordering::SeqCst)
    }

    fn grown(&self) -> &Parker {
        &self.grown
    }
}

/// Limits that a busy machine doesn't meet by chance, but for the ones that a test sets.
pub(crate) fn patient() -> Limits {
    let mut limits = Limits::of_nodes(1);
    limits.linger = 20_000;
    limits.look = 50;
    limits
}

/// Opens a node with so many workers.
fn open_at<'s, E, R: Machine>(
    scope: &Scope<'s, E>,
    rt: &'s R,
    alloc: Global,
    latch: &'s Latch,
    nodes: &'s [NodeServer<'s, Watching<'s>, u64>],
    size: (u64, u64),
    ledger: &'s Ledger,
) -> Result<(), StartError> {
    let (workers, limit) = size;
    let Some(node) = nodes.first() else {
        return Err(StartError);
    };
    let mut desks = Vec::new(alloc);
    for _worker in 0..workers {
        if desks.push(EchoDesk::new(rt, ledger)).is_err() {
            return Err(StartError);
        }
    }
    open_node(scope, rt, alloc, latch, node, desks, Some(limit))?;
    follow_list(scope, rt, latch, nodes, node.observer())
}

/// What a client gives while a node serves, with so many workers, which ends once so many of its connections
/// were closed.
pub(crate) fn with_node<R: Machine, B: Drop, F: FnOnce(SocketAddr) -> io::Result<B>>(
    alloc: Global,
    rt: &R,
    limits: Limits,
    size: (u64, u64),
    ledger: &Ledger,
    client: F,
) -> io::Result<B>
    requires { F.IsAlwaysCallable client }
{
    let listener = listen(rt)?;
    let address = listener.local_addr()?;
    let following = Watching {
        ledger,
        grown: Parker::new(),
        traffic: Traffic::new(),
    };
    let nodes = [NodeServer::new(rt, alloc, &listener, following, size.0 as usize, limits)?];
    let latch = Latch::new();
    let entry = &latch;
    thread::scope(
        thread::scope_env(),
        rt,
        |scope| -> io::Result<B>
            requires { F.IsAlwaysCallable client }
        {
            let started = open_at(scope, rt, alloc, entry, &nodes, size, ledger);
            if begin(entry, started, || true).is_err() {
                return Err(io::Error::from(AllocError));
            }
            client(address)
        },
    )
}
