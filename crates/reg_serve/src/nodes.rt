// Nodes: where each listens, its poller, its workers, and the thread that follows a list for them.
ghost use Rattle.std.specs.Prelude.{true, IsOk, OnOk};

use crate::latch::Latch;
use crate::poller::{EVENTS, Poller};
use crate::shared_state::SharedState;
use crate::worker::{WorkerState, read_buffer, work};
use mio::{Events, Poll};
use reg_connection::Limits;
use reg_conversation::SharedDesk;
use reg_meters::Traffic;
use std::alloc::{AllocError, Global};
use std::io;
use std::net::{Net, TcpListener};
use std::sync::atomic::{AtomicU64, Ordering};
use std::sync::{Mutex, Wait};
use std::thread::{Parker, Scope, Threads};
use std::time::{Clock, Duration};

/// How long a thread that follows a list waits at most, in milliseconds.
const FOLLOW_WITHIN: u64 = 50;

/// What the threads of a node tell.
pub trait Observe {
    /// Where the node's connections and requests are counted.
    fn traffic(&self) -> &Traffic;

    /// A worker of the node, or its poller, has ended.
    fn thread_ended(&self);
}

/// Counts a node's connections and requests, and wakes whoever waits for the end of its threads.
#[derive(Drop)]
pub struct Watched<'a> {
    traffic: &'a Traffic,
    ended: Option<&'a Parker>,
}

impl<'a> Watched<'a> {
    /// Counts there, and unparks that one, if one is given, at the end of each thread.
    pub fn new(traffic: &'a Traffic, ended: Option<&'a Parker>) -> Watched<'a> {
        Watched { traffic, ended }
    }
}

impl Observe for Watched<'_> {
    fn traffic(&self) -> &Traffic {
        self.traffic
    }

    fn thread_ended(&self) {
        if let Some(ended) = self.ended {
            ended.unpark();
        }
    }
}

/// Follows a list for nodes. One thread calls `follow` each time that `grown` was unparked, and 50 ms after its last call at the latest.
/// The end of the nodes' other threads has to unpark it.
pub trait Follow {
    /// Brings what is new of the list to the nodes.
    fn follow(&self);

    /// Whether the nodes are to end, though their clients go on. It is asked after each call of `follow`.
    fn is_over(&self) -> bool;

    /// Whoever makes the list grow unparks it; nobody else parks on it.
    fn grown(&self) -> &Parker;
}

/// A node: where it listens, what its threads tell, and what its poller and its workers share.
#[derive(Drop)]
pub struct NodeServer<'a, F: Drop, T: Drop> {
    listener: &'a TcpListener,
    observer: F,
    workers: usize,
    limits: Limits,
    shared: SharedState<T>,
    poll: Mutex<Poll>,
    /// How many of its threads haven't ended.
    at_work: AtomicU64,
}

impl<'a, F: Drop, T: Drop> NodeServer<'a, F, T> {
    /// A node that isn't opened yet, with room for so many workers. Fails where memory, a descriptor or
    /// the listener's options are refused.
    pub fn new(
        net: &impl Net,
        alloc: Global,
        listener: &'a TcpListener,
        observer: F,
        workers: usize,
        limits: Limits,
    ) -> io::Result<NodeServer<'a, F, T>> {
        let (shared, poll) = SharedState::open(net, alloc, listener, limits.connections, workers)?;
        Ok(NodeServer {
            listener,
            observer,
            workers,
            limits,
            shared,
            poll: Mutex::new(poll),
            at_work: AtomicU64::new(0),
        })
    }

    /// What its threads tell.
    pub fn observer(&self) -> &F {
        &self.observer
    }
}

/// A thread or its memory was refused, or it wasn't time to begin.
#[derive(Clone, Copy, Debug, PartialEq, Eq)]
pub struct StartError;

impl From<AllocError> for StartError {
    fn from(_refused: AllocError) -> StartError {
        StartError
    }
}

/// Starts a node's threads, which wait at the latch: the poller, and a worker for each desk. With a limit the node ends once so many of its
/// connections were closed. Fails where a thread can't be made, or the memory that it begins with; those that were made still wait at the
/// latch.
pub fn open_node<
    's,
    E,
    R: Threads + Wait + Clock + Sync + 's,
    T: Send + Drop + 's,
    D: SharedDesk<Standing = T> + Send + Drop + 's,
    F: Observe + Sync + Drop + 's,
>(
    scope: &Scope<'s, E>,
    rt: &'s R,
    alloc: Global,
    latch: &'s Latch,
    node: &'s NodeServer<'s, F, T>,
    desks: Vec<D>,
    limit: Option<u64>,
) -> Result<(), StartError> {
    for desk in desks {
        let buffer = read_buffer(alloc)?;
        node.at_work.fetch_add(1, Ordering::SeqCst);
        if scope
            .spawn(move || serve_at(rt, alloc, latch, node, buffer, desk))
            .is_err()
        {
            return Err(StartError);
        }
    }
    let poller = Poller::new(alloc, node.listener, &node.shared, node.limits)?;
    let events = Events::with_capacity(alloc, EVENTS)?;
    node.at_work.fetch_add(1, Ordering::SeqCst);
    if scope
        .spawn(move || poll_at(rt, latch, node, poller, events, limit))
        .is_err()
    {
        return Err(StartError);
    }
    Ok(())
}

/// Starts the thread that follows a list for the nodes, which waits at the latch, and ends once their other threads have ended. The nodes
/// end once it says that it is over. Fails where the thread can't be made.
pub fn follow_list<
    's,
    E,
    R: Wait + Sync + 's,
    T: Send + Drop + 's,
    F: Sync + Drop + 's,
    W: Follow + Sync + 's,
>(
    scope: &Scope<'s, E>,
    rt: &'s R,
    latch: &'s Latch,
    nodes: &'s [NodeServer<'s, F, T>],
    follow: &'s W,
) -> Result<(), StartError> {
    if scope
        .spawn(move || follow_at(rt, latch, nodes, follow))
        .is_err()
    {
        return Err(StartError);
    }
    Ok(())
}

/// What a worker's thread does. It makes the worker's state itself, so that only its buffer goes to
/// the thread.
fn serve_at<R: Wait + Clock, D: SharedDesk + Drop, F: Observe + Drop>(
    rt: &R,
    alloc: Global,
    latch: &Latch,
    node: &NodeServer<'_, F, D::Standing>,
    buffer: Vec<u8>,
    desk: D,
) {
    let mut state = WorkerState::new(alloc, buffer);
    let mut desk = desk;
    if latch.pass(rt) {
        let traffic = node.observer.traffic();
        work(rt, alloc, &node.shared, traffic, &mut state, &mut desk);
    }
    leave_work(node);
}

/// What the poller's thread does.
fn poll_at<R: Wait + Clock, T: Drop, F: Observe + Drop>(
    rt: &R,
    latch: &Latch,
    node: &NodeServer<'_, F, T>,
    poller: Poller<'_, T>,
    events: Events,
    limit: Option<u64>,
) {
    let mut poller = poller;
    let mut events = events;
    if latch.pass(rt) {
        let mut poll = node.poll.lock(rt);
        let traffic = node.observer.traffic();
        poller.run(rt, &mut poll, &mut events, limit, traffic);
        node.shared.end(rt, node.workers);
    }
    leave_work(node);
}

/// A thread has ended.
fn leave_work<T: Drop, F: Observe + Drop>(node: &NodeServer<'_, F, T>) {
    node.at_work.fetch_sub(1, Ordering::SeqCst);
    node.observer.thread_ended();
}

/// What the thread does that follows a list, until all others have ended.
fn follow_at<R: Wait, T: Drop, F: Drop, W: Follow>(
    rt: &R,
    latch: &Latch,
    nodes: &[NodeServer<'_, F, T>],
    follow: &W,
) {
    if !latch.pass(rt) {
        return;
    }
    let within = Duration::from_millis(FOLLOW_WITHIN);
    for _ in rt.forever() {
        if !are_at_work(nodes) {
            break;
        }
        follow.grown().park_timeout(rt, within);
        follow.follow();
        if follow.is_over() {
            close_all(nodes);
        }
    }
}

/// Whether a thread of one of the nodes hasn't ended.
fn are_at_work<T: Drop, F: Drop>(nodes: &[NodeServer<'_, F, T>]) -> bool {
    nodes
        .iter()
        .any(|node| node.at_work.load(Ordering::SeqCst) != 0)
}

/// The nodes are to end.
fn close_all<T: Drop, F: Drop>(nodes: &[NodeServer<'_, F, T>]) {
    for node in nodes {
        node.shared.close();
    }
}

/// Opens the latch where all threads were started and `ready` says that it is time, and else gives it
/// up, so that those that were started end. `ready` isn't called where one was refused.
pub fn begin<F: FnOnce() -> bool>(
    latch: &Latch,
    started: Result<(), StartError>,
    ready: F,
) -> Result<(), StartError>
    requires { F.IsAlwaysCallable ready }
    ensures { OnOk result (IsOk started × F.post ready true) }
{
    if started.is_ok() && ready() {
        latch.open();
        Ok(())
    } else {
        latch.give_up();
        Err(StartError)
    }
}
