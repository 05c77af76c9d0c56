// What the poller and the workers of a node share.
use crate::poller::{LISTENER, WAKER};
use crate::turns::Turns;
use crossbeam_channel::{Receiver, Sender, bounded};
use mio::unix::SourceFd;
use mio::{Interest, Poll, Registry, Token, Waker};
use reg_connection::Connection;
use std::alloc::Global;
use std::io;
use std::net::{Net, TcpListener, TcpStream};
use std::os::fd::AsRawFd;
use std::sync::Wait;
use std::sync::atomic::{AtomicBool, AtomicUsize, Ordering};

/// What a worker takes up.
#[derive(Drop)]
pub(crate) enum Job<T: Drop> {
    /// A request on it is whole, or its client has ended its side.
    Attend(Connection<TcpStream, T>),
    /// There is nothing more to do.
    End,
}

/// A connection that a worker gives back, and its place; none where it is closed.
#[derive(Drop)]
pub(crate) struct Returned<T: Drop> {
    pub(crate) place: usize,
    pub(crate) connection: Option<Connection<TcpStream, T>>,
}

/// What the poller and the workers of a node share.
#[derive(Drop)]
pub(crate) struct SharedState<T: Drop> {
    to_workers: Sender<Job<T>>,
    ready: Receiver<Job<T>>,
    to_poller: Sender<Returned<T>>,
    back: Receiver<Returned<T>>,
    registry: Registry,
    waker: Waker,
    /// Whether the poller waits, or is about to.
    asleep: AtomicBool,
    /// How many workers wait for a connection.
    idle: AtomicUsize,
    /// Whether the node is to end, whatever connections it has.
    closed: AtomicBool,
    /// Which workers are at commands and at checks.
    pub(crate) turns: Turns<T>,
}

impl<T: Drop> SharedState<T> {
    /// What they share, for so many connections and workers, and the poll, which listens.
    pub(crate) fn open(
        net: &impl Net,
        alloc: Global,
        listener: &TcpListener,
        connections: usize,
        workers: usize,
    ) -> io::Result<(SharedState<T>, Poll)> {
        listener.set_nonblocking(true)?;
        let poll = Poll::new(net)?;
        let fd = listener.as_raw_fd();
        poll.registry()
            .register(&mut SourceFd(&fd), LISTENER, Interest::READABLE)?;
        let waker = Waker::new(poll.registry(), WAKER)?;
        let registry = poll.registry().try_clone()?;
        // Each connection is in one of them at most, so neither is ever full.
        let (to_workers, ready) = bounded(alloc, connections.saturating_add(workers))?;
        let (to_poller, back) = bounded(alloc, connections.saturating_add(workers))?;
        let shared = SharedState {
            to_workers,
            ready,
            to_poller,
            back,
            registry,
            waker,
            asleep: AtomicBool::new(false),
            idle: AtomicUsize::new(0),
            closed: AtomicBool::new(false),
            turns: Turns::new(alloc, workers, connections)?,
        };
        Ok((shared, poll))
    }

    /// Hands a connection to the workers. `false` where it is lost.
    pub(crate) fn hand<R: Wait>(&self, rt: &R, connection: Connection<TcpStream, T>) -> bool {
        self.to_workers.send(rt, Job::Attend(connection)).is_ok()
    }

    /// The node is to end. Wakes the poller.
    pub(crate) fn close(&self) {
        self.closed.store(true, Ordering::SeqCst);
        let _woken = self.waker.wake();
    }

    pub(crate) fn is_closed(&self) -> bool {
        self.closed.load(Ordering::SeqCst)
    }

    /// Lets so many workers end.
    pub(crate) fn end<R: Wait>(&self, rt: &R, workers: usize) {
        for _worker in 0..workers {
            let _sent = self.to_workers.send(rt, Job::End);
        }
    }

    /// Waits for a connection to attend to; none where there is nothing more to do.
    pub(crate) fn take<R: Wait>(&self, rt: &R) -> Option<Connection<TcpStream, T>> {
        self.idle.fetch_add(1, Ordering::SeqCst);
        let job = self.ready.recv(rt);
        self.idle.fetch_sub(1, Ordering::SeqCst);
        match job {
            Ok(Job::Attend(connection)) => Some(connection),
            Ok(Job::End) | Err(_) => None,
        }
    }

    /// Whether each connection that is ready has a worker that waits for it.
    pub(crate) fn is_calm(&self) -> bool {
        self.ready.len() <= self.idle.load(Ordering::SeqCst)
    }

    /// Gives a place back to the poller, with its connection if it isn't closed.
    pub(crate) fn give_back<R: Wait>(&self, rt: &R, returned: Returned<T>) {
        let _sent = self.to_poller.send(rt, returned);
        if self.asleep.swap(false, Ordering::SeqCst) {
            let _woken = self.waker.wake();
        }
    }

    /// What a worker gave back, if there is any.
    pub(crate) fn returned<R: Wait>(&self, rt: &R) -> Option<Returned<T>> {
        self.back.try_recv(rt).ok()
    }

    /// The poller is about to wait. Says whether nothing was given back by then.
    pub(crate) fn may_sleep(&self) -> bool {
        self.asleep.store(true, Ordering::SeqCst);
        self.back.is_empty()
    }

    /// The poller doesn't wait any more.
    pub(crate) fn wake_up(&self) {
        self.asleep.store(false, Ordering::SeqCst);
    }

    /// Has the poll report a connection, once it can be read or written again.
    pub(crate) fn watch(&self, connection: &mut Connection<TcpStream, T>) -> bool {
        let fd = connection.stream.as_raw_fd();
        let both = Interest::READABLE | Interest::WRITABLE;
        let token = Token(connection.place);
        connection.watched = self
            .registry
            .register(&mut SourceFd(&fd), token, both)
            .is_ok();
        connection.watched
    }

    /// Has the poll report a connection no longer.
    pub(crate) fn unwatch(&self, connection: &mut Connection<TcpStream, T>) -> bool {
        let fd = connection.stream.as_raw_fd();
        if connection.watched && self.registry.deregister(&mut SourceFd(&fd)).is_err() {
            return false;
        }
        connection.watched = false;
        true
    }
}
