// The poller of a node: it has the listener, and each connection that no worker has.
use crate::shared_state::{Returned, SharedState};
use crate::worker::READ_SIZE;
use mio::{Events, Poll, Token};
use reg_connection::{Connection, Limits, Places, Turn};
use reg_meters::{ConnectionTally, Ending, Traffic};
use std::alloc::{AllocError, Global};
use std::io::ErrorKind;
use std::net::{TcpListener, TcpStream};
use std::sync::Wait;
use std::time::{Clock, Duration};
use std::{mem, thread};

pub(crate) const LISTENER: Token = Token(usize::MAX);

pub(crate) const WAKER: Token = Token(usize::MAX - 1);

/// The most events that one call of the poll reports.
pub(crate) const EVENTS: usize = 256;

/// The most connections that are accepted in one turn, and that are taken back from workers, so that
/// neither keeps the other waiting.
const AT_ONCE: u64 = 64;

/// What the poller knows.
#[derive(Drop)]
pub(crate) struct Poller<'a, T: Drop> {
    alloc: Global,
    listener: &'a TcpListener,
    shared: &'a SharedState<T>,
    limits: Limits,
    places: Places<TcpStream, T>,
    /// Whether the connection of each place is to be looked at again, and whether one is.
    again: Vec<bool>,
    looks_again: bool,
    buffer: Vec<u8>,
    /// Milliseconds of one clock.
    now: u64,
    /// Whether connections may wait to be accepted, and from when on they are.
    accepts: bool,
    accepts_from: u64,
    /// One that was accepted, and waits for a place.
    unplaced: Option<TcpStream>,
    /// When it last looked for connections that take too long.
    looked: u64,
    /// The connections that came and went since they were last counted.
    tally: ConnectionTally,
}

impl<'a, T: Drop> Poller<'a, T> {
    /// The poller at a listener.
    pub(crate) fn new(
        alloc: Global,
        listener: &'a TcpListener,
        shared: &'a SharedState<T>,
        limits: Limits,
    ) -> Result<Poller<'a, T>, AllocError> {
        let mut buffer = Vec::new(alloc);
        buffer.resize(READ_SIZE, 0u8)?;
        let mut again = Vec::new(alloc);
        again.resize(limits.connections, false)?;
        Ok(Poller {
            alloc,
            listener,
            shared,
            limits,
            places: Places::new(alloc, limits.connections)?,
            again,
            looks_again: false,
            buffer,
            now: 0,
            accepts: true,
            accepts_from: 0,
            unplaced: None,
            looked: 0,
            tally: ConnectionTally::new(),
        })
    }

    /// Runs until the node is to end; with a limit, until so many connections were closed. Counts them in the traffic.
    pub(crate) fn run<R: Wait + Clock>(
        &mut self,
        rt: &R,
        poll: &mut Poll,
        events: &mut Events,
        limit: Option<u64>,
        traffic: &Traffic,
    ) {
        for _ in rt.forever() {
            if self.is_done(limit) {
                break;
            }
            self.wait(rt, poll, events);
            self.tell_time(rt);
            for event in events.iter() {
                self.note(rt, event.token());
            }
            self.look_again(rt);
            self.take_back(rt);
            self.accept_some(rt);
            self.look_for_late();
            self.lighten();
            traffic
                .connections
                .count(mem::replace(&mut self.tally, ConnectionTally::new()));
        }
    }

    /// Whether it runs no longer.
    fn is_done(&self, limit: Option<u64>) -> bool {
        if let Some(limit) = limit {
            if self.places.closed() >= limit {
                return true;
            }
        }
        self.shared.is_closed()
    }

    /// Waits for events.
    fn wait<R: Wait + Clock>(&mut self, rt: &R, poll: &mut Poll, events: &mut Events) {
        let may_sleep = self.shared.may_sleep();
        let timeout = self.timeout(may_sleep);
        if let Err(e) = poll.poll(events, timeout) {
            events.clear();
            if e.kind() != ErrorKind::Interrupted {
                thread::sleep(rt, Duration::from_millis(self.limits.pause));
            }
        }
        self.shared.wake_up();
    }

    /// How long to wait for events, where it may sleep.
    fn timeout(&self, may_sleep: bool) -> Option<Duration> {
        if !may_sleep || self.looks_again {
            return Some(Duration::from_millis(0));
        }
        if self.accepts || self.unplaced.is_some() {
            let left = self.accepts_from.saturating_sub(self.now);
            return Some(Duration::from_millis(left.min(self.limits.pause)));
        }
        if self.places.is_empty() {
            return None;
        }
        Some(Duration::from_millis(self.limits.look))
    }

    fn tell_time<R: Clock>(&mut self, rt: &R) {
        if let Ok(now) = rt.monotonic() {
            self.now = now
                .as_secs()
                .saturating_mul(1_000)
                .saturating_add(u64::from(now.subsec_millis()));
        }
    }

    /// Does what an event tells.
    fn note<R: Wait>(&mut self, rt: &R, token: Token) {
        if token == LISTENER {
            self.accepts = true;
        } else if token != WAKER {
            self.stir(rt, token.0);
        }
    }

    /// Looks at the connection of a place, where the poller has it.
    fn stir<R: Wait>(&mut self, rt: &R, at: usize) {
        if let Some(connection) = self.places.stir(at) {
            self.look(rt, at, connection);
        }
    }

    /// The connection of a place is to be looked at again.
    fn mark_again(&mut self, at: usize) {
        if let Some(again) = self.again.get_mut(at) {
            *again = true;
            self.looks_again = true;
        }
    }

    /// Looks at those of which more may be there.
    fn look_again<R: Wait>(&mut self, rt: &R) {
        if !mem::replace(&mut self.looks_again, false) {
            return;
        }
        for at in 0..self.again.len() {
            if self.take_mark(at) {
                self.stir(rt, at);
            }
        }
    }

    /// Whether the connection of a place was to be looked at again, which it isn't any more.
    fn take_mark(&mut self, at: usize) -> bool {
        match self.again.get_mut(at) {
            Some(again) => mem::replace(again, false),
            None => false,
        }
    }

    /// Looks at a connection that was taken from its place, and puts it where it belongs.
    fn look<R: Wait>(&mut self, rt: &R, at: usize, connection: Connection<TcpStream, T>) {
        let mut connection = connection;
        match connection.look(self.alloc, &self.limits, &mut self.buffer, self.now) {
            Turn::Waits => self.places.hold(at, connection),
            Turn::Again => {
                self.places.hold(at, connection);
                self.mark_again(at);
            }
            Turn::Ready => {
                self.places
                    .lend(at, connection.weight(), connection.stirred);
                if !self.shared.hand(rt, connection) {
                    self.close(at, Ending::Failed);
                }
            }
            Turn::Over => self.close(at, Ending::Done),
        }
    }

    /// Takes back what workers have done with.
    fn take_back<R: Wait>(&mut self, rt: &R) {
        for _ in 0..AT_ONCE {
            match self.shared.returned(rt) {
                Some(
                    Returned {
                        place,
                        connection: Some(connection),
                    },
                ) => self.regain(rt, place, connection),
                Some(
                    Returned {
                        place,
                        connection: None,
                    },
                ) => self.close(place, Ending::Done),
                None => return,
            }
        }
    }

    /// Takes back a connection, and looks at it where something may be there.
    fn regain<R: Wait>(&mut self, rt: &R, at: usize, connection: Connection<TcpStream, T>) {
        let mut connection = connection;
        let stirred = connection.stirred || self.places.was_stirred(at);
        connection.rest(self.alloc, self.now);
        if !connection.watched && !self.shared.watch(&mut connection) {
            self.close(at, Ending::Failed);
        } else if stirred {
            self.look(rt, at, connection);
        } else {
            self.places.hold(at, connection);
        }
    }

    /// Accepts what waits, as long as there is room. Where a connection can't be accepted, as where the system is out of
    /// descriptors, the oldest one makes room, and it is tried again after a pause.
    fn accept_some<R: Wait>(&mut self, rt: &R) {
        if self.now < self.accepts_from {
            return;
        }
        if let Some(stream) = self.unplaced.take() {
            self.admit(rt, stream);
        }
        for _ in 0..AT_ONCE {
            if !self.accepts || self.unplaced.is_some() {
                return;
            }
            match self.listener.accept() {
                Ok((stream, _peer)) => self.admit(rt, stream),
                Err(e) => match e.kind() {
                    ErrorKind::WouldBlock => self.accepts = false,
                    ErrorKind::Interrupted | ErrorKind::ConnectionAborted => {}
                    _ => {
                        self.make_room(rt);
                        self.accepts_from = self.now.saturating_add(self.limits.pause);
                        return;
                    }
                },
            }
        }
    }

    /// Lets a connection in. Where all places are taken the oldest one makes room, or this one waits.
    fn admit<R: Wait>(&mut self, rt: &R, stream: TcpStream) {
        if self.places.is_full() {
            self.make_room(rt);
        }
        let Some(at) = self.places.take_free() else {
            self.unplaced = Some(stream);
            self.accepts_from = self.now.saturating_add(self.limits.pause);
            return;
        };
        self.tally.accept();
        let wait = Duration::from_millis(self.limits.stay);
        if !is_set_up(&stream, wait) {
            self.close(at, Ending::Failed);
            return;
        }
        let mut connection = Connection::new(self.alloc, stream, at, self.now);
        if self.shared.watch(&mut connection) {
            self.places.hold(at, connection);
        } else {
            self.close(at, Ending::Failed);
        }
    }

    /// Closes the connection of a place, if one is there, and frees the place.
    fn close(&mut self, at: usize, ending: Ending) {
        self.places.leave(at);
        self.tally.close(ending);
    }

    /// Closes the connection that has waited longest since its last whole request, if for longer than from
    /// one look to the next. One on which a request has come meanwhile goes to a worker, and the next one
    /// is looked at.
    fn make_room<R: Wait>(&mut self, rt: &R) {
        let by = self.now.saturating_sub(self.limits.look);
        for _ in 0..self.places.len() {
            let Some(at) = self.places.oldest(by) else {
                return;
            };
            self.stir(rt, at);
            if self.places.held(at).is_some() {
                self.close(at, Ending::Room);
                return;
            }
            if !self.places.is_full() {
                return;
            }
        }
    }

    /// Closes the connections that take too long.
    fn look_for_late(&mut self) {
        if self.now.saturating_sub(self.looked) < self.limits.look {
            return;
        }
        self.looked = self.now;
        for at in 0..self.places.len() {
            let late = match self.places.held(at) {
                Some(connection) => connection.is_late(&self.limits, self.now),
                None => false,
            };
            if late {
                self.close(at, Ending::Late);
            }
        }
    }

    /// Closes the connections that hold most, until all hold no more than they may.
    fn lighten(&mut self) {
        for _ in 0..self.places.len() {
            if self.places.weight() <= self.limits.bytes {
                return;
            }
            match self.places.heaviest() {
                Some(at) => self.close(at, Ending::Memory),
                None => return,
            }
        }
    }
}

/// Sets what a connection needs; whether that went well.
fn is_set_up(stream: &TcpStream, wait: Duration) -> bool {
    stream.set_nodelay(true).is_ok()
        && stream.set_read_timeout(Some(wait)).is_ok()
        && stream.set_write_timeout(Some(wait)).is_ok()
        && stream.set_nonblocking(true).is_ok()
}
