// Connections that came and went.
use crate::numbers::Counter;

/// Why a connection was closed.
#[derive(Clone, Copy, Debug, PartialEq, Eq)]
pub enum Ending {
    /// Its client closed it, or it was closed after an answer that says so.
    Done,
    /// It took too long.
    Late,
    /// It was closed to make room for another one.
    Room,
    /// All connections held too many bytes, and it held most.
    Memory,
    /// The system refused something that it needs.
    Failed,
}

/// Connections of a node that were accepted and closed since the last count.
#[derive(Clone, Copy, Debug, PartialEq, Eq)]
pub struct ConnectionTally {
    accepted: u64,
    done: u64,
    late: u64,
    room: u64,
    memory: u64,
    failed: u64,
}

impl ConnectionTally {
    /// Makes an empty tally.
    pub const fn new() -> ConnectionTally {
        ConnectionTally {
            accepted: 0,
            done: 0,
            late: 0,
            room: 0,
            memory: 0,
            failed: 0,
        }
    }

    /// Counts one that was accepted.
    pub fn accept(&mut self) {
        self.accepted = self.accepted.saturating_add(1);
    }

    /// Counts one that was closed.
    pub fn close(&mut self, ending: Ending) {
        let closed = match ending {
            Ending::Done => &mut self.done,
            Ending::Late => &mut self.late,
            Ending::Room => &mut self.room,
            Ending::Memory => &mut self.memory,
            Ending::Failed => &mut self.failed,
        };
        *closed = closed.saturating_add(1);
    }
}

/// The connections of all nodes.
#[derive(Drop)]
pub struct Connections {
    /// How many were accepted and got a place.
    pub accepted: Counter,
    /// How many of them were closed, by the reason (see [`Ending`]).
    pub done: Counter,
    pub late: Counter,
    pub room: Counter,
    pub memory: Counter,
    pub failed: Counter,
}

impl Connections {
    /// Makes meters that have counted nothing.
    pub const fn new() -> Connections {
        Connections {
            accepted: Counter::new(),
            done: Counter::new(),
            late: Counter::new(),
            room: Counter::new(),
            memory: Counter::new(),
            failed: Counter::new(),
        }
    }

    /// Adds a tally.
    pub fn count(&self, tally: ConnectionTally) {
        // Those that were accepted first, so that no more are closed than were.
        self.accepted.add(tally.accepted);
        self.done.add(tally.done);
        self.late.add(tally.late);
        self.room.add(tally.room);
        self.memory.add(tally.memory);
        self.failed.add(tally.failed);
    }

    /// Returns how many connections are open.
    pub fn open(&self) -> u64 {
        // Those that were closed first, so that none of them isn't among the accepted ones.
        let closed = self
            .done
            .count()
            .saturating_add(self.late.count())
            .saturating_add(self.room.count())
            .saturating_add(self.memory.count())
            .saturating_add(self.failed.count());
        self.accepted.count().saturating_sub(closed)
    }
}
