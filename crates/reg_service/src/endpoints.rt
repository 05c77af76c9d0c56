// How nodes are reached.
use crate::error::ServiceError;
use std::alloc::Global;
use std::mem;
use std::net::TcpListener;

/// Where the nodes are reached.
pub trait Endpoints {
    /// Where nodes listen, the first node at the first one. Called once, after the log was read.
    fn listen(&mut self) -> Result<Vec<TcpListener>, ServiceError>;

    /// All threads are there, and begin where this says so. `reached` says how far the log was read by then: its next offset, or where
    /// lines are followed how many. Called once, or not at all where a thread was refused.
    fn ready(&mut self, reached: u64) -> bool;
}

/// Listeners that are there already.
#[derive(Drop)]
pub struct Listening {
    alloc: Global,
    listeners: Vec<TcpListener>,
}

impl Listening {
    /// Nodes listen there, the first node at the first one.
    pub fn new(alloc: Global, listeners: Vec<TcpListener>) -> Listening {
        Listening { alloc, listeners }
    }
}

impl Endpoints for Listening {
    fn listen(&mut self) -> Result<Vec<TcpListener>, ServiceError> {
        Ok(mem::replace(&mut self.listeners, Vec::new(self.alloc)))
    }

    fn ready(&mut self, _reached: u64) -> bool {
        true
    }
}
