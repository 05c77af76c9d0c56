// The turns of a node's workers, and the connections that wait for one.
ghost use Rattle.std.specs.Prelude.{◌≡◌, IfSome};

use crate::queues::Queues;
use reg_connection::{Connection, TurnKind};
use std::alloc::{AllocError, Global};
use std::net::TcpStream;
use std::sync::{Mutex, Wait};

/// A turn that a worker has. There is none but what `Turns` gives.
#[derive(Debug, Drop)]
pub(crate) struct Leave {
    kind: TurnKind,
}

/// The turn that a connection was given while it waited for one, if any; a worker has it from now on.
pub(crate) fn take_up<T: Drop>(connection: &mut Connection<TcpStream, T>) -> Option<Leave>
    ensures { connection.new.conversation ≡ connection.old.conversation }
{
    match connection.turn.take() {
        Some(kind) => Some(Leave { kind }),
        None => None,
    }
}

impl Leave {
    /// Of which kind it is.
    pub(crate) fn kind(&self) -> TurnKind
        ensures { result ≡ self.now.kind }
    {
        self.kind
    }
}

/// The turns of a node, and the connections that wait for theirs without a worker.
#[derive(Drop)]
pub(crate) struct Turns<T: Drop> {
    queues: Mutex<Queues<Connection<TcpStream, T>>>,
}

impl<T: Drop> Turns<T> {
    /// Turns for so many workers, with room for so many connections.
    pub(crate) fn new(
        alloc: Global,
        workers: usize,
        connections: usize,
    ) -> Result<Turns<T>, AllocError> {
        Ok(Turns {
            queues: Mutex::new(Queues::new(alloc, workers, connections)?),
        })
    }

    /// Takes a turn, if one is free.
    pub(crate) fn begin<R: Wait>(&self, rt: &R, kind: TurnKind) -> Option<Leave>
        ensures { IfSome result (λ leave. leave.kind ≡ kind) }
    {
        let mut queues = self.queues.lock(rt);
        if queues.begin(kind) {
            Some(Leave { kind })
        } else {
            None
        }
    }

    /// A turn is taken no longer. Gives the connection that goes on with a turn now; it is to be handed to a worker.
    pub(crate) fn end<R: Wait>(&self, rt: &R, leave: Leave) -> Option<Connection<TcpStream, T>> {
        let mut queues = self.queues.lock(rt);
        let (given, next) = queues.end(leave.kind)?;
        let mut next = next;
        next.turn = Some(given);
        Some(next)
    }

    /// Has a connection wait for a turn, unless one is free now: then it has that, and is given back. `Err` where it
    /// is lost.
    pub(crate) fn wait<R: Wait>(
        &self,
        rt: &R,
        kind: TurnKind,
        connection: Connection<TcpStream, T>,
    ) -> Result<Option<Connection<TcpStream, T>>, AllocError> {
        let mut queues = self.queues.lock(rt);
        if queues.begin(kind) {
            let mut connection = connection;
            connection.turn = Some(kind);
            return Ok(Some(connection));
        }
        match queues.wait(kind, connection) {
            Ok(()) => Ok(None),
            Err(_) => Err(AllocError),
        }
    }
}
