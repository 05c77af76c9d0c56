// Where nodes listen.
use reg_service::{ServiceError, Size, listen};
use std::alloc::Global;
use std::net::{Net, SocketAddr, TcpListener, TcpStream};

/// Where nodes listen, and how many there are.
#[derive(Clone, Copy)]
pub(crate) struct Place {
    /// Where the first node listens; each other node listens at the next port.
    listen: SocketAddr,
    nodes: usize,
    /// The workers of each node.
    workers: u32,
}

impl Place {
    pub(crate) fn new(listen: SocketAddr, nodes: usize, workers: u32) -> Place {
        Place {
            listen,
            nodes,
            workers,
        }
    }

    /// Returns the number of nodes and of workers, without a limit of connections.
    pub(crate) fn size(self) -> Size {
        Size {
            nodes: self.nodes,
            workers: self.workers,
            limit: None,
        }
    }

    /// Listens for each node.
    pub(crate) fn listen<R: Net<Listener = TcpListener, Stream = TcpStream>>(
        self,
        rt: &R,
        alloc: Global,
    ) -> Result<Vec<TcpListener>, ServiceError> {
        let address = self.listen.ip();
        let port = u64::from(self.listen.port());
        Ok(listen(rt, alloc, address, port, self.nodes as u64)?)
    }
}
