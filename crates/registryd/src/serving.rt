// Nodes that serve until the program is stopped.
use reg_meters::Traffic;
use reg_node_service::{Endpoints, NoGate, ServiceError, Size, listen, serve_nodes};
use std::alloc::Global;
use std::io::{Eprint, Print};
use std::net::{IpAddr, Ipv4Addr, Net, TcpListener, TcpStream};
use std::random::RandomSource;
use std::sync::Wait;
use std::thread::Threads;
use std::time::Clock;

/// Serves at `nodes` ports of 127.0.0.1, from `port` on, each by a node of `workers` workers, and
/// returns the exit status.
///
/// It returns only if the nodes can't be started: the error is then a line on standard error, and
/// the status is 1, even if that line can't be written.
pub(crate) fn serve_ports<
    R: Threads
        + Wait
        + Clock
        + Net<Listener = TcpListener, Stream = TcpStream>
        + RandomSource
        + Print
        + Eprint
        + Sync
        + Send
        + Copy
        + Drop,
>(rt: R, alloc: Global, port: u64, nodes: u64, workers: u64) -> u8 {
    let size = Size {
        nodes: usize::try_from(nodes).unwrap_or(1),
        workers: u32::try_from(workers).unwrap_or(1),
        limit: None,
    };
    let mut ports = Ports {
        rt,
        alloc,
        port,
        nodes,
    };
    match serve_nodes(rt, alloc, size, &NoGate, &Traffic::new(), &mut ports) {
        Ok(()) => 0,
        Err(fault) => {
            let _told = rt.eprintln(fault);
            1
        }
    }
}

/// Ports of 127.0.0.1, one for each node.
#[derive(Drop)]
struct Ports<R: Drop> {
    rt: R,
    alloc: Global,
    /// The first one.
    port: u64,
    nodes: u64,
}

impl<R: Net<Listener = TcpListener, Stream = TcpStream> + Print + Drop> Endpoints for Ports<R> {
    fn listen(&mut self) -> Result<Vec<TcpListener>, ServiceError> {
        let address = IpAddr::V4(Ipv4Addr::LOCALHOST);
        Ok(listen(&self.rt, self.alloc, address, self.port, self.nodes)?)
    }

    fn ready(&mut self, _reached: u64) -> bool {
        for k in 0..self.nodes {
            let port = self.port.saturating_add(k);
            let _told = self.rt.println(format_args!("listening {port}"));
        }
        true
    }
}
