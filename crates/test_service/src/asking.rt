// Nodes that serve while clients ask, and clients that ask once a connection.
use crate::trials::Machine;
use reg_meters::Traffic;
use reg_node_service::{Gate, serve_nodes};
use reg_service::{Listening, ServiceError, Size};
use std::alloc::Global;
use std::io::{self, Write};
use std::net::{SocketAddr, TcpListener, TcpStream};
use std::sync::atomic::{AtomicU64, Ordering};
use std::thread;
use std::time::{Clock, Duration};
use test_tools::Made;

/// The longest that a client waits for a byte, in seconds.
const PATIENCE: u64 = 10;

/// The most turns that a number is waited for, each a sleep of one millisecond.
const TURNS: u64 = 10_000;

/// A listener for a node, at a port that is free.
pub(crate) fn listen<R: Machine>(rt: &R) -> io::Result<TcpListener> {
    TcpListener::bind(rt, ("127.0.0.1", 0))
}

/// Adds so many listeners, and their addresses.
pub(crate) fn listen_all<R: Machine>(
    rt: &R,
    nodes: usize,
    listeners: &mut Vec<TcpListener>,
    addresses: &mut Vec<SocketAddr>,
) -> io::Result<()> {
    for _node in 0..nodes {
        let listener = listen(rt)?;
        addresses.push(listener.local_addr()?)?;
        listeners.push(listener)?;
    }
    Ok(())
}

/// Connects. A read or write that waits for long fails.
pub(crate) fn connect<R: Machine>(rt: &R, address: SocketAddr) -> io::Result<TcpStream> {
    let stream = TcpStream::connect(rt, address)?;
    let patience = Some(Duration::from_secs(PATIENCE));
    stream.set_read_timeout(patience)?;
    stream.set_write_timeout(patience)?;
    Ok(stream)
}

/// Connects, and sends that.
pub(crate) fn send_bytes<R: Machine>(
    rt: &R,
    address: SocketAddr,
    bytes: &[u8],
) -> io::Result<TcpStream> {
    let mut stream = connect(rt, address)?;
    stream.write_all(bytes)?;
    Ok(stream)
}

/// The text of a request, which is given as its method, its target and its body, if it has one, with these lines in its head.
pub(crate) fn request_of(alloc: Global, request: &str, lines: &str) -> Made<String> {
    let (method, rest) = request.split_once(' ').unwrap_or((request, ""));
    let (target, body) = rest.split_once(' ').unwrap_or((rest, ""));
    let mut text = format!(in alloc; "{method} {target} HTTP/1.1\r\nHost: a\r\n{lines}")?;
    if !body.is_empty() {
        write!(text, "Content-Length: {}\r\n", body.len())?;
    }
    write!(text, "\r\n{body}")?;
    Ok(text)
}

/// Connects, and sends a request that closes the connection.
pub(crate) fn send<R: Machine>(
    alloc: Global,
    rt: &R,
    address: SocketAddr,
    request: &str,
) -> io::Result<TcpStream> {
    let text = request_of(alloc, request, "Connection: close\r\n")?;
    send_bytes(rt, address, text.as_bytes())
}

/// The body of the response that comes, up to its end.
pub(crate) fn body(alloc: Global, stream: TcpStream) -> io::Result<String> {
    let response = io::read_to_string(alloc, stream)?;
    let (_head, body) = response.as_str().split_once("\r\n\r\n").unwrap_or(("", ""));
    Ok(String::from_str(alloc, body)?)
}

/// The body of the response to a request that closes the connection.
pub(crate) fn ask<R: Machine>(
    alloc: Global,
    rt: &R,
    address: SocketAddr,
    request: &str,
) -> io::Result<String> {
    body(alloc, send(alloc, rt, address, request)?)
}

/// Adds a line with the body of the response that comes.
pub(crate) fn tell(alloc: Global, told: &mut String, stream: TcpStream) -> io::Result<()> {
    told.push_str(body(alloc, stream)?.as_str())?;
    Ok(told.push('\n')?)
}

/// Gives so many connections to each node, and closes them at once: workers that wait for one end then,
/// also where a client failed before it connected. Those that no worker takes any more do no harm.
pub(crate) fn use_up<R: Machine>(rt: &R, addresses: &[SocketAddr], connections: u64) {
    for address in addresses {
        for _connection in 0..connections {
            let _closed = TcpStream::connect(rt, *address);
        }
    }
}

/// Serves an empty topic by a node at each listener, each with so many workers, until each worker had so many
/// connections.
fn serve_at<R: Machine, G: Gate + Sync>(
    alloc: Global,
    rt: &R,
    listeners: Vec<TcpListener>,
    workers: u32,
    limit: u64,
    gate: &G,
) -> Result<(), ServiceError> {
    let size = Size {
        nodes: listeners.len(),
        workers,
        limit: Some(limit),
    };
    let mut endpoints = Listening::new(alloc, listeners);
    serve_nodes(rt, alloc, size, gate, &Traffic::new(), &mut endpoints)
}

/// What a client gives while so many nodes serve, each with so many workers, which end after so many connections each.
pub(crate) fn while_served<
    R: Machine,
    G: Gate + Sync,
    B: Drop,
    F: FnOnce(&[SocketAddr]) -> io::Result<B>,
>(alloc: Global, rt: &R, size: (usize, u32, u64), gate: &G, client: F) -> io::Result<B>
    requires { F.IsAlwaysCallable client }
{
    let (nodes, workers, limit) = size;
    let mut listeners = Vec::new(alloc);
    let mut addresses = Vec::new(alloc);
    listen_all(rt, nodes, &mut listeners, &mut addresses)?;
    thread::scope(
        thread::scope_env(),
        rt,
        |scope| -> io::Result<B>
            requires { F.IsAlwaysCallable client }
        {
            let _server = scope.spawn(move || serve_at(alloc, rt, listeners, workers, limit, gate));
            let told = client(&addresses);
            use_up(rt, &addresses, limit.saturating_mul(u64::from(workers)));
            told
        },
    )
}

/// Sleeps until the number is there; whether it came in time.
pub(crate) fn await_number<R: Clock>(rt: &R, number: &AtomicU64, wanted: u64) -> bool {
    for _turn in 0..TURNS {
        if number.load(Ordering::SeqCst) >= wanted {
            return true;
        }
        thread::sleep(rt, Duration::from_millis(1));
    }
    false
}
