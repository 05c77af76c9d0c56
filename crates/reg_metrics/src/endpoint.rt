// Where pages are asked for: a listener, and threads that answer, each one connection at a time.
use crate::answering::answer_to;
use crate::asked::{PageRequest, asked_in};
use crate::stage::Stage;
use std::alloc::{AllocError, Global};
use std::io::{self, ErrorKind, Read, Write};
use std::net::{TcpListener, TcpStream};
use std::sync::atomic::{AtomicU64, Ordering};
use std::sync::{Arc, Wait};
use std::thread::{self, Threads};
use std::time::{Clock, Duration, Instant};

/// The most connections at a time.
const CONNECTIONS: u64 = 8;

/// The most bytes of a head.
const HEAD: usize = 8_192;

/// The most bytes of one read.
const PIECE: usize = 1_024;

/// How long a request and its response may take, in seconds.
const WITHIN: u64 = 10;

/// How long a head may take, in seconds.
const HEAD_WITHIN: u64 = 1;

/// How long a connection that sent nothing is kept if all threads wait for heads, in milliseconds.
/// Then it is closed, so that a new connection gets a thread.
const SILENT: u64 = 10;

/// How often that time fits in the time of a head.
const SILENCES: u64 = HEAD_WITHIN * 1_000 / SILENT;

/// The pause after a failed accept, in milliseconds.
const AGAIN: u64 = 100;

/// The contents of the pages.
pub trait Pages {
    /// Makes the page of numbers. The only error is out of memory.
    fn metrics(&self, alloc: Global) -> Result<Vec<u8>, AllocError>;

    /// Returns how far the process is.
    fn stage(&self) -> Stage;
}

/// A listener with the pages that it serves.
#[derive(Drop)]
struct Endpoint<R: Drop, P: Drop> {
    rt: R,
    alloc: Global,
    listener: TcpListener,
    pages: P,
    /// How many threads wait for a head.
    waiting: AtomicU64,
}

/// Answers requests for pages at the listener, in threads that end with the process. Fails if a
/// thread can't be made.
pub fn serve_pages<
    R: Threads + Wait + Clock + Sync + Send + Copy + Drop + 'static,
    P: Pages + Sync + Send + Drop + 'static,
>(rt: R, alloc: Global, listener: TcpListener, pages: P) -> io::Result<()> {
    let endpoint = Endpoint {
        rt,
        alloc,
        listener,
        pages,
        waiting: AtomicU64::new(0),
    };
    let endpoint = Arc::new(alloc, endpoint)?;
    for _connection in 0..CONNECTIONS {
        start(&rt, Arc::try_clone(&endpoint)?)?;
    }
    Ok(())
}

fn start<R: Threads, T: Answers + Send + Drop + 'static>(rt: &R, task: T) -> io::Result<()> {
    match thread::spawn(rt, move || task.answer_all()) {
        Ok(_thread) => Ok(()),
        Err(_refused) => Err(io::Error::from(ErrorKind::OutOfMemory)),
    }
}

/// The work of a thread.
trait Answers {
    fn answer_all(&self);
}

impl<R: Wait + Clock + Drop, P: Pages + Drop> Answers for Arc<Endpoint<R, P>, Global> {
    fn answer_all(&self) {
        for _ in self.rt.forever() {
            match self.listener.accept() {
                Ok((stream, _peer)) => {
                    let _answered = self.answer(stream);
                }
                Err(_refused) => thread::sleep(&self.rt, Duration::from_millis(AGAIN)),
            }
        }
    }
}

impl<R: Clock + Drop, P: Pages + Drop> Endpoint<R, P> {
    /// Answers the one request of a connection.
    fn answer(&self, stream: TcpStream) -> io::Result<()> {
        let mut stream = stream;
        let begun = Instant::now(&self.rt)?;
        self.waiting.fetch_add(1, Ordering::SeqCst);
        let head = take_head(&self.rt, self.alloc, &mut stream, begun, &self.waiting);
        self.waiting.fetch_sub(1, Ordering::SeqCst);
        let asked = match head? {
            Some(head) => asked_in(&head),
            None => PageRequest::Malformed,
        };
        let page = match asked {
            PageRequest::Metrics => self.pages.metrics(self.alloc)?,
            _ => Vec::new(self.alloc),
        };
        let response = answer_to(self.alloc, asked, self.pages.stage(), &page)?;
        send(&self.rt, &mut stream, begun, &response)
    }
}

/// Sends a response.
fn send<R: Clock>(
    rt: &R,
    stream: &mut TcpStream,
    begun: Instant,
    response: &[u8],
) -> io::Result<()> {
    let mut rest = response;
    for _piece in 0..response.len() {
        if rest.is_empty() {
            break;
        }
        stream.set_write_timeout(Some(left(rt, begun, WITHIN)?))?;
        let len = stream.write(rest)?;
        rest = rest.get(len..).unwrap_or(&[]);
    }
    Ok(())
}

/// Returns the time that is left of `within` seconds; fails if none is.
fn left<R: Clock>(rt: &R, begun: Instant, within: u64) -> io::Result<Duration> {
    let taken = Instant::now(rt)?.duration_since(begun);
    match Duration::from_secs(within).checked_sub(taken) {
        Some(left) => {
            if left.is_zero() {
                return Err(io::Error::from(ErrorKind::TimedOut));
            }
            Ok(left)
        }
        None => Err(io::Error::from(ErrorKind::TimedOut)),
    }
}

/// Reads the bytes up to an empty line; `None` if there is none within the limit.
fn take_head<R: Clock>(
    rt: &R,
    alloc: Global,
    stream: &mut TcpStream,
    begun: Instant,
    waiting: &AtomicU64,
) -> io::Result<Option<Vec<u8>>> {
    let mut head = Vec::new(alloc);
    let mut buffer = [0u8; PIECE];
    for _piece in 0..HEAD {
        let len = take_piece(rt, stream, &mut buffer, begun, head.is_empty(), waiting)?;
        let bytes = buffer.get(..len).unwrap_or(&[]);
        if bytes.is_empty() || HEAD - head.len().min(HEAD) < bytes.len() {
            return Ok(None);
        }
        head.extend_from_slice(bytes)?;
        if has_end(&head) {
            return Ok(Some(head));
        }
    }
    Ok(None)
}

/// Reads some of a head. Fails if it takes too long, or if nothing came yet and others have to
/// wait.
fn take_piece<R: Clock>(
    rt: &R,
    stream: &mut TcpStream,
    buffer: &mut [u8],
    begun: Instant,
    is_silent: bool,
    waiting: &AtomicU64,
) -> io::Result<usize> {
    for _ in 0..SILENCES {
        let within = left(rt, begun, HEAD_WITHIN)?.min(Duration::from_millis(SILENT));
        stream.set_read_timeout(Some(within))?;
        match stream.read(buffer) {
            Ok(len) => return Ok(len),
            Err(error) => match error.kind() {
                ErrorKind::WouldBlock | ErrorKind::TimedOut => {}
                _ => return Err(error),
            },
        }
        if is_silent && waiting.load(Ordering::SeqCst) >= CONNECTIONS {
            break;
        }
    }
    Err(io::Error::from(ErrorKind::TimedOut))
}

/// Returns whether there is an empty line in the bytes.
fn has_end(bytes: &[u8]) -> bool {
    for place in 0..bytes.len() {
        if bytes[place..].starts_with(b"\r\n\r\n") {
            return true;
        }
    }
    false
}
