// `registrylog join`: nodes over a shared log, which an adapter tells on the standard input and
// output.
use crate::place::Place;
use crate::watching::{SharedBoard, date};
use reg_join_service::{AskedFor, Heard, Overhear, RULES, Watch};
use reg_meters::microseconds;
use reg_metrics::AdapterReply;
use reg_service::{Endpoints, ServiceError};
use std::alloc::{AllocError, Global};
use std::io::{self, Eprint, Print, Read};
use std::net::{Net, TcpListener, TcpStream};
use std::sync::Arc;
use std::sync::atomic::{AtomicU64, Ordering};
use std::thread::{self, Threads};
use std::time::{Clock, Duration};

/// How long an adapter may say nothing at a start before the operator is told, in seconds.
const SILENT_FOR: u64 = 30;

/// The microseconds of a second.
const MICROSECONDS: u64 = 1_000_000;

/// Returns how long nobody asks the store for news before the process does by itself; `None` for 0
/// seconds, if it never does.
pub(crate) fn checks_of(seconds: u64) -> Option<Duration> {
    if seconds == 0 {
        None
    } else {
        Some(Duration::from_secs(seconds))
    }
}

/// The ports of the nodes.
#[derive(Drop)]
pub(crate) struct JoinPorts<'a, R: Drop> {
    rt: R,
    alloc: Global,
    place: Place,
    every: Option<Duration>,
    board: &'a SharedBoard,
}

impl<'a, R: Drop> JoinPorts<'a, R> {
    pub(crate) fn new(
        rt: R,
        alloc: Global,
        place: Place,
        every: Option<Duration>,
        board: &'a SharedBoard,
    ) -> JoinPorts<'a, R> {
        JoinPorts {
            rt,
            alloc,
            place,
            every,
            board,
        }
    }
}

impl<R: Net<Listener = TcpListener, Stream = TcpStream> + Eprint + Clock + Drop> Endpoints
    for JoinPorts<'_, R> {
    fn listen(&mut self) -> Result<Vec<TcpListener>, ServiceError> {
        self.place.listen(&self.rt, self.alloc)
    }

    fn ready(&mut self, reached: u64) -> bool {
        let every = match self.every {
            Some(every) => every.as_secs().saturating_mul(MICROSECONDS),
            None => 0,
        };
        self.board.adapter.join(microseconds(&self.rt), every);
        self.board.marks.listens.set(true);
        let _told = self
            .rt
            .eprintln(format_args!("joined, next offset {reached}"));
        true
    }
}

/// Reports on the error output that no command writes a told batch.
#[derive(Drop)]
pub(crate) struct JoinWatch<'a, R: Drop> {
    rt: R,
    board: &'a SharedBoard,
}

impl<'a, R: Drop> JoinWatch<'a, R> {
    pub(crate) fn new(rt: R, board: &'a SharedBoard) -> JoinWatch<'a, R> {
        JoinWatch { rt, board }
    }
}

impl<R: Eprint + Drop> Watch for JoinWatch<'_, R> {
    fn stopped(&self, offset: u64) {
        self.board.marks.is_unlawful.set(true);
        let _told = self.rt.eprintln(format_args!("batch at offset {offset} is not a command's"));
    }
}

/// A reader of what an adapter tells, which counts the reads that gave something.
#[derive(Drop)]
pub(crate) struct HeardInput<S: Drop> {
    reader: S,
    reads: Arc<AtomicU64>,
}

impl<S: Read + Drop> HeardInput<S> {
    /// Wraps the reader. Until the ports listen, a thread tells the operator of each 30 s in which
    /// nothing came: at a start an adapter may wait for its store for as long as that takes.
    pub(crate) fn watched<R: Threads + Clock + Eprint + Copy + Send + Sync + Drop + 'static>(
        rt: R,
        alloc: Global,
        reader: S,
        board: SharedBoard,
    ) -> Result<HeardInput<S>, AllocError> {
        let reads = Arc::new(alloc, AtomicU64::new(0))?;
        let heard = Arc::try_clone(&reads)?;
        let _teller = thread::spawn(&rt, move || tell_silences(rt, heard, board));
        Ok(HeardInput { reader, reads })
    }
}

impl<S: Read + Drop> Read for HeardInput<S> {
    fn read(&mut self, buf: &mut [u8]) -> io::Result<usize> {
        let read = self.reader.read(buf)?;
        if read > 0 {
            self.reads.fetch_add(1, Ordering::SeqCst);
        }
        Ok(read)
    }
}

/// Tells the operator of each 30 s in which nothing was read, until the ports listen.
fn tell_silences<R: Clock + Eprint + Drop>(rt: R, reads: Arc<AtomicU64>, board: SharedBoard) {
    let (mut heard, mut seconds) = (0, 0u64);
    for _second in 0..u64::MAX {
        thread::sleep(&rt, Duration::from_secs(1));
        if board.marks.listens.is_set() {
            return;
        }
        let now = reads.load(Ordering::SeqCst);
        seconds = if now == heard {
            seconds.saturating_add(1)
        } else {
            0
        };
        heard = now;
        if seconds >= SILENT_FOR {
            let _told = rt.eprintln("the adapter has said nothing for 30 s: is its store there?");
            seconds = 0;
        }
    }
}

/// Counts the messages between a process and its adapter.
#[derive(Drop)]
pub(crate) struct JoinCounts<R: Drop> {
    rt: R,
    board: SharedBoard,
}

impl<R: Drop> JoinCounts<R> {
    pub(crate) fn new(rt: R, board: SharedBoard) -> JoinCounts<R> {
        JoinCounts { rt, board }
    }
}

impl<R: Clock + Drop> Overhear for JoinCounts<R> {
    fn heard(&self, message: Heard) {
        if message == Heard::Batch {
            self.board.adapter.hear_batch();
        }
        if let Some(reply) = reply_in(message) {
            let (now, date) = (microseconds(&self.rt), date(&self.rt));
            self.board
                .adapter
                .hear_reply(&self.board.batches, reply, now, date);
        }
    }

    fn asked(&self, request: AskedFor) {
        let is_check = request == AskedFor::Check;
        self.board.adapter.ask(is_check, microseconds(&self.rt));
    }
}

/// Returns the answer that a message is, if it is one.
fn reply_in(message: Heard) -> Option<AdapterReply> {
    match message {
        Heard::Batch | Heard::Ready => None,
        Heard::Kept => Some(AdapterReply::Kept),
        Heard::Behind => Some(AdapterReply::Behind),
        Heard::Declined => Some(AdapterReply::Declined),
        Heard::Lost => Some(AdapterReply::Lost),
    }
}

/// Writes the number of the registry's rules.
pub(crate) fn tell_rules<R: Print>(rt: &R) -> io::Result<()> {
    println!(rt; "{RULES}")
}
