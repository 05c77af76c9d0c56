// The threads that read the adapter's messages and write requests to it.
use reg_adapter_line::{AdapterLine, Overhear, read_messages, send_requests};
use reg_service::ServiceError;
use std::alloc::Global;
use std::io::{BufRead, Write};
use std::sync::{Arc, Wait};
use std::thread::{self, Threads};
use std::time::Clock;

/// The work of a thread beside the ports.
trait Talk {
    fn run(&mut self, line: &AdapterLine);
}

/// Reads messages.
#[derive(Drop)]
struct Reading<B: Drop, R: Drop, H: Drop> {
    rt: R,
    alloc: Global,
    reader: B,
    overhear: Arc<H, Global>,
}

impl<B: BufRead + Drop, R: Wait + Clock + Drop, H: Overhear + Drop> Talk for Reading<B, R, H> {
    fn run(&mut self, line: &AdapterLine) {
        let overhear: &H = &self.overhear;
        read_messages(&self.rt, self.alloc, &mut self.reader, line, overhear);
    }
}

/// Writes requests.
#[derive(Drop)]
struct Sending<W: Drop, R: Drop, H: Drop> {
    rt: R,
    writer: W,
    overhear: Arc<H, Global>,
}

impl<W: Write + Drop, R: Wait + Clock + Drop, H: Overhear + Drop> Talk for Sending<W, R, H> {
    fn run(&mut self, line: &AdapterLine) {
        let overhear: &H = &self.overhear;
        send_requests(&self.rt, &mut self.writer, line, overhear);
    }
}

/// Starts the thread that reads messages and the one that writes requests. Nobody joins them: they
/// may block for ever. Fails if a thread can't be started, or if memory is refused.
pub(crate) fn start_talking<
    B: BufRead + Send + Drop + 'static,
    W: Write + Send + Drop + 'static,
    R: Threads + Wait + Clock + Send + Copy + Drop + 'static,
    H: Overhear + Send + Sync + Drop + 'static,
>(
    rt: R,
    alloc: Global,
    reader: B,
    writer: W,
    line: &Arc<AdapterLine, Global>,
    overhear: &Arc<H, Global>,
) -> Result<(), ServiceError> {
    let reading = Reading {
        rt,
        alloc,
        reader,
        overhear: Arc::try_clone(overhear)?,
    };
    let sending = Sending {
        rt,
        writer,
        overhear: Arc::try_clone(overhear)?,
    };
    let heard = Arc::try_clone(line)?;
    let asked = Arc::try_clone(line)?;
    start(&rt, reading, heard)?;
    start(&rt, sending, asked)
}

fn start<R: Threads, T: Talk + Send + Drop + 'static>(
    rt: &R,
    talk: T,
    line: Arc<AdapterLine, Global>,
) -> Result<(), ServiceError> {
    let mut talk = talk;
    match thread::spawn(rt, move || talk.run(&line)) {
        Ok(_thread) => Ok(()),
        Err(_refused) => Err(ServiceError::NotStarted),
    }
}
