// Progress of the work on a log, reported on the error output every two seconds.
use std::alloc::{AllocError, Global};
use std::fmt;
use std::io::{self, Eprint, Read};
use std::path::Path;
use std::sync::Arc;
use std::sync::atomic::{AtomicU64, Ordering};
use std::thread::{self, JoinHandle, Threads};
use std::time::{Clock, Duration};

/// How many seconds pass before the first report and between two.
const STEP: u64 = 2;

/// How many times in a second it is checked whether the work has ended.
const LOOKS: u64 = 50;

/// What was read of a log so far.
#[derive(Drop)]
struct Counts {
    lines: AtomicU64,
    bytes: AtomicU64,
    /// How many bytes there are; 0 if that isn't known.
    size: AtomicU64,
    /// Not 0 once the work has ended.
    ended: AtomicU64,
}

/// The work on a log.
#[derive(Drop)]
pub(crate) struct Progress {
    counts: Arc<Counts>,
    name: String,
    is_quiet: bool,
    begun: Duration,
    /// The thread that reports.
    teller: Option<JoinHandle<()>>,
}

/// A reader that counts what it reads.
#[derive(Drop)]
pub(crate) struct Counted<S: Drop> {
    reader: S,
    counts: Arc<Counts>,
}

impl Progress {
    /// Begins the work on the log of a file, or on that of the input. Unless it is quiet, a thread
    /// reports the progress.
    pub(crate) fn begin<R: Threads + Clock + Eprint + Copy + Send + Sync + Drop + 'static>(
        rt: R,
        alloc: Global,
        file: Option<&str>,
        is_quiet: bool,
    ) -> Result<Progress, AllocError> {
        let counts = Arc::new(
            alloc,
            Counts {
                lines: AtomicU64::new(0),
                bytes: AtomicU64::new(0),
                size: AtomicU64::new(0),
                ended: AtomicU64::new(0),
            },
        )?;
        let name = name_of(file);
        let teller = if is_quiet {
            None
        } else {
            let counts = Arc::try_clone(&counts)?;
            let name = String::from_str(alloc, name)?;
            thread::spawn(&rt, move || tell_each_step(rt, name, counts)).ok()
        };
        Ok(Progress {
            counts,
            name: String::from_str(alloc, name)?,
            is_quiet,
            begun: now(&rt),
            teller,
        })
    }

    /// Wraps the reader, which counts from now on.
    pub(crate) fn counted<S: Read + Drop>(&self, reader: S) -> Result<Counted<S>, AllocError> {
        Ok(Counted {
            reader,
            counts: Arc::try_clone(&self.counts)?,
        })
    }

    /// Notes how many bytes there are.
    pub(crate) fn has_size(&self, bytes: u64) {
        self.counts.size.store(bytes, Ordering::SeqCst);
    }

    /// Notes that so many lines and bytes were read.
    pub(crate) fn has_read(&self, lines: u64, bytes: u64) {
        self.counts.lines.store(lines, Ordering::SeqCst);
        self.counts.bytes.store(bytes, Ordering::SeqCst);
    }

    /// Ends the work. If it took at least two seconds, a last line says how long.
    pub(crate) fn end<R: Threads + Clock + Eprint>(self, rt: &R) {
        let Progress {
            counts,
            name,
            is_quiet,
            begun,
            teller,
        } = self;
        counts.ended.store(1, Ordering::SeqCst);
        if let Some(teller) = teller {
            teller.join(rt);
        }
        let seconds = now(rt).as_secs().saturating_sub(begun.as_secs());
        if !is_quiet && seconds >= STEP {
            let name = name.as_str();
            let lines = Grouped(counts.lines.load(Ordering::SeqCst));
            let size = megabytes(&counts.bytes);
            let _told = rt.eprintln(format_args!(
                "{name}: {lines} lines, {size} MB, in {seconds} s"
            ));
        }
    }
}

impl<S: Read + Drop> Read for Counted<S> {
    fn read(&mut self, buf: &mut [u8]) -> io::Result<usize> {
        let read = self.reader.read(buf)?;
        if let Some(bytes) = buf.get(..read) {
            self.counts.bytes.fetch_add(read as u64, Ordering::SeqCst);
            let lines = line_feeds(bytes);
            self.counts.lines.fetch_add(lines, Ordering::SeqCst);
        }
        Ok(read)
    }
}

fn line_feeds(bytes: &[u8]) -> u64 {
    bytes.iter().filter(|byte| **byte == b'\n').count() as u64
}

/// Returns the name of a file without its folder, or that of the input.
fn name_of(file: Option<&str>) -> &str {
    let Some(path) = file else {
        return "standard input";
    };
    match Path::new(path).file_name() {
        Some(name) => name,
        None => path,
    }
}

/// Returns the time of a clock that only goes forward.
fn now<R: Clock>(rt: &R) -> Duration {
    match rt.monotonic() {
        Ok(time) => time,
        Err(_) => Duration::from_secs(0),
    }
}

fn megabytes(bytes: &AtomicU64) -> u64 {
    bytes.load(Ordering::SeqCst) / 1_000_000
}

/// Reports the progress until the work has ended.
fn tell_each_step<R: Clock + Eprint + Drop>(rt: R, name: String, counts: Arc<Counts>) {
    let pause = Duration::from_millis(1000 / LOOKS);
    for step in 1..u64::MAX {
        for _look in 0..STEP * LOOKS {
            thread::sleep(&rt, pause);
            if counts.ended.load(Ordering::SeqCst) != 0 {
                return;
            }
        }
        tell(&rt, name.as_str(), &counts, step.saturating_mul(STEP));
    }
}

fn tell<R: Eprint>(rt: &R, name: &str, counts: &Counts, seconds: u64) {
    let lines = Grouped(counts.lines.load(Ordering::SeqCst));
    let (read, size) = (megabytes(&counts.bytes), megabytes(&counts.size));
    let _told = if size > 0 {
        rt.eprintln(format_args!("{name}: {lines} lines, {read} MB of {size}, {seconds} s so far"))
    } else {
        rt.eprintln(format_args!("{name}: {lines} lines, {read} MB, {seconds} s so far"))
    };
}

/// A number that is shown with commas: 1,000,000.
#[derive(Clone, Copy)]
struct Grouped(u64);

impl fmt::Display for Grouped {
    fn fmt<W: fmt::Write>(&self, f: &mut fmt::Formatter<W>) -> fmt::Result {
        let (thousands, rest) = (self.0 / 1000, self.0 % 1000);
        let (millions, middle) = (thousands / 1000, thousands % 1000);
        if millions > 0 {
            write!(f, "{millions},{middle:03},{rest:03}")
        } else if thousands > 0 {
            write!(f, "{thousands},{rest:03}")
        } else {
            write!(f, "{rest}")
        }
    }
}
