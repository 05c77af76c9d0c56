// Readers and writers that move some bytes at a time, and fail or are interrupted.
use std::alloc::Global;
use std::io::{self, BufRead, ErrorKind, Read, Write};

/// An error that is answered so many times, after so many calls.
#[derive(Clone, Copy, Drop)]
pub struct Fault {
    pub left: usize,
    pub kind: ErrorKind,
    pub times: u64,
}

/// An error that never comes.
pub const NO_FAULT: Fault = Fault {
    left: 0,
    kind: ErrorKind::Other,
    times: 0,
};

impl Fault {
    /// Counts a call, which is answered by the error where it is its turn.
    fn count(&mut self) -> io::Result<()> {
        if self.left > 0 {
            self.left -= 1;
        } else if self.times > 0 {
            self.times -= 1;
            return Err(io::Error::from(self.kind));
        }
        Ok(())
    }
}

/// Gives so many bytes at each read, of which some answer an error.
#[derive(Drop)]
pub struct PiecedBytes<'a> {
    bytes: &'a [u8],
    /// How many of them were read, and aren't consumed yet.
    ready: usize,
    size: usize,
    fault: Fault,
}

impl<'a> PiecedBytes<'a> {
    /// Gives the bytes, so many at each read, and that error.
    pub fn new(bytes: &'a [u8], size: usize, fault: Fault) -> PiecedBytes<'a> {
        PiecedBytes {
            bytes,
            ready: 0,
            size,
            fault,
        }
    }

    /// Reads the next piece, where the one before is consumed.
    fn prepare(&mut self) -> io::Result<()> {
        if self.ready == 0 {
            self.fault.count()?;
            self.ready = self.size.min(self.bytes.len());
        }
        Ok(())
    }
}

impl Read for PiecedBytes<'_> {
    fn read(&mut self, buf: &mut [u8]) -> io::Result<usize> {
        self.prepare()?;
        match (self.bytes.split_first(), buf.first_mut()) {
            (Some((byte, rest)), Some(place)) => {
                *place = *byte;
                self.bytes = rest;
                self.ready = self.ready.saturating_sub(1);
                Ok(1)
            }
            _ => Ok(0),
        }
    }
}

impl BufRead for PiecedBytes<'_> {
    fn fill_buf(&mut self) -> io::Result<&[u8]> {
        self.prepare()?;
        Ok(&self.bytes[..self.ready.min(self.bytes.len())])
    }

    fn consume(&mut self, amount: usize) {
        self.ready = self.ready.saturating_sub(amount);
        self.bytes = &self.bytes[amount.min(self.bytes.len())..];
    }
}

/// Takes so many bytes at each write, and counts the flushes. Before each write and each flush it is interrupted so many times,
/// and some of them answer an error, and later ones another.
#[derive(Drop)]
pub struct Taking {
    pub taken: Vec<u8>,
    pub flushes: usize,
    /// Whether a flush came after the last write.
    pub is_flushed: bool,
    size: usize,
    pub fault: Fault,
    later: Fault,
    interruptions: u64,
    due: u64,
}

impl Taking {
    /// Takes so many bytes at each write, and answers that error.
    pub fn new(alloc: Global, size: usize, fault: Fault) -> Taking {
        Taking::interrupted(alloc, size, fault, NO_FAULT, 0)
    }

    /// Takes so many bytes at each write and answers `fault`, or a later error after the calls that it lets go well. It is
    /// interrupted so many times before each write and each flush.
    pub fn interrupted(
        alloc: Global,
        size: usize,
        fault: Fault,
        later: Fault,
        interruptions: u64,
    ) -> Taking {
        Taking {
            taken: Vec::new(alloc),
            flushes: 0,
            is_flushed: false,
            size,
            fault,
            later,
            interruptions,
            due: interruptions,
        }
    }

    fn count(&mut self) -> io::Result<()> {
        if self.due > 0 {
            self.due -= 1;
            return Err(io::Error::from(ErrorKind::Interrupted));
        }
        self.due = self.interruptions;
        self.fault.count()?;
        self.later.count()
    }
}

impl Write for Taking {
    fn write(&mut self, buf: &[u8]) -> io::Result<usize> {
        self.count()?;
        self.is_flushed = false;
        self.taken.write(&buf[..self.size.min(buf.len())])
    }

    fn flush(&mut self) -> io::Result<()> {
        self.count()?;
        self.is_flushed = true;
        self.flushes = self.flushes.saturating_add(1);
        Ok(())
    }
}
