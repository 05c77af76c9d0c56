// Readers and writers that fail: what is answered, and what is counted.
use reg_records::{Device, LINE_READS, LineError, LogError, LogFault, read_log};
use std::alloc::Global;
use std::io::{self, BufRead, ErrorKind, Read, Write};
use test_tools::{Fault, PiecedBytes};

static KINDS: [ErrorKind; 12] = [
    ErrorKind::Interrupted,
    ErrorKind::BrokenPipe,
    ErrorKind::TimedOut,
    ErrorKind::WouldBlock,
    ErrorKind::ConnectionReset,
    ErrorKind::UnexpectedEof,
    ErrorKind::WriteZero,
    ErrorKind::InvalidData,
    ErrorKind::PermissionDenied,
    ErrorKind::StorageFull,
    ErrorKind::OutOfMemory,
    ErrorKind::Other,
];

// Answers an error of that kind to each call.
#[derive(Drop)]
struct Failing {
    kind: ErrorKind,
}

impl Read for Failing {
    fn read(&mut self, _buf: &mut [u8]) -> io::Result<usize> {
        Err(io::Error::from(self.kind))
    }
}

impl Write for Failing {
    fn write(&mut self, _buf: &[u8]) -> io::Result<usize> {
        Err(io::Error::from(self.kind))
    }

    fn flush(&mut self) -> io::Result<()> {
        Err(io::Error::from(self.kind))
    }
}

fn kind_of<T: Drop>(answer: io::Result<T>) -> Option<ErrorKind> {
    match answer {
        Ok(_) => None,
        Err(error) => Some(error.kind()),
    }
}

// Whether a read, a write and a flush answer that kind, and the faults that are counted after each.
fn are_handed_on(kind: ErrorKind, faults: (u64, u64, u64)) -> bool {
    let mut device = Device::new(Failing { kind });
    let read = kind_of(device.read(&mut [0u8; 4]));
    let after_read = device.faults();
    let write = kind_of(device.write(b"abcd"));
    let after_write = device.faults();
    let flush = kind_of(device.flush());
    (read, write, flush) == (Some(kind), Some(kind), Some(kind))
        && (after_read, after_write, device.faults()) == faults
}

#[test]
fn errors_are_handed_on_and_counted(rt: HostRuntime) {
    for kind in &KINDS {
        let faults = match kind {
            ErrorKind::Interrupted => (0, 0, 0),
            _ => (1, 2, 3),
        };
        assert!(rt; are_handed_on(*kind, faults));
    }
}

// A line in the middle of which that kind of error comes so often.
fn broken_line(kind: ErrorKind, times: u64) -> Device<PiecedBytes<'static>> {
    let fault = Fault {
        left: 1,
        kind,
        times,
    };
    Device::new(PiecedBytes::new(b"7\tk\tnull\n8\tk\tnull\n", 12, fault))
}

/// How a reader's log ends.
fn error_of<R: BufRead>(alloc: Global, reader: &mut Device<R>) -> Option<LogError> {
    match read_log(alloc, reader) {
        Ok(_log) => None,
        Err(error) => Some(error),
    }
}

/// Whether a line is read on where its reader is interrupted once, and else its fault is reported.
fn is_reported_once(alloc: Global, kind: ErrorKind) -> bool {
    let mut reader = broken_line(kind, 1);
    let reported = error_of(alloc, &mut reader);
    let expected = match kind {
        ErrorKind::Interrupted => (None, 0),
        _ => (Some(LogError::ReadFault { line: 2 }), 1),
    };
    (reported, reader.faults()) == expected
}

#[test]
fn an_interrupted_line_is_read_on_and_a_fault_is_reported(rt: HostRuntime) {
    for kind in &KINDS {
        assert!(rt; is_reported_once(rt.alloc(), *kind));
    }
}

/// Whether a line is given up at its last read, and what is left is read on: it begins with a line
/// of one TAB, which comes in the last read that a line may take.
fn takes_its_reads(alloc: Global) -> bool {
    let mut reader = broken_line(ErrorKind::Interrupted, 2 * LINE_READS - 2);
    let first = error_of(alloc, &mut reader);
    let reads = reader.reads();
    let again = error_of(alloc, &mut reader);
    let fault = LogError::Fault {
        line: 1,
        fault: LogFault::Line(LineError::BadTabs),
    };
    (first, reads) == (Some(LogError::ReadFault { line: 2 }), LINE_READS)
        && (again, reader.faults()) == (Some(fault), 0)
}

#[test]
fn a_line_takes_its_reads_and_no_more(rt: HostRuntime) {
    assert!(rt; takes_its_reads(rt.alloc()));
}
