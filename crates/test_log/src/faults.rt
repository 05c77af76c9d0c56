// Filters that end before their end, and what is said of errors.
use reg_adapter::MessageError;
use reg_compaction::{FilterError, compact};
use reg_inspection::inspect;
use std::alloc::Global;
use std::io::{self, ErrorKind, Write};
use test_tools::{Fault, Made, PiecedBytes, Taking};

/// A log of one line.
const LOG: &[u8] = b"0\tx\ty\n";

/// An error at each call.
const EACH_CALL: Fault = Fault {
    left: 0,
    kind: ErrorKind::Other,
    times: u64::MAX,
};

/// Takes all bytes, and fails to hand them on.
#[derive(Drop)]
pub(crate) struct NotFlushed(pub(crate) Vec<u8>);

impl Write for NotFlushed {
    fn write(&mut self, buf: &[u8]) -> io::Result<usize> {
        self.0.extend_from_slice(buf)?;
        Ok(buf.len())
    }

    fn flush(&mut self) -> io::Result<()> {
        Err(io::Error::from(ErrorKind::Other))
    }
}

#[test]
fn a_lost_reader_ends_a_filter(rt: HostRuntime) {
    let alloc = rt.alloc();
    let mut written = Vec::new(alloc);
    let mut reader = PiecedBytes::new(b"", 1, EACH_CALL);
    let lost = compact(alloc, &mut reader, &mut written);
    assert!(rt; lost == Err(FilterError::ReadFault) && written.is_empty());
}

#[test]
fn a_lost_writer_ends_a_filter(rt: HostRuntime) {
    let alloc = rt.alloc();
    let (mut first, mut second, mut third) = (LOG, LOG, LOG);
    let lost = compact(alloc, &mut first, &mut Taking::new(alloc, 1, EACH_CALL));
    assert!(rt; lost == Err(FilterError::WriteFault));
    let lost = compact(alloc, &mut second, &mut NotFlushed(Vec::new(alloc)));
    assert!(rt; lost == Err(FilterError::WriteFault));
    let lost = inspect(alloc, &mut third, &mut NotFlushed(Vec::new(alloc)));
    assert!(rt; lost == Err(FilterError::WriteFault));
}

/// Whether a filter ends with that status and text.
fn ends_with(alloc: Global, error: FilterError, wanted: &str) -> Made<bool> {
    let told = format!(in alloc; "{}: {error}", error.status())?;
    Ok(told.as_str() == wanted)
}

#[test]
fn errors_are_told(rt: HostRuntime) -> Made<()> {
    for (error, wanted) in [
        (FilterError::ReadFault, "1: ReadFault"),
        (FilterError::WriteFault, "1: WriteFault"),
        (FilterError::NoRoom, "2: no room for the floor"),
        (
            FilterError::Cut,
            "2: the line behind the log says another end: a part is missing",
        ),
    ] {
        assert!(rt; ends_with(rt.alloc(), error, wanted)?, "{wanted}");
    }
    let told = MessageError::OutOfMemory.to_string(rt.alloc())?;
    assert_eq!(rt; told.as_str(), "out of memory");
    Ok(())
}
