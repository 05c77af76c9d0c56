// What the system says of a call that it refuses.
use std::fmt;
use std::io::{self, ErrorKind};

/// An error of a system call. It is shown by the name of its kind; an error without a kind by its
/// Linux name, or its number.
#[derive(Clone, Copy, Debug, PartialEq, Eq)]
pub struct SystemError {
    /// Its kind.
    pub kind: ErrorKind,
    /// The system's error number, if the system returned it.
    pub number: Option<i32>,
}

impl SystemError {
    /// Returns whether the disk is full, or the owner's quota is used up.
    pub fn is_of_full_disk(self) -> bool {
        matches!(self.kind, ErrorKind::StorageFull | ErrorKind::QuotaExceeded)
    }

    /// Takes the kind and the number from an I/O error.
    pub fn of(error: &io::Error) -> SystemError {
        SystemError {
            kind: error.kind(),
            number: error.raw_os_error(),
        }
    }
}

impl fmt::Display for SystemError {
    fn fmt<W: fmt::Write>(&self, f: &mut fmt::Formatter<W>) -> fmt::Result {
        match (self.kind, self.number) {
            (ErrorKind::Uncategorized, Some(number)) => match name_of(number) {
                Some(name) => f.write_str(name),
                None => write!(f, "os error {number}"),
            },
            (kind, _) => write!(f, "{kind:?}"),
        }
    }
}

/// Returns the Linux name of an error number that has no kind, for those that files give.
fn name_of(number: i32) -> Option<&'static str> {
    match number {
        5 => Some("EIO"),
        6 => Some("ENXIO"),
        19 => Some("ENODEV"),
        23 => Some("ENFILE"),
        24 => Some("EMFILE"),
        61 => Some("ENODATA"),
        117 => Some("EUCLEAN"),
        121 => Some("EREMOTEIO"),
        _ => None,
    }
}
