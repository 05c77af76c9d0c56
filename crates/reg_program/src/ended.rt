// How the program ends.
ghost use Rattle.std.specs.Prelude.{◌≡◌, Some};
ghost use Rattle.reg_program.specs.Ended.{error_text, exit_status, sketch_error_text};

use crate::folding::{FoldError, Folded};
use crate::sketching::SketchError;
use std::error::Error;
use std::fmt;

/// How the program ends.
#[derive(Debug, Drop)]
pub enum Ended {
    /// The words weren't a command.
    Usage,
    /// A fold ended well.
    Folded(Folded),
    /// A fold failed.
    Failed(FoldError),
    /// A sketch was written.
    Sketched,
    /// A sketch failed.
    Unsketched(SketchError),
}

impl Ended {
    /// Returns the exit status: 0 if all went well, 2 if the words aren't a command, the log is
    /// faulty or a line isn't a schema, else 1.
    pub fn status(&self) -> u8
        ensures { result ≡ exit_status self.now }
    {
        match self {
            Ended::Folded(_) | Ended::Sketched => 0,
            Ended::Usage => 2,
            Ended::Failed(FoldError::Log { line: _, fault: _ }) => 2,
            Ended::Failed(_) => 1,
            Ended::Unsketched(SketchError::Reader(_) | SketchError::Writer(_)) => 2,
            Ended::Unsketched(_) => 1,
        }
    }
}

impl fmt::Display for FoldError {
    ghost output = { λ error. Some (error_text error) };

    fn fmt<W: fmt::Write>(&self, f: &mut fmt::Formatter<W>) -> fmt::Result {
        match *self {
            FoldError::Log { line, fault } => write!(f, "line {line}: {fault}"),
            FoldError::ReadFault => write!(f, "ReadFault"),
            FoldError::WriteFault => write!(f, "WriteFault"),
            FoldError::OutOfMemory => write!(f, "OutOfMemory"),
        }
    }
}

impl Error for FoldError {}

impl fmt::Display for SketchError {
    ghost output = { λ error. Some (sketch_error_text error) };

    fn fmt<W: fmt::Write>(&self, f: &mut fmt::Formatter<W>) -> fmt::Result {
        match self {
            SketchError::Reader(fault) => write!(f, "reader: {}", fault.name()),
            SketchError::Writer(fault) => write!(f, "writer: {}", fault.name()),
            SketchError::ReadFault => write!(f, "ReadFault"),
            SketchError::WriteFault => write!(f, "WriteFault"),
            SketchError::OutOfMemory => write!(f, "OutOfMemory"),
        }
    }
}

impl Error for SketchError {}
