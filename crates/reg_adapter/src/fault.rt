// Why messages aren't read any more.
use reg_records::LineError;
use std::alloc::AllocError;
use std::error::Error;
use std::fmt;

/// A fault of a line that an adapter sent.
#[derive(Clone, Copy, Debug, PartialEq, Eq)]
pub enum MessageFault {
    /// Between two messages: the line is none of the words that a message begins with.
    NoMessage,
    /// Within a batch: the line is no line of a log. Anywhere: it is too long, or the input ended
    /// before its LF.
    Line(LineError),
    /// An empty line ends a batch that has no lines.
    EmptyBatch,
    /// The line's offset doesn't follow that of the line before it in the batch.
    Gap,
    /// The input ended within a batch.
    Unended,
}

/// An error of reading an adapter's messages.
#[derive(Clone, Copy, Debug, PartialEq, Eq)]
pub enum MessageError {
    /// The first line that has a fault. Lines count from 1 behind the base, up to `u64::MAX`.
    Fault { line: u64, fault: MessageFault },
    OutOfMemory,
}

impl MessageFault {
    ghost use Rattle.std.specs.Prelude.{◌≡◌};
    ghost use Rattle.reg_adapter.specs.Errors.{message_fault_name};

    /// Returns its name, as reports show it.
    pub fn name(self) -> &'static str
        ensures { result.now ≡ message_fault_name self }
    {
        match self {
            MessageFault::NoMessage => "NoMessage",
            MessageFault::Line(error) => error.name(),
            MessageFault::EmptyBatch => "EmptyBatch",
            MessageFault::Gap => "Gap",
            MessageFault::Unended => "Unended",
        }
    }
}

impl fmt::Display for MessageFault {
    ghost use Rattle.std.specs.Prelude.{Some};
    ghost use Rattle.reg_adapter.specs.Errors.{message_fault_name};

    ghost output = { λ fault. Some (message_fault_name fault) };

    fn fmt<W: fmt::Write>(&self, f: &mut fmt::Formatter<W>) -> fmt::Result {
        f.write_str(self.name())
    }
}

impl fmt::Display for MessageError {
    ghost use Rattle.std.specs.Prelude.{Some};
    ghost use Rattle.reg_adapter.specs.Errors.{message_error_text};

    ghost output = { λ error. Some (message_error_text error) };

    fn fmt<W: fmt::Write>(&self, f: &mut fmt::Formatter<W>) -> fmt::Result {
        match *self {
            MessageError::Fault { line, fault } => write!(f, "line {line}: {fault}"),
            MessageError::OutOfMemory => f.write_str("out of memory"),
        }
    }
}

impl Error for MessageFault {}

impl Error for MessageError {}

impl From<AllocError> for MessageError {
    ghost use Rattle.std.specs.Prelude.{◌≡◌};
    ghost use Rattle.reg_adapter.specs.declared.fault.MessageError.TheVariants.{OutOfMemory};

    ghost from_gives = { λ _ error. error ≡ OutOfMemory };

    fn from(_refused: AllocError) -> MessageError {
        MessageError::OutOfMemory
    }
}
