// Why nothing more is told.
use reg_adapter::MessageError;
use std::io::ErrorKind;

/// The reason why a line is over: its adapter tells nothing more.
#[derive(Clone, Copy, Debug, PartialEq, Eq)]
pub enum LineEnd {
    /// The input ended between two messages.
    Input,
    /// A message has this fault, or the input ended within one.
    Fault(MessageError),
    /// The input can't be read; the error's kind is given.
    ReadFault(ErrorKind),
    /// An answer came without a request, or one that keeps records although another batch came
    /// first.
    NobodyAsked,
    /// A request can't be written; the error's kind is given.
    Output(ErrorKind),
    /// The rest of a message didn't come within 30 s.
    Unfinished,
    /// A request wasn't read within 30 s.
    Unread,
}
