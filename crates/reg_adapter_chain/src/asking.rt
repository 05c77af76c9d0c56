// What becomes of requests and of messages.
use reg_adapter::AdapterMessage;

/// The result of asking for a request.
#[derive(Clone, Copy, Debug, PartialEq, Eq)]
pub enum Asking {
    /// The request is open and has to be sent; its command waits.
    Asked,
    /// A batch of others is due, so the request would be behind. It isn't sent.
    Behind,
    /// The request before it has no answer yet. It isn't sent.
    Open,
    /// Its first record doesn't have the next offset. It isn't sent.
    Misplaced,
}

/// An error of taking a message.
#[derive(Debug, Drop)]
pub enum TellError {
    /// The adapter is at fault: an answer without a request, or one that keeps records although
    /// another batch came first.
    Fault,
    /// Memory was refused. The message is returned, to be told again.
    OutOfMemory(AdapterMessage),
}
