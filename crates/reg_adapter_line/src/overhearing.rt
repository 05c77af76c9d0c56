// What is said on a line, for those who count it.
use reg_adapter::{AdapterAnswer, AdapterMessage};

/// The kind of a message of an adapter.
#[derive(Clone, Copy, Debug, PartialEq, Eq)]
pub enum Heard {
    /// Others wrote a batch.
    Batch,
    /// `ready`: all was told that had been acknowledged before the adapter began.
    Ready,
    /// The batch that was asked for is kept; of a check, nothing more was there.
    Kept,
    /// Another batch came first.
    Behind,
    /// The batch isn't kept, and no other came first; of a check, the store can't be reached.
    Declined,
    /// It isn't known whether the batch is kept.
    Lost,
}

/// The kind of a request to an adapter.
#[derive(Clone, Copy, Debug, PartialEq, Eq)]
pub enum AskedFor {
    /// A check: whether anything more came.
    Check,
    /// To append a batch.
    Batch,
}

/// A listener to the messages and requests of a line. The threads that read and write call it, and
/// wait for each call.
pub trait Overhear {
    /// Called once for each message that was read, before the line takes it, so no request is made
    /// because of it before the call returns. It is called once even if memory is refused for the
    /// message, and also for an answer without a request, which ends the line. It isn't called for
    /// a message that can't be read, which ends the line too.
    fn heard(&self, message: Heard);

    /// Called once for each request before it is written, so its answer isn't read before the call
    /// returns.
    fn asked(&self, request: AskedFor);
}

/// Returns the kind of a message.
pub(crate) fn heard_in(told: &AdapterMessage) -> Heard {
    match told {
        AdapterMessage::Batch(_) => Heard::Batch,
        AdapterMessage::Ready => Heard::Ready,
        AdapterMessage::Answer(AdapterAnswer::Kept) => Heard::Kept,
        AdapterMessage::Answer(AdapterAnswer::Behind) => Heard::Behind,
        AdapterMessage::Answer(AdapterAnswer::Declined) => Heard::Declined,
        AdapterMessage::Answer(AdapterAnswer::Lost) => Heard::Lost,
    }
}

/// Returns the kind of a request by its bytes: a check is an empty line alone, and a batch begins
/// with an offset.
pub(crate) fn asked_by(request: &[u8]) -> AskedFor {
    if request.starts_with(b"\n") {
        AskedFor::Check
    } else {
        AskedFor::Batch
    }
}
