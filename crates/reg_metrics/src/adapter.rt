// What an adapter answers.

/// The reply of an adapter (the program that keeps a shared log) to a request.
#[derive(Clone, Copy, Debug, PartialEq, Eq)]
pub enum AdapterReply {
    /// The batch is kept. For a check: nothing new came.
    Kept,
    /// Something else came first.
    Behind,
    Declined,
    /// It isn't known whether the batch is kept.
    Lost,
}
