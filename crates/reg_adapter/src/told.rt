// What an adapter tells.
use base_text::Listed;
use reg_records::Read;

/// An adapter's answer to a request.
#[derive(Clone, Copy, Debug, PartialEq, Eq)]
pub enum AdapterAnswer {
    /// `kept`: the lines are in the log, directly behind what was told. Of a check: at some moment
    /// since it was asked, nothing more was there.
    Kept,
    /// `behind`: the lines aren't in the log there and never will be; another batch came first, and
    /// has been told.
    Behind,
    /// `declined`: the lines aren't in the log there and never will be, and no other batch came
    /// first. Of a check: the store can't be reached.
    Declined,
    /// `lost`: the result can't be known now. Until another batch takes the place, the lines may
    /// still appear there.
    Lost,
}

/// A message of an adapter.
#[derive(Debug, Drop)]
pub enum AdapterMessage {
    /// A batch that others wrote is next in the log: what its lines say, one or more, each with the
    /// offset behind the one before it.
    Batch(Listed<Read>),
    /// The answer to the oldest request that has none.
    Answer(AdapterAnswer),
    /// `ready`: all was told that was acknowledged before the adapter began.
    Ready,
}
