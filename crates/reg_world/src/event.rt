// What can happen, and the outcomes.
use reg_alike::base_text::Listed;
use reg_alike::reg_leader::{Command, Reply};
use reg_alike::reg_lookup::{Answer, Query};
use reg_alike::reg_records::Record;

/// What becomes of a batch.
#[derive(Clone, Copy, Debug, PartialEq, Eq)]
pub enum Fate {
    /// It is published now.
    Published,
    /// Nobody knows whether it is kept. It is published before anything else is.
    Unsettled,
    /// It is never published.
    Lost,
}

/// A step of the topic or of a node. Nodes count from 0.
#[derive(Debug, Drop)]
pub enum Event {
    /// The unsettled commit is published, and then the command steps from the whole log.
    Command {
        node: usize,
        command: Command,
        fate: Fate,
    },
    /// The unsettled commit is published, and then these records leave the kept set, whose floor
    /// stays. Whether they may is judged after that commit.
    Compact(Listed<Record>),
    /// The unsettled commit is published, and then these records leave the kept set, which gets
    /// this floor. Whether they may is judged after that commit.
    CompactTo {
        floor: u64,
        dropped: Listed<Record>,
    },
    /// The node takes these records, which are kept.
    Take {
        node: usize,
        records: Listed<Record>,
    },
    /// The node keeps only the last record of each key.
    CompactNode(usize),
    /// The node takes all records of another node.
    MergeFrom {
        node: usize,
        other: usize,
    },
    /// The node takes the kept set's floor, and the kept records below it in place of its own.
    Rebase(usize),
    /// The node loses all its records. Its floor is 0 then.
    Restart(usize),
    /// The node answers a query.
    Lookup {
        node: usize,
        query: Query,
    },
}

/// The outcome of an event.
#[derive(Debug, Drop)]
pub enum Outcome {
    /// A command got this reply.
    Replied(Reply),
    /// A query got this answer.
    Answered(Answer),
    /// The event happened.
    Done,
    /// The event isn't allowed, and nothing changed: a node doesn't exist, a record isn't kept, the
    /// floor would fall or be ahead of the next offset, or what would stay isn't a compaction at
    /// that floor.
    NotAllowed,
    /// The event is allowed, but the sets that it brings together have different floors. Nothing
    /// changed.
    FloorsDiffer,
}
