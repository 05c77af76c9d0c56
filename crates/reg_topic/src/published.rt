// What is published.
use reg_leader::Command;
use reg_leader::base_text::Listed;
use reg_leader::reg_records::Record;

/// A command with the records that it wrote, of which there is at least one.
#[derive(Debug, Drop, Clone)]
pub struct Commit {
    /// The command.
    pub command: Command,
    /// The records, in their order.
    pub batch: Listed<Record>,
}

/// Records that leave the kept set, with its floor from then on. A key whose last record deletes it
/// below the floor may be missing as a whole.
#[derive(Debug, Drop, Clone)]
pub struct Compaction {
    /// The floor.
    pub floor: u64,
    /// The records that leave.
    pub dropped: Listed<Record>,
}

/// An item of the topic's list.
#[derive(Debug, Drop, Clone)]
pub enum Item {
    /// A command wrote a batch.
    Commit(Commit),
    /// Records left the kept set.
    Compaction(Compaction),
}
