// Records, and what a line can say.
ghost use Rattle.std.specs.Prelude.{◌≡◌};
ghost use Rattle.reg_records.specs.Log.{offset_in};

use crate::key::Key;
use crate::value_text::ValueText;

/// A record of the topic. Records of one key are ordered by offset, then no value before a text,
/// then by the text's bytes.
#[derive(Debug, Drop, Clone, PartialEq, Eq)]
pub struct Record {
    /// Its offset in the topic, from 0 to `OFFSET_LIMIT`.
    pub offset: u64,
    pub key: Key,
    /// The text of its value; `None` deletes the key (a tombstone).
    pub value: Option<ValueText>,
}

/// The content of a line that isn't refused.
#[derive(Debug, Drop, PartialEq, Eq)]
pub enum Read {
    Record(Record),
    /// A line whose key is of no known kind, with its offset.
    Foreign(u64),
}

impl Read {
    /// Returns the offset of the line.
    pub fn offset(&self) -> u64
        ensures { result ≡ offset_in self.now }
    {
        match self {
            Read::Record(record) => record.offset,
            Read::Foreign(offset) => *offset,
        }
    }
}
