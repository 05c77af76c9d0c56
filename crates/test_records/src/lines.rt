// Logs that are written line by line, and their records.
use reg_records::{Device, LogError, Record, read_log};
use std::alloc::Global;
use test_tools::Made;

/// A record, and the text of its key.
#[derive(Clone, Copy)]
pub(crate) struct Line<'a> {
    pub key: &'a str,
    pub record: &'a Record,
}

impl<'a> Line<'a> {
    /// What records are ordered by: the offset, the text of the key, then no value before a text.
    pub(crate) fn place(self) -> (u64, &'a str, Option<&'a str>) {
        let value = self.record.value.as_ref().map(|text| text.as_str());
        (self.record.offset, self.key, value)
    }
}

/// A log, and the keys of its lines.
#[derive(Drop)]
pub(crate) struct Log {
    keys: Vec<String>,
    text: String,
}

impl Log {
    pub(crate) fn new(alloc: Global) -> Log {
        Log {
            keys: Vec::new(alloc),
            text: String::new(alloc),
        }
    }

    /// Adds a line.
    pub(crate) fn push(&mut self, alloc: Global, offset: u64, key: &str, value: &str) -> Made<()> {
        writeln!(self.text, "{offset}\t{key}\t{value}")?;
        self.keys.push(String::from_str(alloc, key)?)?;
        Ok(())
    }

    /// The records of the lines, as the library reads them.
    pub(crate) fn records(&self, alloc: Global) -> Result<Vec<Record>, LogError> {
        let mut reader = Device::new(self.text.as_bytes());
        Ok(read_log(alloc, &mut reader)?.records)
    }

    /// The records with the texts of their keys.
    pub(crate) fn lines<'a>(&'a self, alloc: Global, records: &'a [Record]) -> Made<Vec<Line<'a>>> {
        let mut lines = Vec::new(alloc);
        for (key, record) in self.keys.iter().zip(records) {
            lines.push(Line {
                key: key.as_str(),
                record,
            })?;
        }
        Ok(lines)
    }
}
