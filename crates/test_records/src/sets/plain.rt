// A set of records as the list of their lines in order, each of whose answers looks at all lines.
use crate::lines::Line;
use reg_records::Record;
use reg_set::TakeOutcome;
use std::alloc::Global;
use test_tools::Made;

#[derive(Drop)]
pub(crate) struct PlainSet<'a> {
    /// In order.
    pub lines: Vec<Line<'a>>,
}

impl<'a> PlainSet<'a> {
    pub(crate) fn new(alloc: Global) -> PlainSet<'a> {
        PlainSet {
            lines: Vec::new(alloc),
        }
    }

    pub(crate) fn take(&mut self, given: Line<'a>) -> Made<TakeOutcome> {
        if self.contains(given) {
            return Ok(TakeOutcome::Repeat);
        }
        self.lines.push(given)?;
        self.lines.sort_by_key(|line| line.place())?;
        Ok(if self.has_last(given) {
            TakeOutcome::Fresh
        } else {
            TakeOutcome::Older
        })
    }

    pub(crate) fn contains(&self, given: Line) -> bool {
        for line in &self.lines {
            if line.place() == given.place() {
                return true;
            }
        }
        false
    }

    /// Of the records of a key the one of greatest offset; at one offset that of greatest value.
    pub(crate) fn last(&self, key: &str) -> Option<&'a Record> {
        let mut found: Option<Line<'a>> = None;
        for line in &self.lines {
            match found {
                _ if line.key != key => {}
                Some(last) if line.place() < last.place() => {}
                _ => found = Some(*line),
            }
        }
        found.map(|line| line.record)
    }

    fn has_last(&self, given: Line) -> bool {
        self.last(given.key) == Some(given.record)
    }

    pub(crate) fn merge(&mut self, other: &PlainSet<'a>) -> Made<()> {
        for line in &other.lines {
            self.take(*line)?;
        }
        Ok(())
    }

    /// Leaves the last record of each key alone.
    pub(crate) fn compact(&mut self, alloc: Global) -> Made<()> {
        let mut lines = Vec::new(alloc);
        for line in &self.lines {
            if self.has_last(*line) {
                lines.push(*line)?;
            }
        }
        self.lines = lines;
        Ok(())
    }

    /// Whether the set is a part of another that has each of its last records.
    pub(crate) fn keeps_lasts(&self, whole: &PlainSet) -> bool {
        for line in &whole.lines {
            if whole.has_last(*line) && !self.has_last(*line) {
                return false;
            }
        }
        for line in &self.lines {
            if !whole.contains(*line) {
                return false;
            }
        }
        true
    }
}
