// Records with the written texts of their keys.
ghost use Rattle.std.specs.Prelude.{◌≡◌, IfOk};
ghost use Rattle.reg_records.specs.Written.{written_key};
ghost use Rattle.reg_set.specs.RecordOrder.{record_cmp};

use base_text::Text;
use reg_records::Record;
use std::alloc::{AllocError, Global};
use std::cmp::Ordering;
use std::marker::Model;

/// A record, with the text that is written for its key. Contracts see the record.
#[derive(Drop)]
pub(crate) struct WithText {
    text: Text,
    given: Record,
}

impl Model for WithText {
    ghost use Rattle.std.specs.Prelude.{◌≡◌};
    ghost use Rattle.reg_records.specs.contracts.record.Record as stored;
    ghost use Rattle.reg_records.specs.declared.record.Record.{Record};
    ghost use Rattle.reg_records.specs.Written.{written_key};

    ghost Value = { Record };

    ghost coded = { (stored.the_row).coded };

    ghost view = { λ s. s.given };

    ghost invariant = { λ s. s.text ≡ written_key s.given.key };
}

impl WithText {
    /// Writes the text of the record's key. The only error is out of memory.
    fn of(alloc: Global, given: Record) -> Result<WithText, AllocError>
        ensures { IfOk result (λ made. made ≡ given) }
    {
        let text = given.key.written(alloc)?;
        Ok(WithText { text, given })
    }

    /// Compares by offset, then by the key's text, then no value before a text, then by the text's
    /// bytes.
    pub(crate) fn compare(&self, other: &WithText) -> Ordering
        ensures { result ≡ record_cmp self.now other.now }
    {
        match self.given.offset.cmp(&other.given.offset) {
            Ordering::Equal => self.compare_at_offset(other),
            order => order,
        }
    }

    fn compare_at_offset(&self, other: &WithText) -> Ordering
        requires { self.now.offset ≡ other.now.offset }
        ensures { result ≡ record_cmp self.now other.now }
    {
        match self.text.cmp(&other.text) {
            Ordering::Equal => self.compare_at_text(other),
            order => order,
        }
    }

    fn compare_at_text(&self, other: &WithText) -> Ordering
        requires offset { self.now.offset ≡ other.now.offset }
        requires text { written_key self.now.key ≡ written_key other.now.key }
        ensures { result ≡ record_cmp self.now other.now }
    {
        match self.given.key.cmp(&other.given.key) {
            Ordering::Equal => self.given.value.cmp(&other.given.value),
            order => order,
        }
    }

    fn into_record(self) -> Record
        ensures { result ≡ self }
    {
        self.given
    }
}

/// Writes the text of each record's key. The only error is out of memory.
pub(crate) fn with_texts(alloc: Global, records: Vec<Record>) -> Result<Vec<WithText>, AllocError>
    ensures { IfOk result (λ found. found.items ≡ records.items) }
{
    let mut found = Vec::new(alloc);
    for record in records {
        found.push(WithText::of(alloc, record)?)?;
    }
    Ok(found)
}

/// Returns the records alone. The only error is out of memory.
pub(crate) fn without_texts(
    alloc: Global,
    written: Vec<WithText>,
) -> Result<Vec<Record>, AllocError>
    ensures { IfOk result (λ found. found.items ≡ written.items) }
{
    let mut found = Vec::new(alloc);
    for one in written {
        found.push(one.into_record())?;
    }
    Ok(found)
}
