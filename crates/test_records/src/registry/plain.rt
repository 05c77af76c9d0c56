// A registry as a list of entries, each made by walks over all records.
use base_text::Text;
use reg_fold::Entry;
use reg_records::{Key, Record, Value};
use reg_values::decode_value;
use std::alloc::Global;
use test_tools::Made;

/// The subjects of lines, by their bytes.
pub(crate) static SUBJECTS: [&str; 4] = ["", "s", "s!", "sé"];

/// One more than the greatest id and the greatest version of lines, which have one digit each.
pub(crate) const NUMBERS: u32 = 6;

/// What the records of one key are ordered by.
fn age(record: &Record) -> (u64, Option<&str>) {
    let value = record.value.as_ref().map(|text| text.as_str());
    (record.offset, value)
}

/// Of the records of a key the one of greatest offset; at one offset that of greatest value.
fn last<'r>(records: &'r [Record], key: &Key) -> Option<&'r Record> {
    let mut found: Option<&Record> = None;
    for record in records {
        match found {
            _ if record.key != *key => {}
            Some(best) if age(record) < age(best) => {}
            _ => found = Some(record),
        }
    }
    found
}

/// What the last record of a key says, with its offset.
fn said(alloc: Global, records: &[Record], key: &Key) -> Made<Option<(u64, Value)>> {
    let Some(record) = last(records, key) else {
        return Ok(None);
    };
    Ok(decode_value(alloc, record)?.map(|value| (record.offset, value)))
}

/// Whether the last soft delete of its subject is of that version or a later one, and came after it.
fn is_marked(alloc: Global, records: &[Record], entry: &Entry) -> Made<bool> {
    let key = Key::DeleteSubject(entry.subject.clone()?);
    match said(alloc, records, &key)? {
        Some((offset, Value::DeleteSubject { version, .. })) => {
            Ok(entry.version <= version && entry.offset < offset)
        }
        _ => Ok(false),
    }
}

fn entry_of(alloc: Global, records: &[Record], record: &Record) -> Made<Option<Entry>> {
    let Some(
        Value::Schema {
            subject,
            version,
            id,
            schema,
            deleted,
        },
    ) = decode_value(alloc, record)?
    else {
        return Ok(None);
    };
    let mut entry = Entry {
        subject,
        version,
        id,
        normal: schema.clone()?,
        text: schema,
        offset: record.offset,
        soft: deleted,
    };
    entry.soft = deleted || is_marked(alloc, records, &entry)?;
    Ok(Some(entry))
}

/// The id of the last mark; 0 where it can't be read, or there is none.
fn mark_of(alloc: Global, records: &[Record]) -> Made<u32> {
    match said(alloc, records, &Key::IdMark)? {
        Some((_, Value::IdMark(id))) => Ok(id),
        _ => Ok(0),
    }
}

#[derive(Drop)]
pub(crate) struct PlainRegistry {
    /// By subject, then by version.
    pub entries: Vec<Entry>,
    /// The least offset of a version that can't be read.
    pub opaque: Option<u64>,
    /// The mark of ids.
    pub mark: u32,
}

impl PlainRegistry {
    /// The registry over some records.
    pub(crate) fn of(alloc: Global, records: &[Record]) -> Made<PlainRegistry> {
        let mut registry = PlainRegistry {
            entries: Vec::new(alloc),
            opaque: None,
            mark: mark_of(alloc, records)?,
        };
        registry.fill(alloc, records)?;
        Ok(registry)
    }

    fn fill(&mut self, alloc: Global, records: &[Record]) -> Made<()> {
        for subject in &SUBJECTS {
            for version in 1..NUMBERS {
                let subject = Text::copy_of(alloc, subject)?;
                if let Some(record) = last(records, &Key::Schema { subject, version }) {
                    self.add(alloc, records, record)?;
                }
            }
        }
        Ok(())
    }

    /// Adds what the last record of a version gives.
    fn add(&mut self, alloc: Global, records: &[Record], record: &Record) -> Made<()> {
        match entry_of(alloc, records, record)? {
            Some(entry) => self.entries.push(entry)?,
            None if record.value.is_some() => self.add_opaque(record.offset),
            None => {}
        }
        Ok(())
    }

    fn add_opaque(&mut self, offset: u64) {
        match self.opaque {
            Some(least) if least <= offset => {}
            _ => self.opaque = Some(offset),
        }
    }

    /// Of the entries with that id the one of greatest offset; at one offset the last in order.
    pub(crate) fn by_id(&self, id: u32) -> Option<&Entry> {
        let mut found: Option<&Entry> = None;
        for entry in &self.entries {
            match found {
                _ if entry.id != id => {}
                Some(best) if entry.offset < best.offset => {}
                _ => found = Some(entry),
            }
        }
        found
    }

    pub(crate) fn greatest_id(&self) -> Option<u32> {
        let mut greatest = None;
        for entry in &self.entries {
            greatest = greatest.max(Some(entry.id));
        }
        greatest
    }

    pub(crate) fn greatest_version(&self, subject: &str) -> Option<u32> {
        let mut greatest = None;
        for entry in &self.entries {
            if entry.subject.as_str() == subject {
                greatest = Some(entry.version);
            }
        }
        greatest
    }

    /// The least id of a schema.
    pub(crate) fn id_of(&self, normal: &str) -> Option<u32> {
        let mut found: Option<u32> = None;
        for entry in &self.entries {
            match found {
                _ if entry.normal.as_str() != normal => {}
                Some(least) if least <= entry.id => {}
                _ => found = Some(entry.id),
            }
        }
        found
    }

    /// The least id that names two schemas.
    pub(crate) fn two_schemas(&self) -> Option<u32> {
        let mut found: Option<u32> = None;
        for one in &self.entries {
            for other in &self.entries {
                if one.id == other.id && one.normal != other.normal {
                    found = Some(found.unwrap_or(one.id).min(one.id));
                }
            }
        }
        found
    }
}
