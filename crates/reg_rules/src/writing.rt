// What commands write.
ghost use Rattle.std.specs.Prelude.{◌≡◌, ◌+◌, ◌≤◌, suc, vec_len, IfOk, Some};
ghost use Rattle.reg_modes.specs.reg_records.declared.limits.TheConstants.{OFFSET_LIMIT};
ghost use Rattle.reg_modes.specs.reg_entries.declared.entry.Entry.{Entry};
ghost use Rattle.reg_rules.specs.Writings.{deleted_again, deleted_up_to, id_marked, level_cleared, level_set, mode_cleared, mode_set, no_operation, numbered, removed, version_of, written_at};

use reg_modes::Mode;
use reg_modes::base_text::Text;
use reg_modes::reg_fold::Entry;
use reg_modes::reg_level_names::Level;
use reg_modes::reg_records::{Key, Record, Value};
use std::alloc::{AllocError, Global};

/// A record without its offset. One without a value deletes the key.
#[derive(Debug, Drop)]
pub struct Writing {
    pub key: Key,
    pub value: Option<Value>,
}

impl Writing {
    /// Makes its record, at this offset.
    fn at(self, alloc: Global, offset: u64) -> Result<Record, AllocError>
        ensures { IfOk result (λ made. made ≡ written_at offset self) }
    {
        let Writing { key, value } = self;
        let value = match value {
            Some(value) => value.written(alloc)?,
            None => None,
        };
        Ok(Record { offset, key, value })
    }

    /// Makes a record that changes nothing.
    pub fn no_operation() -> Writing
        ensures { result ≡ no_operation }
    {
        Writing {
            key: Key::Noop,
            value: None,
        }
    }

    /// Makes an id mark: a record that ids up to this one were given away.
    pub fn id_marked(id: u32) -> Writing
        ensures { result ≡ id_marked id }
    {
        Writing {
            key: Key::IdMark,
            value: Some(Value::IdMark(id)),
        }
    }

    /// Makes a record that sets the scope's level. The only error is out of memory.
    pub fn level_set(
        alloc: Global,
        scope: &Option<Text>,
        level: Level,
    ) -> Result<Writing, AllocError>
        ensures { IfOk result (λ writing. writing ≡ level_set scope.now level) }
    {
        Ok(Writing {
            key: Key::Config(scope.clone()?),
            value: Some(Value::Config(Text::copy_of(alloc, level.as_str())?)),
        })
    }

    /// Makes a record that removes the subject's own level. The only error is out of memory.
    pub fn level_cleared(subject: &Text) -> Result<Writing, AllocError>
        ensures { IfOk result (λ writing. writing ≡ level_cleared subject.now) }
    {
        Ok(Writing {
            key: Key::Config(Some(subject.clone()?)),
            value: None,
        })
    }

    /// Makes a record that sets the scope's mode. The only error is out of memory.
    pub fn mode_set(alloc: Global, scope: &Option<Text>, mode: Mode) -> Result<Writing, AllocError>
        ensures { IfOk result (λ writing. writing ≡ mode_set scope.now mode) }
    {
        Ok(Writing {
            key: Key::Mode(scope.clone()?),
            value: Some(Value::Mode(Text::copy_of(alloc, mode.as_str())?)),
        })
    }

    /// Makes a record that removes the subject's own mode. The only error is out of memory.
    pub fn mode_cleared(subject: &Text) -> Result<Writing, AllocError>
        ensures { IfOk result (λ writing. writing ≡ mode_cleared subject.now) }
    {
        Ok(Writing {
            key: Key::Mode(Some(subject.clone()?)),
            value: None,
        })
    }

    /// Makes a record of a live version of a subject. The only error is out of memory.
    pub fn version_of(
        subject: &Text,
        version: u32,
        id: u32,
        text: Text,
    ) -> Result<Writing, AllocError>
        ensures { IfOk result (λ writing. writing ≡ version_of subject.now version id text) }
    {
        Ok(Writing {
            key: Key::Schema {
                subject: subject.clone()?,
                version,
            },
            value: Some(Value::Schema {
                subject: subject.clone()?,
                version,
                id,
                schema: text,
                deleted: false,
            }),
        })
    }

    /// Makes a record that soft-deletes an entry's version: the entry again, marked as deleted. The
    /// only error is out of memory.
    pub fn deleted_again(entry: &Entry) -> Result<Writing, AllocError>
        ensures { IfOk result (λ writing. writing ≡ deleted_again entry.now) }
    {
        Ok(Writing {
            key: Key::Schema {
                subject: entry.subject.clone()?,
                version: entry.version,
            },
            value: Some(Value::Schema {
                subject: entry.subject.clone()?,
                version: entry.version,
                id: entry.id,
                schema: entry.text.clone()?,
                deleted: true,
            }),
        })
    }

    /// Makes a record that deletes an entry's version permanently. The only error is out of memory.
    pub fn removed(entry: &Entry) -> Result<Writing, AllocError>
        ensures { IfOk result (λ writing. writing ≡ removed entry.now) }
    {
        Ok(Writing {
            key: Key::Schema {
                subject: entry.subject.clone()?,
                version: entry.version,
            },
            value: None,
        })
    }

    /// Makes a record that soft-deletes a subject's versions up to this one. The only error is out
    /// of memory.
    pub fn deleted_up_to(subject: &Text, version: u32) -> Result<Writing, AllocError>
        ensures { IfOk result (λ writing. writing ≡ deleted_up_to subject.now version) }
    {
        Ok(Writing {
            key: Key::DeleteSubject(subject.clone()?),
            value: Some(Value::DeleteSubject {
                subject: subject.clone()?,
                version,
            }),
        })
    }
}

/// Makes the records of a batch, at the offsets from `next` on. The only error is out of memory.
pub fn numbered(alloc: Global, next: u64, writings: Vec<Writing>) -> Result<Vec<Record>, AllocError>
    requires { next + vec_len writings ≤ suc OFFSET_LIMIT }
    ensures { IfOk result (λ batch. batch.items ≡ numbered next writings.items) }
{
    let mut batch = Vec::new(alloc);
    let mut offset = next;
    for writing in writings {
        batch.push(writing.at(alloc, offset)?)?;
        offset += 1;
    }
    Ok(batch)
}
