// The values of records, and the texts that are written for them.
ghost use Rattle.std.specs.Prelude.{◌≡◌, ◌++◌, ◌≤◌, ℕ, IfOk, Some, codes, decimal, option_map, string_bytes};
ghost use Rattle.json.specs.Print.{quoted};
ghost use Rattle.serde_json.specs.Data.{boolean};
ghost use Rattle.serde_json.specs.Written.{compact_text};
ghost use Rattle.reg_records.specs.Written.{HasLine, HasNumbersInLimits, IsInLimits};
ghost use Rattle.reg_records.specs.WrittenValue.{written_value};
ghost use Rattle.reg_records.specs.declared.key.Key.{Key};
ghost use Rattle.reg_records.specs.declared.value.Value.{Value};

use crate::limits::OFFSET_LIMIT;
use crate::members::quoted;
use crate::value_text::ValueText;
use base_text::Text;
use std::alloc::{AllocError, Global};

/// The value of a record: what it says of its key.
#[derive(Clone, Debug, Drop, PartialEq, Eq)]
pub enum Value {
    /// The schema of a version, as the record has its text, with its id from 1 to `NUMBER_LIMIT`.
    Schema {
        subject: Text,
        version: u32,
        id: u32,
        schema: Text,
        deleted: bool,
    },
    /// The name of a compatibility level, as the record has it, in any case of its letters.
    Config(Text),
    /// The name of a mode, as the record has it.
    Mode(Text),
    /// The soft delete of a subject up to this version, from 1 to `NUMBER_LIMIT`.
    DeleteSubject {
        subject: Text,
        version: u32,
    },
    /// No operation.
    Noop,
    /// The id mark: the highest id ever given, from 1 to `NUMBER_LIMIT`.
    IdMark(u32),
}

impl Value {
    /// Writes the value as JSON (RFC 8259), without spaces and with its members in a fixed order;
    /// `None` for no operation, which has no text. The text brings the value along. The only error
    /// is out of memory.
    pub fn written(&self, alloc: Global) -> Result<Option<ValueText>, AllocError>
        ensures { IfOk result (λ text. text ≡ written_value self.now) }
    {
        match self.text(alloc)? {
            Some(text) => Ok(Some(ValueText::of_value(text, self)?)),
            None => Ok(None),
        }
    }

    fn text(&self, alloc: Global) -> Result<Option<String>, AllocError>
        ensures { IfOk result (λ text. option_map string_bytes text ≡ written_value self.now) }
    {
        let text = match self {
            Value::Schema {
                subject,
                version,
                id,
                schema,
                deleted,
            } => schema_value_text(alloc, subject, *version, *id, schema, *deleted)?,
            Value::Config(level) => member_text(alloc, "compatibilityLevel", level)?,
            Value::Mode(mode) => member_text(alloc, "mode", mode)?,
            Value::DeleteSubject { subject, version } => {
                delete_subject_value_text(alloc, subject, *version)?
            }
            Value::Noop => return Ok(None),
            Value::IdMark(id) => id_mark_value_text(alloc, *id)?,
        };
        Ok(Some(text))
    }
}

fn schema_value_text(
    alloc: Global,
    subject: &Text,
    version: u32,
    id: u32,
    schema: &Text,
    deleted: bool,
) -> Result<String, AllocError>
    ensures { IfOk result (λ text. Some (string_bytes text) ≡ written_value (Value.Schema subject.now version id schema.now deleted)) }
{
    let quoted_subject = quoted(alloc, subject.as_str())?;
    let quoted_schema = quoted(alloc, schema.as_str())?;
    schema_value_object(
        alloc,
        quoted_subject.as_str(),
        version,
        id,
        quoted_schema.as_str(),
        deleted,
    )
}

/// Writes the object of a version's value from its subject and its schema as JSON strings.
fn schema_value_object(
    alloc: Global,
    subject: &str,
    version: u32,
    id: u32,
    schema: &str,
    deleted: bool,
) -> Result<String, AllocError>
    ensures { IfOk result (λ text. string_bytes text
        ≡ codes "{\"subject\":" ++ subject.now ++ codes ",\"version\":" ++ decimal version ++ codes ",\"id\":" ++ decimal id
        ++ codes ",\"schema\":" ++ schema.now ++ codes ",\"deleted\":" ++ compact_text (boolean deleted) ++ codes "}") }
{
    format!(in alloc;
        "{{\"subject\":{subject},\"version\":{version},\"id\":{id},\"schema\":{schema},\"deleted\":{deleted}}}"
    )
}

/// Writes the object whose only member is that text.
fn member_text(alloc: Global, name: &str, text: &Text) -> Result<String, AllocError>
    ensures { IfOk result (λ object. string_bytes object ≡ codes "{\"" ++ name.now ++ codes "\":" ++ quoted text.now ++ codes "}") }
{
    let text = quoted(alloc, text.as_str())?;
    format!(in alloc; "{{\"{name}\":{text}}}")
}

fn delete_subject_value_text(
    alloc: Global,
    subject: &Text,
    version: u32,
) -> Result<String, AllocError>
    ensures { IfOk result (λ text. Some (string_bytes text) ≡ written_value (Value.DeleteSubject subject.now version)) }
{
    let subject = quoted(alloc, subject.as_str())?;
    format!(in alloc; "{{\"subject\":{subject},\"version\":{version}}}")
}

fn id_mark_value_text(alloc: Global, id: u32) -> Result<String, AllocError>
    ensures { IfOk result (λ text. Some (string_bytes text) ≡ written_value (Value.IdMark id)) }
{
    format!(in alloc; "{{\"id\":{id}}}")
}

/// Proves that a record whose value was written has a line, if its numbers are within their limits.
pub fn values_have_lines()
    ensures { (offset : ℕ) (k : Key) (v : Value) → offset ≤ OFFSET_LIMIT → IsInLimits k → HasNumbersInLimits v
        → HasLine (record { offset = offset; key = k; value = written_value v }) }
{}
