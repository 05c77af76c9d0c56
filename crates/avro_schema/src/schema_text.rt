// A text that may be a schema's, and the kept result of reading it.
ghost use Rattle.std.specs.Prelude.{◌≡◌, true, IfOk, IfSome, Some, option_map};
ghost use Rattle.avro_schema.specs.Schema.{is_schema, schema_of};
ghost use Rattle.avro_schema.specs.Reading.{has_valid_defaults, kept_of, normal_of, reading_of};

use crate::laws::normal_texts_read_back;
use crate::schema::Schema;
use base_text::Text;
use once_cell::race::OnceBox;
use std::alloc::{AllocError, Global};
use std::fmt;
use std::marker::Model;

/// The part of a schema that a registry keeps: its normal text, and whether its defaults are valid.
#[derive(Debug, Drop)]
pub struct SchemaReading {
    normal: Text,
    has_valid_defaults: bool,
}

impl Model for SchemaReading {
    ghost use Rattle.std.specs.Prelude.{◌≡◌, true};
    ghost use Rattle.avro_schema.specs.Schema.{is_schema};
    ghost use Rattle.avro_schema.specs.Reading.{Reading};

    ghost Value = { Reading };

    ghost view = { λ r. record { normal = r.normal; has_valid_defaults = r.has_valid_defaults } };

    ghost invariant = { λ r. is_schema r.normal ≡ true };
}

impl SchemaReading {
    /// Takes these from a schema. The only error is out of memory.
    fn of(schema: &Schema) -> Result<SchemaReading, AllocError>
        ensures { IfOk result (λ reading. reading ≡ kept_of schema.now) }
    {
        let normal = schema.normal().clone()?;
        let has_valid_defaults = has_valid_defaults(schema);
        Ok(SchemaReading {
            normal,
            has_valid_defaults,
        })
    }

    /// Returns the schema's normal text, which reads as a schema.
    pub fn normal(&self) -> &Text
        ensures text { result.now ≡ self.now.normal }
        ensures is_read { is_schema self.now.normal ≡ true }
    {
        &self.normal
    }

    /// Returns whether each default in the schema is a value of its field's type.
    pub fn has_valid_defaults(&self) -> bool
        ensures { result ≡ self.now.has_valid_defaults }
    {
        self.has_valid_defaults
    }

    /// Reads the schema from its normal text. The only error is out of memory.
    pub fn schema(&self, alloc: Global) -> Result<Schema, AllocError>
        ensures { IfOk result (λ schema. schema_of self.now.normal ≡ Some schema) }
    {
        match Schema::read_if_any(alloc, self.normal.as_str())? {
            Some(schema) => Ok(schema),
            None => unreachable!(),
        }
    }
}

impl Clone for SchemaReading {
    ghost is_clone = { λ reading copy. copy ≡ reading };

    fn clone(&self) -> Result<SchemaReading, AllocError> {
        Ok(SchemaReading {
            normal: self.normal.clone()?,
            has_valid_defaults: self.has_valid_defaults,
        })
    }
}

/// A text with its normal text, so that it needn't be read again. Contracts see nothing of it.
#[derive(Drop)]
pub struct KnownNormal<'a> {
    text: &'a Text,
    normal: &'a Text,
}

impl<'a> Model for KnownNormal<'a> {
    ghost use Rattle.std.specs.Prelude.{◌≡◌, Some};
    ghost use Rattle.avro_schema.specs.Reading.{normal_of};

    ghost Value = { Unit {0} };

    ghost view = { λ _. tt };

    ghost invariant = { λ k. normal_of k.text.now ≡ Some k.normal.now };
}

impl<'a> KnownNormal<'a> {
    /// Pairs a text with its normal text.
    pub fn new(text: &'a Text, normal: &'a Text) -> KnownNormal<'a>
        requires { normal_of text.now ≡ Some normal.now }
    {
        KnownNormal { text, normal }
    }

    /// Returns the normal text of `text` if that is the known text, else `None`. Allocates nothing.
    pub fn of(&self, text: &Text) -> Option<&'a Text>
        ensures { IfSome result (λ normal. normal_of text.now ≡ Some normal.now) }
    {
        if self.text == text {
            return Some(self.normal);
        }
        None
    }
}

/// A text and the result of reading it. Contracts see the text, which determines the rest.
#[derive(Debug, Drop)]
struct ReadText {
    text: Text,
    found: Option<SchemaReading>,
}

impl Model for ReadText {
    ghost use Rattle.std.specs.Prelude.{◌≡◌, ℕ, List};
    ghost use Rattle.avro_schema.specs.Reading.{reading_of};

    ghost Value = { List ℕ };

    ghost view = { λ r. r.text };

    ghost invariant = { λ r. reading_of r.text ≡ r.found };
}

impl ReadText {
    /// Makes it from a text and the schema read from it, if there was one.
    fn of(text: Text, schema: &Option<Schema>) -> Result<ReadText, AllocError>
        requires { schema.now ≡ schema_of text }
        ensures { IfOk result (λ read. read ≡ text) }
    {
        let found = reading(schema)?;
        Ok(ReadText { text, found })
    }

    fn found(&self) -> &Option<SchemaReading>
        ensures { result.now ≡ reading_of self.now }
    {
        &self.found
    }

    /// Returns a [`KnownNormal`] of the schema's normal text, whose normal text is itself. `None`
    /// if the text isn't a schema's.
    fn known(&self) -> Option<KnownNormal<'_>> {
        normal_texts_read_back();
        match &self.found {
            Some(found) => {
                let normal = found.normal();
                Some(KnownNormal::new(normal, normal))
            }
            None => None,
        }
    }

    fn again(&self) -> Result<ReadText, AllocError>
        ensures { IfOk result (λ copy. copy ≡ self.now) }
    {
        Ok(ReadText {
            text: self.text.clone()?,
            found: self.found.clone()?,
        })
    }
}

/// A text that may be a schema's. It keeps the result of reading it, so that later callers needn't
/// read it again. Contracts see the text.
#[derive(Drop)]
pub struct SchemaText {
    alloc: Global,
    text: Text,
    read: OnceBox<ReadText>,
}

impl Model for SchemaText {
    ghost use Rattle.std.specs.Prelude.{ℕ, List};

    ghost Value = { List ℕ };

    ghost view = { λ t. t.text };
}

impl SchemaText {
    /// Makes one from a text, without reading it. Allocates nothing.
    pub fn new(alloc: Global, text: Text) -> SchemaText
        ensures { result ≡ text }
    {
        SchemaText {
            alloc,
            text,
            read: OnceBox::new(alloc),
        }
    }

    /// Returns the text.
    pub fn text(&self) -> &Text
        ensures { result.now ≡ self.now }
    {
        &self.text
    }

    /// Returns the text as a `&str`.
    pub fn as_str(&self) -> &str
        ensures { result.now ≡ self.now }
    {
        self.text.as_str()
    }

    /// Reads the text, even if it was read before, and keeps the [`SchemaReading`] if memory
    /// allows. `None` if the text isn't a schema's. The only error is out of memory.
    pub fn schema(&self) -> Result<Option<Schema>, AllocError>
        ensures { IfOk result (λ found. found ≡ schema_of self.now) }
    {
        let schema = Schema::read_if_any(self.alloc, self.text.as_str())?;
        let _kept = self.keep(&schema);
        Ok(schema)
    }

    /// Returns the kept [`SchemaReading`], or reads the text now. `None` if it isn't a schema's.
    /// The only error is out of memory.
    pub fn reading(&self) -> Result<Option<SchemaReading>, AllocError>
        ensures { IfOk result (λ found. found ≡ reading_of self.now) }
    {
        match self.kept() {
            Some(read) => read.found().clone(),
            None => reading(&self.schema()?),
        }
    }

    /// Returns a [`KnownNormal`] of the schema's normal text, whose normal text is itself. `None`
    /// if the text wasn't read yet or isn't a schema's. Allocates nothing.
    pub fn known(&self) -> Option<KnownNormal<'_>> {
        self.read.get()?.known()
    }

    /// Keeps the result of reading. The only error is out of memory, which changes nothing.
    fn keep(&self, schema: &Option<Schema>) -> Result<(), AllocError>
        requires { schema.now ≡ schema_of self.now }
    {
        let read = ReadText::of(self.text.clone()?, schema)?;
        // Another thread may have kept the same meanwhile.
        let _same = self.read.set(Box::new(self.alloc, read)?);
        Ok(())
    }

    /// Returns the kept result of reading this text, if there is one.
    fn kept(&self) -> Option<&ReadText>
        ensures { IfSome result (λ read. read.now ≡ self.now) }
    {
        match self.read.get() {
            Some(read) if read.text == self.text => Some(read),
            _ => None,
        }
    }
}

/// Makes the reading of a schema, if there is one. The only error is out of memory.
fn reading(schema: &Option<Schema>) -> Result<Option<SchemaReading>, AllocError>
    ensures { IfOk result (λ found. found ≡ option_map kept_of schema.now) }
{
    match schema {
        Some(schema) => Ok(Some(SchemaReading::of(schema)?)),
        None => Ok(None),
    }
}

fn has_valid_defaults(schema: &Schema) -> bool
    ensures { result ≡ has_valid_defaults schema.now }
{
    schema.check_defaults().is_ok()
}

impl Clone for SchemaText {
    ghost is_clone = { λ text copy. copy ≡ text };

    fn clone(&self) -> Result<SchemaText, AllocError> {
        let copy = SchemaText::new(self.alloc, self.text.clone()?);
        if let Some(read) = self.read.get() {
            let _kept = copy.read.set(Box::new(self.alloc, read.again()?)?);
        }
        Ok(copy)
    }
}

impl fmt::Debug for SchemaText {
    fn fmt<W: fmt::Write>(&self, f: &mut fmt::Formatter<W>) -> fmt::Result {
        self.text.fmt(f)
    }
}
