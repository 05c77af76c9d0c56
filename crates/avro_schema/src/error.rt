// Why a text is not a schema, and which default isn't valid.
use base_text::Text;
use std::alloc::{AllocError, AllocFailed};
use std::error::Error;
use std::fmt;

/// The error of reading a schema's text. Each fault is reported only if the text has it; if it has
/// several, any one of them.
#[derive(Debug, Drop)]
pub enum SchemaError {
    /// The text isn't JSON (RFC 8259), or nests more than 127 arrays and objects.
    NotJson,
    /// A number anywhere in the text has a fraction or an exponent, is `-0`, or isn't an integer
    /// from -2^63 to 2^64-1.
    FloatNumber,
    /// A type's name or alias isn't a valid full name (Avro 1.11, "Names"), or the last part of a
    /// type's name is a primitive type's name.
    BadName,
    /// A full name is defined twice.
    Redefined,
    /// The text uses this name, given as written, but doesn't define it before.
    Unknown(Text),
    /// A union has a union as a branch, or two branches of the same unnamed type or full name (Avro
    /// 1.11, "Unions").
    BadUnion,
    /// An enum's symbols aren't distinct names, or its default isn't one of them.
    BadEnum,
    /// A fixed type's size isn't an integer from 0 to `SIZE_LIMIT`, in bytes.
    BadFixed,
    /// A member is missing or malformed, or a record's field names aren't distinct names.
    BadForm,
    /// The text writes out more than `SCHEMA_NODES_LIMIT` types.
    TooManyNodes,
    /// The text is longer than `TEXT_LIMIT` bytes.
    TooLong,
    OutOfMemory,
}

impl SchemaError {
    ghost use Rattle.std.specs.Prelude.{◌≡◌};
    ghost use Rattle.avro_schema.specs.Schema.{is_memory, error_name};

    /// Returns whether memory was refused. If not, the text isn't a schema.
    pub fn is_memory(&self) -> bool
        ensures { result ≡ is_memory self.now }
    {
        matches!(self, SchemaError::OutOfMemory)
    }

    /// Returns the name of the error, such as `BadName`.
    pub fn name(&self) -> &'static str
        ensures { result.now ≡ error_name self.now }
    {
        match self {
            SchemaError::NotJson => "NotJson",
            SchemaError::FloatNumber => "FloatNumber",
            SchemaError::BadName => "BadName",
            SchemaError::Redefined => "Redefined",
            SchemaError::Unknown(_) => "Unknown",
            SchemaError::BadUnion => "BadUnion",
            SchemaError::BadEnum => "BadEnum",
            SchemaError::BadFixed => "BadFixed",
            SchemaError::BadForm => "BadForm",
            SchemaError::TooManyNodes => "TooManyNodes",
            SchemaError::TooLong => "TooLong",
            SchemaError::OutOfMemory => "out of memory",
        }
    }
}

impl fmt::Display for SchemaError {
    ghost use Rattle.std.specs.Prelude.{Some};
    ghost use Rattle.avro_schema.specs.Schema.{error_name};

    ghost output = { λ error. Some (error_name error) };

    fn fmt<W: fmt::Write>(&self, f: &mut fmt::Formatter<W>) -> fmt::Result {
        write!(f, "{}", self.name())
    }
}

impl Error for SchemaError {}

impl From<AllocError> for SchemaError {
    ghost use Rattle.std.specs.Prelude.{◌≡◌};
    ghost use Rattle.avro_schema.specs.declared.error.SchemaError.TheVariants.{OutOfMemory};

    ghost from_gives = { λ _ e. e ≡ OutOfMemory };

    fn from(_refused: AllocError) -> SchemaError {
        SchemaError::OutOfMemory
    }
}

impl<T: Drop> From<AllocFailed<T>> for SchemaError {
    ghost use Rattle.std.specs.Prelude.{◌≡◌};
    ghost use Rattle.avro_schema.specs.declared.error.SchemaError.TheVariants.{OutOfMemory};

    ghost from_gives = { λ _ e. e ≡ OutOfMemory };

    fn from(_refused: AllocFailed<T>) -> SchemaError {
        SchemaError::OutOfMemory
    }
}

/// The error that a field's default isn't a value of the field's type. The field's name is borrowed
/// from the schema, so reporting it allocates nothing.
#[derive(Clone, Copy, Debug)]
pub struct BadDefault<'s> {
    pub field: &'s Text,
}

impl fmt::Display for BadDefault<'_> {
    ghost use Rattle.std.specs.Prelude.{Some, codes};

    ghost output = { λ _. Some (codes "BadDefault") };

    fn fmt<W: fmt::Write>(&self, f: &mut fmt::Formatter<W>) -> fmt::Result {
        write!(f, "BadDefault")
    }
}

impl Error for BadDefault<'_> {}
