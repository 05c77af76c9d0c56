// Which names and which primitives match.
ghost use Rattle.std.specs.Prelude.{◌≡◌};
ghost use Rattle.std.specs.List.{list_any};
ghost use Rattle.avro_schema.specs.Names.{same_name};
ghost use Rattle.avro_resolve.specs.Match as spec;

use avro_schema::{FullName, Primitive};

/// Returns whether the last parts are equal, or the writer's full name is one of the reader's
/// aliases (Avro 1.11, "Aliases").
pub fn names_match(reader: &FullName, aliases: &[FullName], writer: &FullName) -> bool
    ensures { result ≡ spec.names_match reader.now aliases.now writer.now }
{
    reader.name == writer.name || is_among(writer, aliases)
}

/// Returns whether a full name is one of these.
fn is_among(name: &FullName, names: &[FullName]) -> bool
    ensures { result ≡ list_any (same_name name.now) names.now }
{
    for other in names {
        if is_same_name(name, other) {
            return true;
        }
    }
    false
}

/// Returns whether two full names are equal. Compares the last parts first, since namespaces are
/// often equal.
fn is_same_name(a: &FullName, b: &FullName) -> bool
    ensures { result ≡ same_name a.now b.now }
{
    a.name == b.name && a.namespace == b.namespace
}

/// Returns whether a writer's primitive is the reader's or is promoted to it (Avro 1.11, "Schema
/// Resolution").
pub fn primitives_match(reader: Primitive, writer: Primitive) -> bool
    ensures { result ≡ spec.primitives_match reader writer }
{
    match writer {
        Primitive::Null => matches!(reader, Primitive::Null),
        Primitive::Boolean => matches!(reader, Primitive::Boolean),
        Primitive::Int => matches!(
            reader,
            Primitive::Int | Primitive::Long | Primitive::Float | Primitive::Double
        ),
        Primitive::Long => matches!(
            reader,
            Primitive::Long | Primitive::Float | Primitive::Double
        ),
        Primitive::Float => matches!(reader, Primitive::Float | Primitive::Double),
        Primitive::Double => matches!(reader, Primitive::Double),
        Primitive::Bytes | Primitive::String => {
            matches!(reader, Primitive::Bytes | Primitive::String)
        }
    }
}
