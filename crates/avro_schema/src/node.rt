// The nodes of a schema: one for each type that is written out.
ghost use Rattle.std.specs.Prelude.{◌≡◌};

use crate::DefaultValue;
use base_text::{Listed, Text};
use named_list::{Named, NamedList};

/// A primitive type (Avro 1.11, "Primitive Types").
#[derive(Clone, Copy, Debug, PartialEq, Eq)]
pub enum Primitive {
    Null,
    Boolean,
    Int,
    Long,
    Float,
    Double,
    Bytes,
    String,
}

/// The name of a record, an enum or a fixed type, or an alias of it (Avro 1.11, "Names").
#[derive(Debug, Drop)]
pub struct FullName {
    /// The part before the last dot; empty in the null namespace.
    pub namespace: Text,
    /// The part after the last dot.
    pub name: Text,
}

/// The id of a node in its schema. Nodes are counted from 0 in the order in which their types open
/// in the text.
#[derive(Clone, Copy, Debug, PartialEq, Eq)]
pub struct NodeId {
    pub index: usize,
}

/// A field of a record (Avro 1.11, "Records").
#[derive(Drop)]
pub struct Field {
    pub name: Text,
    pub aliases: Listed<Text>,
    /// The default, if it has one.
    pub default: Option<DefaultValue>,
    /// The field's type.
    pub node: NodeId,
}

impl Named for Field {
    ghost name = { λ field. field.name };

    fn name(&self) -> &Text {
        &self.name
    }
}

/// A type that the schema's text writes out (Avro 1.11, "Complex Types"). A use of a defined name
/// has no node of its own; it is the id of the definition's node.
#[derive(Drop)]
pub enum Node {
    Primitive(Primitive),
    Record {
        name: FullName,
        aliases: Listed<FullName>,
        fields: NamedList<Field>,
    },
    Enum {
        name: FullName,
        aliases: Listed<FullName>,
        symbols: NamedList<Text>,
        default: Option<Text>,
    },
    /// An array with items of this type.
    Array(NodeId),
    /// A map with values of this type.
    Map(NodeId),
    /// A union of these branches.
    Union(Listed<NodeId>),
    Fixed {
        name: FullName,
        aliases: Listed<FullName>,
        /// The size in bytes, at most `SIZE_LIMIT`.
        size: u32,
    },
}
