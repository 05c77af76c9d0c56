// Which types match.
ghost use Rattle.std.specs.Prelude.{◌≡◌, ◌<◌, length, false};
ghost use Rattle.avro_resolve.specs.Match as spec;
ghost use Rattle.avro_resolve.specs.Inward.{inner_types, is_union_node};

use crate::names::{names_match, primitives_match};
use avro_schema::{Node, NodeId, Schema};

/// Returns whether the reader's type `i` matches the writer's type `j` (Avro 1.11, "Schema
/// Resolution").
///
/// Arrays match if their items do, and maps if their values do. A union matches any type, and the
/// fields of a record aren't compared. Each id must be below its schema's `node_count`. Allocates
/// nothing.
pub fn matches(r: &Schema, i: NodeId, w: &Schema, j: NodeId) -> bool
    requires reader { i.index < length r.now.nodes }
    requires writer { j.index < length w.now.nodes }
    ensures value { result ≡ spec.matches r.now.nodes w.now.nodes i j }
    ensures by_cases { spec.IsByCases r.now.nodes w.now.nodes }
    ensures each_itself { spec.EachMatchesItself r.now.nodes }
{
    let mut i = i;
    let mut j = j;
    let mut left = r.node_count();
    'inward: loop {
        let reader = r.node(i);
        let writer = w.node(j);
        match inner_types(reader, writer) {
            Some((a, b)) => {
                i = a;
                j = b;
            }
            None => return nodes_match(reader, writer),
        }
        if left == 0 {
            return false;
        }
        left -= 1;
    }
}

/// Returns the item types of two arrays or the value types of two maps, else `None`.
fn inner_types(reader: &Node, writer: &Node) -> Option<(NodeId, NodeId)>
    ensures { result ≡ inner_types reader.now writer.now }
{
    match reader {
        Node::Array(i) => match writer {
            Node::Array(j) => Some((*i, *j)),
            _ => None,
        },
        Node::Map(i) => match writer {
            Node::Map(j) => Some((*i, *j)),
            _ => None,
        },
        _ => None,
    }
}

/// Returns whether two types match that aren't both arrays or both maps.
fn nodes_match(reader: &Node, writer: &Node) -> bool
    ensures { result ≡ spec.nodes_match (λ k l. false) reader.now writer.now }
{
    match reader {
        Node::Union(_) => true,
        Node::Primitive(p) => match writer {
            Node::Primitive(q) => primitives_match(*p, *q),
            _ => is_union_node(writer),
        },
        Node::Record { name, aliases, .. } => match writer {
            Node::Record { name: other, .. } => names_match(name, aliases.as_slice(), other),
            _ => is_union_node(writer),
        },
        Node::Enum { name, aliases, .. } => match writer {
            Node::Enum { name: other, .. } => names_match(name, aliases.as_slice(), other),
            _ => is_union_node(writer),
        },
        Node::Fixed {
            name,
            aliases,
            size,
        } => match writer {
            Node::Fixed {
                name: other,
                size: written,
                ..
            } => *size == *written && names_match(name, aliases.as_slice(), other),
            _ => is_union_node(writer),
        },
        Node::Array(_) => is_union_node(writer),
        Node::Map(_) => is_union_node(writer),
    }
}

fn is_union_node(node: &Node) -> bool
    ensures { result ≡ is_union_node node.now }
{
    matches!(node, Node::Union(_))
}
