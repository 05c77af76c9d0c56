// Labels of named types: the types that match a name are found by them.
ghost use Rattle.std.specs.Prelude.{◌≡◌, None, Some, option_copied, option_map};
ghost use Rattle.avro_resolve.specs.Labels as spec;

use avro_schema::{FullName, Node};
use base_text::Text;

/// The kind of a named type, and the size of a fixed type. Names are compared within one shape.
#[derive(Clone, Copy, PartialEq, Eq, PartialOrd, Ord, Drop)]
pub enum Shape {
    Record,
    Enum,
    Fixed(u32),
}

/// A key by which a type is found: the last part of its name, or with a namespace one of its
/// aliases.
#[derive(Clone, Copy, PartialEq, Eq, PartialOrd, Ord, Drop)]
pub struct Label<'a> {
    pub shape: Shape,
    pub name: &'a Text,
    pub namespace: Option<&'a Text>,
}

/// The shape, name and aliases of a type that has a name.
#[derive(Clone, Copy, Drop)]
pub struct Heading<'a> {
    pub shape: Shape,
    pub name: &'a FullName,
    pub aliases: &'a [FullName],
}

/// Returns the label of the last part of a name.
pub fn last_label(shape: Shape, name: &FullName) -> Label<'_>
    ensures shape { result.shape ≡ shape }
    ensures name { result.name.now ≡ name.now.name }
    ensures namespace { result.namespace ≡ None }
{
    Label {
        shape,
        name: &name.name,
        namespace: None,
    }
}

/// Returns the label of a full name.
pub fn full_label(shape: Shape, name: &FullName) -> Label<'_>
    ensures shape { result.shape ≡ shape }
    ensures name { result.name.now ≡ name.now.name }
    ensures namespace { option_copied result.namespace ≡ Some name.now.namespace }
{
    Label {
        shape,
        name: &name.name,
        namespace: Some(&name.namespace),
    }
}

/// Returns the heading of a type. `None` if the type has no name.
pub fn head_of(node: &Node) -> Option<Heading<'_>>
    ensures { option_map spec.read_heading result ≡ spec.heading_of (Some node.now) }
{
    match node {
        Node::Record { name, aliases, .. } => { headed(Shape::Record, name, aliases.as_slice()) }
        Node::Enum { name, aliases, .. } => headed(Shape::Enum, name, aliases.as_slice()),
        Node::Fixed {
            name,
            aliases,
            size,
        } => headed(Shape::Fixed(*size), name, aliases.as_slice()),
        _ => None,
    }
}

fn headed<'a>(shape: Shape, name: &'a FullName, aliases: &'a [FullName]) -> Option<Heading<'a>>
    ensures { option_map spec.read_heading result ≡ Some (shape, name.now, aliases.now) }
{
    Some(Heading {
        shape,
        name,
        aliases,
    })
}
