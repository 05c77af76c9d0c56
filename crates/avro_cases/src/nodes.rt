// The nodes of a schema, in words.
use crate::{Answer, Done};
use avro_schema::{FullName, Node, NodeId, Schema};
use std::alloc::Global;

/// The name and the aliases of a record, an enum or a fixed type.
pub(crate) fn heading(node: &Node) -> Option<(&FullName, &[FullName])> {
    match node {
        Node::Record { name, aliases, .. } => Some((name, aliases.as_slice())),
        Node::Enum { name, aliases, .. } => Some((name, aliases.as_slice())),
        Node::Fixed { name, aliases, .. } => Some((name, aliases.as_slice())),
        _ => None,
    }
}

pub(crate) fn is_same(name: &FullName, other: &FullName) -> bool {
    name.namespace == other.namespace && name.name == other.name
}

/// The kind of a type, by its name.
pub(crate) fn kind_of(node: &Node) -> &'static str {
    match node {
        Node::Primitive(_) => "primitive",
        Node::Record { .. } => "record",
        Node::Enum { .. } => "enum",
        Node::Array(_) => "array",
        Node::Map(_) => "map",
        Node::Union(_) => "union",
        Node::Fixed { .. } => "fixed",
    }
}

fn push_name(text: &mut String, name: &FullName) -> Done {
    write!(text, " {}|{}", name.namespace.as_str(), name.name.as_str())
}

fn push_names(text: &mut String, name: &FullName, aliases: &[FullName]) -> Done {
    push_name(text, name)?;
    for alias in aliases {
        text.push_str(" as")?;
        push_name(text, alias)?;
    }
    Ok(())
}

/// Adds a node's name and aliases. The schema gives its own name.
fn push_heading(text: &mut String, node: &Node, name: Option<&FullName>) -> Done {
    match (heading(node), name) {
        (Some((own, aliases)), Some(name)) if is_same(own, name) => push_names(text, own, aliases),
        (None, None) => Ok(()),
        _ => text.push_str(" of another name"),
    }
}

/// Adds the numbers of the nodes that a node leads to.
fn push_parts(text: &mut String, node: &Node) -> Done {
    match node {
        Node::Array(part) | Node::Map(part) => write!(text, " {}", part.index)?,
        Node::Union(branches) => {
            for branch in branches.as_slice() {
                write!(text, " {}", branch.index)?;
            }
        }
        Node::Record { fields, .. } => {
            for field in fields.as_slice() {
                write!(text, " {}:{}", field.name.as_str(), field.node.index)?;
            }
        }
        _ => {}
    }
    Ok(())
}

fn push_nodes(text: &mut String, schema: &Schema) -> Done {
    for index in 0..schema.node_count() {
        let id = NodeId { index };
        let node = schema.node(id);
        text.push_str(if index > 0 { "; " } else { "" })?;
        text.push_str(kind_of(node))?;
        push_heading(text, node, schema.name_of(id))?;
        push_parts(text, node)?;
    }
    if let Err(bad) = schema.check_defaults() {
        write!(text, "; no default of {}", bad.field.as_str())?;
    }
    Ok(())
}

/// The nodes and the field whose default isn't valid, or the fault.
pub(crate) fn nodes_answer(alloc: Global, asked: &str) -> Answer {
    let mut text = String::new(alloc);
    match &Schema::read(alloc, asked) {
        Ok(schema) => push_nodes(&mut text, schema)?,
        Err(error) => write!(text, "{error}")?,
    }
    Ok(text)
}
