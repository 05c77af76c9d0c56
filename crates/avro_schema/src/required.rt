// The fields that an object default of a record has to have: those without a default of their own.
ghost use Rattle.std.specs.Prelude.{◌≡◌, map, IfOk};
ghost use Rattle.avro_schema.specs.Required as spec;

use crate::{Field, Node};
use base_text::{Listed, Text};
use std::alloc::{AllocError, Global};

/// Returns, for each node, the names of its fields without a default; none if it isn't a record.
pub(crate) fn required_fields(
    alloc: Global,
    nodes: &[Node],
) -> Result<Vec<Listed<Text>>, AllocError>
    ensures { IfOk result (λ v. v.items ≡ map spec.required_of nodes.now) }
{
    let mut all = Vec::with_capacity(alloc, nodes.len())?;
    for node in nodes {
        all.push(Listed::from(required_of(alloc, node)?))?;
    }
    Ok(all)
}

fn required_of(alloc: Global, node: &Node) -> Result<Vec<Text>, AllocError>
    ensures { IfOk result (λ v. v.items ≡ spec.required_of node.now) }
{
    match node {
        Node::Record { fields, .. } => without_default(alloc, fields.as_slice()),
        _ => Ok(Vec::new(alloc)),
    }
}

fn without_default(alloc: Global, fields: &[Field]) -> Result<Vec<Text>, AllocError>
    ensures { IfOk result (λ v. v.items ≡ spec.required_in fields.now) }
{
    let mut names = Vec::new(alloc);
    for field in fields {
        if field.default.is_none() {
            names.push(field.name.clone()?)?;
        }
    }
    Ok(names)
}
