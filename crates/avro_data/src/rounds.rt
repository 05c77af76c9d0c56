// In which round each type is given its sample.
ghost use Rattle.std.specs.Prelude.{◌≡◌, ◌<◌, ◌+◌, [], length, IfOk, OnOk, option_copied, slice_get, replicate, None, Contains};
ghost use Rattle.avro_data.specs.Outlines.{outlined, outlined_fields, outlined_branches};
ghost use Rattle.avro_data.specs.Outlines.{nothing as no_fields};
ghost use Rattle.avro_data.specs.Rounds as spec;

use crate::fits::node_at;
use crate::outline::{Given, Outline};
use crate::users::{users, users_of};
use avro_schema::{Field, Node, NodeId, Schema};
use base_text::Text;
use std::alloc::{AllocError, Global};

/// Returns for each type the round in which it is given its sample, if it is, and the sample's
/// outline.
///
/// Each round looks only at the types that use one which the round before gave its sample.
pub(crate) fn all_rounds(alloc: Global, schema: &Schema) -> Result<Vec<Option<Given>>, AllocError>
    ensures { IfOk result (λ table. spec.AreAllRounds schema.now.nodes table.items) }
{
    let users = users(alloc, schema)?;
    let mut table = nothing_given(alloc, schema.node_count())?;
    let mut candidates = all_types(alloc, schema.node_count())?;
    let mut round = 0;
    'rounds: loop {
        let given = give(alloc, schema, &mut table, round, candidates.as_slice())?;
        if given.is_empty() {
            return Ok(table);
        }
        candidates = users_of(alloc, users.as_slice(), given.as_slice())?;
        round += 1;
    }
}

fn nothing_given(alloc: Global, count: usize) -> Result<Vec<Option<Given>>, AllocError>
    ensures { IfOk result (λ table. table.items ≡ replicate count None) }
{
    let mut table = Vec::with_capacity(alloc, count)?;
    for _made in 0..count {
        table.push(None)?;
    }
    Ok(table)
}

fn all_types(alloc: Global, count: usize) -> Result<Vec<NodeId>, AllocError>
    ensures { IfOk result (λ ids. (i : NodeId) → i.index < count → Contains ids.items i) }
{
    let mut ids = Vec::with_capacity(alloc, count)?;
    for index in 0..count {
        ids.push(NodeId { index })?;
    }
    Ok(ids)
}

/// Gives samples in the next round to those candidates that have none yet and are ready. Returns
/// those candidates.
fn give(
    alloc: Global,
    schema: &Schema,
    table: &mut Vec<Option<Given>>,
    round: usize,
    candidates: &[NodeId],
) -> Result<Vec<NodeId>, AllocError>
    requires rounds { spec.AreRounds schema.now.nodes table.old.items round }
    requires candidates { spec.AreCandidates schema.now.nodes table.old.items round candidates.now }
    requires room { round < usize.MAX }
    ensures next { OnOk result (spec.IsNext schema.now.nodes table.old.items round table.new.items) }
    ensures given { IfOk result (λ given. spec.AreNew table.new.items (round + 1) given.items) }
    ensures count { IfOk result (λ given. spec.given_count table.new.items ≡ spec.given_count table.old.items + length given.items) }
    ensures still { IfOk result (λ given. given.items ≡ [] → table.new.items ≡ table.old.items) }
{
    let mut given = Vec::new(alloc);
    for id in candidates {
        if let Some(outline) = outline_now(schema, table.as_slice(), round, *id) {
            table[id.index] = Some(Given {
                round: round + 1,
                outline,
            });
            given.push(*id)?;
        }
    }
    Ok(given)
}

/// Returns the outline of a type's sample if it has none yet and is ready.
fn outline_now(
    schema: &Schema,
    table: &[Option<Given>],
    round: usize,
    id: NodeId,
) -> Option<Outline>
    ensures { result ≡ spec.outline_now schema.now.nodes table.now round id }
{
    match table.get(id.index) {
        Some(None) => outline_of(table, round, node_at(schema, id)),
        _ => None,
    }
}

/// Returns the outline of a type's sample from those given by that round, if they suffice.
fn outline_of(table: &[Option<Given>], round: usize, node: Option<&Node>) -> Option<Outline>
    ensures { result ≡ outlined (spec.by_table table.now round) (option_copied node.entry) }
{
    match node {
        Some(Node::Primitive(_) | Node::Fixed { .. } | Node::Array(_) | Node::Map(_)) => {
            Some(Outline::leaf())
        }
        Some(Node::Enum { symbols, .. }) => {
            first_symbol(symbols.as_slice()).map(|_| Outline::leaf())
        }
        Some(Node::Record { fields, .. }) => {
            outline_of_fields(table, round, fields.as_slice()).map(|inside| inside.around(0))
        }
        Some(Node::Union(branches)) => outline_of_branches(table, round, branches.as_slice()),
        None => None,
    }
}

pub(crate) fn first_symbol(symbols: &[Text]) -> Option<&Text>
    ensures { option_copied result ≡ slice_get symbols.now 0 }
{
    symbols.first()
}

/// Returns the outline of all fields together, without the record around them.
fn outline_of_fields(table: &[Option<Given>], round: usize, fields: &[Field]) -> Option<Outline>
    ensures { result ≡ outlined_fields (spec.by_table table.now round) no_fields fields.now }
{
    let mut inside = Outline::nothing();
    for field in fields {
        match outline_by(table, round, field.node) {
            Some(outline) => inside = inside.beside(outline),
            None => return None,
        }
    }
    Some(inside)
}

/// Returns the outline of the first branch that has a sample.
fn outline_of_branches(
    table: &[Option<Given>],
    round: usize,
    branches: &[NodeId],
) -> Option<Outline>
    ensures { result ≡ outlined_branches (spec.by_table table.now round) 0 branches.now }
{
    for (k, branch) in branches.iter().enumerate() {
        if let Some(outline) = outline_by(table, round, *branch) {
            return Some(outline.around(k));
        }
    }
    None
}

/// Returns the outline of the sample that a type was given by that round.
fn outline_by(table: &[Option<Given>], round: usize, id: NodeId) -> Option<Outline>
    ensures { result ≡ spec.by_table table.now round id }
{
    match table.get(id.index) {
        Some(Some(given)) => {
            if given.round <= round {
                Some(given.outline)
            } else {
                None
            }
        }
        _ => None,
    }
}
