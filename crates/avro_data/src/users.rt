// Which types each type is used in.
ghost use Rattle.std.specs.Prelude.{◌≡◌, ◌<◌, length, IfOk, OnOk, Contains};
ghost use Rattle.avro_schema.specs.declared.node.NodeId.{NodeId};
ghost use Rattle.avro_data.specs.Users as spec;

use avro_schema::{Node, NodeId, Schema};
use std::alloc::{AllocError, Global};

/// Returns for each type the records that have a field of it and the unions that have it as a
/// branch.
pub(crate) fn users(alloc: Global, schema: &Schema) -> Result<Vec<Vec<NodeId>>, AllocError>
    ensures { IfOk result (λ users. spec.AreUsers schema.now.nodes users.items) }
{
    let count = schema.node_count();
    let mut users = no_users(alloc, count)?;
    for index in 0..count {
        let user = NodeId { index };
        add_uses(&mut users, user, schema.node(user))?;
    }
    Ok(users)
}

fn no_users(alloc: Global, count: usize) -> Result<Vec<Vec<NodeId>>, AllocError>
    ensures { IfOk result (λ users. length users.items ≡ count) }
{
    let mut users = Vec::with_capacity(alloc, count)?;
    for _made in 0..count {
        users.push(Vec::new(alloc))?;
    }
    Ok(users)
}

/// Adds a record to the users of its fields' types, a union to those of its branches.
fn add_uses(users: &mut Vec<Vec<NodeId>>, user: NodeId, node: &Node) -> Result<(), AllocError>
    ensures grown { OnOk result (spec.AreGrown users.old.items users.new.items) }
    ensures size { OnOk result (length users.new.items ≡ length users.old.items) }
    ensures added { OnOk result (spec.IsUserOf users.new.items user (spec.awaited node.now)) }
{
    match node {
        Node::Record { fields, .. } => {
            for field in fields.as_slice() {
                add_user(users, user, field.node)?;
            }
            Ok(())
        }
        Node::Union(branches) => {
            for branch in branches.as_slice() {
                add_user(users, user, *branch)?;
            }
            Ok(())
        }
        _ => Ok(()),
    }
}

/// Adds a type to the users of that one, once.
fn add_user(users: &mut Vec<Vec<NodeId>>, user: NodeId, of: NodeId) -> Result<(), AllocError>
    ensures grown { OnOk result (spec.AreGrown users.old.items users.new.items) }
    ensures size { OnOk result (length users.new.items ≡ length users.old.items) }
    ensures added { OnOk result (of.index < length users.old.items → spec.HasUser users.new.items of user) }
{
    if of.index < users.len() {
        let list = &mut users[of.index];
        add(list, user)?;
    }
    Ok(())
}

/// Adds a type to a list, unless it is the last there.
fn add(list: &mut Vec<NodeId>, id: NodeId) -> Result<(), AllocError>
    ensures kept { OnOk result ((i : NodeId) → Contains list.old.items i → Contains list.new.items i) }
    ensures added { OnOk result (Contains list.new.items id) }
{
    if list.as_slice().last() != Some(&id) {
        list.push(id)?;
    }
    Ok(())
}

/// Returns the users of those types.
pub(crate) fn users_of(
    alloc: Global,
    users: &[Vec<NodeId>],
    given: &[NodeId],
) -> Result<Vec<NodeId>, AllocError>
    ensures { IfOk result (λ found. spec.AreUsersOf users.now given.now found.items) }
{
    let mut found = Vec::new(alloc);
    for of in given {
        if of.index < users.len() {
            add_all(&mut found, users[of.index].as_slice())?;
        }
    }
    once_each(alloc, found)
}

/// Returns the ids in order, each once.
fn once_each(alloc: Global, mut ids: Vec<NodeId>) -> Result<Vec<NodeId>, AllocError>
    ensures { IfOk result (λ once. (i : NodeId) → Contains ids.items i → Contains once.items i) }
{
    ids.sort_unstable_by_key(|id| id.index);
    let mut once = Vec::new(alloc);
    add_all(&mut once, ids.as_slice())?;
    Ok(once)
}

fn add_all(found: &mut Vec<NodeId>, ids: &[NodeId]) -> Result<(), AllocError>
    ensures kept { OnOk result ((i : NodeId) → Contains found.old.items i → Contains found.new.items i) }
    ensures added { OnOk result ((i : NodeId) → Contains ids.now i → Contains found.new.items i) }
{
    for id in ids {
        add(found, *id)?;
    }
    Ok(())
}
