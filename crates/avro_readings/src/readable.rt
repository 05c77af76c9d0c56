// Whether a value has a reading, where the reading itself may be too large to be made. Each part of
// the value is looked at once, for all the reader's types together that read it.
ghost use Rattle.std.specs.Prelude.{◌≡◌, ℕ, Bool, true, [], Some, slice_get, option_map, unwrap_or, is_some, IfOk};
ghost use Rattle.std.specs.List.{list_any};
ghost use Rattle.avro_resolve.specs.avro_schema.declared.node.Node.TheVariants as kind;
ghost use Rattle.avro_resolve.specs.Table.{clash_of};
ghost use Rattle.avro_resolve.specs.Trails.{roots};
ghost use Rattle.avro_data.specs.Fits.{fits, items_fit, values_fit, fields_fit};
ghost use Rattle.avro_data.specs.View.{view, values_view, members_view};
ghost use Rattle.avro_data.specs.Value.{leaf, symbol as a_symbol, list_of, map_of, fields_of};
ghost use Rattle.avro_readings.specs.Reads as reading;
ghost use Rattle.avro_readings.specs.Readable as spec;

use crate::asked::{asked_of, each_once};
use crate::pairs::{
    both_leaves, branch_at, inner_at, is_barred, record_field_at, row_type, symbol_at,
};
use avro_data::{Data, node_at};
use avro_resolve::Pair;
use avro_resolve::avro_schema::{Field, Node, NodeId, Schema};
use avro_resolve::base_text::Text;
use avro_resolve::named_list::NamedList;
use std::alloc::{AllocError, Global};
use std::collections::BTreeMap;

/// Returns whether a value of the writer's schema has a reading, without making it. The only error
/// is out of memory.
pub fn can_read(alloc: Global, r: &Schema, w: &Schema, given: &Data) -> Result<bool, AllocError>
    requires { fits w.now.nodes roots.writer (view given.now) ≡ true }
    ensures { IfOk result (λ yes. yes ≡ is_some (reading.reads r.now.nodes w.now.nodes roots (view given.now))) }
{
    can_all_read(alloc, r, w, &[r.root().index], w.root(), given)
}

/// Returns whether each of these types of the reader's reads a value of the writer's type.
#[cycle(can_all_read)]
fn can_all_read(
    alloc: Global,
    r: &Schema,
    w: &Schema,
    readers: &[usize],
    j: NodeId,
    given: &Data,
) -> Result<bool, AllocError>
    requires { fits w.now.nodes j (view given.now) ≡ true }
    ensures { IfOk result (λ yes. yes ≡ spec.all_read r.now.nodes w.now.nodes readers.now j (view given.now)) }
{
    match given {
        Data::Leaf => Ok(all_read_leaf(r, w, readers, j)),
        Data::Symbol(symbol) => Ok(all_read_symbol(r, w, readers, j, symbol)),
        Data::List(items) => match node_at(w, j) {
            Some(Node::Array(inner)) => can_read_items(alloc, r, w, readers, j, *inner, items),
            _ => Ok(false),
        },
        Data::Map(members) => match node_at(w, j) {
            Some(Node::Map(inner)) => can_read_values(alloc, r, w, readers, j, *inner, members),
            _ => Ok(false),
        },
        Data::Branch(k, inner) => match branch_at(node_at(w, j), *k) {
            Some(b) => {
                if is_any_barred(r, w, readers, j) {
                    Ok(false)
                } else {
                    can_all_read(alloc, r, w, readers, b, inner)
                }
            }
            None => Ok(false),
        },
        Data::Fields(members) => match node_at(w, j) {
            Some(Node::Record { fields, .. }) => {
                can_read_fields(alloc, r, w, readers, j, fields, members)
            }
            _ => Ok(false),
        },
        Data::Default => Ok(false),
    }
}

fn pair_of(i: usize, j: NodeId) -> Pair
    ensures { result ≡ spec.pair_of i j }
{
    Pair {
        reader: NodeId { index: i },
        writer: j,
    }
}

fn is_any_barred(r: &Schema, w: &Schema, readers: &[usize], j: NodeId) -> bool
    ensures { result ≡ list_any (λ i. reading.bars (clash_of r.now.nodes w.now.nodes (spec.pair_of i j))) readers.now }
{
    readers.iter().any(|i| is_barred(r, w, pair_of(*i, j)))
}

fn all_read_leaf(r: &Schema, w: &Schema, readers: &[usize], j: NodeId) -> bool
    ensures { result ≡ spec.all_read r.now.nodes w.now.nodes readers.now j leaf }
{
    readers.iter().all(|i| reads_leaf(r, w, pair_of(*i, j)))
}

fn all_read_symbol(r: &Schema, w: &Schema, readers: &[usize], j: NodeId, symbol: &Text) -> bool
    ensures { result ≡ spec.all_read r.now.nodes w.now.nodes readers.now j (a_symbol symbol.now) }
{
    readers
        .iter()
        .all(|i| reads_symbol(r, w, pair_of(*i, j), symbol))
}

fn reads_leaf(r: &Schema, w: &Schema, pair: Pair) -> bool
    ensures { result ≡ is_some (reading.reads r.now.nodes w.now.nodes pair leaf) }
{
    match row_type(r, w, pair) {
        Some(reader) => both_leaves(node_at(r, reader), node_at(w, pair.writer)),
        None => false,
    }
}

fn reads_symbol(r: &Schema, w: &Schema, pair: Pair, symbol: &Text) -> bool
    ensures { result ≡ is_some (reading.reads r.now.nodes w.now.nodes pair (a_symbol symbol.now)) }
{
    match row_type(r, w, pair) {
        Some(reader) => { symbol_at(node_at(r, reader), node_at(w, pair.writer), symbol).is_some() }
        None => false,
    }
}

/// What the reader's types are of, where the writer's is an array or a map: None where one of them
/// doesn't read it.
fn inner_types(
    alloc: Global,
    r: &Schema,
    w: &Schema,
    readers: &[usize],
    j: NodeId,
) -> Result<Option<Vec<usize>>, AllocError>
    ensures { IfOk result (λ found. option_map (λ types. types.items) found ≡ spec.inner_types r.now.nodes w.now.nodes j readers.now) }
{
    let mut types = Vec::new(alloc);
    for reader in readers {
        match inner_type(r, w, pair_of(*reader, j)) {
            Some(inner) => types.push(inner.index)?,
            None => return Ok(None),
        }
    }
    Ok(Some(types))
}

fn inner_type(r: &Schema, w: &Schema, pair: Pair) -> Option<NodeId>
    ensures { result ≡ spec.inner_type r.now.nodes w.now.nodes pair }
{
    match row_type(r, w, pair) {
        Some(reader) => inner_at(node_at(r, reader), node_at(w, pair.writer)),
        None => None,
    }
}

#[cycle(can_all_read)]
fn can_read_items(
    alloc: Global,
    r: &Schema,
    w: &Schema,
    readers: &[usize],
    j: NodeId,
    inner: NodeId,
    items: &Vec<Data>,
) -> Result<bool, AllocError>
    requires writer { slice_get w.now.nodes j.index ≡ Some (kind.Array inner) }
    requires fit { items_fit w.now.nodes inner (values_view items.now.items) ≡ true }
    ensures { IfOk result (λ yes. yes ≡ spec.all_read r.now.nodes w.now.nodes readers.now j (list_of (values_view items.now.items))) }
{
    let Some(types) = inner_types(alloc, r, w, readers, j)? else {
        return Ok(false);
    };
    for item in items {
        if !can_all_read(alloc, r, w, types.as_slice(), inner, item)? {
            return Ok(false);
        }
    }
    Ok(true)
}

#[cycle(can_all_read)]
fn can_read_values(
    alloc: Global,
    r: &Schema,
    w: &Schema,
    readers: &[usize],
    j: NodeId,
    inner: NodeId,
    members: &BTreeMap<Text, Data>,
) -> Result<bool, AllocError>
    requires writer { slice_get w.now.nodes j.index ≡ Some (kind.Map inner) }
    requires fit { values_fit w.now.nodes inner (members_view members.now.entries) ≡ true }
    ensures { IfOk result (λ yes. yes ≡ spec.all_read r.now.nodes w.now.nodes readers.now j (map_of (members_view members.now.entries))) }
{
    let Some(types) = inner_types(alloc, r, w, readers, j)? else {
        return Ok(false);
    };
    for (_key, value) in members.iter() {
        if !can_all_read(alloc, r, w, types.as_slice(), inner, value)? {
            return Ok(false);
        }
    }
    Ok(true)
}

/// Each field that was written, for all the types that read it.
#[cycle(can_all_read)]
fn can_read_fields(
    alloc: Global,
    r: &Schema,
    w: &Schema,
    readers: &[usize],
    j: NodeId,
    others: &NamedList<Field>,
    members: &Vec<(Text, Data)>,
) -> Result<bool, AllocError>
    requires writer { (m : _) × (al : _) × (slice_get w.now.nodes j.index ≡ Some (kind.Record m al others.now)) }
    requires fit { fields_fit w.now.nodes others.now (members_view members.now.items) ≡ true }
    ensures { IfOk result (λ yes. yes ≡ spec.all_read r.now.nodes w.now.nodes readers.now j (fields_of (members_view members.now.items))) }
{
    let Some(asked) = asked_of(alloc, r, w, readers, j, others)? else {
        return Ok(false);
    };
    for (k, member) in members.iter().enumerate() {
        let types = each_once(alloc, list_at(&asked, k))?;
        match record_field_at(others.as_slice(), k) {
            Some(other) => {
                member_fits(w, others, members, k, other, member);
                if !can_all_read(alloc, r, w, types.as_slice(), other.node, &member.1)? {
                    return Ok(false);
                }
            }
            None => return Ok(false),
        }
    }
    Ok(true)
}

/// The types that are listed for a place, none where it has no list.
fn list_at(asked: &Vec<Vec<usize>>, k: usize) -> &[usize]
    ensures { result.now ≡ unwrap_or (option_map (λ l. l.items) (slice_get asked.now.items k)) [] }
{
    match asked.get(k) {
        Some(types) => types.as_slice(),
        None => &[],
    }
}

/// The member at a place of a record that fits is a value of the field at that place. What is
/// proved here costs nothing at run time.
fn member_fits(
    w: &Schema,
    others: &NamedList<Field>,
    members: &Vec<(Text, Data)>,
    k: usize,
    field: &Field,
    member: &(Text, Data),
)
    requires fit { fields_fit w.now.nodes others.now (members_view members.now.items) ≡ true }
    requires field { slice_get others.now k ≡ Some field.now }
    requires member { slice_get members.now.items k ≡ Some member.now }
    ensures { fits w.now.nodes field.now.node (view member.now.1) ≡ true }
{}
