// What a reader makes of a writer's value.
ghost use Rattle.std.specs.Prelude.{◌≡◌, ◌≢◌, IfOk, IfErr, Err, List, Some, true, map, option_map, slice_get};
ghost use Rattle.avro_resolve.specs.avro_schema.declared.node.Field.{Field as SpecField};
ghost use Rattle.avro_resolve.specs.avro_schema.declared.node.Node.TheVariants as kind;
ghost use Rattle.avro_resolve.specs.Pairing.{partner};
ghost use Rattle.avro_resolve.specs.Trails.{roots, AreCompatible};
ghost use Rattle.avro_data.specs.Fits.{fits};
ghost use Rattle.avro_data.specs.View.{view, values_view, members_view};
ghost use Rattle.avro_readings.specs.Reads as spec;
ghost use Rattle.avro_readings.specs.Room.{value_room, values_room, members_room, inner_room, IsTaken, IsHalt};
ghost use Rattle.avro_readings.specs.Steps.{row_reading, through_union, through_reader, one_field_read, all_fields_read};
ghost use Rattle.avro_readings.specs.Worth.{IsRead, IsReadRefusal};

use crate::ReadError;
use crate::laws::compatible_values_are_readable;
use crate::members::{are_named, place_named};
use crate::pairs::{
    both_leaves, branch_at, fields_at, first_matching, is_barred, items_at, symbol_at, values_at,
};
use crate::readable::can_read;
use crate::room::{Halt, Room};
use avro_data::{Data, node_at};
use avro_resolve::avro_schema::{Field, Node, NodeId, Schema};
use avro_resolve::base_text::Text;
use avro_resolve::named_list::NamedList;
use avro_resolve::{Pair, partner};
use std::alloc::Global;
use std::collections::BTreeMap;

/// Returns what a reader with schema `r` makes of a value that was written with schema `w` (Avro
/// 1.11, "Schema Resolution").
///
/// A value of a reader's union has the number of the reader's branch, and a field for which nothing
/// was written is `Default`. If the two schemas are compatible, the error is never `Unreadable`. Of
/// a reading that is too large no more than the limits is built. `OutOfMemory` is returned if
/// memory is refused; names, keys and symbols take none, since they are shared with `r` and
/// `given`.
pub fn read_data(alloc: Global, r: &Schema, w: &Schema, given: &Data) -> Result<Data, ReadError>
    ensures ok { IfOk result (λ read. IsRead r.now.nodes w.now.nodes (view given.now) (view read)) }
    ensures refused { IfErr result (IsReadRefusal r.now.nodes w.now.nodes (view given.now)) }
    ensures compatible { AreCompatible r.now.nodes w.now.nodes → result ≢ Err ReadError.Unreadable }
{
    compatible_values_are_readable();
    // Counting the nodes tells that they are sound.
    let _sound = r.node_count();
    if !given.fits(w, w.root()) {
        return Err(ReadError::Unfit);
    }
    let pair = Pair {
        reader: r.root(),
        writer: w.root(),
    };
    match read(alloc, r, w, pair, given, &mut Room::whole()) {
        Ok(found) => Ok(found),
        Err(Halt::Unreadable) => Err(ReadError::Unreadable),
        Err(Halt::TooLarge) => {
            // A front of a reading was too large: it counts only where there is a whole one.
            if can_read(alloc, r, w, given)? {
                Err(ReadError::TooLarge)
            } else {
                Err(ReadError::Unreadable)
            }
        }
        Err(Halt::OutOfMemory) => Err(ReadError::OutOfMemory),
    }
}

/// Makes the reading of a value at a pair of types.
#[cycle(read)]
fn read(
    alloc: Global,
    r: &Schema,
    w: &Schema,
    pair: Pair,
    given: &Data,
    room: &mut Room,
) -> Result<Data, Halt>
    ensures read { IfOk result (λ found. spec.reads r.now.nodes w.now.nodes pair (view given.now) ≡ Some (view found)) }
    ensures room { IfOk result (λ found. IsTaken room.old room.new (value_room (view found))) }
    ensures halted { IfErr result (IsHalt room.old (option_map value_room (spec.reads r.now.nodes w.now.nodes pair (view given.now)))) }
{
    if is_barred(r, w, pair) {
        return Err(Halt::Unreadable);
    }
    match given {
        Data::Branch(k, inner) => match branch_at(node_at(w, pair.writer), *k) {
            Some(writer) => {
                let next = Pair {
                    reader: pair.reader,
                    writer,
                };
                read(alloc, r, w, next, inner, room)
            }
            None => Err(Halt::Unreadable),
        },
        Data::Default => Err(Halt::Unreadable),
        _ => read_inside(alloc, r, w, pair, given, room),
    }
}

/// Makes the reading, through the matching branch if the reader's type is a union.
#[cycle(read)]
fn read_inside(
    alloc: Global,
    r: &Schema,
    w: &Schema,
    pair: Pair,
    given: &Data,
    room: &mut Room,
) -> Result<Data, Halt>
    ensures read { IfOk result (λ found. through_reader r.now.nodes w.now.nodes pair (view given.now) ≡ Some (view found)) }
    ensures room { IfOk result (λ found. IsTaken room.old room.new (value_room (view found))) }
    ensures halted { IfErr result (IsHalt room.old (option_map value_room (through_reader r.now.nodes w.now.nodes pair (view given.now)))) }
{
    match node_at(r, pair.reader) {
        Some(Node::Union(branches)) => {
            read_branch(alloc, r, w, branches.as_slice(), pair, given, room)
        }
        _ => read_row(alloc, r, w, pair, given, room),
    }
}

/// Makes the reading by the first branch of the reader's union that matches.
#[cycle(read)]
fn read_branch(
    alloc: Global,
    r: &Schema,
    w: &Schema,
    branches: &[NodeId],
    pair: Pair,
    given: &Data,
    room: &mut Room,
) -> Result<Data, Halt>
    ensures read { IfOk result (λ found. through_union r.now.nodes w.now.nodes branches.now pair (view given.now) ≡ Some (view found)) }
    ensures room { IfOk result (λ found. IsTaken room.old room.new (value_room (view found))) }
    ensures halted { IfErr result (IsHalt room.old (option_map value_room (through_union r.now.nodes w.now.nodes branches.now pair (view given.now)))) }
{
    let Some((k, reader)) = first_matching(r, branches, w, pair.writer) else {
        return Err(Halt::Unreadable);
    };
    let next = Pair {
        reader,
        writer: pair.writer,
    };
    if is_barred(r, w, next) {
        return Err(Halt::Unreadable);
    }
    room.enter()?;
    let inner = read_row(alloc, r, w, next, given, room)?;
    room.leave();
    Ok(Data::Branch(k, Box::new(alloc, inner)?))
}

/// Makes the reading at a pair of types that are no unions, and takes the room of the value itself.
#[cycle(read)]
fn read_row(
    alloc: Global,
    r: &Schema,
    w: &Schema,
    pair: Pair,
    given: &Data,
    room: &mut Room,
) -> Result<Data, Halt>
    ensures read { IfOk result (λ found. row_reading r.now.nodes w.now.nodes (view given.now) pair ≡ Some (view found)) }
    ensures room { IfOk result (λ found. IsTaken room.old room.new (value_room (view found))) }
    ensures halted { IfErr result (IsHalt room.old (option_map value_room (row_reading r.now.nodes w.now.nodes (view given.now) pair))) }
{
    room.enter()?;
    let found = read_parts(alloc, r, w, pair, given, room)?;
    room.leave();
    Ok(found)
}

/// Makes the reading at a pair of types that are no unions, once the room of the value itself is
/// taken.
#[cycle(read)]
fn read_parts(
    alloc: Global,
    r: &Schema,
    w: &Schema,
    pair: Pair,
    given: &Data,
    room: &mut Room,
) -> Result<Data, Halt>
    ensures read { IfOk result (λ found. row_reading r.now.nodes w.now.nodes (view given.now) pair ≡ Some (view found)) }
    ensures room { IfOk result (λ found. IsTaken room.old room.new (inner_room (view found))) }
    ensures halted { IfErr result (IsHalt room.old (option_map inner_room (row_reading r.now.nodes w.now.nodes (view given.now) pair))) }
{
    let reader = node_at(r, pair.reader);
    let writer = node_at(w, pair.writer);
    match given {
        Data::Leaf => {
            if both_leaves(reader, writer) {
                Ok(Data::Leaf)
            } else {
                Err(Halt::Unreadable)
            }
        }
        Data::Symbol(symbol) => match symbol_at(reader, writer, symbol) {
            Some(known) => Ok(Data::Symbol(known.clone()?)),
            None => Err(Halt::Unreadable),
        },
        Data::List(items) => match items_at(reader, writer) {
            Some(inner) => Ok(Data::List(read_items(alloc, r, w, inner, items, room)?)),
            None => Err(Halt::Unreadable),
        },
        Data::Map(members) => match values_at(reader, writer) {
            Some(inner) => Ok(Data::Map(read_values(alloc, r, w, inner, members, room)?)),
            None => Err(Halt::Unreadable),
        },
        Data::Fields(members) => match fields_at(reader, writer) {
            Some((fields, others)) => {
                Ok(Data::Fields(read_fields(alloc, r, w, fields, others, members, room)?))
            }
            None => Err(Halt::Unreadable),
        },
        Data::Branch(..) | Data::Default => Err(Halt::Unreadable),
    }
}

#[cycle(read)]
fn read_items(
    alloc: Global,
    r: &Schema,
    w: &Schema,
    pair: Pair,
    items: &Vec<Data>,
    room: &mut Room,
) -> Result<Vec<Data>, Halt>
    ensures read { IfOk result (λ found. spec.items_read r.now.nodes w.now.nodes pair (values_view items.now.items) ≡ Some (values_view found.items)) }
    ensures room { IfOk result (λ found. IsTaken room.old room.new (values_room (values_view found.items))) }
    ensures halted { IfErr result (IsHalt room.old (option_map values_room (spec.items_read r.now.nodes w.now.nodes pair (values_view items.now.items)))) }
{
    let mut done = Vec::new(alloc);
    for item in items {
        let found = read(alloc, r, w, pair, item, room)?;
        done.push(found)?;
    }
    Ok(done)
}

#[cycle(read)]
fn read_values(
    alloc: Global,
    r: &Schema,
    w: &Schema,
    pair: Pair,
    members: &BTreeMap<Text, Data>,
    room: &mut Room,
) -> Result<BTreeMap<Text, Data>, Halt>
    ensures read { IfOk result (λ found. spec.values_read r.now.nodes w.now.nodes pair (members_view members.now.entries) ≡ Some (members_view found.entries)) }
    ensures room { IfOk result (λ found. IsTaken room.old room.new (members_room (members_view found.entries))) }
    ensures halted { IfErr result (IsHalt room.old (option_map members_room (spec.values_read r.now.nodes w.now.nodes pair (members_view members.now.entries)))) }
{
    let mut done = BTreeMap::new(alloc);
    for (key, value) in members.iter() {
        let found = read(alloc, r, w, pair, value, room)?;
        let name = key.clone()?;
        drop(done.insert(name, found)?);
    }
    Ok(done)
}

/// Makes the readings of the reader's fields from those that the writer wrote.
#[cycle(read)]
fn read_fields(
    alloc: Global,
    r: &Schema,
    w: &Schema,
    fields: &[Field],
    others: &NamedList<Field>,
    members: &Vec<(Text, Data)>,
    room: &mut Room,
) -> Result<Vec<(Text, Data)>, Halt>
    ensures read { IfOk result (λ found. all_fields_read r.now.nodes w.now.nodes (members_view members.now.items) others.now fields.now ≡ Some (members_view found.items)) }
    ensures room { IfOk result (λ found. IsTaken room.old room.new (members_room (members_view found.items))) }
    ensures halted { IfErr result (IsHalt room.old (option_map members_room (all_fields_read r.now.nodes w.now.nodes (members_view members.now.items) others.now fields.now))) }
{
    let are_fields = are_named(others.as_slice(), members.as_slice());
    let mut done = Vec::with_capacity(alloc, fields.len())?;
    for field in fields {
        let found = read_field(alloc, r, w, field, others, members, are_fields, room)?;
        let name = field.name.clone()?;
        done.push((name, found))?;
    }
    Ok(done)
}

/// Makes the reading of one reader's field: from the writer's field that it is paired with, or its
/// default. `are_fields` says whether the members have the names of the writer's fields.
#[cycle(read)]
fn read_field(
    alloc: Global,
    r: &Schema,
    w: &Schema,
    field: &Field,
    others: &NamedList<Field>,
    members: &Vec<(Text, Data)>,
    are_fields: bool,
    room: &mut Room,
) -> Result<Data, Halt>
    requires { are_fields ≡ true → map (λ (f : SpecField). f.name) others.now ≡ map (λ m. m.0) members.now.items }
    ensures read { IfOk result (λ found. one_field_read r.now.nodes w.now.nodes (members_view members.now.items) others.now field.now ≡ Some (view found)) }
    ensures room { IfOk result (λ found. IsTaken room.old room.new (value_room (view found))) }
    ensures halted { IfErr result (IsHalt room.old (option_map value_room (one_field_read r.now.nodes w.now.nodes (members_view members.now.items) others.now field.now))) }
{
    match partner(others, field) {
        Some(other) => {
            let pair = Pair {
                reader: field.node,
                writer: other.node,
            };
            read_named(
                alloc,
                r,
                w,
                pair,
                &other.name,
                others,
                members,
                are_fields,
                room,
            )
        }
        None => {
            room.enter()?;
            room.leave();
            Ok(Data::Default)
        }
    }
}

/// Makes the reading of the value that was written under that name.
#[cycle(read)]
fn read_named(
    alloc: Global,
    r: &Schema,
    w: &Schema,
    pair: Pair,
    name: &Text,
    others: &NamedList<Field>,
    members: &Vec<(Text, Data)>,
    are_fields: bool,
    room: &mut Room,
) -> Result<Data, Halt>
    requires { are_fields ≡ true → map (λ (f : SpecField). f.name) others.now ≡ map (λ m. m.0) members.now.items }
    ensures read { IfOk result (λ found. spec.named_read r.now.nodes w.now.nodes name.now pair (members_view members.now.items) ≡ Some (view found)) }
    ensures room { IfOk result (λ found. IsTaken room.old room.new (value_room (view found))) }
    ensures halted { IfErr result (IsHalt room.old (option_map value_room (spec.named_read r.now.nodes w.now.nodes name.now pair (members_view members.now.items)))) }
{
    match place_named(others, members, are_fields, name) {
        Some(place) => read(alloc, r, w, pair, &members[place].1, room),
        None => Err(Halt::Unreadable),
    }
}
