// What a pair of types owes: the pairs that have to resolve for it to do so, or why it clashes.
ghost use Rattle.std.specs.Prelude.{◌≡◌, ◌<◌, [], None, length, slice_get, map, option_map, IfOk, OnOk};
ghost use Rattle.std.specs.Result.{result_err, result_unwrap_or};
ghost use Rattle.avro_resolve.specs.Owed.{pairs_of, pair_with};
ghost use Rattle.avro_resolve.specs.Row.{clash_of_cause, outcome_of, HasDistinct};
ghost use Rattle.avro_resolve.specs.FieldIndex.{AreFound, AreFieldIndexes, fields_in};
ghost use Rattle.avro_resolve.specs.Table as spec;
ghost use Rattle.avro_resolve.specs.Unions.{AreIndexes};
ghost use Rattle.avro_schema.specs.Sound.{HaveDistinctNames};

use crate::field_index::{FieldIndexes, FoundField, found_fields};
use crate::fields::{field_at, partner_near};
use crate::obligations::Pair;
use crate::table::{Cause, Row, are_matching_primitives, long_records, row_by_index};
use crate::unions::Unions;
use avro_schema::{Field, NodeId, Schema};
use named_list::NamedList;
use std::alloc::AllocError;

/// Looks up a pair: puts its obligations (the pairs that it needs) into `owed`, in their order, or
/// returns why it clashes. The only error is out of memory.
#[inline(always)]
pub fn look_up<'a>(
    r: &'a Schema,
    w: &'a Schema,
    pair: Pair,
    unions: &mut Unions<'a>,
    field_indexes: &mut FieldIndexes<'a>,
    owed: &mut Vec<Pair>,
) -> Result<Option<Cause<'a>>, AllocError>
    requires reader { pair.reader.index < length r.now.nodes }
    requires writer { pair.writer.index < length w.now.nodes }
    requires unions { AreIndexes r.now.nodes unions.old.of }
    requires field_indexes { AreFieldIndexes r.now.nodes field_indexes.old.of }
    ensures clash { IfOk result (λ cause. option_map clash_of_cause cause ≡ spec.clash_of r.now.nodes w.now.nodes pair) }
    ensures owed { IfOk result (λ cause. cause ≡ None → owed.new.items ≡ pairs_of (spec.obligations r.now.nodes w.now.nodes pair)) }
    ensures unions { OnOk result (AreIndexes r.now.nodes unions.new.of) }
    ensures field_indexes { OnOk result (AreFieldIndexes r.now.nodes field_indexes.new.of) }
{
    owed.clear();
    if are_matching_primitives(r, w, pair) {
        return Ok(None);
    }
    if let Some((reader, writer)) = long_records(r, w, pair) {
        return owe_long(r, pair.reader, reader, writer, field_indexes, owed);
    }
    unions.look_at(r, pair.reader)?;
    let row = row_by_index(r, w, pair, unions.of_union(r, pair.reader));
    owe(row, owed)
}

/// Adds the obligations of a row, or returns why it clashes.
fn owe<'a>(row: Row<'a>, owed: &mut Vec<Pair>) -> Result<Option<Cause<'a>>, AllocError>
    requires distinct { HasDistinct row }
    requires none { owed.old.items ≡ [] }
    ensures clash { IfOk result (λ cause. option_map clash_of_cause cause ≡ result_err (outcome_of row.entry)) }
    ensures owed { IfOk result (λ cause. cause ≡ None → owed.new.items ≡ pairs_of (result_unwrap_or (outcome_of row.entry) [])) }
{
    match row {
        Row::Clash(cause) => Ok(Some(cause)),
        Row::WriterBranches(i, branches) => {
            owe_branches(i, branches, owed)?;
            Ok(None)
        }
        Row::One(_, pair) => {
            owed.push(pair)?;
            Ok(None)
        }
        Row::Fields(reader, writer) => owe_fields(reader, writer, owed),
        Row::Nothing => Ok(None),
    }
}

/// Adds the pairs of the reader's type with each branch of the writer's union.
fn owe_branches(i: NodeId, branches: &[NodeId], owed: &mut Vec<Pair>) -> Result<(), AllocError>
    requires { owed.old.items ≡ [] }
    ensures { OnOk result (owed.new.items ≡ map (pair_with i) branches.now) }
{
    for b in branches {
        let pair = Pair {
            reader: i,
            writer: *b,
        };
        owed.push(pair)?;
    }
    Ok(())
}

/// Adds the pair of each field of the reader's with its partner. Returns the first field that has
/// no partner and no default, if there is one.
fn owe_fields<'a>(
    reader: &'a [Field],
    writer: &NamedList<Field>,
    owed: &mut Vec<Pair>,
) -> Result<Option<Cause<'a>>, AllocError>
    requires distinct { HaveDistinctNames writer.now }
    requires none { owed.old.items ≡ [] }
    ensures clash { IfOk result (λ cause. option_map clash_of_cause cause ≡ result_err (spec.to_fields reader.now writer.now)) }
    ensures owed { IfOk result (λ cause. cause ≡ None → owed.new.items ≡ pairs_of (result_unwrap_or (spec.to_fields reader.now writer.now) [])) }
{
    let mut near = 0;
    for f in reader {
        let (next, found) = partner_near(writer, f, near);
        near = next;
        if let Some(g) = found {
            let pair = Pair {
                reader: f.node,
                writer: g.node,
            };
            owed.push(pair)?;
        } else if f.default.is_none() {
            return Ok(Some(Cause::LackingField(&f.name)));
        }
    }
    Ok(None)
}

/// Adds the pairs of fields like `owe_fields`, for the reader's record of that id, by its field
/// index.
fn owe_long<'a>(
    r: &Schema,
    id: NodeId,
    reader: &'a NamedList<Field>,
    writer: &'a NamedList<Field>,
    field_indexes: &mut FieldIndexes<'a>,
    owed: &mut Vec<Pair>,
) -> Result<Option<Cause<'a>>, AllocError>
    requires fields { reader.now ≡ fields_in (slice_get r.now.nodes id.index) }
    requires writers { HaveDistinctNames writer.now }
    requires none { owed.old.items ≡ [] }
    requires field_indexes { AreFieldIndexes r.now.nodes field_indexes.old.of }
    ensures clash { IfOk result (λ cause. option_map clash_of_cause cause ≡ result_err (spec.to_fields reader.now writer.now)) }
    ensures owed { IfOk result (λ cause. cause ≡ None → owed.new.items ≡ pairs_of (result_unwrap_or (spec.to_fields reader.now writer.now) [])) }
    ensures field_indexes { OnOk result (AreFieldIndexes r.now.nodes field_indexes.new.of) }
{
    field_indexes.look_at(r, id, reader.as_slice())?;
    match field_indexes.of_record(r, id) {
        Some(field_index) if field_index.is_worth_while(writer.as_slice().len()) => {
            let writer = writer.as_slice();
            let found = found_fields(
                field_indexes.memory(),
                reader.as_slice(),
                field_index,
                writer,
            )?;
            owe_found(reader.as_slice(), writer, found.as_slice(), owed)
        }
        _ => owe_fields(reader.as_slice(), writer, owed),
    }
}

/// Adds the pairs of fields, looking only at the reader's fields in `found`.
fn owe_found<'a>(
    reader: &'a [Field],
    writer: &[Field],
    found: &[FoundField],
    owed: &mut Vec<Pair>,
) -> Result<Option<Cause<'a>>, AllocError>
    requires distinct { HaveDistinctNames writer.now }
    requires found { AreFound reader.now writer.now found.now }
    requires none { owed.old.items ≡ [] }
    ensures clash { IfOk result (λ cause. option_map clash_of_cause cause ≡ result_err (spec.to_fields reader.now writer.now)) }
    ensures owed { IfOk result (λ cause. cause ≡ None → owed.new.items ≡ pairs_of (result_unwrap_or (spec.to_fields reader.now writer.now) [])) }
{
    let mut next = 0;
    for x in found {
        if x.holder.field >= next {
            let f = &reader[x.holder.field];
            next = x.holder.field + 1;
            if let Some(g) = field_at(writer, x.place) {
                let pair = Pair {
                    reader: f.node,
                    writer: g.node,
                };
                owed.push(pair)?;
            } else if f.default.is_none() {
                return Ok(Some(Cause::LackingField(&f.name)));
            }
        }
    }
    Ok(None)
}
