// Which of the reader's types read each field that was written.
ghost use Rattle.std.specs.Prelude.{◌≡◌, ℕ, Bool, false, ◌&&◌, length, map, option_map, replicate, [], IfOk, IfSome, OnOk};
ghost use Rattle.std.specs.List.{list_all};
ghost use Rattle.std.specs.Option.{option_map_or};
ghost use Rattle.avro_readings.specs.Readable as spec;

use crate::pairs::{fields_at, row_type};
use avro_data::node_at;
use avro_resolve::avro_schema::{Field, NodeId, Schema};
use avro_resolve::named_list::NamedList;
use avro_resolve::{Pair, partner};
use std::alloc::{AllocError, Global};

/// Returns, for each field of the writer's record, the reader's types that read it, if these types
/// of the reader's read that record; `None` if one of them doesn't read it as a record.
pub fn asked_of(
    alloc: Global,
    r: &Schema,
    w: &Schema,
    readers: &[usize],
    j: NodeId,
    others: &NamedList<Field>,
) -> Result<Option<Vec<Vec<usize>>>, AllocError>
    ensures asked { IfOk result (λ found. (test : ℕ → ℕ → Bool) → list_all (λ i. spec.type_passes r.now.nodes w.now.nodes test others.now (spec.pair_of i j)) readers.now
        ≡ option_map_or (λ lists. spec.lists_pass test 0 (map (λ l. l.items) lists.items)) found false) }
    ensures len { IfOk result (λ found. IfSome found (λ lists. length lists.items ≡ length others.now)) }
{
    let mut asked = no_lists(alloc, others.as_slice().len())?;
    for reader in readers {
        let pair = Pair {
            reader: NodeId { index: *reader },
            writer: j,
        };
        match fields_type(r, w, pair) {
            Some(fields) => ask_all(&mut asked, fields, others)?,
            None => return Ok(None),
        }
    }
    Ok(Some(asked))
}

/// Returns the numbers, each once.
pub fn each_once(alloc: Global, numbers: &[usize]) -> Result<Vec<usize>, AllocError>
    ensures { IfOk result (λ found. (test : ℕ → Bool) → list_all test found.items ≡ list_all test numbers.now) }
{
    let mut found = Vec::from_slice(alloc, numbers)?;
    found.sort_unstable();
    found.dedup();
    Ok(found)
}

fn no_lists(alloc: Global, count: usize) -> Result<Vec<Vec<usize>>, AllocError>
    ensures lists { IfOk result (λ lists. map (λ l. l.items) lists.items ≡ replicate count []) }
    ensures len { IfOk result (λ lists. length lists.items ≡ count) }
{
    let mut lists = Vec::with_capacity(alloc, count)?;
    for _made in 0..count {
        lists.push(Vec::new(alloc))?;
    }
    Ok(lists)
}

/// The reader's fields at a pair, where it reads a record as a record.
fn fields_type<'a>(r: &'a Schema, w: &'a Schema, pair: Pair) -> Option<&'a [Field]>
    ensures { option_map (λ fs. fs.now) result ≡ spec.fields_type r.now.nodes w.now.nodes pair }
{
    match row_type(r, w, pair) {
        Some(reader) => match fields_at(node_at(r, reader), node_at(w, pair.writer)) {
            Some((fields, _others)) => Some(fields),
            None => None,
        },
        None => None,
    }
}

fn ask_all(
    asked: &mut Vec<Vec<usize>>,
    fields: &[Field],
    others: &NamedList<Field>,
) -> Result<(), AllocError>
    requires { length asked.old.items ≡ length others.now }
    ensures len { OnOk result (length asked.new.items ≡ length others.now) }
    ensures asked { OnOk result ((test : ℕ → ℕ → Bool) → spec.lists_pass test 0 (map (λ l. l.items) asked.new.items)
        ≡ (spec.lists_pass test 0 (map (λ l. l.items) asked.old.items) && list_all (spec.field_passes test others.now) fields.now)) }
{
    for field in fields {
        ask(asked, field, others)?;
    }
    Ok(())
}

/// Adds a field's type to the list of the place that the field reads.
fn ask(
    asked: &mut Vec<Vec<usize>>,
    field: &Field,
    others: &NamedList<Field>,
) -> Result<(), AllocError>
    requires { length asked.old.items ≡ length others.now }
    ensures len { OnOk result (length asked.new.items ≡ length others.now) }
    ensures asked { OnOk result ((test : ℕ → ℕ → Bool) → spec.lists_pass test 0 (map (λ l. l.items) asked.new.items)
        ≡ (spec.lists_pass test 0 (map (λ l. l.items) asked.old.items) && spec.field_passes test others.now field.now)) }
{
    if let Some(k) = place_read(others, field) {
        asked[k].push(field.node.index)?;
    }
    Ok(())
}

/// The place of the writer's field that a reader's field reads.
fn place_read(others: &NamedList<Field>, field: &Field) -> Option<usize>
    ensures { result ≡ spec.place_read others.now field.now }
{
    match partner(others, field) {
        Some(other) => others.place(&other.name),
        None => None,
    }
}
