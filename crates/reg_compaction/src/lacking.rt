// The mark of ids that a log lacks.
ghost use Rattle.std.specs.Prelude.{◌≡◌, ◌≤◌, IfOk};
ghost use Rattle.reg_records.specs.Written.{HasLine};
ghost use Rattle.reg_records.specs.declared.limits.TheConstants.{NUMBER_LIMIT, OFFSET_LIMIT};
ghost use Rattle.reg_compaction.specs.Lacking.{GreatestNamedIsGreatest, greatest_named, has_id, has_mark, id_in, is_mark_key, mark_at, named_id, unmarked_id};

use reg_records::{Key, Record, Value, number_at, parse, values_have_lines};
use std::alloc::{AllocError, Global};

/// Returns the greatest id, from 1 to `NUMBER_LIMIT`, that a log's records name, if they have no mark of ids; 0 if they
/// have one, or name none. A version's record names an id even if its value can't be read as a whole: it is enough that
/// it is a JSON object with a whole number `id`. The only error is out of memory.
pub fn unmarked_id(alloc: Global, records: &[Record]) -> Result<u32, AllocError>
    ensures id { IfOk result (λ id. id ≡ unmarked_id records.now) }
    ensures within { IfOk result (λ id. id ≤ NUMBER_LIMIT) }
{
    greatest_named_is_greatest();
    if has_mark(records) {
        return Ok(0);
    }
    greatest_named(alloc, records)
}

/// Returns whether a record is a mark of ids, even one that can't be read or deletes the mark before it.
fn has_mark(records: &[Record]) -> bool
    ensures { result ≡ has_mark records.now }
{
    records.iter().any(|record| is_mark(record))
}

fn is_mark(given: &Record) -> bool
    ensures { result ≡ is_mark_key given.now.key }
{
    match &given.key {
        Key::IdMark => true,
        Key::Schema { .. } | Key::Config(_) | Key::Mode(_) | Key::DeleteSubject(_) | Key::Noop => {
            false
        }
    }
}

fn greatest_named(alloc: Global, records: &[Record]) -> Result<u32, AllocError>
    ensures { IfOk result (λ id. id ≡ greatest_named records.now) }
{
    let mut greatest: u32 = 0;
    for record in records {
        greatest = greatest.max(named_id(alloc, record)?);
    }
    Ok(greatest)
}

/// Returns the id that a record names; 0 if it names none.
fn named_id(alloc: Global, given: &Record) -> Result<u32, AllocError>
    ensures { IfOk result (λ id. id ≡ named_id given.now) }
{
    if !has_id(&given.key) {
        return Ok(0);
    }
    match &given.value {
        Some(text) => id_in(alloc, text.as_str()),
        None => Ok(0),
    }
}

/// Returns whether the values of a key have ids.
fn has_id(key: &Key) -> bool
    ensures { result ≡ has_id key.now }
{
    match key {
        Key::Schema { .. } | Key::IdMark => true,
        Key::Config(_) | Key::Mode(_) | Key::DeleteSubject(_) | Key::Noop => false,
    }
}

fn id_in(alloc: Global, text: &str) -> Result<u32, AllocError>
    ensures { IfOk result (λ id. id ≡ id_in text.now) }
{
    match parse(alloc, text)? {
        Some(json) => Ok(number_at(&json, "id").unwrap_or(0)),
        None => Ok(0),
    }
}

/// Makes the record that marks an id at an offset. The only error is out of memory.
pub fn mark_at(alloc: Global, offset: u64, id: u32) -> Result<Record, AllocError>
    requires place { offset ≤ OFFSET_LIMIT }
    requires some { 1 ≤ id }
    requires within { id ≤ NUMBER_LIMIT }
    ensures made { IfOk result (λ made. made ≡ mark_at offset id) }
    ensures line { IfOk result HasLine }
{
    values_have_lines();
    let value = Value::IdMark(id).written(alloc)?;
    Ok(Record {
        offset,
        key: Key::IdMark,
        value,
    })
}

/// States that the greatest id that records name is at least each one that they name, is one of them, if there is one,
/// and is within the limits of ids.
pub fn greatest_named_is_greatest()
    ensures { GreatestNamedIsGreatest }
{}
