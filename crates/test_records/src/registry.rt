// Registries beside plain ones, over lines that are drawn.
mod drawn;
mod plain;

use drawn::drawn;
use plain::{NUMBERS, PlainRegistry, SUBJECTS};
use reg_fold::{Entry, Registry};
use reg_records::{LogError, Record};
use reg_set::RecordSet;
use std::alloc::Global;
use test_tools::{Draws, Made};

/// How a registry takes records: added one by one, in batches of a record and the tombstones after it, in such batches beside other
/// registries, or in two goes of which the later records are the first.
#[derive(Clone, Copy)]
enum Way {
    Grown,
    Batched,
    Beside,
    Halved,
}

/// Whether no tombstone stands at the place.
fn ends_batch(records: &[Record], place: usize) -> bool {
    match records.get(place) {
        Some(record) => record.value.is_some(),
        None => true,
    }
}

/// Adds batches beside one of the others each in turn, and beside none.
fn fill_in_batches(registry: &mut Registry, records: &[Record], others: &[Registry]) -> Made<()> {
    let mut first = 0;
    for place in 1..=records.len() {
        if ends_batch(records, place) {
            let batch = records.get(first..place).unwrap_or(&[]);
            let other = others.get(first % 4);
            match batch {
                [record] => registry.apply_beside(record, other, None)?,
                _ => registry.apply_all_beside(batch, other, None)?,
            }
            first = place;
        }
    }
    Ok(())
}

/// Registries over all records, over the first half and over the second half.
fn others_of(alloc: Global, records: &[Record]) -> Made<Vec<Registry>> {
    let (first, second) = records.split_at(records.len() / 2);
    let mut others = Vec::new(alloc);
    for part in [records, first, second] {
        others.push(read(alloc, part)?)?;
    }
    Ok(others)
}

fn add(alloc: Global, registry: &mut Registry, records: &[Record], way: Way) -> Made<()> {
    match way {
        Way::Grown => {
            for record in records {
                registry.apply(record)?;
            }
            Ok(())
        }
        Way::Batched => fill_in_batches(registry, records, &[]),
        Way::Beside => fill_in_batches(registry, records, &others_of(alloc, records)?),
        Way::Halved => {
            let third = records.len() / 3;
            registry.apply_all(records.get(third..).unwrap_or(&[]))?;
            registry.apply_all(records.get(..third).unwrap_or(&[]))
        }
    }
}

fn read(alloc: Global, records: &[Record]) -> Made<Registry> {
    let set = RecordSet::of(alloc, records)?;
    Registry::of_set(alloc, &set)
}

/// Whether those are the plain entries, or the live ones of a subject.
fn are_entries(found: &[&Entry], plain: &PlainRegistry, of: Option<&str>) -> bool {
    let mut left = found.iter();
    for wanted in &plain.entries {
        match (of, left.as_slice().first()) {
            (Some(subject), _) if wanted.subject.as_str() != subject || wanted.soft => {}
            (_, Some(entry)) if **entry == *wanted => {
                left.next();
            }
            _ => return false,
        }
    }
    left.next().is_none()
}

fn have_ids(registry: &Registry, plain: &PlainRegistry) -> bool {
    for id in 0..=NUMBERS {
        if registry.by_id(id) != plain.by_id(id) {
            return false;
        }
    }
    registry.greatest_id() == plain.greatest_id()
        && registry.two_schemas() == plain.two_schemas()
        && registry.opaque() == plain.opaque
        && registry.mark() == plain.mark
}

fn have_subjects(registry: &Registry, plain: &PlainRegistry) -> Made<bool> {
    for subject in &SUBJECTS {
        if registry.greatest_version(subject) != plain.greatest_version(subject)
            || !are_entries(&registry.live(subject)?, plain, Some(subject))
        {
            return Ok(false);
        }
    }
    Ok(true)
}

fn have_schemas(registry: &Registry, plain: &PlainRegistry) -> Made<bool> {
    for normal in ["\"int\"", "\"long\"", "\"string\""] {
        if registry.id_of(normal)? != plain.id_of(normal) {
            return Ok(false);
        }
    }
    Ok(true)
}

/// Whether a registry gives the same answers as a plain one to all that is asked.
fn is_like(registry: &Registry, plain: &PlainRegistry) -> Made<bool> {
    Ok(
        are_entries(&registry.entries()?, plain, None)
            && have_ids(registry, plain)
            && have_subjects(registry, plain)?
            && have_schemas(registry, plain)?,
    )
}

/// Whether a registry that takes the records so is like the plain one.
fn way_alike(alloc: Global, records: &[Record], way: Way, plain: &PlainRegistry) -> Made<bool> {
    let mut registry = Registry::empty(alloc);
    add(alloc, &mut registry, records, way)?;
    is_like(&registry, plain)
}

/// Whether registries that take the first records one by one are like plain ones.
fn fronts_alike(alloc: Global, records: &[Record]) -> Made<bool> {
    for count in 0..records.len() {
        let front = &records[..count];
        let plain = PlainRegistry::of(alloc, front)?;
        if !way_alike(alloc, front, Way::Grown, &plain)? {
            return Ok(false);
        }
    }
    Ok(true)
}

fn are_alike(alloc: Global, records: &[Record]) -> Made<bool> {
    let plain = PlainRegistry::of(alloc, records)?;
    for way in [Way::Batched, Way::Beside, Way::Halved] {
        if !way_alike(alloc, records, way, &plain)? {
            return Ok(false);
        }
    }
    Ok(is_like(&read(alloc, records)?, &plain)? && fronts_alike(alloc, records)?)
}

fn drawn_alike(
    alloc: Global,
    draws: &mut Draws,
    count: u64,
    offsets: u64,
) -> Result<bool, LogError> {
    let records = drawn(alloc, draws, count, offsets)?;
    Ok(records.len() as u64 == count && are_alike(alloc, &records)?)
}

/// How many lists of lines are drawn, of how many lines each, and below which offset.
static LISTS: [(u64, u64, u64); 5] = [
    (40, 6, 3),
    (60, 12, 8),
    (20, 12, 1_000),
    (2, 40, 20),
    (2, 40, 1_000_000),
];

#[test]
fn drawn_lines_give_the_same_registry(rt: HostRuntime) {
    let mut draws = Draws::new(2027);
    for (lists, lines, offsets) in &LISTS {
        for _list in 0..*lists {
            let is_alike = drawn_alike(rt.alloc(), &mut draws, *lines, *offsets);
            assert!(rt; is_alike == Ok(true));
        }
    }
}
