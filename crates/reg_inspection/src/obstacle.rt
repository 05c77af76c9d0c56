// What keeps a log from being taken over by a topic.
ghost use Rattle.std.specs.Prelude.{◌≡◌, ◌↔◌, ◌++◌, [], true, IfOk, OnOk, map, option_to_list, string_bytes};
ghost use Rattle.std.specs.List.{filter_map};
ghost use Rattle.std.specs.FinSet.{from_list};
ghost use Rattle.reg_fold.specs.reg_set.LastRecords.{last_records};
ghost use Rattle.reg_fold.specs.Entries.{entries};
ghost use Rattle.reg_inspection.specs.Obstacles.{can_begin, has_no_place, is_plain, obstacles, opaque_in, opaque_text, shown};
ghost use Rattle.reg_inspection.specs.Shared.{ids_of, shared_ids};

use crate::cause::{OpaqueCause, cause_of};
use crate::ids::{ids_of, shared_ids};
use crate::laws::no_obstacle_is_open;
use reg_fold::Registry;
use reg_fold::base_text::Text;
use reg_fold::reg_records::{Key, Log, OFFSET_LIMIT, Record, quoted};
use reg_fold::reg_set::{RecordSet, last_records_are_enough};
use std::alloc::{AllocError, Global};
use std::collections::BTreeSet;

/// An obstacle: something that keeps a log from being taken over by a server's topic.
#[derive(Debug, Drop, PartialEq, Eq)]
pub enum Obstacle {
    /// The last record of a version can't be read: its offset, the version, and the first cause.
    Opaque {
        offset: u64,
        subject: Text,
        version: u32,
        cause: OpaqueCause,
    },
    /// This id names two schemas, those of soft-deleted versions included.
    TwoSchemas(u32),
    /// A mark of ids (a record of the highest id ever given) is due, and no offset is left for it.
    NumbersUsedUp,
}

impl Obstacle {
    ghost use Rattle.std.specs.Prelude.{◌≡◌, IfOk, string_bytes};
    ghost use Rattle.reg_inspection.specs.Obstacles.{obstacle_text};

    /// Returns its text without the cause: a line without its LF. The only error is out of memory.
    pub fn text(&self, alloc: Global) -> Result<String, AllocError>
        ensures { IfOk result (λ text. string_bytes text ≡ obstacle_text self.now) }
    {
        match self {
            Obstacle::Opaque {
                offset,
                subject,
                version,
                cause: _,
            } => opaque_text(alloc, *offset, subject.as_str(), *version),
            Obstacle::TwoSchemas(id) => format!(in alloc; "two schemas for id {id}"),
            Obstacle::NumbersUsedUp => {
                String::from_str(alloc, "no offset is left for the mark of ids")
            }
        }
    }
}

fn opaque_text(
    alloc: Global,
    offset: u64,
    subject: &str,
    version: u32,
) -> Result<String, AllocError>
    ensures { IfOk result (λ text. string_bytes text ≡ opaque_text offset subject.now version) }
{
    let subject = shown(alloc, subject)?;
    format!(in alloc; "opaque record at {offset}: subject {subject}, version {version}")
}

/// Returns a text for a line of the report: as a JSON string if it would break the line.
fn shown(alloc: Global, text: &str) -> Result<String, AllocError>
    ensures { IfOk result (λ written. string_bytes written ≡ shown text.now) }
{
    if is_plain(text) {
        return String::from_str(alloc, text);
    }
    quoted(alloc, text)
}

/// Returns whether a text has neither a control character nor a quotation mark.
fn is_plain(text: &str) -> bool
    ensures { result ≡ is_plain text.now }
{
    text.as_bytes().iter().all(|b| *b >= 32 && *b != b'"')
}

/// Returns all obstacles of a log: the versions whose last records can't be read, by their offsets;
/// then the ids that name two schemas, in ascending order; then a mark of ids that is due without
/// an offset left for it. The list is empty exactly if the log may be taken over. The only error is
/// out of memory.
pub fn obstacles(alloc: Global, log: &Log) -> Result<Vec<Obstacle>, AllocError>
    ensures all { IfOk result (λ found. found.items ≡ obstacles (last_records (from_list log.now.records.items)) log.now.next) }
    ensures none { IfOk result (λ found. (found.items ≡ []) ↔ (can_begin (last_records (from_list log.now.records.items)) log.now.next ≡ true)) }
{
    no_obstacle_is_open();
    let (last, registry) = lasts_of(alloc, &log.records)?;
    let ids = ids_of(alloc, &registry.entries()?)?;
    obstacles_in(alloc, &last, &registry, &ids, log.next)
}

/// Returns the last records of some records, and the registry over them.
pub(crate) fn lasts_of(
    alloc: Global,
    records: &[Record],
) -> Result<(RecordSet, Registry), AllocError>
    ensures set { IfOk result (λ lasts. lasts.0 ≡ last_records (from_list records.now)) }
    ensures registry { IfOk result (λ lasts. lasts.1 ≡ last_records (from_list records.now)) }
{
    last_records_are_enough();
    let mut last = RecordSet::of(alloc, records)?;
    last.compact();
    let registry = Registry::of_set(alloc, &last)?;
    Ok((last, registry))
}

/// Returns the obstacles of last records, over which the registry is, with these ids and that next
/// offset.
pub(crate) fn obstacles_in(
    alloc: Global,
    last: &RecordSet,
    registry: &Registry,
    ids: &BTreeSet<u32>,
    next: u64,
) -> Result<Vec<Obstacle>, AllocError>
    requires over { registry.now ≡ last.now }
    requires ids { ids.now.keys ≡ ids_of (entries last.now) }
    ensures { IfOk result (λ found. found.items ≡ obstacles last.now next) }
{
    let mut found = opaques_in(alloc, &last.records()?)?;
    push_ids(&mut found, &shared_ids(alloc, registry, ids)?)?;
    if has_no_place(registry, next) {
        found.push(Obstacle::NumbersUsedUp)?;
    }
    Ok(found)
}

/// Returns whether a mark of ids is due, and no offset is left for it.
fn has_no_place(registry: &Registry, next: u64) -> bool
    ensures { result ≡ has_no_place registry.now next }
{
    registry.mark() < registry.greatest_id().unwrap_or(0) && next > OFFSET_LIMIT
}

fn push_ids(found: &mut Vec<Obstacle>, ids: &[u32]) -> Result<(), AllocError>
    ensures { OnOk result (found.new.items ≡ found.old.items ++ map Obstacle.TwoSchemas ids.now) }
{
    for id in ids {
        found.push(Obstacle::TwoSchemas(*id))?;
    }
    Ok(())
}

/// Those of some records that can't be read.
fn opaques_in(alloc: Global, records: &[Record]) -> Result<Vec<Obstacle>, AllocError>
    ensures { IfOk result (λ found. found.items ≡ filter_map opaque_in records.now) }
{
    let mut found = Vec::new(alloc);
    for record in records {
        push_any(&mut found, opaque_in(alloc, record)?)?;
    }
    Ok(found)
}

fn push_any(found: &mut Vec<Obstacle>, obstacle: Option<Obstacle>) -> Result<(), AllocError>
    ensures { OnOk result (found.new.items ≡ found.old.items ++ option_to_list obstacle) }
{
    if let Some(obstacle) = obstacle {
        found.push(obstacle)?;
    }
    Ok(())
}

fn opaque_in(alloc: Global, given: &Record) -> Result<Option<Obstacle>, AllocError>
    ensures { IfOk result (λ found. found ≡ opaque_in given.now) }
{
    let Key::Schema { subject, version } = &given.key else {
        return Ok(None);
    };
    match cause_of(alloc, given)? {
        Some(cause) => Ok(Some(Obstacle::Opaque {
            offset: given.offset,
            subject: subject.clone()?,
            version: *version,
            cause,
        })),
        None => Ok(None),
    }
}
