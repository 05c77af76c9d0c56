// Lists of events with their outcomes, and bases with what comes of them.
use crate::events::{FLOORS_DIFFER, NOT_ALLOWED, entries_text, event_of, outcome_text, step_text};
use crate::plain::push_all;
use reg_records::{Log, Record};
use reg_world::{Event, World};
use std::alloc::{AllocError, Global};
use test_tools::{
    CaseError, Made, Said, Tally, deed_of, halves, paragraphs_of, parted, rows_of, small_of,
    sorted_rows,
};
use test_words::{adoption_error_text, log_of};

/// A base, how many nodes there are, and the events. The records of the base and those among the events are known.
#[derive(Drop)]
struct Script<'t> {
    base: Log,
    nodes: usize,
    known: Vec<Record>,
    events: Vec<&'t str>,
}

/// The script of a paragraph: the records of a base, the count of nodes, and events with the records that commands write.
fn script_of<'t>(alloc: Global, paragraph: &'t str) -> Said<Script<'t>> {
    let unclear = CaseError::NotUnderstood;
    let (above, rest) = paragraph.split_once("\nnodes ").ok_or(unclear)?;
    let (nodes, below) = rest.split_once('\n').ok_or(unclear)?;
    let base = log_of(alloc, &rows_of(alloc, above)?)?;
    let (records, events) = sorted_rows(alloc, below)?;
    let mut known = Vec::new(alloc);
    push_all(&mut known, &base.records)?;
    push_all(&mut known, &log_of(alloc, &records)?.records)?;
    Ok(Script {
        base,
        nodes: small_of(nodes)? as usize,
        known,
        events,
    })
}

/// What comes of an event of those words; of `entries`, the entries of the log.
fn came_of(alloc: Global, world: &mut World, known: &[Record], words: &str) -> Said<String> {
    if words == "entries" {
        return Ok(entries_text(alloc, world)?);
    }
    let event = event_of(alloc, words, known)?;
    step_text(alloc, world, &event)
}

/// Does the events, one after the other.
fn try_steps(tally: &mut Tally, world: &mut World, script: &Script) -> Made<()> {
    for row in &script.events {
        let (words, wanted) = deed_of(row);
        let came = came_of(tally.alloc, world, &script.known, words);
        tally.tell_if(row, wanted, came)?;
    }
    Ok(())
}

/// Does the events that aren't refused, one after the other.
fn try_allowed(tally: &mut Tally, world: &mut World, script: &Script) -> Made<()> {
    for row in &script.events {
        let (words, wanted) = halves(row);
        if wanted != NOT_ALLOWED && wanted != FLOORS_DIFFER {
            let came = came_of(tally.alloc, world, &script.known, words);
            if !wanted.is_empty() {
                tally.tell_more(row, wanted, came)?;
            }
        }
    }
    Ok(())
}

/// The events of the rows, but not `entries`, which is the last one.
fn events_of(alloc: Global, script: &Script) -> Made<Vec<Event>> {
    let mut events = Vec::new(alloc);
    for row in &script.events {
        let (words, _wanted) = halves(row);
        if let Ok(event) = event_of(alloc, words, &script.known) {
            events.push(event)?;
        }
    }
    Ok(events)
}

/// Does the events at once.
fn try_at_once(tally: &mut Tally, world: &mut World, script: &Script) -> Made<()> {
    let events = events_of(tally.alloc, script)?;
    let outcomes = world.run(&events).ok().ok_or(AllocError)?;
    for (row, outcome) in script.events.iter().zip(&outcomes) {
        if let (_words, Some(wanted)) = deed_of(row) {
            let came = outcome_text(tally.alloc, outcome)?;
            tally.compare(row, wanted.as_bytes(), came.as_bytes())?;
        }
    }
    Ok(())
}

/// How a list is gone through.
#[derive(Clone, Copy)]
enum Way {
    InSteps,
    AtOnce,
    WithoutRefused,
}

fn try_way(tally: &mut Tally, world: &mut World, script: &Script, way: Way) -> Made<()> {
    match way {
        Way::InSteps => try_steps(tally, world, script),
        Way::AtOnce => try_at_once(tally, world, script),
        Way::WithoutRefused => try_allowed(tally, world, script),
    }
}

/// Goes through the list in each way, in a world of its own, which is lent, so that none has to be dropped on the way.
fn try_script(tally: &mut Tally, paragraph: &str, script: &Script) -> Made<()> {
    for way in [Way::InSteps, Way::AtOnce, Way::WithoutRefused] {
        match World::start(tally.alloc, script.nodes, &script.base) {
            Ok(mut world) => try_way(tally, &mut world, script, way)?,
            Err(_) => tally.refuse(paragraph)?,
        }
    }
    Ok(())
}

/// Tries each list of events.
pub(crate) fn try_events(tally: &mut Tally, text: &str) -> Made<()> {
    for paragraph in &paragraphs_of(tally.alloc, text)? {
        tally.begin(paragraph)?;
        match script_of(tally.alloc, paragraph) {
            Ok(script) => try_script(tally, paragraph, &script)?,
            Err(_) => tally.refuse(paragraph)?,
        }
    }
    Ok(())
}

/// What comes of a world over those records.
fn adoption_of(alloc: Global, records: &str) -> Said<String> {
    let base = log_of(alloc, &parted(alloc, records)?)?;
    match World::start(alloc, 1, &base) {
        Ok(_world) => Ok(String::from_str(alloc, "adopted")?),
        Err(refused) => Ok(adoption_error_text(alloc, refused)?),
    }
}

/// Tries each base.
pub(crate) fn try_bases(tally: &mut Tally, text: &str) -> Made<()> {
    for row in &rows_of(tally.alloc, text)? {
        let (records, wanted) = halves(row);
        tally.tell(row, wanted, adoption_of(tally.alloc, records))?;
    }
    Ok(())
}
