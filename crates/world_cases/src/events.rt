// Events in words, and their outcomes.
use base_text::Listed;
use reg_records::Record;
use reg_world::{Event, Fate, Outcome, World};
use std::alloc::Global;
use test_tools::{CaseError, Made, Said, cut, number_of};
use test_words::{answer_text, command_in_words, query_in_words, reply_text};

pub(crate) static NOT_ALLOWED: &str = "not allowed";

pub(crate) static FLOORS_DIFFER: &str = "floors differ";

/// A node, or a place among the known records.
fn place_of(word: &str) -> Said<usize> {
    Ok(number_of(word)? as usize)
}

fn command_event(alloc: Global, words: &str) -> Said<Event> {
    let (node, rest) = cut(words);
    let (fate, words) = cut(rest);
    let fate = match fate {
        "published" => Fate::Published,
        "unsettled" => Fate::Unsettled,
        "lost" => Fate::Lost,
        _ => return Err(CaseError::NotUnderstood),
    };
    Ok(Event::Command {
        node: place_of(node)?,
        command: command_in_words(alloc, words)?,
        fate,
    })
}

/// The known records at those places.
fn records_at(alloc: Global, places: &str, known: &[Record]) -> Said<Listed<Record>> {
    let mut found = Vec::new(alloc);
    for word in places.split_whitespace() {
        let record = known.get(place_of(word)?).ok_or(CaseError::NotUnderstood)?;
        found.push(record.clone()?)?;
    }
    Ok(Listed::from(found))
}

/// An event of nodes alone.
fn node_event(kind: &str, node: usize, other: &str) -> Said<Event> {
    match kind {
        "compact_node" => Ok(Event::CompactNode(node)),
        "rebase" => Ok(Event::Rebase(node)),
        "restart" => Ok(Event::Restart(node)),
        "merge" => Ok(Event::MergeFrom {
            node,
            other: place_of(other)?,
        }),
        _ => Err(CaseError::NotUnderstood),
    }
}

/// The event of those words.
pub(crate) fn event_of(alloc: Global, words: &str, known: &[Record]) -> Said<Event> {
    let (kind, rest) = cut(words);
    let (first, more) = cut(rest);
    match kind {
        "command" => command_event(alloc, rest),
        "compact" => Ok(Event::Compact(records_at(alloc, rest, known)?)),
        "compact_to" => Ok(Event::CompactTo {
            floor: number_of(first)?,
            dropped: records_at(alloc, more, known)?,
        }),
        "take" => Ok(Event::Take {
            node: place_of(first)?,
            records: records_at(alloc, more, known)?,
        }),
        "lookup" => Ok(Event::Lookup {
            node: place_of(first)?,
            query: query_in_words(alloc, more)?,
        }),
        _ => node_event(kind, place_of(first)?, more),
    }
}

pub(crate) fn outcome_text(alloc: Global, outcome: &Outcome) -> Made<String> {
    match outcome {
        Outcome::Replied(reply) => reply_text(alloc, reply),
        Outcome::Answered(answer) => answer_text(alloc, answer),
        Outcome::Done => String::from_str(alloc, "done"),
        Outcome::NotAllowed => String::from_str(alloc, NOT_ALLOWED),
        Outcome::FloorsDiffer => String::from_str(alloc, FLOORS_DIFFER),
    }
}

/// The entries of the world's log, its records taken one after the other.
pub(crate) fn entries_text(alloc: Global, world: &World) -> Made<String> {
    let mut text = String::new(alloc);
    for entry in &world.eager_entries()? {
        if !text.is_empty() {
            text.push_str("; ")?;
        }
        let kind = if entry.soft { 'X' } else { 'S' };
        write!(text, "{kind} {} {} ", entry.offset, entry.subject.as_str())?;
        write!(
            text,
            "{} {} {}",
            entry.version,
            entry.id,
            entry.text.as_str()
        )?;
    }
    Ok(text)
}

/// What comes of the event in the world.
pub(crate) fn step_text(alloc: Global, world: &mut World, event: &Event) -> Said<String> {
    let outcome = world.step(event)?;
    Ok(outcome_text(alloc, &outcome)?)
}
