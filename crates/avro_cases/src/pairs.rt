// What the rules of resolution say of a reader's schema and a writer's.
use crate::Answer;
use crate::plain::plain_verdict;
use crate::schemas::NO_SCHEMA;
use avro_resolve::{ClashKind, Hop, Trail, Verdict, matches, resolve, resolve_counted};
use avro_schema::{NodeId, Schema};
use base_text::{Listed, Text};
use std::alloc::{AllocError, Global};

/// A verdict, with its trail. A trail that is shown is one.
fn shown(alloc: Global, r: &Schema, w: &Schema, verdict: &Verdict) -> Answer {
    match verdict {
        Verdict::Compatible => String::from_str(alloc, "compatible"),
        Verdict::Clash(trail) if trail.check(r, w) => format!(in alloc; "{trail}: {}", trail.kind),
        Verdict::Clash(_) => String::from_str(alloc, "no trail"),
    }
}

/// The verdict as both searches have it, or that they differ.
fn agreed(alloc: Global, r: &Schema, w: &Schema) -> Answer {
    let found = shown(alloc, r, w, &resolve(alloc, r, w)?)?;
    let plain = plain_verdict(alloc, r, w)?;
    if found.as_str() == plain.as_str() {
        Ok(found)
    } else {
        format!(in alloc; "the searches differ: {found}, plain {plain}")
    }
}

/// The verdict, and how many pairs of types it needed.
fn counted(alloc: Global, r: &Schema, w: &Schema) -> Answer {
    let found = resolve_counted(alloc, r, w)?;
    let verdict = shown(alloc, r, w, &found.verdict)?;
    format!(in alloc; "{verdict} after {} pairs", found.pairs)
}

fn hop_of(alloc: Global, word: &str) -> Result<Option<Hop>, AllocError> {
    let (kind, rest) = word.split_once(':').unwrap_or((word, ""));
    let number = rest.parse::<usize>().unwrap_or(usize::MAX);
    match kind {
        "items" => Ok(Some(Hop::Items)),
        "values" => Ok(Some(Hop::Values)),
        "writer" => Ok(Some(Hop::Writer(number))),
        "reader" => Ok(Some(Hop::Reader(number))),
        "field" => Ok(Some(Hop::Field(Text::copy_of(alloc, rest)?))),
        _ => Ok(None),
    }
}

/// The trail of those hops, as far as they are hops, to a clash of names or else of types.
fn trail_of(alloc: Global, asked: &str) -> Result<Trail, AllocError> {
    let (way, kind) = asked.split_once(": ").unwrap_or((asked, ""));
    let mut hops = Vec::new(alloc);
    for word in way.split('/') {
        if let Some(hop) = hop_of(alloc, word)? {
            hops.push(hop)?;
        }
    }
    let kind = match kind {
        "NAME_MISMATCH" => ClashKind::NameMismatch,
        _ => ClashKind::TypeMismatch,
    };
    let hops = Listed::from(hops);
    Ok(Trail { hops, kind })
}

/// Whether hops and a clash are a trail, if their text is the same again.
fn trailed(alloc: Global, r: &Schema, w: &Schema, asked: &str) -> Answer {
    let trail = trail_of(alloc, asked)?;
    let again = format!(in alloc; "{trail}: {}", trail.kind)?;
    if again.as_str() != asked {
        return Ok(again);
    }
    let is_trail = trail.check(r, w);
    String::from_str(alloc, if is_trail { "a trail" } else { "no trail" })
}

/// Whether the reader's type of that number matches the writer's root.
fn matched(r: &Schema, w: &Schema, asked: &str) -> &'static str {
    let index = asked.parse::<usize>().unwrap_or(usize::MAX);
    if index >= r.node_count() {
        "no such type"
    } else if matches(r, NodeId { index }, w, w.root()) {
        "matches"
    } else {
        "does not match"
    }
}

fn answer_of(alloc: Global, kind: &str, r: &Schema, w: &Schema, asked: &str) -> Answer {
    match kind {
        "pairs" => agreed(alloc, r, w),
        "counts" => counted(alloc, r, w),
        "trails" => trailed(alloc, r, w, asked),
        _ => String::from_str(alloc, matched(r, w, asked)),
    }
}

/// What is said of a reader's schema and a writer's.
pub(crate) fn pair_answer(alloc: Global, kind: &str, schemas: (&str, &str), asked: &str) -> Answer {
    let r = Schema::read_if_any(alloc, schemas.0)?;
    let w = Schema::read_if_any(alloc, schemas.1)?;
    match (&r, &w) {
        (Some(r), Some(w)) => answer_of(alloc, kind, r, w, asked),
        _ => String::from_str(alloc, NO_SCHEMA),
    }
}
