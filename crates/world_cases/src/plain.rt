// A topic and its nodes as plain lists of records: what is published, what is kept, and all that each
// node took. Answers and replies are those of registries over these lists.
use crate::events::{FLOORS_DIFFER, NOT_ALLOWED};
use base_text::Text;
use reg_leader::{Command, Decision, decide};
use reg_lookup::{Query, answer};
use reg_records::{Key, Log, Record, ValueText};
use reg_world::{Event, Fate};
use std::alloc::Global;
use test_tools::Made;
use test_words::{answer_text, registry_of, reply_text};

#[derive(Drop)]
pub(crate) struct Plain {
    /// The base's records with the mark that they owe, and all that commands decided, lost ones too.
    pub written: Vec<Record>,
    pub log: Vec<Record>,
    kept: Vec<Record>,
    /// The kept floor.
    pub floor: u64,
    unsettled: Vec<Record>,
    pub next: u64,
    nodes: Vec<Taker>,
}

/// What a node took, at its floor.
#[derive(Drop)]
struct Taker {
    took: Vec<Record>,
    floor: u64,
}

pub(crate) fn push_all(to: &mut Vec<Record>, from: &[Record]) -> Made<()> {
    for given in from {
        to.push(given.clone()?)?;
    }
    Ok(())
}

/// Adds those that aren't there.
fn join(to: &mut Vec<Record>, from: &[Record]) -> Made<()> {
    for given in from {
        if !is_among(to, given) {
            to.push(given.clone()?)?;
        }
    }
    Ok(())
}

fn is_among(list: &[Record], given: &Record) -> bool {
    list.iter().any(|found| *found == *given)
}

/// No value is before each text.
fn is_greater(value: &Option<ValueText>, than: &Option<ValueText>) -> bool {
    match (value, than) {
        (Some(value), Some(than)) => *value > *than,
        (Some(_), None) => true,
        (None, _) => false,
    }
}

/// Whether a record of the list has the same key and comes later: by its offset, then by its value.
fn is_passed(list: &[Record], given: &Record) -> bool {
    list.iter().any(|found| {
        found.key == given.key
            && (found.offset > given.offset
                || (found.offset == given.offset && is_greater(&found.value, &given.value)))
    })
}

/// The mark of ids that a topic over those records begins with, where an entry's id is above theirs.
fn due_marks(alloc: Global, records: &[Record], next: u64) -> Made<Vec<Record>> {
    let registry = registry_of(alloc, records)?;
    let greatest = registry.greatest_id().unwrap_or(0);
    let mut due = Vec::new(alloc);
    if registry.mark() < greatest {
        let text = format!(in alloc; "{{\"id\":{greatest}}}")?;
        due.push(Record {
            offset: next,
            key: Key::IdMark,
            value: Some(ValueText::from(Text::of_string(text)?)),
        })?;
    }
    Ok(due)
}

fn answer_over(alloc: Global, records: &[Record], query: &Query) -> Made<String> {
    let registry = registry_of(alloc, records)?;
    answer_text(alloc, &answer(alloc, &registry, query)?)
}

/// Whether the record deletes its key below the floor.
fn deletes_below(given: &Record, floor: u64) -> bool {
    given.value.is_none() && given.offset < floor
}

/// Whether the record may go from all those where those are left: it isn't its key's last one, or it
/// deletes its key below the floor, and nothing is left of that.
fn may_go(given: &Record, all: &[Record], left: &[Record], floor: u64) -> bool {
    let is_forgotten = deletes_below(given, floor)
        && !left.iter().any(|found| found.key == given.key);
    is_among(all, given) && (is_passed(all, given) || is_forgotten)
}

fn done_if(is_allowed: bool) -> &'static str {
    if is_allowed { "done" } else { NOT_ALLOWED }
}

impl Plain {
    pub(crate) fn start(alloc: Global, base: &Log, count: usize) -> Made<Plain> {
        let mut plain = Plain {
            written: Vec::new(alloc),
            log: Vec::new(alloc),
            kept: Vec::new(alloc),
            floor: base.floor,
            unsettled: Vec::new(alloc),
            next: base.next,
            nodes: Vec::new(alloc),
        };
        plain.begin(alloc, &base.records, count)?;
        Ok(plain)
    }

    fn begin(&mut self, alloc: Global, base: &[Record], count: usize) -> Made<()> {
        let due = due_marks(alloc, base, self.next)?;
        push_all(&mut self.written, base)?;
        push_all(&mut self.written, &due)?;
        push_all(&mut self.log, base)?;
        push_all(&mut self.kept, base)?;
        self.stand(&due, Fate::Published)?;
        for _ in 0..count {
            let took = Vec::new(alloc);
            self.nodes.push(Taker { took, floor: 0 })?;
        }
        Ok(())
    }

    /// Whether the record at that place of all that were written is kept.
    pub(crate) fn is_kept(&self, place: usize) -> bool {
        match self.written.get(place) {
            Some(found) => is_among(&self.kept, found),
            None => false,
        }
    }

    /// What comes of an event, in words.
    pub(crate) fn step(&mut self, alloc: Global, event: &Event) -> Made<String> {
        let came = match event {
            Event::Command {
                node,
                command,
                fate,
            } => return self.command(alloc, *node, command, *fate),
            Event::Lookup { node, query } => return self.lookup(alloc, *node, query),
            Event::Compact(dropped) => self.compact(alloc, self.floor, dropped.as_slice())?,
            Event::CompactTo { floor, dropped } => self.compact(alloc, *floor, dropped.as_slice())?,
            Event::Take { node, records } => self.take(*node, records.as_slice())?,
            Event::MergeFrom { node, other } => self.merge(alloc, *node, *other)?,
            Event::Rebase(node) => self.rebase(*node)?,
            Event::CompactNode(node) => done_if(self.nodes.get(*node).is_some()),
            Event::Restart(node) => self.restart(*node),
        };
        String::from_str(alloc, came)
    }

    /// Publishes what isn't settled.
    fn settle(&mut self) -> Made<()> {
        push_all(&mut self.log, &self.unsettled)?;
        push_all(&mut self.kept, &self.unsettled)?;
        self.next = self.next.saturating_add(self.unsettled.len() as u64);
        self.unsettled.clear();
        Ok(())
    }

    fn command(
        &mut self,
        alloc: Global,
        node: usize,
        command: &Command,
        fate: Fate,
    ) -> Made<String> {
        if node >= self.nodes.len() {
            return String::from_str(alloc, NOT_ALLOWED);
        }
        self.settle()?;
        let registry = registry_of(alloc, &self.log)?;
        let decision = decide(alloc, &registry, self.next, command, None);
        self.end(alloc, &decision, fate)
    }

    /// What becomes of a batch, and what is replied.
    fn end(&mut self, alloc: Global, decision: &Decision, fate: Fate) -> Made<String> {
        let batch = decision.batch.as_slice();
        let Some(first) = batch.first() else {
            return reply_text(alloc, &decision.reply);
        };
        push_all(&mut self.written, batch)?;
        self.stand(batch, fate)?;
        match fate {
            Fate::Published => reply_text(alloc, &decision.reply),
            Fate::Unsettled | Fate::Lost => format!(in alloc; "unsettled {}", first.offset),
        }
    }

    fn stand(&mut self, batch: &[Record], fate: Fate) -> Made<()> {
        match fate {
            Fate::Published => {
                push_all(&mut self.unsettled, batch)?;
                self.settle()
            }
            Fate::Unsettled => push_all(&mut self.unsettled, batch),
            Fate::Lost => Ok(()),
        }
    }

    /// Whether the records may leave what is kept, with what isn't settled, at that floor.
    fn may_compact(&self, alloc: Global, floor: u64, dropped: &[Record]) -> Made<bool> {
        let next = self.next.saturating_add(self.unsettled.len() as u64);
        let mut all = Vec::new(alloc);
        push_all(&mut all, &self.kept)?;
        push_all(&mut all, &self.unsettled)?;
        let mut left = Vec::new(alloc);
        push_all(&mut left, &all)?;
        left.retain(|found| !is_among(dropped, found));
        let may_all_go = dropped
            .iter()
            .all(|given| may_go(given, &all, &left, floor));
        Ok(self.floor <= floor && floor <= next && may_all_go)
    }

    fn compact(&mut self, alloc: Global, floor: u64, dropped: &[Record]) -> Made<&'static str> {
        if !self.may_compact(alloc, floor, dropped)? {
            return Ok(NOT_ALLOWED);
        }
        self.settle()?;
        self.kept.retain(|found| !is_among(dropped, found));
        self.floor = floor;
        Ok("done")
    }

    fn take(&mut self, node: usize, records: &[Record]) -> Made<&'static str> {
        let are_kept = records.iter().all(|given| is_among(&self.kept, given));
        match self.nodes.get_mut(node) {
            Some(taker) if are_kept && taker.floor == self.floor => join(&mut taker.took, records)?,
            Some(_) if are_kept => return Ok(FLOORS_DIFFER),
            _ => return Ok(NOT_ALLOWED),
        }
        Ok("done")
    }

    fn merge(&mut self, alloc: Global, node: usize, other: usize) -> Made<&'static str> {
        let mut more = Vec::new(alloc);
        let Some(giver) = self.nodes.get(other) else {
            return Ok(NOT_ALLOWED);
        };
        push_all(&mut more, &giver.took)?;
        let floor = giver.floor;
        match self.nodes.get_mut(node) {
            Some(taker) if taker.floor == floor => join(&mut taker.took, &more)?,
            Some(_) => return Ok(FLOORS_DIFFER),
            None => return Ok(NOT_ALLOWED),
        }
        Ok("done")
    }

    /// What the node took below the kept floor goes, and what is kept there comes.
    fn rebase(&mut self, node: usize) -> Made<&'static str> {
        let floor = self.floor;
        let Some(taker) = self.nodes.get_mut(node) else {
            return Ok(NOT_ALLOWED);
        };
        taker.took.retain(|found| found.offset >= floor);
        for given in &self.kept {
            if given.offset < floor {
                taker.took.push(given.clone()?)?;
            }
        }
        taker.floor = floor;
        Ok("done")
    }

    fn restart(&mut self, node: usize) -> &'static str {
        let Some(taker) = self.nodes.get_mut(node) else {
            return NOT_ALLOWED;
        };
        taker.took.clear();
        taker.floor = 0;
        "done"
    }

    /// Whether the node has the kept floor.
    pub(crate) fn is_at_floor(&self, node: usize) -> bool {
        match self.nodes.get(node) {
            Some(taker) => taker.floor == self.floor,
            None => false,
        }
    }

    /// Whether the node has the kept floor, and the last kept record of each key.
    pub(crate) fn is_caught_up(&self, node: usize) -> bool {
        match self.nodes.get(node) {
            Some(taker) => {
                taker.floor == self.floor
                    && self.kept.iter().all(|given| is_passed(&self.kept, given)
                        || is_among(&taker.took, given))
            }
            None => false,
        }
    }

    /// The answer over the whole log, in words.
    pub(crate) fn answer_of_log(&self, alloc: Global, query: &Query) -> Made<String> {
        answer_over(alloc, &self.log, query)
    }

    /// Whether the record at that place is kept, and may go where all others may that do at that floor.
    pub(crate) fn may_leave(&self, place: usize, floor: u64) -> bool {
        match self.written.get(place) {
            Some(found) => {
                is_among(&self.kept, found)
                    && (is_passed(&self.kept, found) || deletes_below(found, floor))
            }
            None => false,
        }
    }

    fn lookup(&self, alloc: Global, node: usize, query: &Query) -> Made<String> {
        match self.nodes.get(node) {
            Some(taker) => { answer_over(alloc, &taker.took, query) }
            None => String::from_str(alloc, NOT_ALLOWED),
        }
    }
}
