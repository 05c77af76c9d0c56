// A world beside a plain one.
use crate::events::{event_of, step_text};
use crate::plain::Plain;
use reg_fold::Registry;
use reg_lookup::Query;
use reg_records::Log;
use reg_world::{Event, World};
use std::alloc::Global;
use test_tools::{CaseError, Made, Said};
use test_words::registry_of;

/// A world and a plain one, to which the same happens.
#[derive(Drop)]
pub(crate) struct Both {
    pub(crate) alloc: Global,
    world: World,
    pub(crate) plain: Plain,
    /// Whether something came out otherwise in one of them.
    pub(crate) differ: bool,
}

impl Both {
    /// Over a base, where a world starts there.
    pub(crate) fn start(alloc: Global, nodes: usize, base: &Log) -> Said<Both> {
        let plain = Plain::start(alloc, base, nodes)?;
        let started = World::start(alloc, nodes, base).ok();
        Ok(Both {
            alloc,
            world: started.ok_or(CaseError::NotUnderstood)?,
            plain,
            differ: false,
        })
    }

    /// What comes of the event of those words.
    pub(crate) fn step(&mut self, words: &str) -> Said<String> {
        let event = event_of(self.alloc, words, &self.plain.written)?;
        self.step_by(&event)
    }

    fn step_by(&mut self, event: &Event) -> Said<String> {
        let expected = self.plain.step(self.alloc, event)?;
        let found = step_text(self.alloc, &mut self.world, event)?;
        self.compare(found.as_str(), expected.as_str());
        if let Event::Lookup { node, query } = event {
            self.compare_with_log(*node, query, found.as_str())?;
        }
        Ok(found)
    }

    fn compare(&mut self, found: &str, expected: &str) {
        self.differ = self.differ || found != expected;
    }

    /// The answer is that of the whole log too, where the node has the kept floor and the last kept record of each key.
    fn compare_with_log(&mut self, node: usize, query: &Query, found: &str) -> Made<()> {
        if self.plain.is_caught_up(node) {
            let expected = self.plain.answer_of_log(self.alloc, query)?;
            self.compare(found, expected.as_str());
        }
        Ok(())
    }

    /// Whether the event is done in both.
    pub(crate) fn does(&mut self, words: &str) -> Said<bool> {
        let found = self.step(words)?;
        Ok(found.as_str() == "done" && !self.differ)
    }

    /// Compares the entries of the log, its records taken one after the other, with those of a registry over all that was published.
    pub(crate) fn compare_entries(&mut self) -> Made<()> {
        let registry = registry_of(self.alloc, &self.plain.log)?;
        self.differ = self.differ || !has_entries(&registry, &self.world)?;
        Ok(())
    }
}

fn has_entries(registry: &Registry, world: &World) -> Made<bool> {
    let eager = world.eager_entries()?;
    let entries = registry.entries()?;
    let mut pairs = eager.iter().zip(&entries);
    Ok(eager.len() == entries.len() && pairs.all(|(one, other)| *one == **other))
}
