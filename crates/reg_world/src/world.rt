// A world: what a list of events leads to.
ghost use Rattle.std.specs.Prelude.{◌≡◌, ◌↔◌, ◌+◌, ◌++◌, ◌∷◌, [], false, true, Some, IfOk, IfErr, OnErr, OnOk, length};
ghost use Rattle.std.specs.FinSet.{from_list};
ghost use Rattle.std.specs.List.{Contains};
ghost use Rattle.reg_alike.specs.reg_set.LastRecords.{last_records};
ghost use Rattle.reg_alike.specs.reg_entries.EntryOrder.{place_of};
ghost use Rattle.reg_alike.specs.reg_entries.declared.entry.Entry.{Entry};
ghost use Rattle.reg_alike.specs.reg_fold.Closed.{is_closed};
ghost use Rattle.reg_alike.specs.reg_fold.Entries.{entries};
ghost use Rattle.reg_alike.specs.reg_leader.Adoption.{HasPlace, IsAdoptRefusal};
ghost use Rattle.reg_topic.specs.Topic.{after_batch, follows, registry_of, topic_from};
ghost use Rattle.reg_world.specs.Eager.{eager};
ghost use Rattle.reg_world.specs.Happens.{Happens, floors_agree, is_allowed};
ghost use Rattle.reg_world.specs.Headline.{IsReached, KeepsTheHeadline};
ghost use Rattle.reg_world.specs.Runs.{IsStopped, Runs};
ghost use Rattle.reg_world.specs.State.{start, topic_of};
ghost use Rattle.reg_world.specs.declared.event.Outcome.TheVariants as Outcome;
ghost use Rattle.reg_world.specs.declared.world.RunError.TheVariants as RunError;

use crate::cluster::Cluster;
use crate::eager::{fold_eagerly, listed};
use crate::event::{Event, Outcome};
use crate::laws::{eager_folding_is_right, events_are_refused_exactly, worlds_keep_the_headline};
use reg_alike::reg_floored::compactions_compose;
use reg_alike::reg_fold::{Entry, Registry, entries_are_of_places};
use reg_alike::reg_leader::{AdoptError, Adopted, adopt};
use reg_alike::reg_records::{Log, Record};
use reg_topic::{Topic, adopted_logs_begin, follows};
use std::alloc::{AllocError, Global};
use std::error::Error;
use std::fmt;
use std::marker::Model;

/// A topic with its nodes, after some list of events.
///
/// Whatever the events, these hold:
/// - The log is lawful and has all that was published, and the kept set is a compaction of it.
/// - Each node answers as the set does of which it took a compaction. It answers as the log if it
///   has the kept floor and took all kept records, or has the last kept record of each key.
/// - An id names one schema for good, and each registered version met its level.
/// - The log's records, taken one after the other, give its entries.
#[derive(Debug, Drop)]
pub struct World {
    cluster: Cluster,
}

impl Model for World {
    ghost use Rattle.reg_world.specs.contracts.cluster.Cluster as clusters;
    ghost use Rattle.reg_world.specs.Headline.{IsReached};
    ghost use Rattle.reg_world.specs.State.{State};

    ghost Value = { State };

    ghost coded = { clusters.the_row.coded };

    ghost view = { λ w. w.cluster };

    ghost invariant = { λ w. IsReached w.cluster };
}

/// Why a run of events ended early.
#[derive(Clone, Copy, Debug, PartialEq, Eq)]
pub enum RunError {
    /// Memory was refused after `done` events.
    OutOfMemory { done: usize },
}

impl fmt::Display for RunError {
    ghost use Rattle.std.specs.Prelude.{Some, codes};

    ghost output = { λ error. Some (codes "out of memory") };

    fn fmt<W: fmt::Write>(&self, f: &mut fmt::Formatter<W>) -> fmt::Result {
        write!(f, "out of memory")
    }
}

impl Error for RunError {}

impl World {
    /// Makes a world over a base, whose nodes have no record. Its topic begins with the base and
    /// the id mark that the base owes. Refused if the base can't begin a topic, or if memory is
    /// refused.
    pub fn start(alloc: Global, nodes: usize, base: &Log) -> Result<World, AdoptError>
        ensures start { IfOk result (λ w. w ≡ start (topic_from base.now.records.items base.now.next base.now.floor) nodes) }
        ensures place { OnOk result (HasPlace (last_records (from_list base.now.records.items)) base.now.next) }
        ensures adopted { OnOk result (is_closed (last_records (from_list base.now.records.items)) ≡ false) }
        ensures keeps { IfOk result KeepsTheHeadline }
        ensures refused { IfErr result (IsAdoptRefusal (last_records (from_list base.now.records.items)) base.now.next) }
    {
        adopted_logs_begin();
        worlds_keep_the_headline();
        let mut topic = Topic::of_log(alloc, base)?;
        let Adopted { mut registry, due } = adopt(alloc, &topic.log, topic.next)?;
        publish_due(alloc, &mut topic, &mut registry, &due)?;
        let cluster = Cluster::start(alloc, topic, registry, nodes)?;
        let world = World { cluster };
        world.is_reached();
        Ok(world)
    }

    /// Does what the event says, if it is allowed. The only error is out of memory; the world
    /// hasn't changed then.
    pub fn step(&mut self, event: &Event) -> Result<Outcome, AllocError>
        ensures happens { IfOk result (λ outcome. Happens self.old event.now outcome self.new) }
        ensures not_allowed { IfOk result (λ outcome. (outcome ≡ Outcome.NotAllowed)
            ↔ (is_allowed self.old event.now ≡ false)) }
        ensures floors_differ { IfOk result (λ outcome. (outcome ≡ Outcome.FloorsDiffer)
            ↔ ((is_allowed self.old event.now ≡ true) × (floors_agree self.old event.now ≡ false))) }
        ensures keeps { KeepsTheHeadline self.new }
        ensures refused { OnErr result (self.new ≡ self.old) }
    {
        events_are_refused_exactly();
        worlds_keep_the_headline();
        self.cluster.step(event)
    }

    /// Does the events in turn, and returns their outcomes. An error leaves the world where the
    /// events that were done lead.
    ///
    /// An item that can't follow on those before it would be skipped in the log. There is none: the
    /// log has all that the items published.
    pub fn run(&mut self, events: &[Event]) -> Result<Vec<Outcome>, RunError>
        ensures runs { IfOk result (λ outcomes. Runs self.old events.now outcomes.items self.new) }
        ensures refused { IfErr result (λ error. IsStopped self.old events.now error self.new) }
        ensures keeps { KeepsTheHeadline self.new }
    {
        worlds_keep_the_headline();
        let outcomes = self.run_each(events);
        self.is_reached();
        outcomes
    }

    /// States that this world is where some list of events leads, over an adopted base, so what
    /// holds after every list of events holds of it. Does nothing, and takes no memory.
    pub fn is_reached(&self)
        ensures { IsReached self.now }
    {
        let _ = &self.cluster;
    }

    /// Returns the entries of the log, by subject, by its bytes, and then by version. The log's
    /// records are taken one after the other: each version's as it comes, and a soft delete flags
    /// the entries that are there then. The only error is out of memory.
    ///
    /// They are the entries of a registry over the log, which looks at last records only.
    pub fn eager_entries(&self) -> Result<Vec<Entry>, AllocError>
        ensures eager { IfOk result (λ found. (e : Entry) → Contains found.items e ↔ (eager self.now (place_of e) ≡ Some e)) }
        ensures right { IfOk result (λ found. found.items ≡ entries (registry_of (topic_of self.now))) }
    {
        eager_folding_is_right();
        entries_are_of_places();
        compactions_compose();
        let alloc = self.cluster.allocator();
        let standing = fold_eagerly(alloc, self.cluster.base(), self.cluster.items())?;
        listed(alloc, &standing)
    }

    fn run_each(&mut self, events: &[Event]) -> Result<Vec<Outcome>, RunError>
        ensures runs { IfOk result (λ outcomes. Runs self.old events.now outcomes.items self.new) }
        ensures refused { IfErr result (λ error. IsStopped self.old events.now error self.new) }
    {
        let mut outcomes = Vec::new(self.cluster.allocator());
        for event in events {
            let Ok(outcome) = self.step(event) else {
                return Err(RunError::OutOfMemory {
                    done: outcomes.len(),
                });
            };
            match keep(&mut outcomes, outcome) {
                Ok(()) => {}
                Err(error) => return Err(error),
            }
        }
        Ok(outcomes)
    }
}

/// Publishes what is due, and adds it to the registry over the topic's log. Records that don't go
/// on at the next offset change nothing. The only error is out of memory.
fn publish_due(
    alloc: Global,
    topic: &mut Topic,
    registry: &mut Registry,
    due: &[Record],
) -> Result<(), AllocError>
    requires { registry.old ≡ registry_of topic.old }
    ensures topic { OnOk result (topic.new ≡ after_batch (follows topic.old.next due.now) topic.old due.now) }
    ensures registry { OnOk result (registry.new ≡ registry_of topic.new) }
{
    if !follows(topic.next, due) {
        return Ok(());
    }
    topic.publish_batch(alloc, due)?;
    registry.apply_all(due)?;
    Ok(())
}

/// Adds the outcome of an event that was done.
fn keep(outcomes: &mut Vec<Outcome>, outcome: Outcome) -> Result<(), RunError>
    ensures kept { OnOk result (outcomes.new.items ≡ outcomes.old.items ++ outcome ∷ []) }
    ensures refused { IfErr result (λ error. error ≡ RunError.OutOfMemory (length outcomes.old.items + 1)) }
{
    let done = outcomes.len();
    match outcomes.push(outcome) {
        Ok(()) => Ok(()),
        Err(_) => Err(RunError::OutOfMemory { done: done + 1 }),
    }
}
