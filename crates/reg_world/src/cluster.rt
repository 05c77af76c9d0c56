// A topic with its nodes, and what each event does to them.
ghost use Rattle.std.specs.Prelude.{◌≡◌, ◌↔◌, ◌⊎◌, ◌+◌, ◌++◌, ◌<◌, ◌≤◌, true, None, IfOk, OnOk, OnErr, option_copied, option_map, replicate, slice_get, vec_capacity, vec_len};
ghost use Rattle.std.specs.List.{list_all};
ghost use Rattle.std.specs.FinSet.{contains};
ghost use Rattle.reg_alike.specs.reg_refusals.Refusal.{no_memory};
ghost use Rattle.reg_alike.specs.reg_leader.Outcome.{IsOutOfMemory};
ghost use Rattle.reg_alike.specs.reg_leader.Step.{IsStep};
ghost use Rattle.reg_alike.specs.reg_leader.declared.reply.Reply.TheVariants as replies;
ghost use Rattle.reg_topic.specs.Topic.{follows, may_compact, registry_of};
ghost use Rattle.reg_topic.specs.declared.published.Item.TheVariants as published;
ghost use Rattle.reg_world.specs.Happens.{Happens, told, with_batch};
ghost use Rattle.reg_world.specs.State.{leave_unsettled, no_records, publish, rebasing, settled, settling, start, topic_of};
ghost use Rattle.reg_world.specs.declared.event.Event.TheVariants as events;

use crate::event::{Event, Fate, Outcome};
use crate::folding::{Decided, Folded};
use crate::node::WorldNode;
use reg_alike::base_text::Listed;
use reg_alike::reg_floored::KeptSet;
use reg_alike::reg_fold::{Refusal, Registry, StoreFault};
use reg_alike::reg_leader::{
    Command, Decision, Reply, batches_end_by_the_limit, batches_go_on, decide,
};
use reg_alike::reg_lookup::{Query, answer};
use reg_alike::reg_records::Record;
use reg_alike::reg_set::RecordSet;
use reg_topic::{Commit, Compaction, Item, Topic, lawful_items_follow};
use std::alloc::{AllocError, Global};
use std::marker::Model;

/// The state of a world: a topic with its published items, at most one commit that isn't settled,
/// and nodes.
#[derive(Debug, Drop)]
pub(crate) struct Cluster {
    base: Topic,
    items: Vec<Item>,
    unsettled: Option<Commit>,
    nodes: Vec<WorldNode>,
    // Over the items and the unsettled commit, which each later command settles first.
    decided: Decided,
    // Over some of the items.
    folded: Folded,
}

impl Model for Cluster {
    ghost use Rattle.std.specs.Coded.{codes};
    ghost use Rattle.std.specs.Prelude.{◌≡◌, ◌≤◌, ◌++◌, length, take};
    ghost use Rattle.reg_topic.specs.contracts.published.Commit as commits;
    ghost use Rattle.reg_topic.specs.contracts.published.Item as published;
    ghost use Rattle.reg_topic.specs.contracts.topic.Topic as topics;
    ghost use Rattle.reg_topic.specs.Topic.{after_items, registry_of};
    ghost use Rattle.reg_world.specs.contracts.node.WorldNode as node_rows;
    ghost use Rattle.reg_world.specs.State.{State, settling};

    ghost Value = { State };

    ghost coded = { Prim.hlevel (codes, topics.the_row.coded, published.the_row.coded, commits.the_row.coded, node_rows.the_row.coded) };

    ghost view = { λ w. record { base = w.base; items = w.items.items; unsettled = w.unsettled; nodes = w.nodes.items } };

    ghost invariant = { λ w. (w.folded.count ≤ length w.items.items)
        × (w.folded.topic ≡ after_items w.base (take w.folded.count w.items.items))
        × (w.decided.registry ≡ registry_of (after_items w.base (w.items.items ++ settling w.unsettled)))
        × (w.decided.next ≡ (after_items w.base (w.items.items ++ settling w.unsettled)).next) };
}

impl Cluster {
    /// Makes the state in which nothing was published after the base and no node has a record. The
    /// registry is the base's.
    pub(crate) fn start(
        alloc: Global,
        base: Topic,
        registry: Registry,
        count: usize,
    ) -> Result<Cluster, AllocError>
        requires { registry ≡ registry_of base }
        ensures { IfOk result (λ cluster. cluster ≡ start base count) }
    {
        let nodes = new_nodes(alloc, count)?;
        let topic = base.clone()?;
        let next = base.next;
        Ok(Cluster {
            base,
            items: Vec::new(alloc),
            unsettled: None,
            nodes,
            decided: Decided { registry, next },
            folded: Folded { topic, count: 0 },
        })
    }

    /// Returns the stored allocator.
    pub(crate) fn allocator(&self) -> Global {
        *self.items.allocator()
    }

    /// Returns what the topic began with.
    pub(crate) fn base(&self) -> &Topic
        ensures { result.now ≡ self.now.base }
    {
        &self.base
    }

    /// Returns what was published since, in its order.
    pub(crate) fn items(&self) -> &[Item]
        ensures { result.now ≡ self.now.items }
    {
        &self.items
    }

    /// Does what the event says, if it is allowed. The only error is out of memory; nothing has
    /// changed then.
    pub(crate) fn step(&mut self, event: &Event) -> Result<Outcome, AllocError>
        ensures happens { IfOk result (λ outcome. Happens self.old event.now outcome self.new) }
        ensures refused { OnErr result (self.new ≡ self.old) }
    {
        match event {
            Event::Command {
                node,
                command,
                fate,
            } => self.command(*node, command, *fate),
            Event::Compact(dropped) => self.compact(dropped),
            Event::CompactTo { floor, dropped } => self.compact_to(*floor, dropped),
            Event::Take { node, records } => self.take(*node, records),
            Event::CompactNode(node) => self.compact_node(*node),
            Event::MergeFrom { node, other } => self.merge_from(*node, *other),
            Event::Rebase(node) => self.rebase(*node),
            Event::Restart(node) => self.restart(*node),
            Event::Lookup { node, query } => self.lookup(*node, query),
        }
    }

    fn command(&mut self, node: usize, command: &Command, fate: Fate) -> Result<Outcome, AllocError>
        ensures happens { IfOk result (λ outcome. Happens self.old (events.Command node command.now fate) outcome self.new) }
        ensures refused { OnErr result (self.new ≡ self.old) }
    {
        let Some(_found) = self.node(node) else {
            return Ok(Outcome::NotAllowed);
        };
        let decision = self.decision(command);
        if is_no_memory(&decision.reply) {
            return Err(AllocError);
        }
        let reply = self.settle_with(command, fate, decision)?;
        Ok(Outcome::Replied(reply))
    }

    /// Decides what the command replies and writes, once the unsettled commit is published.
    fn decision(&self, command: &Command) -> Decision
        ensures { IsOutOfMemory result ⊎ IsStep (registry_of (topic_of (settled self.now))) (topic_of (settled self.now)).next command.now result.reply result.batch }
    {
        let alloc = *self.items.allocator();
        decide(
            alloc,
            &self.decided.registry,
            self.decided.next,
            command,
            None,
        )
    }

    /// Publishes the unsettled commit, and does with the batch what its fate says. Returns the
    /// caller's reply.
    fn settle_with(
        &mut self,
        command: &Command,
        fate: Fate,
        decision: Decision,
    ) -> Result<Reply, AllocError>
        requires { IsStep (registry_of (topic_of (settled self.old))) (topic_of (settled self.old)).next command.now decision.reply decision.batch }
        ensures told { IfOk result (λ reply. reply ≡ told fate decision.reply decision.batch) }
        ensures state { OnOk result (self.new ≡ with_batch (settled self.old) fate command.now decision.batch) }
        ensures refused { OnErr result (self.new ≡ self.old) }
    {
        batches_go_on();
        batches_end_by_the_limit();
        let Decision { batch, reply } = decision;
        let Some(first) = first_offset(&batch) else {
            self.settle()?;
            return Ok(reply);
        };
        let command = command.clone()?;
        let commit = Commit { command, batch };
        match fate {
            Fate::Published => {
                self.publish_commit(commit)?;
                Ok(reply)
            }
            Fate::Unsettled => {
                self.leave_unsettled(commit)?;
                Ok(Reply::Unsettled(first))
            }
            Fate::Lost => {
                self.settle()?;
                Ok(Reply::Unsettled(first))
            }
        }
    }

    fn compact(&mut self, dropped: &Listed<Record>) -> Result<Outcome, AllocError>
        ensures happens { IfOk result (λ outcome. Happens self.old (events.Compact dropped.now) outcome self.new) }
        ensures refused { OnErr result (self.new ≡ self.old) }
    {
        lawful_items_follow();
        let floor = self.kept_floor()?;
        self.compact_to(floor, dropped)
    }

    fn compact_to(&mut self, floor: u64, dropped: &Listed<Record>) -> Result<Outcome, AllocError>
        ensures happens { IfOk result (λ outcome. Happens self.old (events.CompactTo floor dropped.now) outcome self.new) }
        ensures refused { OnErr result (self.new ≡ self.old) }
    {
        let dropped = dropped.clone()?;
        let compaction = Compaction { floor, dropped };
        let may = self.may_compact(&compaction)?;
        if !may {
            return Ok(Outcome::NotAllowed);
        }
        self.publish_compaction(compaction)?;
        Ok(Outcome::Done)
    }

    fn take(&mut self, node: usize, records: &Listed<Record>) -> Result<Outcome, AllocError>
        ensures happens { IfOk result (λ outcome. Happens self.old (events.Take node records.now) outcome self.new) }
        ensures refused { OnErr result (self.new ≡ self.old) }
    {
        let are_kept = self.are_kept(records.as_slice())?;
        if !are_kept {
            return Ok(Outcome::NotAllowed);
        }
        let floor = self.kept_floor()?;
        self.take_kept(node, records, floor)
    }

    /// Adds kept records to the node's, if the node has the kept floor.
    fn take_kept(
        &mut self,
        node: usize,
        records: &Listed<Record>,
        floor: u64,
    ) -> Result<Outcome, AllocError>
        requires { (list_all (contains (topic_of self.old).kept.records) records.now ≡ true) × (floor ≡ (topic_of self.old).kept.floor) }
        ensures happens { IfOk result (λ outcome. Happens self.old (events.Take node records.now) outcome self.new) }
        ensures refused { OnErr result (self.new ≡ self.old) }
    {
        let Some(taker) = self.node(node) else {
            return Ok(Outcome::NotAllowed);
        };
        if taker.set.floor() != floor {
            return Ok(Outcome::FloorsDiffer);
        }
        let more = RecordSet::of(*self.items.allocator(), records.as_slice())?;
        let taker = taker.taking(&more)?;
        self.nodes[node] = taker;
        Ok(Outcome::Done)
    }

    fn compact_node(&mut self, node: usize) -> Result<Outcome, AllocError>
        ensures happens { IfOk result (λ outcome. Happens self.old (events.CompactNode node) outcome self.new) }
        ensures refused { OnErr result (self.new ≡ self.old) }
    {
        let Some(found) = self.node(node) else {
            return Ok(Outcome::NotAllowed);
        };
        let compacted = found.compacted()?;
        self.nodes[node] = compacted;
        Ok(Outcome::Done)
    }

    fn merge_from(&mut self, node: usize, other: usize) -> Result<Outcome, AllocError>
        ensures happens { IfOk result (λ outcome. Happens self.old (events.MergeFrom node other) outcome self.new) }
        ensures refused { OnErr result (self.new ≡ self.old) }
    {
        let Some(taker) = self.node(node) else {
            return Ok(Outcome::NotAllowed);
        };
        let Some(giver) = self.node(other) else {
            return Ok(Outcome::NotAllowed);
        };
        if taker.set.floor() != giver.set.floor() {
            return Ok(Outcome::FloorsDiffer);
        }
        let taker = taker.taking(giver.set.set())?;
        self.nodes[node] = taker;
        Ok(Outcome::Done)
    }

    fn rebase(&mut self, node: usize) -> Result<Outcome, AllocError>
        ensures happens { IfOk result (λ outcome. Happens self.old (events.Rebase node) outcome self.new) }
        ensures refused { OnErr result (self.new ≡ self.old) }
    {
        let Some(rebased) = self.rebased(node)? else {
            return Ok(Outcome::NotAllowed);
        };
        self.nodes[node] = rebased;
        Ok(Outcome::Done)
    }

    /// Returns the node, rebased on the kept set; `None` if there is no such node.
    fn rebased(&mut self, node: usize) -> Result<Option<WorldNode>, AllocError>
        ensures told { IfOk result (λ found. found ≡ option_map (rebasing (topic_of self.old).kept) (slice_get self.old.nodes node)) }
        ensures same { self.new ≡ self.old }
    {
        let alloc = *self.items.allocator();
        self.folded.catch_up(alloc, &self.items)?;
        match self.nodes.get(node) {
            Some(found) => Ok(Some(found.rebasing(&self.folded.topic.kept)?)),
            None => Ok(None),
        }
    }

    fn restart(&mut self, node: usize) -> Result<Outcome, AllocError>
        ensures happens { IfOk result (λ outcome. Happens self.old (events.Restart node) outcome self.new) }
        ensures refused { OnErr result (self.new ≡ self.old) }
    {
        let Some(_found) = self.node(node) else {
            return Ok(Outcome::NotAllowed);
        };
        self.nodes[node] = WorldNode::new(*self.items.allocator());
        Ok(Outcome::Done)
    }

    fn lookup(&mut self, node: usize, query: &Query) -> Result<Outcome, AllocError>
        ensures happens { IfOk result (λ outcome. Happens self.old (events.Lookup node query.now) outcome self.new) }
        ensures refused { OnErr result (self.new ≡ self.old) }
    {
        let Some(found) = self.node(node) else {
            return Ok(Outcome::NotAllowed);
        };
        let alloc = *self.items.allocator();
        let registry = Registry::of_set(alloc, found.set.set())?;
        Ok(Outcome::Answered(answer(alloc, &registry, query)?))
    }

    fn node(&self, node: usize) -> Option<&WorldNode>
        ensures { option_copied result ≡ slice_get self.now.nodes node }
    {
        self.nodes.get(node)
    }

    /// Returns whether the compaction may be published once the unsettled commit is.
    fn may_compact(&mut self, compaction: &Compaction) -> Result<bool, AllocError>
        ensures told { IfOk result (λ may. may ≡ may_compact (topic_of (settled self.old)) compaction.now) }
        ensures same { self.new ≡ self.old }
    {
        lawful_items_follow();
        let alloc = *self.items.allocator();
        self.folded.catch_up(alloc, &self.items)?;
        match &self.unsettled {
            None => self.folded.topic.may_compact(compaction),
            Some(commit) => {
                let mut topic = self.folded.topic.clone()?;
                topic.publish_batch(alloc, commit.batch.as_slice())?;
                topic.may_compact(compaction)
            }
        }
    }

    /// Returns the floor of the kept set. A batch doesn't change it.
    fn kept_floor(&mut self) -> Result<u64, AllocError>
        ensures told { IfOk result (λ floor. floor ≡ (topic_of self.old).kept.floor) }
        ensures same { self.new ≡ self.old }
    {
        let alloc = *self.items.allocator();
        self.folded.catch_up(alloc, &self.items)?;
        Ok(self.folded.topic.kept.floor())
    }

    /// Returns whether the records are kept.
    fn are_kept(&mut self, records: &[Record]) -> Result<bool, AllocError>
        ensures told { IfOk result (λ are. are ≡ list_all (contains (topic_of self.old).kept.records) records.now) }
        ensures same { self.new ≡ self.old }
    {
        let alloc = *self.items.allocator();
        self.folded.catch_up(alloc, &self.items)?;
        Ok(are_all_in(&self.folded.topic.kept, records))
    }

    /// Publishes the unsettled commit.
    fn settle(&mut self) -> Result<(), AllocError>
        ensures settled { OnOk result (self.new ≡ settled self.old) }
        ensures refused { OnErr result (self.new ≡ self.old) }
    {
        self.items.reserve(1)?;
        put_settling(&mut self.items, &mut self.unsettled);
        Ok(())
    }

    /// Publishes the unsettled commit, and leaves the new one unsettled.
    fn leave_unsettled(&mut self, commit: Commit) -> Result<(), AllocError>
        requires { follows (topic_of (settled self.old)).next commit.batch ≡ true }
        ensures left { OnOk result (self.new ≡ leave_unsettled (settled self.old) commit) }
        ensures refused { OnErr result (self.new ≡ self.old) }
    {
        lawful_items_follow();
        self.items.reserve(1)?;
        self.decided.add(commit.batch.as_slice())?;
        put_settling(&mut self.items, &mut self.unsettled);
        self.unsettled = Some(commit);
        Ok(())
    }

    /// Publishes the unsettled commit, and then the new one.
    fn publish_commit(&mut self, commit: Commit) -> Result<(), AllocError>
        requires { follows (topic_of (settled self.old)).next commit.batch ≡ true }
        ensures published { OnOk result (self.new ≡ publish (settled self.old) (published.Commit commit)) }
        ensures refused { OnErr result (self.new ≡ self.old) }
    {
        lawful_items_follow();
        self.items.reserve(2)?;
        self.decided.add(commit.batch.as_slice())?;
        put_settling(&mut self.items, &mut self.unsettled);
        self.items.push_reserved(Item::Commit(commit));
        Ok(())
    }

    /// Publishes the unsettled commit, and then the compaction. The log stays the same, and so does
    /// the registry that commands step from.
    fn publish_compaction(&mut self, compaction: Compaction) -> Result<(), AllocError>
        ensures published { OnOk result (self.new ≡ publish (settled self.old) (published.Compaction compaction)) }
        ensures refused { OnErr result (self.new ≡ self.old) }
    {
        lawful_items_follow();
        self.items.reserve(2)?;
        put_settling(&mut self.items, &mut self.unsettled);
        self.items.push_reserved(Item::Compaction(compaction));
        Ok(())
    }
}

/// Moves the unsettled commit to the end of the items. There is room for it.
fn put_settling(items: &mut Vec<Item>, unsettled: &mut Option<Commit>)
    requires { vec_len items.old < vec_capacity items.old }
    ensures items { items.new.items ≡ items.old.items ++ settling unsettled.old }
    ensures none { unsettled.new ≡ None }
    ensures len { vec_len items.new ≤ vec_len items.old + 1 }
    ensures capacity { vec_capacity items.new ≡ vec_capacity items.old }
{
    if let Some(commit) = unsettled.take() {
        items.push_reserved(Item::Commit(commit));
    }
}

fn new_nodes(alloc: Global, count: usize) -> Result<Vec<WorldNode>, AllocError>
    ensures { IfOk result (λ nodes. nodes.items ≡ replicate count no_records) }
{
    let mut nodes = Vec::new(alloc);
    for _node in 0..count {
        nodes.push(WorldNode::new(alloc))?;
    }
    Ok(nodes)
}

/// Returns the offset of the first record.
fn first_offset(batch: &Listed<Record>) -> Option<u64>
    ensures { result ≡ option_map (λ r. r.offset) (slice_get batch.now 0) }
{
    batch.as_slice().first().map(|record| record.offset)
}

fn are_all_in(kept: &KeptSet, records: &[Record]) -> bool
    ensures { result ≡ list_all (contains kept.now.records) records.now }
{
    records.iter().all(|record| kept.contains(record))
}

/// Returns whether memory was refused. No step of a command replies so.
fn is_no_memory(reply: &Reply) -> bool
    ensures { (result ≡ true) ↔ (reply.now ≡ replies.Refused no_memory) }
{
    match reply {
        Reply::Refused(Refusal::Store(StoreFault::Memory)) => true,
        _ => false,
    }
}
