// What a cluster folds of its items: the registry at once, and the sets when they are needed.
ghost use Rattle.std.specs.Prelude.{◌≡◌, ◌+◌, ◌≤◌, suc, length, take, OnErr, OnOk};
ghost use Rattle.std.specs.FinSet.{from_list, union};
ghost use Rattle.reg_alike.specs.reg_records.declared.limits.TheConstants.{OFFSET_LIMIT};
ghost use Rattle.reg_alike.specs.reg_set.LastRecords.{last_records};
ghost use Rattle.reg_alike.specs.reg_set.Records.{Records};
ghost use Rattle.reg_topic.specs.Topic.{after_items};
ghost use Rattle.reg_topic.specs.declared.topic.Topic as of_topics;

use reg_alike::reg_fold::Registry;
use reg_alike::reg_records::Record;
use reg_topic::{Item, Topic, lawful_items_follow};
use std::alloc::{AllocError, Global};

/// What the next command steps from: the registry over a log, and the offset of the next record.
#[derive(Debug, Drop)]
pub(crate) struct Decided {
    pub(crate) registry: Registry,
    pub(crate) next: u64,
}

impl Decided {
    /// Adds a batch. The only error is out of memory; nothing has changed then.
    pub(crate) fn add(&mut self, batch: &[Record]) -> Result<(), AllocError>
        requires { self.old.next + length batch.now ≤ suc OFFSET_LIMIT }
        ensures registry { OnOk result ((log : Records) → self.old.registry ≡ last_records log
            → self.new.registry ≡ last_records (union log (from_list batch.now))) }
        ensures next { OnOk result (self.new.next ≡ self.old.next + length batch.now) }
        ensures refused { OnErr result (self.new ≡ self.old) }
    {
        self.registry.apply_all(batch)?;
        self.next += batch.len() as u64;
        Ok(())
    }
}

/// What the first items of a list come to. It lags behind the list until its sets are needed.
#[derive(Debug, Drop)]
pub(crate) struct Folded {
    pub(crate) topic: Topic,
    /// How many items these are.
    pub(crate) count: usize,
}

impl Folded {
    /// Folds the items that are left. The only error is out of memory; some may be left then.
    pub(crate) fn catch_up(&mut self, alloc: Global, items: &[Item]) -> Result<(), AllocError>
        requires { self.old.count ≤ length items.now }
        ensures within { self.new.count ≤ length items.now }
        ensures folds { (base : of_topics.Topic) → self.old.topic ≡ after_items base (take self.old.count items.now)
            → self.new.topic ≡ after_items base (take self.new.count items.now) }
        ensures all { OnOk result (self.new.count ≡ length items.now) }
    {
        lawful_items_follow();
        while self.count < items.len() {
            self.topic.publish(alloc, &items[self.count])?;
            self.count += 1;
        }
        Ok(())
    }
}
