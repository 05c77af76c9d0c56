// What a list of items comes to.
ghost use Rattle.std.specs.Prelude.{◌≡◌, ◌+◌, ◌≤◌, suc, length, IfOk, OnOk, OnErr};
ghost use Rattle.reg_leader.specs.reg_records.declared.limits.TheConstants.{OFFSET_LIMIT};
ghost use Rattle.reg_leader.specs.OneStep.{goes_on};
ghost use Rattle.reg_topic.specs.Topic.{after_batch, after_compaction, after_item, follows, may_compact, plain_topic};

use crate::published::{Compaction, Item};
use reg_floored::KeptSet;
use reg_leader::reg_records::{Log, OFFSET_LIMIT, Record};
use reg_leader::reg_set::RecordSet;
use std::alloc::{AllocError, Global};

/// A log and its kept set.
#[derive(Debug, Drop, Clone)]
pub struct Topic {
    /// All records that were ever published.
    pub log: RecordSet,
    /// Those that weren't compacted away, with the floor below which deletes may have been.
    pub kept: KeptSet,
    /// The offset of the next record.
    pub next: u64,
    /// What `next` was at the last compaction, or the floor of the base if there was none.
    pub compacted: u64,
}

impl Topic {
    /// Makes the topic of a log's records alone, all of them kept, with the log's floor. The id
    /// mark that the log owes isn't added. The only error is out of memory.
    pub fn of_log(alloc: Global, base: &Log) -> Result<Topic, AllocError>
        ensures { IfOk result (λ topic. topic ≡ plain_topic base.now.records.items base.now.next base.now.floor) }
    {
        let log = RecordSet::of(alloc, &base.records)?;
        Ok(Topic {
            kept: KeptSet::of(log.clone()?, base.floor),
            log,
            next: base.next,
            compacted: base.floor,
        })
    }

    /// Publishes an item. An item that can't follow changes nothing. The only error is out of
    /// memory; the topic hasn't changed then.
    pub fn publish(&mut self, alloc: Global, item: &Item) -> Result<(), AllocError>
        ensures published { OnOk result (self.new ≡ after_item self.old item.now) }
        ensures refused { OnErr result (self.new ≡ self.old) }
    {
        match item {
            Item::Commit(commit) => self.publish_batch(alloc, commit.batch.as_slice()),
            Item::Compaction(compaction) => self.publish_compaction(compaction),
        }
    }

    /// Returns whether the compaction may be published: the floor neither falls nor is ahead of the
    /// next offset, and what stays is a compaction. The only error is out of memory.
    pub fn may_compact(&self, compaction: &Compaction) -> Result<bool, AllocError>
        ensures { IfOk result (λ may. may ≡ may_compact self.now compaction.now) }
    {
        if self.next < compaction.floor {
            return Ok(false);
        }
        let left = self
            .kept
            .without(compaction.floor, compaction.dropped.as_slice())?;
        Ok(left.is_some())
    }

    /// Publishes a batch, as [`Topic::publish`] does a commit with it.
    pub fn publish_batch(&mut self, alloc: Global, batch: &[Record]) -> Result<(), AllocError>
        ensures added { OnOk result (self.new ≡ after_batch (follows self.old.next batch.now) self.old batch.now) }
        ensures refused { OnErr result (self.new ≡ self.old) }
    {
        if !follows(self.next, batch) {
            return Ok(());
        }
        let batch_set = RecordSet::of(alloc, batch)?;
        let mut log = self.log.clone()?;
        log.merge(&batch_set)?;
        self.kept.add(&batch_set)?;
        self.log = log;
        self.next += batch.len() as u64;
        Ok(())
    }

    /// Publishes a compaction. One that isn't allowed changes nothing.
    fn publish_compaction(&mut self, compaction: &Compaction) -> Result<(), AllocError>
        ensures compacted { OnOk result (self.new ≡ after_compaction (may_compact self.old compaction.now) self.old compaction.now) }
        ensures refused { OnErr result (self.new ≡ self.old) }
    {
        if self.next < compaction.floor {
            return Ok(());
        }
        if let Some(left) = self
            .kept
            .without(compaction.floor, compaction.dropped.as_slice())?
        {
            self.kept = left;
            self.compacted = self.next;
        }
        Ok(())
    }
}

/// Returns whether the batch's offsets go on from `next` without a gap, and none is past the limit.
pub fn follows(next: u64, batch: &[Record]) -> bool
    ensures { result ≡ follows next batch.now }
{
    match next.checked_add(batch.len() as u64) {
        Some(end) => end <= OFFSET_LIMIT + 1 && goes_on(next, batch),
        None => false,
    }
}

/// Returns whether the records' offsets are `expected`, the next one, and so on, from `next`.
fn goes_on(next: u64, batch: &[Record]) -> bool
    requires { next + length batch.now ≤ suc OFFSET_LIMIT }
    ensures { result ≡ goes_on next batch.now }
{
    let mut expected = next;
    for record in batch {
        if record.offset != expected {
            return false;
        }
        expected += 1;
    }
    true
}
