// The single writer of a topic. Callers put it in a `Mutex`.
ghost use Rattle.std.specs.Prelude.{◌≡◌, ◌≢◌, ◌⊎◌, ◌+◌, ◌<◌, ◌≤◌, ◌^◌, ◌++◌, ◌∷◌, [], false, IfErr, IfOk, MatchBool, None, OnErr, OnOk, Some, map, option_to_list, replicate, true};
ghost use mathlib.Core.List.{IsPrefix};
ghost use Rattle.std.specs.FinSet.{from_list};
ghost use Rattle.reg_set.specs.LastRecords.{last_records};
ghost use Rattle.reg_leader.specs.Adoption.{HasPlace};
ghost use Rattle.reg_fold.specs.Closed.{is_closed};
ghost use Rattle.reg_leader.specs.Outcome.{IsOutOfMemory};
ghost use Rattle.reg_fold.specs.GiveAlike.{GiveAlike};
ghost use Rattle.reg_floored.specs.Floors.{compacted_to, without};
ghost use Rattle.reg_topic.specs.Topic.{IsAdopted, MayCommit, MayFollow, after_items, may_compact, owed_by, registry_of, topic_from};
ghost use Rattle.reg_shared.specs.Held.{base_of, held_of, topic_at};
ghost use Rattle.reg_pen.specs.Deletes.{floor_due};
ghost use Rattle.reg_pen.specs.Opening.{IsBegunRefusal, IsKeepRefusal, IsOpenRefusal, KeepsDue};
ghost use Rattle.reg_pen.specs.Pen.{Acts, Compacts, CompactsTo, Follows, IsAhead, IsBehind, IsCompactRefusal, IsNoMemory, IsPen, IsStepAfter, IsUnsettled, LeavesCompaction, MaySetFloor, Submits, StillPends, batches, counted, settled, with_pending};
ghost use Rattle.reg_pen.specs.Pending.{EndsByLimit, IsClear, IsFirst, IsPending, after, batches_in, is_lost, reply_of};
ghost use Rattle.reg_pen.specs.declared.keep.Kept.{Kept};

use crate::compact_error::CompactError;
use crate::deletes::Deletes;
use crate::keep::{Keep, Kept};
use crate::kept_log::KeptLog;
use crate::lending::WithKeep;
use crate::open_error::OpenError;
use crate::pass::Pass;
use base_text::Listed;
use reg_alike::alike_steps_alike;
use reg_feed::{Copies, FeedName, FeedReader, FeedWriter, NoPlace, Seen, Stored, Unnamed, feed};
use reg_fold::{Refusal, Registry, StoreFault};
use reg_leader::{Command, Decision, Reply, decide};
use reg_levels::Judged;
use reg_records::Record;
use reg_shared::{Begun, Shared, kept_gives_registry, published_lists_fold};
use reg_topic::{
    Commit, Compaction, Item, adopted_logs_begin, commits_follow, floors_stay_below,
    lawful_items_follow,
};
use std::alloc::{AllocError, Global};
use std::marker::Model;
use std::sync::Wait;

/// What isn't published yet.
#[derive(Clone, Copy, Debug, PartialEq, Eq)]
pub enum Pending {
    /// Nothing.
    Nothing,
    /// A batch that the keep has taken; its first record has this offset.
    Batch(u64),
    /// A batch that the keep lost; its first record has this offset. It is never published.
    Lost(u64),
    /// A compaction.
    Compaction,
}

/// A reply, with the published list that it belongs to.
#[derive(Drop)]
pub struct Submitted<N: FeedName<Item, Shared>> {
    /// The reply to the command.
    pub reply: Reply,
    /// The published list after the submit.
    pub seen: Seen<Item, Shared, N>,
}

/// The single writer of a topic's log, with its keep. The published list is lawful, and at most one
/// item is pending, which may follow on it.
#[derive(Drop)]
pub struct Pen<
    N: FeedName<Item, Shared>,
    S: Copies<Item, Shared, N>,
    K: Keep + Drop,
    R: Wait + Drop,
> {
    alloc: Global,
    // In a `Box`, since a struct that holds a `FeedWriter` itself gets no generated drop.
    writer: Box<FeedWriter<Item, Shared, N, S, R>>,
    keep: K,
    // The pending item, if the writer doesn't have it yet.
    held: Option<Item>,
    pending: Pending,
    // How many batches were published.
    committed: u64,
    // The kept set's floor and the next offset, with what is pending.
    floor: u64,
    next: u64,
    // The counts of the list with what is pending.
    deletes: Deletes,
}

impl<N: FeedName<Item, Shared>, S: Copies<Item, Shared, N>, K: Keep + Drop, R: Wait + Drop> Model
    for Pen<N, S, K, R> {
    ghost use Rattle.std.specs.Prelude.{◌≡◌, ◌++◌, option_to_list};
    ghost use Rattle.reg_shared.specs.Held.{base_of};
    ghost use Rattle.reg_pen.specs.Deletes.{deletes_of};
    ghost use Rattle.reg_pen.specs.Pen.{IsPen, PenState, batches};
    ghost use Rattle.reg_pen.specs.Pending.{AreOf, IsPending, is_lost};
    ghost use Rattle.reg_topic.specs.Topic.{after_items};

    ghost Value = { PenState K };

    ghost view = { λ p. record { published = p.writer.value.0; pending = p.writer.value.1 ++ option_to_list p.held; lost = is_lost p.pending; keep = p.keep } };

    ghost invariant = { λ p. IsPen (base_of N.first) p.writer.value.0 (p.writer.value.1 ++ option_to_list p.held) × IsPending p.pending (p.writer.value.1 ++ option_to_list p.held) × (p.committed ≡ batches p.writer.value.0)
        × AreOf (after_items (base_of N.first) (p.writer.value.0 ++ (p.writer.value.1 ++ option_to_list p.held))) p.floor p.next
        × (p.deletes ≡ deletes_of (base_of N.first) (p.writer.value.0 ++ (p.writer.value.1 ++ option_to_list p.held))) };
}

/// A pen with the passes to submit to it.
#[derive(Drop)]
pub struct Opened<
    N: FeedName<Item, Shared>,
    S: Copies<Item, Shared, N>,
    K: Keep + Drop,
    R: Wait + Drop,
> {
    /// The pen.
    pub pen: Pen<N, S, K, R>,
    /// The passes, unused so far.
    pub passes: Vec<Pass<N>>,
}

/// Opens a pen over a log with the keep at its end. Makes `passes` passes, and room for `readers`
/// readers.
///
/// The topic begins with the log, which the keep already has, and with the id mark that the log
/// owes, which is lent to the keep: if the keep doesn't take it, no pen is opened. Both are there
/// before anything is published, and `batches` counts neither.
///
/// Refused if the log can't begin a topic, if the keep declines or loses the mark, or if memory is
/// refused.
pub fn open<N: FeedName<Item, Shared>, K: Keep + Drop, R: Wait + Drop>(
    rt: R,
    alloc: Global,
    list: Unnamed<Item>,
    kept: KeptLog<K>,
    passes: u32,
    readers: usize,
) -> Result<Opened<N, Stored<Item, Shared, N>, K, R>, OpenError>
    requires name { (list.reached.book ≡ N.book) × (N.first ≡ held_of (topic_from kept.log.records.items kept.log.next kept.log.floor)) }
    requires readers { (0 < readers) × (readers < 2 ^ 32) }
    ensures begun { IfOk result (λ opened. opened.pen ≡ record { published = []; pending = []; lost = false; keep = opened.pen.keep }) }
    ensures kept { IfOk result (λ opened. KeepsDue K.keeps kept.keep (owed_by kept.log.records.items kept.log.next) opened.pen.keep) }
    ensures place { OnOk result (HasPlace (last_records (from_list kept.log.records.items)) kept.log.next) }
    ensures adopted { OnOk result (IsAdopted (base_of N.first)) }
    ensures passes { IfOk result (λ opened. map (λ p. p.submits) opened.passes.items ≡ replicate passes 0) }
    ensures refused { IfErr result (IsOpenRefusal K.keeps kept.log.records.items kept.log.next kept.keep) }
{
    let begun = Shared::adopt(alloc, kept.log())?;
    open_begun::<N, K, R>(rt, alloc, list, kept, begun, passes, readers)
}

/// Opens a pen as [`open`] does, over a log whose first state `begun` is already made.
pub fn open_begun<N: FeedName<Item, Shared>, K: Keep + Drop, R: Wait + Drop>(
    rt: R,
    alloc: Global,
    list: Unnamed<Item>,
    kept: KeptLog<K>,
    begun: Begun,
    passes: u32,
    readers: usize,
) -> Result<Opened<N, Stored<Item, Shared, N>, K, R>, OpenError>
    requires name { (list.reached.book ≡ N.book) × (N.first ≡ held_of (topic_from kept.log.records.items kept.log.next kept.log.floor)) }
    requires readers { (0 < readers) × (readers < 2 ^ 32) }
    requires held { begun.shared ≡ held_of (topic_from kept.log.records.items kept.log.next kept.log.floor) }
    requires due { begun.due.items ≡ owed_by kept.log.records.items kept.log.next }
    requires takes_commands { is_closed (last_records (from_list kept.log.records.items)) ≡ false }
    ensures begun { IfOk result (λ opened. opened.pen ≡ record { published = []; pending = []; lost = false; keep = opened.pen.keep }) }
    ensures kept { IfOk result (λ opened. KeepsDue K.keeps kept.keep (owed_by kept.log.records.items kept.log.next) opened.pen.keep) }
    ensures adopted { OnOk result (IsAdopted (base_of N.first)) }
    ensures passes { IfOk result (λ opened. map (λ p. p.submits) opened.passes.items ≡ replicate passes 0) }
    ensures refused { IfErr result (IsBegunRefusal K.keeps kept.keep (owed_by kept.log.records.items kept.log.next)) }
{
    adopted_logs_begin();
    let KeptLog { log, mut keep } = kept;
    drop(log);
    let Begun { shared, due } = begun;
    let deletes = Deletes::at_first(&shared)?;
    let writer = feed::<Item, Shared, N, R>(rt, alloc, list, shared, readers)?;
    let writer = Box::new(alloc, writer)?;
    let passes = new_passes(alloc, passes)?;
    lend_due(&mut keep, &due)?;
    let shared = writer.value();
    let (floor, next) = (shared.floor(), shared.next());
    let pen = Pen {
        alloc,
        writer,
        keep,
        held: None,
        pending: Pending::Nothing,
        committed: 0,
        floor,
        next,
        deletes,
    };
    Ok(Opened { pen, passes })
}

/// Lends the keep the records that a topic begins with beside its log, if there are any.
fn lend_due<K: Keep>(keep: &mut K, due: &[Record]) -> Result<(), OpenError>
    ensures taken { OnOk result (KeepsDue K.keeps keep.old due.now keep.new) }
    ensures refused { IfErr result (IsKeepRefusal K.keeps keep.old due.now) }
{
    if due.is_empty() {
        return Ok(());
    }
    match keep.keep(due) {
        Kept::Taken => Ok(()),
        Kept::Declined(lack) => Err(OpenError::Declined(lack)),
        Kept::Lost | Kept::Unknown => Err(OpenError::Lost),
    }
}

fn new_passes<N>(alloc: Global, count: u32) -> Result<Vec<Pass<N>>, AllocError>
    ensures { IfOk result (λ passes. map (λ p. p.submits) passes.items ≡ replicate count 0) }
{
    let mut passes = Vec::new(alloc);
    for _pass in 0..count {
        passes.push(Pass::new())?;
    }
    Ok(passes)
}

impl<N: FeedName<Item, Shared>, S: Copies<Item, Shared, N>, K: Keep + Drop, R: Wait + Drop> Pen<
    N,
    S,
    K,
    R,
> {
    /// Carries out a command, or refuses it. A pending item is published first; if that is refused
    /// again, or if the keep lost it, nothing changes. `since` is the prefix that the caller saw
    /// last: if the published list doesn't begin with it, the command is refused for memory.
    /// `judged` is the command's judgement, if there is one. The list in the result is the one
    /// published afterwards.
    #[tactic(auto, using(crate::proofs::Prefixes::since_still))]
    pub fn submit(
        &mut self,
        pass: &mut Pass<N>,
        since: Option<&Seen<Item, Shared, N>>,
        command: &Command,
        judged: Option<&Judged>,
    ) -> Submitted<N>
        ensures submits { Submits K.keeps (base_of N.first) since.entry self.old command.now result.reply self.new }
        ensures seen { result.seen ≡ self.new.published }
        ensures since { IsNoMemory result.reply ⊎ IsBehind since.entry self.new.published }
        ensures grows { IsPrefix self.old.published self.new.published }
        ensures counted { pass.new.submits ≡ counted pass.old.submits }
    {
        pass.count();
        if !self.has(since) {
            return Submitted {
                reply: no_memory(),
                seen: self.writer.tell(),
            };
        }
        let reply = self.settle_and_act(command, judged);
        Submitted {
            reply,
            seen: self.writer.tell(),
        }
    }

    /// Returns how many batches were published, without what the topic began with. Takes no memory.
    pub fn batches(&self) -> u64
        ensures count { result ≡ batches self.now.published }
        ensures kept { IsPen (base_of N.first) self.now.published self.now.pending }
    {
        self.committed
    }

    /// Returns a registry that answers as the one over the published log does. If nothing is
    /// pending, the next command is decided by it. Takes no memory.
    pub fn registry(&self) -> &Registry
        ensures { GiveAlike result.now (registry_of (topic_at N.first self.now.published)) }
    {
        published_lists_fold();
        kept_gives_registry();
        self.writer.value().registry()
    }

    /// Returns what the next offset was at the last published compaction, or the floor that the
    /// topic began with if there was none. Takes no memory.
    pub fn compacted(&self) -> u64
        ensures { result ≡ (topic_at N.first self.now.published).compacted }
    {
        published_lists_fold();
        self.writer.value().compacted()
    }

    /// Returns the floor of the published kept set. Takes no memory.
    pub fn floor(&self) -> u64
        ensures { result ≡ (topic_at N.first self.now.published).kept.floor }
    {
        published_lists_fold();
        self.writer.value().floor()
    }

    /// Returns the floor to which [`Pen::submit_and_compact`] compacts: if many deletes are due,
    /// what the next offset was at the last compaction, else the floor of the published kept set.
    /// Takes no memory.
    pub fn floor_due(&self) -> u64
        ensures { result ≡ floor_due (base_of N.first) self.now }
    {
        if self.deletes.are_many() {
            return self.compacted();
        }
        self.floor()
    }

    /// Publishes what is pending, and then a compaction to `floor`. It keeps the last record of
    /// each key, and nothing of a key whose last record deletes it below the floor. The keep isn't
    /// told.
    ///
    /// A floor that is below that of the kept set or ahead of the next offset, with what is
    /// pending, is refused and nothing has changed. `Lost` if the keep lost a batch; nothing has
    /// changed. If memory is refused, what was pending may be published, and the compaction may be
    /// pending.
    #[tactic(auto, using(crate::proofs::Prefixes::grown, crate::proofs::Prefixes::prefix_self, crate::proofs::Prefixes::prefix_trans))]
    pub fn compact_to(&mut self, floor: u64) -> Result<(), CompactError>
        ensures compacted { OnOk result (Compacts (base_of N.first) floor self.old self.new) }
        ensures refused { IfErr result (λ error. IsCompactRefusal (base_of N.first) floor self.old error self.new) }
        ensures grows { IsPrefix self.old.published self.new.published }
    {
        self.may_set(floor)?;
        if is_lost(self.pending) {
            return Err(CompactError::Lost);
        }
        if !self.settle() {
            return Err(CompactError::OutOfMemory);
        }
        Ok(self.drop_to(floor)?)
    }

    /// Compacts as [`Pen::compact_to`] does, to the floor that the kept set has with what is
    /// pending. This floor is never refused.
    pub fn compact(&mut self) -> Result<(), CompactError>
        ensures compacted { OnOk result (Compacts (base_of N.first) (with_pending (base_of N.first) self.old).kept.floor self.old self.new) }
        ensures refused { IfErr result (λ error. IsUnsettled (base_of N.first) (with_pending (base_of N.first) self.old).kept.floor self.old error self.new) }
        ensures grows { IsPrefix self.old.published self.new.published }
    {
        floors_stay_below();
        let floor = self.floor;
        self.compact_to(floor)
    }

    /// Checks that the floor may be set once what is pending is published.
    fn may_set(&self, floor: u64) -> Result<(), CompactError>
        ensures may { OnOk result (MaySetFloor (with_pending (base_of N.first) self.now) floor) }
        ensures refused { IfErr result (λ error. IsCompactRefusal (base_of N.first) floor self.now error self.now) }
    {
        if floor < self.floor {
            return Err(CompactError::FloorBelow(self.floor));
        }
        if self.next < floor {
            return Err(CompactError::FloorAhead(self.next));
        }
        Ok(())
    }

    /// Makes a reader of the topic's list that has seen nothing; the follower of a node takes from
    /// it. It is refused if no place for a reader is left.
    pub fn reader(&mut self) -> Result<FeedReader<Item, Shared, N, S>, NoPlace>
        ensures new { IfOk result (λ r. r ≡ []) }
        ensures same { self.new ≡ self.old }
    {
        self.writer.reader()
    }

    /// States that every list that anybody saw or learnt of is a prefix of what this pen has
    /// published: nobody saw a batch that is pending, declined or lost.
    pub fn covers(&mut self, seen: &Seen<Item, Shared, N>)
        ensures begins { IsPrefix seen.now self.old.published }
        ensures same { self.new ≡ self.old }
    {
        self.writer.covers(seen);
    }

    /// Returns the keep.
    pub fn keep(&self) -> &K
        ensures { result.now ≡ self.now.keep }
    {
        &self.keep
    }

    /// Lends the keep to `doing`, while nothing is submitted. Nothing else of the pen changes.
    pub fn lend_keep<D: WithKeep<K>>(&mut self, doing: &mut D)
        ensures done { D.does doing.old self.old.keep doing.new self.new.keep }
        ensures same { self.new ≡ record self.old { keep = self.new.keep } }
    {
        doing.with_keep(&mut self.keep);
    }

    /// Publishes a compaction to a floor that may be set; nothing is pending.
    #[tactic(auto, using(crate::proofs::Prefixes::grown, crate::proofs::Prefixes::prefix_self))]
    fn drop_to(&mut self, floor: u64) -> Result<(), AllocError>
        requires clear { IsClear self.old }
        requires may { MaySetFloor (topic_at N.first self.old.published) floor }
        ensures compacted { OnOk result (Compacts (base_of N.first) floor self.old self.new) }
        ensures refused { OnErr result (LeavesCompaction (base_of N.first) floor self.old self.new) }
        ensures grows { IsPrefix self.old.published self.new.published }
    {
        let compaction = self.compaction_to(floor)?;
        self.hold(Item::Compaction(compaction), Pending::Compaction);
        if !self.settle() {
            return Err(AllocError);
        }
        Ok(())
    }

    /// Makes the compaction to a floor that may be set. The only error is out of memory.
    fn compaction_to(&self, floor: u64) -> Result<Compaction, AllocError>
        requires { MaySetFloor (topic_at N.first self.now.published) floor }
        ensures to { IfOk result (λ compaction. CompactsTo (topic_at N.first self.now.published) compaction) }
        ensures floor { IfOk result (λ compaction. compaction.floor ≡ floor) }
    {
        published_lists_fold();
        let dropped = Listed::from(self.writer.value().dropped_to(floor)?);
        Ok(Compaction { floor, dropped })
    }

    /// Returns whether the published list begins with the prefix `since`. If not, the prefix is
    /// longer than the list.
    fn has(&self, since: Option<&Seen<Item, Shared, N>>) -> bool
        ensures { MatchBool result (IsBehind since.entry self.now.published) (IsAhead since.entry self.now.published) }
    {
        match since {
            Some(since) => since.begins(&self.writer.tell()),
            None => true,
        }
    }

    /// Publishes what is pending, and then carries out a command.
    #[tactic(auto, using(crate::proofs::Acting::still_pends, crate::proofs::Prefixes::grown, crate::proofs::Prefixes::prefix_self, crate::proofs::Prefixes::prefix_trans))]
    fn settle_and_act(&mut self, command: &Command, judged: Option<&Judged>) -> Reply
        ensures acts { (StillPends self.old.pending result × (self.new ≡ self.old)) ⊎ ((self.old.lost ≡ false) × Acts K.keeps (base_of N.first) (settled self.old) command.now result self.new) }
        ensures grows { IsPrefix self.old.published self.new.published }
    {
        if !self.settle() {
            return waiting(self.pending);
        }
        self.act(command, judged)
    }

    /// Publishes what is pending, if anything is. Returns `false` if memory is refused, or if the
    /// keep lost it; the pen hasn't changed then.
    pub fn settle(&mut self) -> bool
        ensures { MatchBool result ((self.old.lost ≡ false) × (self.new ≡ settled self.old)) ((self.new ≡ self.old) × (self.old.pending ≢ [])) }
    {
        lawful_items_follow();
        if self.pending == Pending::Nothing {
            return true;
        }
        if is_lost(self.pending) {
            return false;
        }
        if !hand_over(&mut self.writer, &mut self.held) {
            return false;
        }
        if self.writer.publish().is_err() {
            return false;
        }
        self.committed = with_batch(self.committed, self.pending, self.writer.tell().len());
        self.pending = Pending::Nothing;
        true
    }

    /// Makes an item pending. Takes no memory.
    fn hold(&mut self, item: Item, pending: Pending)
        requires clear { IsClear self.old }
        requires follows { MayFollow (topic_at N.first self.old.published) item }
        requires pending { IsPending pending (item ∷ []) }
        ensures { self.new ≡ record self.old { pending = item ∷ []; lost = is_lost pending } }
    {
        lawful_items_follow();
        commits_follow();
        (self.floor, self.next) = after(&item, self.floor, self.next);
        self.deletes = self.deletes.after(&item);
        self.held = Some(item);
        self.pending = pending;
    }

    /// Decides what the command replies and writes, from the published log.
    fn decision(&self, command: &Command, judged: Option<&Judged>) -> Decision
        ensures { IsOutOfMemory result ⊎ IsStepAfter (base_of N.first) self.now.published command.now result.reply result.batch }
    {
        published_lists_fold();
        kept_gives_registry();
        alike_steps_alike();
        let shared = self.writer.value();
        decide(
            self.alloc,
            shared.registry(),
            shared.next(),
            command,
            judged,
        )
    }

    /// Carries out a command; nothing is pending.
    #[tactic(auto, using(crate::proofs::Acting::may_commit, crate::proofs::Acting::lends, crate::proofs::Acting::nothing_written, crate::proofs::Prefixes::prefix_self))]
    fn act(&mut self, command: &Command, judged: Option<&Judged>) -> Reply
        requires { IsClear self.old }
        ensures acts { Acts K.keeps (base_of N.first) self.old command.now result self.new }
        ensures grows { IsPrefix self.old.published self.new.published }
    {
        let Decision { batch, reply } = self.decision(command, judged);
        let Some(first) = first_offset(&batch) else {
            return reply;
        };
        // Once the keep has the batch, no memory may be needed until it is held.
        let Ok(command) = command.clone() else {
            return no_memory();
        };
        self.lend(Commit { command, batch }, first, reply)
    }

    /// Lends a batch to the keep, and publishes it if the keep takes it.
    #[tactic(auto, using(crate::proofs::Prefixes::grown, crate::proofs::Prefixes::prefix_self))]
    fn lend(&mut self, commit: Commit, first: u64, reply: Reply) -> Reply
        requires clear { IsClear self.old }
        requires may { MayCommit (topic_at N.first self.old.published) commit }
        requires first { IsFirst commit.batch (Some first) }
        ensures lent { (kept : Kept) × (keep : K) × K.keeps self.old.keep commit.batch kept keep × Follows kept (Item.Commit commit ∷ []) reply (Reply.Unsettled first) (record self.old { keep = keep }) result self.new }
        ensures grows { IsPrefix self.old.published self.new.published }
    {
        match self.keep.keep(commit.batch.as_slice()) {
            Kept::Declined(lack) => Reply::Refused(lack.refusal()),
            Kept::Unknown => Reply::Unsettled(first),
            Kept::Lost => {
                self.hold(Item::Commit(commit), Pending::Lost(first));
                Reply::Unsettled(first)
            }
            Kept::Taken => {
                self.hold(Item::Commit(commit), Pending::Batch(first));
                if !self.settle() {
                    return Reply::Unsettled(first);
                }
                reply
            }
        }
    }
}

/// Returns the floor and the next offset after an item.
fn after(item: &Item, floor: u64, next: u64) -> (u64, u64)
    requires { EndsByLimit item.now next }
    ensures { result ≡ after item.now floor next }
{
    match item {
        Item::Commit(commit) => (floor, next + commit.batch.as_slice().len() as u64),
        Item::Compaction(compaction) => (compaction.floor, next),
    }
}

/// Hands the held item to the writer, if there is one. Returns `false` if memory is refused;
/// nothing has changed then.
fn hand_over<N: FeedName<Item, Shared>, S: Copies<Item, Shared, N>, R: Wait + Drop>(
    writer: &mut FeedWriter<Item, Shared, N, S, R>,
    held: &mut Option<Item>,
) -> bool
    ensures published { writer.new.0 ≡ writer.old.0 }
    ensures pending { writer.new.1 ++ option_to_list held.new ≡ writer.old.1 ++ option_to_list held.old }
    ensures handed { result ≡ true → held.new ≡ None }
{
    let Some(item) = held.take() else {
        return true;
    };
    if let Err(item) = writer.append(item) {
        *held = Some(item);
        return false;
    }
    true
}

fn is_lost(pending: Pending) -> bool
    ensures { result ≡ is_lost pending }
{
    match pending {
        Pending::Lost(_) => true,
        Pending::Nothing | Pending::Batch(_) | Pending::Compaction => false,
    }
}

/// Returns the reply if what is pending is refused again or is lost.
fn waiting(pending: Pending) -> Reply
    ensures { result ≡ reply_of pending }
{
    match pending {
        Pending::Batch(first) | Pending::Lost(first) => Reply::Unsettled(first),
        Pending::Nothing | Pending::Compaction => no_memory(),
    }
}

/// Returns the count of batches after the pending item is published; `items` is the length of the
/// list then.
fn with_batch(count: u64, pending: Pending, items: u64) -> u64
    requires { count + batches_in pending ≤ items }
    ensures { result ≡ count + batches_in pending }
{
    match pending {
        Pending::Batch(_) | Pending::Lost(_) => count + 1,
        Pending::Nothing | Pending::Compaction => count,
    }
}

/// Returns the offset of the first record.
fn first_offset(batch: &Listed<Record>) -> Option<u64>
    ensures { IsFirst batch.now result }
{
    batch.as_slice().first().map(|record| record.offset)
}

fn no_memory() -> Reply
    ensures { IsNoMemory result }
{
    Reply::Refused(Refusal::Store(StoreFault::Memory))
}
