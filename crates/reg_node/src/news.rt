// What is new in the kept set of a published list of the topic.
ghost use Rattle.std.specs.Prelude.{◌≡◌, ◌≢◌, ◌+◌, ◌≤◌, ◌++◌, ℕ, [], None, IfOk, MatchBool, OnErr, OnOk, length};
ghost use Rattle.std.specs.VecDeque.{deque_capacity, deque_len};
ghost use mathlib.Core.List.{IsPrefix};
ghost use Rattle.reg_shared.specs.Held.{IsBelow, held_of, topic_at};
ghost use Rattle.reg_node.specs.Caught.{IsNews, IsWhole};
ghost use Rattle.reg_node.specs.Takes.{IsBasis, draws_of, takes_of};

use crate::take::{Draw, Rebase, Take};
use base_text::Listed;
use reg_feed::{Copies, FeedName, FeedReader};
use reg_fold::Registry;
use reg_records::Record;
use reg_shared::{Shared, published_lists_fold};
use reg_topic::Item;
use std::alloc::AllocError;
use std::collections::VecDeque;

/// What a follower has to draw: the records from its offset on, with the next offset and the floor
/// of the kept set. If the floors differ, also the kept records below the floor, for a rebase. For
/// a follower that took nothing, and for a rebase, also the registry over all kept records.
#[derive(Drop)]
pub(crate) struct News {
    pub(crate) below: Option<Listed<Record>>,
    pub(crate) records: Vec<Record>,
    pub(crate) next: u64,
    pub(crate) floor: u64,
    pub(crate) whole: Option<Registry>,
}

impl News {
    /// Returns whether nothing has to be drawn.
    #[tactic(auto, using(crate::proofs::Drawn::draws_none))]
    pub(crate) fn is_nothing(&self) -> bool
        ensures { MatchBool result ((self.now.below ≡ None) × (self.now.records.items ≡ []))
            ((read floor : ℕ) → draws_of read floor self.now.below self.now.records.items ≢ []) }
    {
        match &self.below {
            Some(_base) => false,
            None => self.records.is_empty(),
        }
    }
}

/// Reads what is new for a node that has this floor, from the offset `from` on. The only error is
/// out of memory; it also comes if the topic's writer is gone.
pub(crate) fn read_news<N: FeedName<Item, Shared>, S: Copies<Item, Shared, N>>(
    topic: &mut FeedReader<Item, Shared, N, S>,
    from: u64,
    floor: u64,
) -> Result<News, AllocError>
    ensures news { IfOk result (λ news. IsNews (held_of (topic_at N.first topic.new)) floor from news.below news.records.items) }
    ensures next { IfOk result (λ news. news.next ≡ (topic_at N.first topic.new).next) }
    ensures floor { IfOk result (λ news. news.floor ≡ (topic_at N.first topic.new).kept.floor) }
    ensures whole { IfOk result (λ news. IsWhole (topic_at N.first topic.new).kept floor from news.whole) }
    ensures longer { IsPrefix topic.old topic.new }
{
    published_lists_fold();
    let found = topic.read(
        |shared| -> Result<News, AllocError>
            ensures { IfOk result (λ news. IsNews shared.now floor from news.below news.records.items
                × (news.next ≡ shared.now.next) × (news.floor ≡ shared.now.kept.floor)
                × IsWhole shared.now.kept floor from news.whole) }
        { copy_news(shared, from, floor) },
    );
    match found {
        Some(news) => news,
        None => Err(AllocError),
    }
}

/// Copies what is new from the offset `from` on. The only error is out of memory.
fn copy_news(shared: &Shared, from: u64, floor: u64) -> Result<News, AllocError>
    ensures { IfOk result (λ news. IsNews shared.now floor from news.below news.records.items
        × (news.next ≡ shared.now.next) × (news.floor ≡ shared.now.kept.floor)
        × IsWhole shared.now.kept floor from news.whole) }
{
    let below = copy_below(shared, floor)?;
    Ok(News {
        below,
        records: shared.since(from.max(shared.floor()))?,
        next: shared.next(),
        floor: shared.floor(),
        whole: copy_whole(shared, from, floor)?,
    })
}

/// Copies the registry over all kept records if nothing was taken yet or the floors differ; else
/// `None`. The only error is out of memory.
fn copy_whole(shared: &Shared, from: u64, floor: u64) -> Result<Option<Registry>, AllocError>
    ensures { IfOk result (λ whole. IsWhole shared.now.kept floor from whole) }
{
    if from > 0 && shared.floor() == floor {
        return Ok(None);
    }
    Ok(Some(shared.registry().clone()?))
}

/// Copies the kept records below the kept set's floor if that isn't the given one; else `None`. The
/// only error is out of memory.
fn copy_below(shared: &Shared, floor: u64) -> Result<Option<Listed<Record>>, AllocError>
    ensures { IfOk result (λ below. IsBasis shared.now.kept floor below) }
{
    if shared.floor() == floor {
        return Ok(None);
    }
    let below = shared.below(shared.floor())?;
    Ok(Some(Listed::from(below)))
}

/// Adds a rebase if there are records for one, and a take of each record behind it, or nothing. The
/// only error is out of memory.
pub(crate) fn add_draws(
    draws: &mut VecDeque<Draw>,
    read: u64,
    floor: u64,
    below: Option<Listed<Record>>,
    records: Vec<Record>,
) -> Result<(), AllocError>
    ensures added { OnOk result (draws.new.items ≡ draws.old.items ++ draws_of read floor below records.items) }
    ensures refused { OnErr result (draws.new.items ≡ draws.old.items) }
{
    draws.reserve(records.len() + 1)?;
    if let Some(below) = below {
        draws.push_back_reserved(Draw::Rebase(Rebase { read, floor, below }));
    }
    push_takes(draws, read, records);
    Ok(())
}

/// Adds a take of each record. There is room for them.
fn push_takes(draws: &mut VecDeque<Draw>, read: u64, records: Vec<Record>)
    requires { deque_len draws.old + length records.items ≤ deque_capacity draws.old }
    ensures { draws.new.items ≡ draws.old.items ++ takes_of read records.items }
{
    for kept in records {
        draws.push_back_reserved(Draw::Take(Take { read, kept }));
    }
}
