// Prefixes (fronts) of a feed's one list, pending items included. Readers never get one.
ghost use Rattle.std.specs.Prelude.{◌≡◌, ◌+◌, ◌^◌, ◌<◌, ◌≤◌, ◌++◌, ◌∷◌, ◌⊎◌, [], length, IfSome, MatchBool};
ghost use mathlib.Core.List.{IsPrefix};

use crate::entry::FeedEntry;
use crate::fold::Fold;
use crate::history::{Add, FeedName, History, Law, Nothing};
use logbook::{Offer, Seen as Reached};
use std::collections::VecDeque;
use std::marker::{Model, PhantomData};

/// A *front*: a prefix of the list of all items, published or pending. Contracts see its items; it
/// stores none of them.
#[derive(Drop)]
pub struct Front<T, V: Fold<T>, N: FeedName<T, V>> {
    pub(crate) count: u64,
    pub(crate) reached: Reached<FeedEntry<T>, u64, Law>,
    of: PhantomData<(V, N)>,
}

impl<T, V: Fold<T>, N: FeedName<T, V>> Model for Front<T, V, N> {
    ghost use Rattle.std.specs.Prelude.{◌≡◌, ◌≤◌, ◌^◌, List, length};
    ghost use Rattle.reg_feed.specs.History.{items_of};

    ghost Value = { List T };

    ghost view = { λ f. items_of f.reached.log };

    ghost invariant = { λ f. (f.count ≡ length (items_of f.reached.log)) × (f.reached.book ≡ N.book) × (f.count ≤ 2 ^ 62) };
}

impl<T, V: Fold<T>, N: FeedName<T, V>> Front<T, V, N> {
    /// Makes the empty prefix.
    pub(crate) fn of_none(reached: Reached<FeedEntry<T>, u64, Law>) -> Front<T, V, N>
        requires { (reached.book ≡ N.book) × (reached.log ≡ []) }
        ensures { result ≡ [] }
    {
        Front {
            count: 0,
            reached,
            of: PhantomData,
        }
    }

    /// Returns how many items it has.
    pub fn len(&self) -> u64
        ensures { result ≡ length self.now }
    {
        self.count
    }

    /// Copies it.
    pub fn again(&self) -> Front<T, V, N>
        ensures { result ≡ self.now }
    {
        Front {
            count: self.count,
            reached: self.reached.again(),
            of: PhantomData,
        }
    }

    /// Returns whether this one is a prefix of the other. If not, the other is a shorter prefix of
    /// this one.
    pub fn begins(&self, other: &Front<T, V, N>) -> bool
        ensures { MatchBool result (IsPrefix self.now other.now) ((length other.now < length self.now) × IsPrefix other.now self.now) }
    {
        let mut both = self.reached.again();
        both.learn(&other.reached);
        if other.count < self.count {
            return false;
        }
        true
    }

    /// Returns the longer of the two, of which the other is a prefix.
    pub fn longer(&self, other: &Front<T, V, N>) -> Front<T, V, N>
        ensures one { (result ≡ self.now) ⊎ (result ≡ other.now) }
        ensures this { IsPrefix self.now result }
        ensures that { IsPrefix other.now result }
    {
        if self.begins(other) {
            other.again()
        } else {
            self.again()
        }
    }

    /// Appends an item if this is the whole list, and returns whether it did. With one writer it
    /// always is.
    pub(crate) fn add(&mut self, history: &History<T, V, N>, item: &T) -> bool
        ensures { MatchBool result (self.new ≡ self.old ++ item.now ∷ []) (self.new ≡ self.old) }
    {
        let count = self.count;
        if count >= 1 << 62 {
            return false;
        }
        let mut reached = self.reached.again();
        let mut offer: Offer<FeedEntry<T>, u64, Law, Nothing> = reached.plain::<Nothing, T, Add>(
            item,
        );
        let mut pen = reached.no_pen();
        let found = history
            .head
            .compare_exchange::<Add, Nothing>(count, count + 1, &mut reached, &mut offer, &mut pen);
        if found != count {
            return false;
        }
        self.count = count + 1;
        self.reached = reached;
        true
    }

    /// Returns this prefix with the items appended; `None` if it isn't the whole list. With one
    /// writer it always is.
    pub(crate) fn with_all(
        &self,
        history: &History<T, V, N>,
        items: VecDeque<T>,
    ) -> Option<Front<T, V, N>>
    where
        T: Drop,
        ensures { IfSome result (λ front. front ≡ self.now ++ items.items) }
    {
        let mut front = self.again();
        let mut items = items;
        while let Some(item) = items.pop_front() {
            if !front.add(history, &item) {
                return None;
            }
        }
        Some(front)
    }
}
