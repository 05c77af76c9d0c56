// What the history says was published. Only the writer's right makes it longer.
ghost use Rattle.std.specs.Prelude.{◌≡◌, ◌<◌, length, IfSome, MatchBool, ⊤};
ghost use mathlib.Core.List.{IsPrefix};
ghost use Rattle.reg_feed.specs.History.{shown_of};

use crate::entry::FeedEntry;
use crate::fold::Fold;
use crate::front::Front;
use crate::history::{FeedName, History, Law, Nothing, Publish};
use logbook::{Offer, Seen as Reached};
use std::marker::{Model, PhantomData};

/// The list that was published by some time. Contracts see its items; it stores none of them.
#[derive(Drop)]
pub struct Shown<T, V: Fold<T>, N: FeedName<T, V>> {
    pub(crate) count: u64,
    pub(crate) reached: Reached<FeedEntry<T>, u64, Law>,
    of: PhantomData<(V, N)>,
}

impl<T, V: Fold<T>, N: FeedName<T, V>> Model for Shown<T, V, N> {
    ghost use Rattle.std.specs.Prelude.{◌≡◌, List, length};
    ghost use Rattle.reg_feed.specs.History.{shown_of};

    ghost Value = { List T };

    ghost view = { λ s. shown_of s.reached.log };

    ghost invariant = { λ s. (s.count ≡ length (shown_of s.reached.log)) × (s.reached.book ≡ N.book) };
}

impl<T, V: Fold<T>, N: FeedName<T, V>> Shown<T, V, N> {
    pub(crate) fn of(count: u64, reached: &Reached<FeedEntry<T>, u64, Law>) -> Shown<T, V, N>
        requires { (reached.now.book ≡ N.book) × (count ≡ length (shown_of reached.now.log)) }
        ensures { result ≡ shown_of reached.now.log }
    {
        Shown {
            count,
            reached: reached.again(),
            of: PhantomData,
        }
    }

    /// Publishes this prefix if just that is offered, and returns it as published; `None` if it
    /// isn't published.
    pub(crate) fn with(history: &History<T, V, N>, front: &Front<T, V, N>) -> Option<Shown<T, V, N>>
        ensures { IfSome result (λ s. s ≡ front.now) }
    {
        let count = front.count;
        let mut reached = front.reached.again();
        let mut offer: Offer<FeedEntry<T>, u64, Law, Nothing> = reached.plain::<
            Nothing,
            (),
            Publish,
        >(&());
        let mut pen = reached.no_pen();
        let found = history.gate.compare_exchange::<Publish, Nothing>(
            2 * count + 1,
            2 * count + 2,
            &mut reached,
            &mut offer,
            &mut pen,
        );
        if found == 2 * count + 1 {
            return Some(Shown::of(count, &reached));
        }
        if found == 2 * count + 2 {
            return Some(Shown::of(count, &reached));
        }
        None
    }

    /// Returns how many items it has.
    pub(crate) fn len(&self) -> u64
        ensures { result ≡ length self.now }
    {
        self.count
    }

    /// Copies it.
    pub(crate) fn again(&self) -> Shown<T, V, N>
        ensures { result ≡ self.now }
    {
        Shown::of(self.count, &self.reached)
    }

    /// Returns whether this list is a prefix of the other. If not, the other is a shorter prefix of
    /// this one.
    pub(crate) fn begins(&self, other: &Shown<T, V, N>) -> bool
        ensures { MatchBool result (IsPrefix self.now other.now) ((length other.now < length self.now) × IsPrefix other.now self.now) }
    {
        let mut both = self.reached.again();
        both.learn(&other.reached);
        if other.count < self.count {
            return false;
        }
        true
    }

    /// Returns whether it is this prefix.
    pub(crate) fn is(&self, front: &Front<T, V, N>) -> bool
        ensures { MatchBool result (self.now ≡ front.now) ⊤ }
    {
        let mut both = self.reached.again();
        both.learn(&front.reached);
        if front.count != self.count {
            return false;
        }
        true
    }
}
