// What a feed published, as readers were shown it.
ghost use Rattle.std.specs.Prelude.{◌≡◌, ◌<◌, ◌⊎◌, length, MatchBool};
ghost use mathlib.Core.List.{IsPrefix};
ghost use Rattle.reg_feed.specs.Published.{WasPublished};

use crate::fold::Fold;
use crate::history::FeedName;
use crate::shown::Shown;
use std::marker::Model;

/// A list that a feed published. Contracts see its items; it stores none of them.
#[derive(Drop)]
pub struct Seen<T, V: Fold<T>, N: FeedName<T, V>> {
    shown: Shown<T, V, N>,
}

impl<T, V: Fold<T>, N: FeedName<T, V>> Model for Seen<T, V, N> {
    ghost use Rattle.std.specs.Prelude.{List};
    ghost use Rattle.reg_feed.specs.Published.{WasPublished};

    ghost Value = { List T };

    ghost view = { λ s. s.shown };

    ghost invariant = { λ s. WasPublished (V.publishes N.first) s.shown };
}

impl<T, V: Fold<T>, N: FeedName<T, V>> Seen<T, V, N> {
    pub(crate) fn of(shown: Shown<T, V, N>) -> Seen<T, V, N>
        requires { WasPublished (V.publishes N.first) shown }
        ensures { result ≡ shown }
    {
        Seen { shown }
    }

    pub(crate) fn shown(&self) -> &Shown<T, V, N>
        ensures { result.now ≡ self.now }
    {
        &self.shown
    }

    /// States that it was published. Costs nothing at run time.
    pub fn was_published(&self)
        ensures { WasPublished (V.publishes N.first) self.now }
    {
        let _shown = &self.shown;
    }

    /// Returns how many items it has.
    pub fn len(&self) -> u64
        ensures { result ≡ length self.now }
    {
        self.shown.len()
    }

    /// Copies it.
    pub fn again(&self) -> Seen<T, V, N>
        ensures { result ≡ self.now }
    {
        Seen {
            shown: self.shown.again(),
        }
    }

    /// Returns whether this list is a prefix of the other. If not, the other is a shorter prefix of
    /// this one.
    pub fn begins(&self, other: &Seen<T, V, N>) -> bool
        ensures { MatchBool result (IsPrefix self.now other.now) ((length other.now < length self.now) × IsPrefix other.now self.now) }
    {
        self.shown.begins(&other.shown)
    }

    /// Returns the longer of the two, of which the other is a prefix.
    pub fn longer(&self, other: &Seen<T, V, N>) -> Seen<T, V, N>
        ensures one { (result ≡ self.now) ⊎ (result ≡ other.now) }
        ensures this { IsPrefix self.now result }
        ensures that { IsPrefix other.now result }
    {
        if self.begins(other) {
            other.again()
        } else {
            self.again()
        }
    }
}
