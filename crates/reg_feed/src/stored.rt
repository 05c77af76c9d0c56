// What each of the two copies holds: the value that the list folds to, and which prefix it is.
// Only contracts see the items.
ghost use Rattle.std.specs.Prelude.{◌≡◌, ◌++◌, ◌∷◌, [], List, OnErr, OnOk, fold};
ghost use Rattle.reg_feed.specs.Growing.{grown};

use crate::fold::Fold;
use crate::front::Front;
use crate::history::{FeedName, History};
use crate::shown::Shown;
use crossbeam_utils::rule::Protocol;
use left_right::Absorb;
use std::alloc::AllocError;
use std::marker::Model;
use std::sync::Arc;

/// What an operation brings: the last item of a prefix, or the value that the prefix folds to.
#[derive(Drop)]
pub enum Brought<T, V> {
    Item(T),
    Value(V),
}

/// An operation on a copy: a prefix of the list, with its last item or its value. Contracts see the
/// prefix.
#[derive(Drop)]
pub struct Op<T, V: Fold<T>, N: FeedName<T, V>> {
    brought: Brought<T, V>,
    front: Front<T, V, N>,
}

impl<T, V: Fold<T>, N: FeedName<T, V>> Model for Op<T, V, N> {
    ghost use Rattle.std.specs.Prelude.{List};
    ghost use Rattle.reg_feed.specs.Growing.{Brings};

    ghost Value = { List T };

    ghost view = { λ o. o.front };

    ghost invariant = { λ o. Brings V.applied N.first o.brought o.front };
}

/// The value that a list folds to, and which prefix the list is. Contracts see the list.
#[derive(Drop)]
pub struct Stored<T, V: Fold<T>, N: FeedName<T, V>> {
    value: V,
    front: Front<T, V, N>,
    // What it knows to be published: the whole front, wherever readers are shown this copy.
    shown: Shown<T, V, N>,
    history: Arc<History<T, V, N>>,
}

impl<T, V: Fold<T>, N: FeedName<T, V>> Model for Stored<T, V, N> {
    ghost use Rattle.std.specs.Prelude.{◌≡◌, List, fold};

    ghost Value = { List T };

    ghost view = { λ s. s.front };

    ghost invariant = { λ s. s.value ≡ fold V.applied N.first s.front };
}

impl<T: Drop, V: Fold<T> + Drop, N: FeedName<T, V>> Absorb<Op<T, V, N>> for Stored<T, V, N> {
    ghost use Rattle.reg_feed.specs.Growing.{grown};

    // A clause reads an array as a list, of any length.
    type State = [T; 0];

    ghost state = { λ s. s };

    ghost applied = { grown };

    fn absorb_first(
        &mut self,
        op: &Op<T, V, N>,
        other: &Stored<T, V, N>,
    ) -> Result<(), AllocError> {
        match &op.brought {
            Brought::Item(item) => self.take(item, &op.front, &other.value)?,
            Brought::Value(value) => {
                let value = value.again()?;
                self.put(value, op.front.again());
            }
        }
        self.note(other);
        Ok(())
    }

    // A value that was brought is this copy's: no other one is made. The other copy took an item before.
    fn absorb_second(
        &mut self,
        op: Op<T, V, N>,
        other: &Stored<T, V, N>,
    ) -> Result<(), Op<T, V, N>> {
        let Op { brought, front } = op;
        match brought {
            Brought::Item(item) => {
                if self.take(&item, &front, &other.value).is_err() {
                    return Err(Op::of_item(item, front));
                }
            }
            Brought::Value(value) => self.put(value, front),
        }
        self.note(other);
        Ok(())
    }
}

/// What readers are shown was published.
impl<T, V: Fold<T>, N: FeedName<T, V>> Protocol<Stored<T, V, N>, ()> for Stored<T, V, N> {
    ghost use Rattle.reg_feed.specs.Published.{WasPublished};

    ghost holds = { λ shown views. WasPublished (V.publishes N.first) shown };

    ghost first = { tt };
}

impl<T, V: Fold<T>, N: FeedName<T, V>> Op<T, V, N> {
    /// Makes the operation of a prefix with its last item.
    pub(crate) fn of_item(item: T, front: Front<T, V, N>) -> Op<T, V, N>
        requires ends { (l : List T) × (front ≡ l ++ item ∷ []) }
        ensures { result ≡ front }
    {
        Op {
            brought: Brought::Item(item),
            front,
        }
    }

    /// Makes the operation of a prefix with the value that it folds to.
    pub(crate) fn of_value(value: V, front: Front<T, V, N>) -> Op<T, V, N>
        requires folds { value ≡ fold V.applied N.first front }
        ensures { result ≡ front }
    {
        Op {
            brought: Brought::Value(value),
            front,
        }
    }
}

impl<T, V: Fold<T>, N: FeedName<T, V>> Stored<T, V, N> {
    pub(crate) fn new(
        value: V,
        origin: &Front<T, V, N>,
        shown: Shown<T, V, N>,
        history: Arc<History<T, V, N>>,
    ) -> Stored<T, V, N>
        requires { (origin.now ≡ []) × (value ≡ N.first) }
        ensures { result ≡ [] }
    {
        Stored {
            value,
            front: origin.again(),
            shown,
            history,
        }
    }

    pub(crate) fn value(&self) -> &V
        ensures { result.now ≡ fold V.applied N.first self.now }
    {
        &self.value
    }

    pub(crate) fn front(&self) -> &Front<T, V, N>
        ensures { result.now ≡ self.now }
    {
        &self.front
    }

    pub(crate) fn shown(&self) -> &Shown<T, V, N> {
        &self.shown
    }

    /// Publishes the prefix if just that is offered. If it isn't, takes over what the other copy
    /// knows to be published.
    fn note(&mut self, other: &Stored<T, V, N>)
        ensures { self.new ≡ self.old }
    {
        self.shown = match Shown::with(&self.history, &self.front) {
            Some(shown) => shown,
            None => other.shown.again(),
        };
    }
}

impl<T: Drop, V: Fold<T> + Drop, N: FeedName<T, V>> Stored<T, V, N> {
    /// Takes in the last item of a prefix that is longer by one. A prefix that is no longer changes
    /// nothing, and one that is longer by more is refused; the writer passes neither. The other
    /// value may have taken in the item too.
    fn take(&mut self, item: &T, front: &Front<T, V, N>, other: &V) -> Result<(), AllocError>
        requires { (l : List T) × (front.now ≡ l ++ item.now ∷ []) }
        ensures taken { OnOk result (self.new ≡ grown self.old front.now) }
        ensures refused { OnErr result (self.new ≡ self.old) }
    {
        if front.len() <= self.front.len() {
            return Ok(());
        }
        if front.len() - 1 != self.front.len() {
            return Err(AllocError);
        }
        let longer = self.front.longer(front);
        self.value.take_item(item, other)?;
        self.front = longer;
        Ok(())
    }

    /// Becomes a longer list with its value. A prefix that is no longer changes nothing.
    fn put(&mut self, value: V, front: Front<T, V, N>)
        requires folds { value ≡ fold V.applied N.first front }
        ensures { self.new ≡ grown self.old front }
    {
        if self.front.len() < front.len() {
            self.value = value;
            self.front = front;
        }
    }
}
