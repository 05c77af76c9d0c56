// The one right to publish: a pen that only the writer has. So it knows all that is published.
ghost use Rattle.std.specs.Prelude.{◌≡◌, ◌<◌, [], length, IfSome, MatchBool};
ghost use mathlib.Core.List.{IsPrefix};

use crate::entry::FeedEntry;
use crate::fold::Fold;
use crate::front::Front;
use crate::history::{Begin, FeedName, History, Law, Look, Nothing, Publish, TurnPen};
use crate::shown::Shown;
use logbook::{Offer, Pen, Seen as Reached};
use std::marker::{Model, PhantomData};

/// The right to publish, which only the writer has. Contracts see the published list, and the list
/// that may be published at any moment.
#[derive(Drop)]
pub struct Right<T, V: Fold<T>, N: FeedName<T, V>> {
    count: u64,
    reached: Reached<FeedEntry<T>, u64, Law>,
    pen: Pen,
    of: PhantomData<(V, N)>,
}

impl<T, V: Fold<T>, N: FeedName<T, V>> Model for Right<T, V, N> {
    ghost use Rattle.std.specs.Prelude.{◌≡◌, ◌≤◌, ◌^◌, List, length};
    ghost use Rattle.logbook.specs.Pages.{may_write};
    ghost use Rattle.reg_feed.specs.History.{shown_of, offered_of, pens_of, Heads};

    ghost Value = { List T × List T };

    ghost view = { λ r. (shown_of r.reached.log, offered_of r.reached.log) };

    ghost invariant = { λ r. (r.count ≡ length (shown_of r.reached.log)) × (r.count ≤ 2 ^ 62) × (r.reached.book ≡ N.book) × (r.pen.book ≡ N.book) × (r.pen.nib.right ≡ may_write) × Heads r.pen.nib.key (pens_of r.reached.log) };
}

impl<T, V: Fold<T>, N: FeedName<T, V>> Right<T, V, N> {
    /// Makes the right of a history in which nothing is published. Only one call gets it.
    pub(crate) fn new(history: &History<T, V, N>, origin: &Front<T, V, N>) -> Option<Right<T, V, N>>
        ensures { IfSome result (λ r. r ≡ ([], [])) }
    {
        let mut reached = origin.reached.again();
        let about = (0, history.pen(&reached));
        let mut offer: Offer<FeedEntry<T>, u64, Law, Nothing> = reached.plain::<
            Nothing,
            (u64, Pen),
            TurnPen,
        >(&about);
        let mut none = reached.no_pen();
        let found = history
            .gate
            .compare_exchange::<Begin, Nothing>(0, 2, &mut reached, &mut offer, &mut none);
        if found != 0 {
            return None;
        }
        let (_, pen) = about;
        Some(Right {
            count: 0,
            reached,
            pen,
            of: PhantomData,
        })
    }

    /// Offers a longer prefix: from now on it may be published at any moment.
    pub(crate) fn offer(&mut self, history: &History<T, V, N>, whole: &Front<T, V, N>)
        requires shut { self.old.0 ≡ self.old.1 }
        requires longer { length self.old.0 < length whole.now }
        ensures { self.new ≡ (self.old.0, whole.now) }
    {
        let mut reached = self.reached.again();
        reached.learn(&whole.reached);
        let about = (whole.count, history.pen(&reached));
        let mut offer: Offer<FeedEntry<T>, u64, Law, Nothing> = reached.plain::<
            Nothing,
            (u64, Pen),
            TurnPen,
        >(&about);
        history.gate.compare_exchange::<TurnPen, Nothing>(
            2 * self.count + 2,
            2 * whole.count + 1,
            &mut reached,
            &mut offer,
            &mut self.pen,
        );
        let (_, pen) = about;
        self.reached = reached;
        self.pen = pen;
    }

    /// Takes the offer back, and returns whether it did. If not, the offered prefix is published.
    pub(crate) fn take_back(&mut self, history: &History<T, V, N>, whole: &Front<T, V, N>) -> bool
        requires offered { self.old.1 ≡ whole.now }
        requires open { length self.old.0 < length whole.now }
        ensures { MatchBool result (self.new ≡ (self.old.0, self.old.0)) (self.new ≡ (whole.now, whole.now)) }
    {
        let mut reached = self.reached.again();
        let about = (self.count, history.pen(&reached));
        let mut offer: Offer<FeedEntry<T>, u64, Law, Nothing> = reached.plain::<
            Nothing,
            (u64, Pen),
            TurnPen,
        >(&about);
        let found = history.gate.compare_exchange::<TurnPen, Nothing>(
            2 * whole.count + 1,
            2 * self.count + 2,
            &mut reached,
            &mut offer,
            &mut self.pen,
        );
        self.reached = reached;
        if found != 2 * whole.count + 1 {
            self.count = whole.count;
            return false;
        }
        let (_, pen) = about;
        self.pen = pen;
        true
    }

    /// Publishes the offered prefix if it isn't published yet.
    pub(crate) fn publish(&mut self, history: &History<T, V, N>, whole: &Front<T, V, N>)
        requires offered { self.old.1 ≡ whole.now }
        requires open { length self.old.0 < length whole.now }
        ensures { self.new ≡ (whole.now, whole.now) }
    {
        let mut reached = self.reached.again();
        let mut offer: Offer<FeedEntry<T>, u64, Law, Nothing> = reached.plain::<
            Nothing,
            (),
            Publish,
        >(&());
        history.gate.compare_exchange::<Publish, Nothing>(
            2 * whole.count + 1,
            2 * whole.count + 2,
            &mut reached,
            &mut offer,
            &mut self.pen,
        );
        self.reached = reached;
        self.count = whole.count;
    }

    /// States that a published list is a prefix of what this right knows to be published.
    pub(crate) fn covers(&mut self, history: &History<T, V, N>, shown: &Shown<T, V, N>)
        requires shut { self.old.0 ≡ self.old.1 }
        ensures same { self.new ≡ self.old }
        ensures begins { IsPrefix shown.now self.old.0 }
    {
        let mut reached = self.reached.again();
        reached.learn(&shown.reached);
        let mut offer: Offer<FeedEntry<T>, u64, Law, Nothing> = reached.plain::<
            Nothing,
            (),
            Publish,
        >(&());
        history
            .gate
            .compare_exchange::<Look, Nothing>(0, 0, &mut reached, &mut offer, &mut self.pen);
        self.reached = reached;
    }

    /// Returns the published list.
    pub(crate) fn shown(&self) -> Shown<T, V, N>
        ensures { result ≡ self.now.0 }
    {
        Shown::of(self.count, &self.reached)
    }
}
