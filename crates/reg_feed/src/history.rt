// The one history of a feed: which items were added, and which of them its writer published.
ghost use Rattle.std.specs.Prelude.{◌≡◌, [], IfSome};
ghost use Rattle.logbook.specs.Pages.{may_write};
ghost use Rattle.reg_feed.specs.History.{head_of, gate_in};

use crate::entry::FeedEntry;
use crate::fold::Fold;
use crate::front::Front;
use logbook::{Gain, Offer, Pen, Plain, Play, Rule, Seen as Reached, Start, Word};
use std::marker::PhantomData;

/// The invariant of the two words: the number of items, and the gate.
pub struct Law;

impl<T> Rule<FeedEntry<T>, u64> for Law {
    ghost use Rattle.std.specs.Prelude.{[]};
    ghost use base.Fml.{ftrue};
    ghost use Rattle.reg_feed.specs.History.{IsKept};

    ghost holds = { λ cells log. IsKept cells log };

    ghost first = { [] };

    ghost hinted = { λ n log. Unit {0} };

    ghost shows = { λ log. [] };

    ghost keeps = { λ names log. ftrue };

    ghost moves = { λ ask before after answer. Unit {0} };
}

/// Callers trade nothing.
pub struct Nothing;

impl<T> Gain<FeedEntry<T>, u64> for Nothing {
    ghost use base.Fml.{ftrue};

    ghost after = { λ names about answer. ftrue };
}

/// A step that adds an item.
pub struct Add;

impl<T> Play<FeedEntry<T>, u64> for Add {
    ghost use Rattle.reg_feed.specs.History.{Adds};

    ghost then = { Adds };
}

impl<T> Plain<T, FeedEntry<T>, u64> for Add {
    ghost use Rattle.std.specs.Prelude.{None};
    ghost use Rattle.reg_feed.specs.declared.entry.FeedEntry.TheVariants.{Added};

    ghost ask = { λ item. Added item };

    ghost state = { λ item. None };
}

/// A step that gives a new pen.
pub struct TakePen;

impl<T> Play<FeedEntry<T>, u64> for TakePen {
    ghost use Rattle.reg_feed.specs.History.{Takes};

    ghost then = { Takes };
}

/// A step that publishes what is offered.
pub struct Publish;

impl<T> Play<FeedEntry<T>, u64> for Publish {
    ghost use Rattle.reg_feed.specs.History.{Publishes};

    ghost then = { Publishes };
}

impl<T> Plain<(), FeedEntry<T>, u64> for Publish {
    ghost use Rattle.std.specs.Prelude.{None};
    ghost use Rattle.reg_feed.specs.declared.entry.FeedEntry.TheVariants.{Published};

    ghost ask = { λ about. Published };

    ghost state = { λ about. None };
}

/// A step that looks at the gate.
pub struct Look;

impl<T> Play<FeedEntry<T>, u64> for Look {
    ghost use Rattle.reg_feed.specs.History.{Looks};

    ghost then = { Looks };
}

/// A step that gives up the newest pen for another one, with an offer of the first items.
pub struct TurnPen;

impl<T> Play<FeedEntry<T>, u64> for TurnPen {
    ghost use Rattle.reg_feed.specs.History.{Turns};

    ghost then = { Turns };
}

impl<T> Plain<(u64, Pen), FeedEntry<T>, u64> for TurnPen {
    ghost use Rattle.std.specs.Prelude.{None};
    ghost use Rattle.reg_feed.specs.declared.entry.FeedEntry.TheVariants.{Turned};

    ghost ask = { λ about. Turned about.0 about.1.nib.key };

    ghost state = { λ about. None };
}

/// A step that makes a pen the first one.
pub struct Begin;

impl<T> Play<FeedEntry<T>, u64> for Begin {
    ghost use Rattle.reg_feed.specs.History.{Begins};

    ghost then = { Begins };
}

/// The name of a feed: which feed it is, and the first value of its fold. Each call of a program
/// picks both.
pub trait FeedName<T, V: Fold<T>> {
    ghost use Rattle.logbook.specs.Pages.{Book};

    ghost book: { Book };

    ghost first: { V };
}

/// A list without items, which has no name yet.
#[derive(Drop)]
pub struct Unnamed<T> {
    head: Word<FeedEntry<T>, u64, Law>,
    gate: Word<FeedEntry<T>, u64, Law>,
    reached: Reached<FeedEntry<T>, u64, Law>,
    pub ghost empty: { reached.log ≡ [] },
    pub ghost head_is: { head ≡ head_of reached.book },
    pub ghost gate_is: { gate ≡ gate_in reached.book },
}

impl<T> Unnamed<T> {
    /// Makes a list without items.
    pub fn new() -> Unnamed<T> {
        let (reached, mut first, mut second) = Reached::open(Start::alone(), 0, 0);
        Unnamed {
            head: Word::tracked(0, &mut first),
            gate: Word::tracked(0, &mut second),
            reached,
        }
    }

    /// Gives the list a name, and returns its two words and its empty prefix.
    pub(crate) fn named<V: Fold<T>, N: FeedName<T, V>>(self) -> (History<T, V, N>, Front<T, V, N>)
        requires { self.reached.book ≡ N.book }
        ensures { result.1 ≡ [] }
    {
        let Unnamed {
            head,
            gate,
            reached,
        } = self;
        (
            History {
                head,
                gate,
                of: PhantomData,
            },
            Front::of_none(reached),
        )
    }
}

/// The two words of a history: the number of items, and the gate.
#[derive(Drop)]
pub struct History<T, V: Fold<T>, N: FeedName<T, V>> {
    pub(crate) head: Word<FeedEntry<T>, u64, Law>,
    pub(crate) gate: Word<FeedEntry<T>, u64, Law>,
    of: PhantomData<(V, N)>,
    ghost head_is: { head ≡ head_of N.book },
    ghost gate_is: { gate ≡ gate_in N.book },
}

impl<T, V: Fold<T>, N: FeedName<T, V>> History<T, V, N> {
    /// Makes a pen that nobody had. A *pen* is the right to make offers.
    pub(crate) fn pen(&self, reached: &Reached<FeedEntry<T>, u64, Law>) -> Pen
        requires { reached.now.book ≡ N.book }
        ensures { (result.book ≡ N.book) × (result.nib.right ≡ may_write) }
    {
        let mut reached = reached.again();
        let mut offer: Offer<FeedEntry<T>, u64, Law, Nothing> = reached.plain::<
            Nothing,
            (),
            Publish,
        >(&());
        let mut pen = reached.no_pen();
        self.gate
            .compare_exchange::<TakePen, Nothing>(0, 0, &mut reached, &mut offer, &mut pen);
        let _word: Word<FeedEntry<T>, u64, Law> = Word::tracked(0, &mut pen);
        pen
    }
}
