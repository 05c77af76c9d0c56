// The one writer of a feed.
ghost use Rattle.std.specs.Prelude.{◌≡◌, ◌<◌, ◌^◌, ◌++◌, ◌∷◌, [], length, drop, fold, IfOk, OnErr, OnOk, MatchBool, MatchResult, None, option_to_list};
ghost use mathlib.Core.List.{IsPrefix};
ghost use Rattle.reg_feed.specs.Growing.{grown};
ghost use Rattle.reg_feed.specs.Published.{WasPublished};

use crate::copies::Copies;
use crate::fold::Fold;
use crate::front::Front;
use crate::history::{FeedName, History, Unnamed};
use crate::reader::FeedReader;
use crate::right::Right;
use crate::seen::Seen;
use crate::shelf::Shelf;
use crate::stored::{Op, Stored};
use std::alloc::{AllocError, Global};
use std::collections::VecDeque;
use std::error::Error;
use std::fmt;
use std::marker::Model;
use std::sync::{Arc, Wait};

/// No reader can be made, because each place for one is in use.
#[derive(Clone, Copy, Debug, PartialEq, Eq)]
pub struct NoPlace;

impl fmt::Display for NoPlace {
    ghost use Rattle.std.specs.Prelude.{Some, codes};

    ghost output = { λ _. Some (codes "no place for a reader") };

    fn fmt<W: fmt::Write>(&self, f: &mut fmt::Formatter<W>) -> fmt::Result {
        write!(f, "no place for a reader")
    }
}

impl Error for NoPlace {}

/// The writer of a feed. Contracts see the published list and the pending items.
///
/// It keeps `rt`, since its drop waits for readers.
#[derive(Drop)]
pub struct FeedWriter<
    T: Drop,
    V: Fold<T> + Drop,
    N: FeedName<T, V>,
    S: Copies<T, V, N>,
    R: Wait + Drop,
> {
    history: Arc<History<T, V, N>>,
    // What is published, and that nothing else is.
    right: Right<T, V, N>,
    // The published items and the pending ones.
    whole: Front<T, V, N>,
    // No item.
    origin: Seen<T, V, N>,
    shelf: Shelf<S, Op<T, V, N>, R>,
    // The last pending item, if it isn't in the writer's log yet.
    next: Option<Op<T, V, N>>,
}

impl<T: Drop, V: Fold<T> + Drop, N: FeedName<T, V>, S: Copies<T, V, N>, R: Wait + Drop> Model
    for FeedWriter<T, V, N, S, R> {
    ghost use Rattle.std.specs.Prelude.{◌≡◌, ◌++◌, List, [], length, drop, option_to_list};
    ghost use Rattle.reg_feed.specs.Growing.{GrowsTo};
    ghost use Rattle.reg_feed.specs.Published.{WasPublished};

    ghost Value = { List T × List T };

    ghost view = { λ w. (S.list w.shelf.writer.desk.shown.value, drop (length (S.list w.shelf.writer.desk.shown.value)) w.whole) };

    ghost invariant = { λ w. (w.origin ≡ []) × (w.right ≡ (S.list w.shelf.writer.desk.shown.value, S.list w.shelf.writer.desk.shown.value)) × WasPublished (V.publishes N.first) (S.list w.shelf.writer.desk.shown.value) × GrowsTo (S.list w.shelf.writer.desk.shown.value) (drop w.shelf.writer.behind w.shelf.writer.log.items ++ option_to_list w.next) w.whole };
}

/// Makes a feed whose list is empty, with places for `readers` readers, 1 to 2^32 - 1. The only
/// error is out of memory.
pub fn feed<T: Drop, V: Fold<T> + Drop, N: FeedName<T, V>, R: Wait + Drop>(
    rt: R,
    alloc: Global,
    list: Unnamed<T>,
    first: V,
    readers: usize,
) -> Result<FeedWriter<T, V, N, Stored<T, V, N>, R>, AllocError>
    requires name { (list.reached.book ≡ N.book) × (first ≡ N.first) }
    requires readers { (0 < readers) × (readers < 2 ^ 32) }
    ensures { IfOk result (λ w. w ≡ ([], [])) }
{
    let second = first.again()?;
    let (history, origin) = list.named::<V, N>();
    let Some(right) = Right::new(&history, &origin) else {
        return Err(AllocError);
    };
    let history = Arc::new(alloc, history)?;
    let one = Stored::new(first, &origin, right.shown(), Arc::try_clone(&history)?);
    let other = Stored::new(second, &origin, right.shown(), Arc::try_clone(&history)?);
    let shelf = Shelf::new(alloc, rt, one, other, readers)?;
    Ok(FeedWriter {
        history,
        origin: Seen::of(right.shown()),
        right,
        whole: origin,
        shelf,
        next: None,
    })
}

/// Appends the operation, if there is one, to the log of the copies. The only error is out of
/// memory; nothing is changed then.
fn hand_over<T: Drop, V: Fold<T> + Drop, N: FeedName<T, V>, S: Copies<T, V, N>, R: Wait + Drop>(
    shelf: &mut Shelf<S, Op<T, V, N>, R>,
    next: &mut Option<Op<T, V, N>>,
) -> Result<(), AllocError>
    ensures published { shelf.new.writer.desk.shown.value ≡ shelf.old.writer.desk.shown.value }
    ensures pending { OnOk result ((drop shelf.new.writer.behind shelf.new.writer.log.items ≡ drop shelf.old.writer.behind shelf.old.writer.log.items ++ option_to_list next.old) × (next.new ≡ None)) }
    ensures refused { OnErr result ((drop shelf.new.writer.behind shelf.new.writer.log.items ≡ drop shelf.old.writer.behind shelf.old.writer.log.items) × (next.new ≡ next.old)) }
{
    let Some(op) = next.take() else {
        return Ok(());
    };
    if let Err(op) = shelf.append(op) {
        *next = Some(op);
        return Err(AllocError);
    }
    Ok(())
}

/// Shows readers what is in the log of the copies. The only error is out of memory.
fn show<T: Drop, V: Fold<T> + Drop, N: FeedName<T, V>, S: Copies<T, V, N>, R: Wait + Drop>(
    shelf: &mut Shelf<S, Op<T, V, N>, R>,
) -> Result<(), AllocError>
    requires was { WasPublished (V.publishes N.first) (S.list shelf.old.writer.desk.shown.value) }
    requires may { V.publishes N.first (fold grown (S.list shelf.old.writer.desk.shown.value) (drop shelf.old.writer.behind shelf.old.writer.log.items)) }
    ensures published { WasPublished (V.publishes N.first) (S.list shelf.new.writer.desk.shown.value) }
    ensures shown { OnOk result ((S.list (shelf.new.writer.desk.shown.value) ≡ fold grown (S.list (shelf.old.writer.desk.shown.value)) (drop shelf.old.writer.behind shelf.old.writer.log.items)) × (drop shelf.new.writer.behind shelf.new.writer.log.items ≡ [])) }
    ensures refused { OnErr result ((shelf.new.writer.desk.shown.value ≡ shelf.old.writer.desk.shown.value) × (drop shelf.new.writer.behind shelf.new.writer.log.items ≡ drop shelf.old.writer.behind shelf.old.writer.log.items)) }
{
    shelf.publish()
}

/// Shows readers what is in the log of the copies, waiting for memory if needed.
fn show_at_last<T: Drop, V: Fold<T> + Drop, N: FeedName<T, V>, S: Copies<T, V, N>, R: Wait + Drop>(
    shelf: &mut Shelf<S, Op<T, V, N>, R>,
)
    requires was { WasPublished (V.publishes N.first) (S.list shelf.old.writer.desk.shown.value) }
    requires may { V.publishes N.first (fold grown (S.list shelf.old.writer.desk.shown.value) (drop shelf.old.writer.behind shelf.old.writer.log.items)) }
    ensures published { WasPublished (V.publishes N.first) (S.list shelf.new.writer.desk.shown.value) }
    ensures shown { (S.list (shelf.new.writer.desk.shown.value) ≡ fold grown (S.list (shelf.old.writer.desk.shown.value)) (drop shelf.old.writer.behind shelf.old.writer.log.items)) × (drop shelf.new.writer.behind shelf.new.writer.log.items ≡ []) }
{
    shelf.publish_at_last();
}

impl<T: Drop, V: Fold<T> + Drop, N: FeedName<T, V>, S: Copies<T, V, N>, R: Wait + Drop> FeedWriter<
    T,
    V,
    N,
    S,
    R,
> {
    /// Appends an item to the pending ones. If memory is refused, the item is given back and
    /// nothing is changed.
    pub fn append(&mut self, item: T) -> Result<(), T>
        ensures published { self.new.0 ≡ self.old.0 }
        ensures pending { MatchResult result (λ _. self.new.1 ≡ self.old.1 ++ item ∷ []) (λ x. (x ≡ item) × (self.new.1 ≡ self.old.1)) }
    {
        if hand_over(&mut self.shelf, &mut self.next).is_err() {
            return Err(item);
        }
        if !self.whole.add(&self.history, &item) {
            return Err(item);
        }
        self.next = Some(Op::of_item(item, self.whole.again()));
        Ok(())
    }

    /// Appends items to the pending ones, with the value that the whole list then folds to. Both
    /// copies get that value instead of taking in the items. The only error is out of memory;
    /// nothing is changed then.
    pub fn append_all(&mut self, items: VecDeque<T>, value: V) -> Result<(), AllocError>
        requires folds { value ≡ fold V.applied N.first (self.old.0 ++ (self.old.1 ++ items.items)) }
        ensures published { self.new.0 ≡ self.old.0 }
        ensures pending { OnOk result (self.new.1 ≡ self.old.1 ++ items.items) }
        ensures refused { OnErr result (self.new.1 ≡ self.old.1) }
    {
        hand_over(&mut self.shelf, &mut self.next)?;
        let Some(whole) = self.whole.with_all(&self.history, items) else {
            return Err(AllocError);
        };
        self.next = Some(Op::of_value(value, whole.again()));
        self.whole = whole;
        Ok(())
    }

    /// Publishes all pending items at once: no reader sees any of them before, or only some of
    /// them. May wait for readers of an older list. The only error is out of memory; the items then
    /// stay pending.
    pub fn publish(&mut self) -> Result<(), AllocError>
        requires may { V.publishes N.first (self.old.0 ++ self.old.1) }
        ensures published { OnOk result (self.new ≡ (self.old.0 ++ self.old.1, [])) }
        ensures refused { OnErr result (self.new ≡ self.old) }
    {
        hand_over(&mut self.shelf, &mut self.next)?;
        if self.shelf.published().stored().front().len() >= self.whole.len() {
            return show(&mut self.shelf);
        }
        self.right.offer(&self.history, &self.whole);
        if show(&mut self.shelf).is_ok() {
            self.right.publish(&self.history, &self.whole);
            return Ok(());
        }
        if self.right.take_back(&self.history, &self.whole) {
            return Err(AllocError);
        }
        // A copy publishes what is offered as the last step before readers are shown it.
        show_at_last(&mut self.shelf);
        Ok(())
    }

    /// States that a list that was seen or learnt of is a prefix of the published list. Changes
    /// neither the published list nor the pending items.
    pub fn covers(&mut self, seen: &Seen<T, V, N>)
        ensures begins { IsPrefix seen.now self.old.0 }
        ensures same { self.new ≡ self.old }
    {
        self.right.covers(&self.history, seen.shown());
    }

    /// Returns the whole published list.
    pub fn tell(&self) -> Seen<T, V, N>
        ensures { result ≡ self.now.0 }
    {
        Seen::of(self.right.shown())
    }

    /// Returns the value that the published list folds to.
    pub fn value(&self) -> &V
        ensures { result.now ≡ fold V.applied N.first self.now.0 }
    {
        self.shelf.published().stored().value()
    }

    /// Returns whether an item is pending.
    pub fn has_pending(&self) -> bool
        ensures { MatchBool result (0 < length self.now.1) (self.now.1 ≡ []) }
    {
        self.shelf.published().stored().front().len() < self.whole.len()
    }

    /// Makes a reader that has seen no item. Fails if each place for a reader is found in use; no
    /// clause says when that is.
    pub fn reader(&mut self) -> Result<FeedReader<T, V, N, S>, NoPlace>
        ensures new { IfOk result (λ r. r ≡ []) }
        ensures same { self.new ≡ self.old }
    {
        match self.shelf.reader() {
            Ok(reader) => Ok(FeedReader::new(reader, self.origin.again())),
            Err(_) => Err(NoPlace),
        }
    }
}
