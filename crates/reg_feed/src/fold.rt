// What the items of a list come to.
ghost use Rattle.std.specs.Prelude.{◌≡◌, List, IfOk, OnErr, OnOk};

use std::alloc::AllocError;

/// A value that takes in items, one after the other.
pub trait Fold<T> {
    ghost applied: { Self → T → Self };

    // A fact of each list that a feed over that first value publishes: `FeedWriter::publish` asks it, and
    // `FeedReader::read` gives it. To a feed it is any fact at all, so what it shows was published.
    ghost publishes: { Self → List T → Type 0 } = { λ first list. Unit {0} };

    /// Takes in an item. If the other value has taken it in too, work may be shared with it; the
    /// result is the same. The only error is out of memory; the value is then unchanged.
    fn take_item(&mut self, item: &T, other: &Self) -> Result<(), AllocError>
        ensures taken { OnOk result (self.new ≡ applied self.old item.now) }
        ensures refused { OnErr result (self.new ≡ self.old) };

    /// Copies the value. The only error is out of memory.
    fn again(&self) -> Result<Self, AllocError>
        ensures { IfOk result (λ copy. copy ≡ self.now) };
}
