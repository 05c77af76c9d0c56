// What a feed's writer needs of its two copies. `Stored` is the one type that has it: a struct with
// type parameters can't name a type whose `impl Absorb` has them too, so the writer has a parameter
// in its place.
ghost use Rattle.std.specs.Prelude.{◌≡◌, List, fold};
ghost use Rattle.reg_feed.specs.Growing.{grown};
ghost use Rattle.reg_feed.specs.Published.{WasPublished};

use crate::fold::Fold;
use crate::history::FeedName;
use crate::stored::{Op, Stored};
use crossbeam_utils::rule::Protocol;
use left_right::Absorb;

/// A copy of a feed: the value that the list folds to, and the list, which only contracts see. Its
/// rule is that readers are shown only published lists.
pub trait Copies<T: Drop, V: Fold<T> + Drop, N: FeedName<T, V>>: Absorb<Op<T, V, N>>
    + Protocol<Self, ()>
    + Drop {
    ghost list: { Self → List T };

    fn stored(&self) -> &Stored<T, V, N>
        ensures { result.now ≡ list self.now };

    ghost grows: { (x y : Self) (fronts : List (List T)) → Self.state y ≡ fold Self.applied (Self.state x) fronts → list y ≡ fold grown (list x) fronts };

    ghost shows: { (x : Self) (views : List (Unit {0})) → Self.holds x views → WasPublished (V.publishes N.first) (list x) };

    ghost may_show: { (x : Self) (views : List (Unit {0})) → WasPublished (V.publishes N.first) (list x) → Self.holds x views };
}

impl<T: Drop, V: Fold<T> + Drop, N: FeedName<T, V>> Copies<T, V, N> for Stored<T, V, N> {
    ghost list = { λ s. s };

    fn stored(&self) -> &Stored<T, V, N> {
        self
    }

    ghost grows = { λ x y fronts is. is };

    ghost shows = { λ x views is. is };

    ghost may_show = { λ x views is. is };
}
