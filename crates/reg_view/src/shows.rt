// Values that show a registry.
ghost use Rattle.std.specs.Prelude.{◌≡◌, List, fold};
ghost use Rattle.reg_fold.specs.GiveAlike.{GiveAlike};
ghost use Rattle.reg_set.specs.LastRecords.{last_records};

use reg_feed::Fold;
use reg_fold::Registry;

/// A feed's value that shows a registry: the one that the items of a list come to.
pub trait ShowsRegistry<T>: Fold<T> {
    ghost use Rattle.std.specs.Prelude.{List};
    ghost use Rattle.reg_set.specs.Records.{Records};

    // The last records that the value shows.
    ghost shows: { Self → Records };

    // Whether a list may be folded from this first value.
    ghost begins: { Self → Type 0 };

    // The records that a list over a first value comes to.
    ghost comes_to: { Self → List T → Records };

    // The last records that the value answers for. They may be more than those that it shows,
    // and give the same answers.
    ghost answers_for: { Self → List T → Records };

    /// Returns the registry over the last records.
    fn registry(&self) -> &Registry
        ensures { result.now ≡ shows self.now };

    /// States that what a list folds to shows the last records of what the list comes to. Costs
    /// nothing at run time.
    fn folds_show()
        ensures shown { (first : Self) (list : List T) → begins first → shows (fold Self.applied first list) ≡ last_records (comes_to first list) }
        ensures alike { (first : Self) (list : List T) → begins first → GiveAlike (last_records (comes_to first list)) (answers_for first list) };
}
