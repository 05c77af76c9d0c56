// What the answers of desks over lines are. The law costs nothing at run time.
ghost use Rattle.std.specs.Prelude.{List, ℕ};
ghost use Rattle.reg_records.specs.declared.record.Read.{Read};
ghost use Rattle.reg_follow.specs.Following.{AnswersAreOfFirstLines, Following, HasTaken, list_of};

use crate::serving::FollowDesk;
use reg_feed::{Copies, FeedName};
use reg_intake::first_records_are_of_first_lines;
use reg_node::{Draw, Taken};
use reg_service::Desk;
use reg_set::records_are_ordered;

/// States that a desk answers each query as the log of the first n lines does, for some n that is
/// no less than that of the prefix which the desk had seen.
///
/// Each prefix of the list holds the records of the first n lines for some n, and a longer prefix
/// those of no fewer lines.
pub fn answers_are_of_first_lines<M: FeedName<Draw, Taken>, U: Copies<Draw, Taken, M>>()
    ensures { (text : List ℕ) (read : List Read) (s : Following) → HasTaken text read s
        → AnswersAreOfFirstLines ⟦<FollowDesk<M, U> as Desk>⟧.asks read (list_of s) }
{
    records_are_ordered();
    first_records_are_of_first_lines();
}
