// The laws of what nodes take. They cost nothing at run time: a function that needs a law calls it.
ghost use Rattle.reg_node.specs.Caught.{CaughtStays, NewsAreWhole, NewsCatchUp};
ghost use Rattle.reg_node.specs.Takes.{DrawsFoldToLastRecords};

use reg_floored::{compactions_compose, rebasing_keeps_lasts};
use reg_set::{
    last_is_greatest, last_records_are_enough, last_records_of_unions, records_are_ordered,
};
use reg_shared::later_records_are_news;
use reg_topic::{floors_stay_below, kept_sets_are_compactions};

/// States that a node's list folds to the last records of all that was taken and rebased.
pub fn draws_fold_to_last_records()
    ensures { DrawsFoldToLastRecords }
{
    records_are_ordered();
    last_records_of_unions();
    rebasing_keeps_lasts();
}

/// States that what a follower took stays right as the topic's list grows, and that the kept
/// records from its offset on are all that it lacks. At the start and at a rebase the topic's own
/// registry has the last records of all that is kept.
pub(crate) fn followers_catch_up()
    ensures stays { CaughtStays }
    ensures news { NewsCatchUp }
    ensures whole { NewsAreWhole }
{
    records_are_ordered();
    last_records_are_enough();
    last_is_greatest();
    compactions_compose();
    floors_stay_below();
    kept_sets_are_compactions();
    later_records_are_news();
}
