// What holds after every list of events. The laws cost nothing at run time: a function that needs a
// law calls it.
ghost use Rattle.reg_world.specs.Core.{KeptIsCompaction, LogIsLawful, NoItemIsSkipped, NodesAreCompactions, RefusedExactly, UnsettledComesFirst, UnsettledCounts, UnsettledGoesOn};
ghost use Rattle.reg_world.specs.Eager.{EagerFoldingIsRight};
ghost use Rattle.reg_world.specs.Headline.{AnswersAreOfTheSet, CaughtUpNodesAnswerAsTheLog, Ids, Levels, Merging, NodesCatchUp, SameAnswers, TakersOfAllCatchUp, WorldsKeepTheHeadline};
ghost use Rattle.reg_world.specs.LowerLaws.{LowerLaws};
ghost use Rattle.reg_world.specs.Threads.{ItemsHappen};

use reg_alike::reg_floored::{
    compactions_compose, compactions_keep_what_stands, compactions_unite, merging_joins_kept_sets,
    rebasing_keeps_lasts,
};
use reg_alike::reg_fold::entries_are_of_places;
use reg_alike::reg_leader::{batches_end_by_the_limit, batches_go_on, deletes_name_greatest};
use reg_alike::reg_lookup::queries_have_one_answer;
use reg_alike::reg_set::{
    keeping_lasts_composes, last_is_greatest, last_records_are_enough, records_are_ordered,
};
use reg_alike::reg_values::written_values_read_back;
use reg_alike::{compactions_answer_alike, compactions_give_alike};
use reg_topic::{
    allowed_drops_leave_compactions, commits_follow, floors_stay_below, kept_sets_are_compactions,
    lawful_items_follow, lawful_lists_keep_ids, lawful_lists_meet_levels,
    log_is_what_was_published,
};

/// Gathers the laws of the crates below.
fn lower_laws()
    ensures { LowerLaws }
{
    records_are_ordered();
    last_is_greatest();
    last_records_are_enough();
    keeping_lasts_composes();
    compactions_compose();
    compactions_keep_what_stands();
    rebasing_keeps_lasts();
    compactions_answer_alike();
    kept_sets_are_compactions();
    allowed_drops_leave_compactions();
    floors_stay_below();
    lawful_items_follow();
    commits_follow();
    log_is_what_was_published();
}

/// States that after every list of events the log is lawful and has all that was published, the
/// kept set is a compaction of it, and each node's set is a compaction of what the node took, at a
/// floor that isn't ahead.
pub fn every_list_of_events_is_lawful()
    ensures log { LogIsLawful }
    ensures whole { NoItemIsSkipped }
    ensures kept { KeptIsCompaction }
    ensures nodes { NodesAreCompactions }
{
    lower_laws();
}

/// States that an event is refused exactly if it isn't allowed or brings together sets of different
/// floors, and that it changes nothing then.
pub fn events_are_refused_exactly()
    ensures { RefusedExactly }
{}

/// States that the unsettled commit is published first by the next command or compaction that is
/// allowed, which is judged, and happens, as if that commit were in the log. Everything else leaves
/// it unsettled.
pub fn unsettled_comes_first()
    ensures first { UnsettledComesFirst }
    ensures counts { UnsettledCounts }
    ensures goes_on { UnsettledGoesOn }
{
    lower_laws();
}

/// States that a node answers as the set does of which it took a compaction, so nodes that took one
/// set answer alike.
pub fn nodes_answer_alike()
    ensures of_the_set { AnswersAreOfTheSet }
    ensures alike { SameAnswers }
{
    lower_laws();
    queries_have_one_answer();
}

/// States that a node that took a compaction of the log answers as the whole log does, and so does
/// a node at the kept floor that took all kept records, or that has the last kept record of each
/// key.
pub fn caught_up_nodes_answer_as_the_log()
    ensures all { TakersOfAllCatchUp }
    ensures answers { CaughtUpNodesAnswerAsTheLog }
    ensures lasts { NodesCatchUp }
{
    lower_laws();
}

/// States that two versions of one id, at any two moments, have one schema; soft-deleted ones too.
pub fn ids_name_one_schema()
    ensures { Ids }
{
    lower_laws();
    lawful_lists_keep_ids();
}

/// States that each registered version met the level then in force.
pub fn registered_versions_meet_levels()
    ensures { Levels }
{
    lower_laws();
    lawful_lists_meet_levels();
}

/// States that the records of the log, taken one after the other, give the entries of the log and
/// of each of its compactions, at any floor, with their soft flags.
pub fn eager_folding_is_right()
    ensures { EagerFoldingIsRight }
{
    batches_end_by_the_limit();
    batches_go_on();
    compactions_give_alike();
    deletes_name_greatest();
    entries_are_of_places();
    every_list_of_events_is_lawful();
    last_is_greatest();
    last_records_are_enough();
    records_are_ordered();
    written_values_read_back();
}

/// States that merging at equal floors is commutative, associative and idempotent, and that answers
/// don't depend on the order of merges.
pub fn merging_answers_alike()
    ensures { Merging }
{
    merging_joins_kept_sets();
    compactions_unite();
    compactions_answer_alike();
}

/// States that an item that may follow is an event that happens and publishes it.
pub fn items_happen()
    ensures { ItemsHappen }
{}

/// States that the claims about one world hold of each world that a list of events leads to.
pub fn worlds_keep_the_headline()
    ensures { WorldsKeepTheHeadline }
{
    every_list_of_events_is_lawful();
    nodes_answer_alike();
    caught_up_nodes_answer_as_the_log();
    ids_name_one_schema();
    registered_versions_meet_levels();
    eager_folding_is_right();
}
