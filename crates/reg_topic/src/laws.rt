// The laws of topics. They cost nothing at run time: a function that needs a law calls it.
ghost use Rattle.reg_topic.specs.Laws.{AdoptedLogsBegin, AllowedDropsLeaveCompactions, CommitsFollow, FloorsRise, FloorsStayBelow, ItemsAreFoldedInTurn, KeptStaysCompaction, LawfulItemsFollow, LawfulListsGoOn, LawfulListsJoin, ListsAreFoldedInTurn, LogIsWhatWasPublished, LogsGrow, LogsGrowOverLists, MoreKeepsLasts};
ghost use Rattle.reg_topic.specs.Promises.{LawfulListsKeepIds, LawfulListsMeetLevels, LawfulListsStayOpen};

use reg_floored::{compactions_compose, compactions_unite, drops_leave_compactions};
use reg_leader::reg_fold::{entries_are_of_places, none_is_no_opaque_last, two_schemas_is_least};
use reg_leader::reg_set::{
    last_is_greatest, last_records_are_enough, merging_joins_sets, records_are_ordered,
};
use reg_leader::{
    batches_end_by_the_limit, batches_go_on, steps_keep_given_ids, steps_meet_levels,
    steps_stay_open,
};

/// States when a compaction may be published: exactly if its floor neither falls nor is ahead of
/// the next offset, its records are kept, and what stays is a compaction of what was kept.
pub fn allowed_drops_leave_compactions()
    ensures { AllowedDropsLeaveCompactions }
{
    drops_leave_compactions();
}

/// States that a kept set that is a compaction of its log stays one after any items, and that logs
/// only grow.
pub fn kept_sets_are_compactions()
    ensures kept { KeptStaysCompaction }
    ensures grows { LogsGrow }
    ensures over_lists { LogsGrowOverLists }
{
    records_are_ordered();
    compactions_compose();
    compactions_unite();
    allowed_drops_leave_compactions();
}

/// States that a kept set's floor never falls, and that it never rises above the next offset.
pub fn floors_stay_below()
    ensures below { FloorsStayBelow }
    ensures rise { FloorsRise }
{}

/// States that items follow on those before them.
pub fn lawful_items_follow()
    ensures in_turn { ItemsAreFoldedInTurn }
    ensures go_on { LawfulListsGoOn }
    ensures follow { LawfulItemsFollow }
{}

/// States that a list may be cut in two anywhere: in what it comes to, and in whether it is lawful.
pub fn lists_are_joined()
    ensures in_turn { ListsAreFoldedInTurn }
    ensures lawful { LawfulListsJoin }
{}

/// States that a commit that may follow is published.
pub fn commits_follow()
    ensures { CommitsFollow }
{
    records_are_ordered();
    batches_go_on();
    batches_end_by_the_limit();
}

/// States that a log that takes commands begins an adopted topic, with the id mark that it owes.
pub fn adopted_logs_begin()
    ensures { AdoptedLogsBegin }
{
    entries_are_of_places();
    last_is_greatest();
    last_records_are_enough();
    merging_joins_sets();
    none_is_no_opaque_last();
    records_are_ordered();
    two_schemas_is_least();
}

/// States that a set which keeps each last record still does with more of the whole.
pub fn more_keeps_lasts()
    ensures { MoreKeepsLasts }
{
    records_are_ordered();
}

/// States that after every lawful list over an adopted base the registry takes commands, and that
/// two entries of one id, at any two moments, have one schema.
pub fn lawful_lists_keep_ids()
    ensures open { LawfulListsStayOpen }
    ensures ids { LawfulListsKeepIds }
{
    batches_go_on();
    records_are_ordered();
    steps_keep_given_ids();
    steps_stay_open();
}

/// States that in every lawful list each version that was registered without an id met the level
/// then in force against the versions then live.
pub fn lawful_lists_meet_levels()
    ensures { LawfulListsMeetLevels }
{
    steps_meet_levels();
}

/// States that the log is the first one with all that lawful items published.
pub fn log_is_what_was_published()
    ensures { LogIsWhatWasPublished }
{
    records_are_ordered();
    batches_go_on();
    batches_end_by_the_limit();
}
