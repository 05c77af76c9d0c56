// What running nodes do, as a world. The laws cost nothing at run time: a function that needs a law
// calls it.
ghost use Rattle.reg_running.specs.Bytes.{RunningNodesWriteAlike, SameBytes};
ghost use Rattle.reg_running.specs.Calls.{ActsAddUp, ActsAreLawful, CallsKeepPens, CompactionsAreActs, DesksDoActs, FollowersAreNodes, LawfulListsAreOfActs, SubmitsAreActs, ViewsTellForNodes};
ghost use Rattle.reg_running.specs.Claims.{ClaimsHoldAtEachMoment, MomentsAreAfterEvents, RunningNodesAnswerAlike, RunningNodesKeepPromises, SameAnswersAtMoments};
ghost use Rattle.reg_running.specs.Kept.{CallsStayKept, PensBeginKept, SeenBatchesAreTaken};
ghost use Rattle.reg_running.specs.Woven.{RunningNodesAreAWorld, RunningNodesAreWoven};

use reg_alike::compactions_answer_alike;
use reg_lookup::queries_have_one_answer;
use reg_pen::Keep;
use reg_set::records_are_ordered;
use reg_topic::{lawful_lists_keep_ids, lawful_lists_meet_levels};
use reg_world::{ids_name_one_schema, nodes_answer_alike, registered_versions_meet_levels};

/// States that what the pen and the nodes did is a list of a world's events, with the outcomes that
/// the callers got. Each draw comes directly after the last item that its pull had read.
pub fn running_nodes_are_a_world()
    ensures world { RunningNodesAreAWorld }
    ensures woven { RunningNodesAreWoven }
{
    records_are_ordered();
}

/// States that what holds after every list of events holds of running nodes at each moment: nodes
/// answer as the sets do that they took, an id names one schema for good, and each registered
/// version met its level.
pub fn running_nodes_keep_the_headline()
    ensures moments { MomentsAreAfterEvents }
    ensures claims { ClaimsHoldAtEachMoment }
    ensures alike { SameAnswersAtMoments }
{
    ids_name_one_schema();
    nodes_answer_alike();
    registered_versions_meet_levels();
}

/// States that nodes that had taken compactions of one set gave one answer.
pub fn running_nodes_answer_alike()
    ensures { RunningNodesAnswerAlike }
{
    compactions_answer_alike();
    queries_have_one_answer();
}

/// States that the bytes of their responses are the same too: of nodes in worlds, and of running
/// ones.
pub fn same_sets_give_same_bytes()
    ensures worlds { SameBytes }
    ensures running { RunningNodesWriteAlike }
{
    nodes_answer_alike();
    running_nodes_answer_alike();
}

/// States that in what was published an id names one schema for good, and each registered version
/// met the level then in force.
pub fn running_nodes_keep_promises()
    ensures { RunningNodesKeepPromises }
{
    lawful_lists_are_of_acts();
    lawful_lists_keep_ids();
    lawful_lists_meet_levels();
}

/// States that what a pen's calls add to the topic's list are acts, of which the callers got the
/// replies.
pub fn pens_do_acts<K: Keep>()
    ensures submits { SubmitsAreActs K.keeps }
    ensures compactions { CompactionsAreActs K }
    ensures in_turn { ActsAddUp }
    ensures stays { CallsKeepPens K.keeps }
{}

/// States that a pen publishes no batch that its keep hasn't taken. When it begins, and after each
/// submit and each compaction, the batches that the keep has taken since the beginning are exactly
/// those of the published list, in its order, and then the pending one unless that is lost. So
/// anyone who saw a prefix of the list saw only batches that were taken by then. A keep that
/// `lend_keep` changes is not covered.
pub fn pens_keep_what_they_publish<K: Keep>()
    ensures begins { PensBeginKept K.keeps }
    ensures stays { CallsStayKept K.keeps }
    ensures seen { SeenBatchesAreTaken K.keeps }
{}

/// States that what a desk's command adds to the topic's list are acts, of which its client got the
/// reply, and then those of a compaction that followed.
pub fn desks_do_acts<K: Keep>()
    ensures { DesksDoActs K.keeps }
{}

/// States that the lists that acts publish are exactly the lawful ones.
pub fn lawful_lists_are_of_acts()
    ensures lists { LawfulListsAreOfActs }
    ensures lawful { ActsAreLawful }
{}

/// States that what a follower draws and its views answer is what a node of a world does.
pub fn followers_do_deeds()
    ensures followers { FollowersAreNodes }
    ensures views { ViewsTellForNodes }
{}
