// Each relation has a result. The laws cost nothing at run time: a function that needs a law calls
// it.
ghost use Rattle.reg_existence.specs.CatchingUp.{NodesMayCatchUp, RebasedNodesMayCatchUp};
ghost use Rattle.reg_existence.specs.Events.{EmptyTopicIsAdopted, EventsAreSingle, EventsHappen, ListsOfEventsAreSingle, ListsOfEventsRun, NodesAnswer, WorldsExist};
ghost use Rattle.reg_existence.specs.Steps.{AnswersExist, StepsExist};
ghost use Rattle.reg_existence.specs.Verdicts.{LevelVerdictsExist, ReportsExist, VerdictsExist};

use reg_leader::reg_fold::{entries_are_of_places, none_is_no_opaque_last, two_schemas_is_least};
use reg_leader::reg_set::{last_is_greatest, records_are_ordered};
use reg_leader::steps_are_single;
use reg_lookup::queries_have_one_answer;
use reg_world::caught_up_nodes_answer_as_the_log;

/// States that any two schemas are compatible or have a trail to a clash, and that each level has a
/// verdict on a schema and its old versions.
pub fn verdicts_exist()
    ensures schemas { VerdictsExist }
    ensures levels { LevelVerdictsExist }
{}

/// States that each check of texts under a level has a report: the level is met, or there is the
/// message of the first required pair that clashes.
pub fn reports_exist()
    ensures { ReportsExist }
{
    verdicts_exist();
}

/// States that each command has a reply and a batch, over any records and at any next offset.
pub fn steps_exist()
    ensures { StepsExist }
{
    reports_exist();
}

/// States that each query has an answer, over any records.
pub fn answers_exist()
    ensures { AnswersExist }
{
    verdicts_exist();
}

/// States that each event of a world has an outcome and a next state, each existing node an answer
/// to each query, each list of events a run, and that over each adopted base a world exists after
/// each list of events.
pub fn events_happen()
    ensures events { EventsHappen }
    ensures nodes { NodesAnswer }
    ensures lists { ListsOfEventsRun }
    ensures worlds { WorldsExist }
{
    steps_exist();
    answers_exist();
}

/// States that an event has one outcome and one next state, and so that a list of events has the
/// same outcomes and leads to one state.
pub fn events_are_single()
    ensures events { EventsAreSingle }
    ensures lists { ListsOfEventsAreSingle }
{
    steps_are_single();
    queries_have_one_answer();
}

/// States that the topic without records can begin a world.
pub fn empty_topic_is_adopted()
    ensures { EmptyTopicIsAdopted }
{
    entries_are_of_places();
    last_is_greatest();
    none_is_no_opaque_last();
    two_schemas_is_least();
}

/// States that after any list of events a node can catch up with the log by taking all kept
/// records: at once if it is at the kept floor (the low-water mark below which deletes may be
/// gone), else after a rebase.
pub fn nodes_may_catch_up()
    ensures at_floor { NodesMayCatchUp }
    ensures rebased { RebasedNodesMayCatchUp }
{
    caught_up_nodes_answer_as_the_log();
    records_are_ordered();
}
