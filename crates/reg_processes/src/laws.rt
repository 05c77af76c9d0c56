// What processes over one chain agree on. The laws cost nothing at run time: a function that needs
// a law calls it.
ghost use Rattle.reg_processes.specs.Laws.{AnswersAreOfTheWhole, FrontsTakePart, IdsAreForTwo, KeptSetsBegin, LawfulListsTakePart, LogsAreCompactions, NoIdNamesTwoSchemas, RegistriesGiveTheWhole, SameLogsAnswerAlike, SameLogsGiveAlike, SameLogsGiveSameBytes, SameLogsStepAlike, StepsAreOfTheWhole};

use reg_alike::reg_floored::{compactions_compose, compactions_unite};
use reg_alike::reg_fold::giving_alike_is_an_equivalence;
use reg_alike::reg_leader::{batches_go_on, steps_keep_given_ids, steps_stay_open};
use reg_alike::reg_lookup::queries_have_one_answer;
use reg_alike::reg_set::records_are_ordered;
use reg_alike::{alike_answers_alike, alike_steps_alike, compactions_give_alike};
use reg_topic::{
    commits_follow, floors_stay_below, kept_sets_are_compactions, lawful_lists_keep_ids,
    lists_are_joined, log_is_what_was_published,
};

/// States that a process takes part in its chain at each moment since its base.
pub fn fronts_take_part()
    ensures { FrontsTakePart }
{
    lists_are_joined();
}

/// States that the log of a process is a compaction of the batches that it took, at its base's
/// floor.
pub fn logs_are_compactions_of_the_chain()
    ensures { LogsAreCompactions }
{
    records_are_ordered();
    batches_go_on();
    commits_follow();
    compactions_unite();
    log_is_what_was_published();
}

/// States that a process answers and decides as a registry over all records of the batches that it
/// took, whatever its base forgot and whatever it compacted.
pub fn registries_are_of_the_chain()
    ensures give { RegistriesGiveTheWhole }
    ensures answer { AnswersAreOfTheWhole }
    ensures step { StepsAreOfTheWhole }
{
    logs_are_compactions_of_the_chain();
    compactions_give_alike();
    alike_answers_alike();
    alike_steps_alike();
}

/// States that processes that took as many batches of one chain answer each query alike and decide
/// each command alike, whatever their bases and whatever each of them compacted.
pub fn same_logs_give_alike()
    ensures alike { SameLogsGiveAlike }
    ensures answers { SameLogsAnswerAlike }
    ensures steps { SameLogsStepAlike }
{
    registries_are_of_the_chain();
    giving_alike_is_an_equivalence();
    alike_answers_alike();
    queries_have_one_answer();
    alike_steps_alike();
}

/// States that the bytes of their responses are the same too.
pub fn same_logs_give_same_bytes()
    ensures { SameLogsGiveSameBytes }
{
    same_logs_give_alike();
}

/// States that no id names two schemas in any two processes of one chain, at any moments, if each
/// batch of the chain was decided by some process. The same holds of two processes alone if
/// neither's base is ahead of the other.
pub fn no_id_names_two_schemas()
    ensures among { NoIdNamesTwoSchemas }
    ensures of_two { IdsAreForTwo }
{
    records_are_ordered();
    batches_go_on();
    commits_follow();
    fronts_take_part();
    lists_are_joined();
    same_logs_give_alike();
    steps_keep_given_ids();
    steps_stay_open();
}

/// States that such processes exist: each lawful list is one's, and what a process kept begins
/// another.
pub fn processes_exist()
    ensures lists { LawfulListsTakePart }
    ensures kept { KeptSetsBegin }
{
    records_are_ordered();
    batches_go_on();
    commits_follow();
    compactions_compose();
    compactions_give_alike();
    floors_stay_below();
    kept_sets_are_compactions();
    lawful_lists_keep_ids();
    logs_are_compactions_of_the_chain();
    steps_stay_open();
}
