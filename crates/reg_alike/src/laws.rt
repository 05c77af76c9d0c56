// The laws of records that answer alike. They cost nothing at run time: a function that needs a law
// calls it.
ghost use Rattle.reg_alike.specs.AnswerAlike.{AlikeAnswersAlike, CompactionsAnswerAlike};
ghost use Rattle.reg_alike.specs.GiveAlike.{CompactionsGiveAlike, NullsGiveNothing, SameStandingGivesAlike};
ghost use Rattle.reg_alike.specs.StepAlike.{CompactionsStepAlike, StepsAlike};

use reg_floored::compactions_keep_what_stands;
use reg_leader::reg_fold::giving_alike_is_an_equivalence;
use reg_leader::reg_set::{last_is_greatest, last_records_are_enough, records_are_ordered};

/// States that last records without a value don't matter: those that have one give the same answers
/// alone.
pub fn nulls_give_nothing()
    ensures { NullsGiveNothing }
{
    records_are_ordered();
    last_is_greatest();
    last_records_are_enough();
}

/// States that two sets of records answer alike if their last records that have a value are the
/// same.
pub fn what_stands_gives_all()
    ensures { SameStandingGivesAlike }
{
    giving_alike_is_an_equivalence();
    nulls_give_nothing();
}

/// States that a set answers as each of its compactions does, at any floor.
pub fn compactions_give_alike()
    ensures { CompactionsGiveAlike }
{
    compactions_keep_what_stands();
    what_stands_gives_all();
}

/// States that sets of last records that answer alike give the same answer to each query, to the
/// byte.
pub fn alike_answers_alike()
    ensures { AlikeAnswersAlike }
{}

/// States that each query has the same answer over a set and over each of its compactions, at any
/// floor.
pub fn compactions_answer_alike()
    ensures { CompactionsAnswerAlike }
{
    compactions_give_alike();
    alike_answers_alike();
}

/// States that over sets of last records that answer alike, each command has the same reply and
/// writes the same batch.
pub fn alike_steps_alike()
    ensures { StepsAlike }
{}

/// States that over a set and over each of its compactions, at any floor, each command has the same
/// reply and writes the same batch.
pub fn compactions_step_alike()
    ensures { CompactionsStepAlike }
{
    compactions_give_alike();
    alike_steps_alike();
}
