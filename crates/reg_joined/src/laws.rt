// What pens over one chain agree on. The laws cost nothing at run time: a function that needs one
// calls it.
ghost use Rattle.reg_joined.specs.Pens.{DesksGiveSameBytes, DesksStepAlike, LevelPensTookAll, NewPensJoin, NoIdNamesTwoWithPens, PensGiveSameBytes, PensTakePart, ReadersTakePart};

use reg_chain::Chain;
use reg_processes::{
    fronts_take_part, no_id_names_two_schemas, same_logs_give_alike, same_logs_give_same_bytes,
};
use reg_topic::lawful_items_follow;

/// States that a pen takes part in the chain: what it has published and what is pending, and what
/// its readers see, is what a prefix of the chain's batches comes to. If all that was told is
/// taken, this is all of it. A new pen takes part too.
pub fn pens_take_part<C: Chain>()
    ensures pens { PensTakePart C.told }
    ensures readers { ReadersTakePart C.told }
    ensures level { LevelPensTookAll C.told }
    ensures begin { NewPensJoin C.told }
{
    fronts_take_part();
    lawful_items_follow();
}

/// States that readers of two pens that have published as many batches answer a query by the same
/// bytes, and that no id names two schemas with any two of them. The pens' chains may be of
/// different kinds.
pub fn pens_say_the_same<C: Chain, D: Chain>()
    ensures bytes { PensGiveSameBytes C.told D.told }
    ensures ids { NoIdNamesTwoWithPens C.told D.told }
{
    pens_take_part::<C>();
    pens_take_part::<D>();
    no_id_names_two_schemas();
    same_logs_give_same_bytes();
}

/// States the theorem of many processes for desks, each of which has seen a prefix of its pen's
/// list: if two prefixes have as many batches of the log, the desks answer a query by the same
/// bytes, and decide a command alike, refusals too.
pub fn desks_say_the_same<C: Chain, D: Chain>()
    ensures bytes { DesksGiveSameBytes C.told D.told }
    ensures steps { DesksStepAlike C.told D.told }
{
    pens_take_part::<C>();
    pens_take_part::<D>();
    fronts_take_part();
    same_logs_give_same_bytes();
    same_logs_give_alike();
}
