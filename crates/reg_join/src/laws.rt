// What a pen over a chain does. The laws cost nothing at run time: a function that needs one calls
// it.
ghost use Rattle.reg_topic.specs.declared.topic.Topic.{Topic};
ghost use Rattle.reg_join.specs.Ending.{RepliesAreAtTheirPlaces};
ghost use Rattle.reg_join.specs.Joined.{CompactionsStayJoined, DueBatchesAreTaken, OutcomesStandInChain, SubmitsStayJoined};
ghost use Rattle.reg_join.specs.Taking.{LawfulLogsStopNobody};

use reg_chain::Chain;

/// States that a pen's batches stay those that its keep took of what the chain told, in their
/// order, whatever is submitted or compacted.
pub fn pens_follow_their_chain<C: Chain>()
    ensures submits { SubmitsStayJoined C.told C.answers }
    ensures compactions { CompactionsStayJoined C.told }
{}

/// States that the reply to a command, with all that was told taken in, is a step from exactly
/// that, and that the batch which it wrote is right behind in the chain. If there is no reply,
/// memory was refused, a batch isn't settled, or it was declined.
pub fn outcomes_stand_in_the_chain<C: Chain>()
    ensures { OutcomesStandInChain C.told C.answers }
{}

/// States that if a batch is due, a submit adds exactly this batch or none. A command that writes
/// other records stops the keep.
pub fn due_batches_are_taken<C: Chain>()
    ensures { DueBatchesAreTaken C.told C.answers }
{}

/// States that each reply of `submit_joined`, a refusal too, is a step from exactly what the chain
/// had, and that what the step wrote is all that follows it by then. The one exception is the id of
/// a schema that is live here while the chain can't be reached.
pub fn replies_are_at_their_places<C: Chain>()
    ensures { (base : Topic) → RepliesAreAtTheirPlaces C.told C.answers base }
{}

/// States that a lawful log stops no pen: as long as the chain tells what a lawful list over the
/// same base wrote, the pen isn't stopped, whatever was compacted on either side. The premise is
/// that the pen stops only at batches that no command writes.
pub fn lawful_logs_stop_nobody<C: Chain>()
    ensures { LawfulLogsStopNobody C.told }
{}
