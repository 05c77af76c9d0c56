// The law of keeps that accept every batch. It costs nothing at run time: a function that needs it
// calls it.
ghost use Rattle.reg_pen.specs.Outcomes.{SubmitsPublishOrWait};

use crate::keep::Keep;

/// States what a submit does over a keep that accepts every batch: it publishes the command's step,
/// or its batch stays pending and the reply is unsettled, or memory is refused. Nothing is
/// declined, lost or unknown there.
pub fn submits_publish_or_wait<K: Keep>()
    ensures { SubmitsPublishOrWait K }
{}
