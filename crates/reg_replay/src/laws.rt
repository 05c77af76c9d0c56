// The law of candidates. It costs nothing at run time: a function that needs it calls it.
ghost use Rattle.reg_replay.specs.Complete.{BatchesAreOfCandidates};

use reg_leader::avro_schema::normal_texts_read_back;
use reg_leader::reg_fold::{entries_are_in_limits, entries_are_of_places, entries_are_read};
use reg_leader::reg_values::written_values_read_back;

/// States that if any command's step writes a batch, the candidate's step does too: the same batch,
/// from the same records, at the same offset, whatever the reply. So a log that commands wrote is
/// never refused for lack of a candidate.
pub fn batches_are_of_candidates()
    ensures { BatchesAreOfCandidates }
{
    entries_are_in_limits();
    entries_are_of_places();
    entries_are_read();
    normal_texts_read_back();
    written_values_read_back();
}
