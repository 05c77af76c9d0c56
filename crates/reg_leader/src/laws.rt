// What is true of every single step. The laws cost nothing at run time: a function that needs a law
// calls it.
ghost use Rattle.reg_leader.specs.OneStep.{BatchesAreRead, BatchesEndByTheLimit, BatchesGoOn, BatchesHaveLines, RefusalsWriteNothing, StepsAreSingle, StepsMeetLevels};

use reg_rules::avro_schema::normal_texts_read_back;
use reg_rules::reg_fold::{entries_are_in_limits, entries_are_read, id_mark_is_in_limits};
use reg_rules::reg_levels::level_verdicts_are_single;
use reg_rules::reg_values::{written_values_have_lines, written_values_read_back};

/// States that a refused command writes nothing.
pub fn refusals_write_nothing()
    ensures { RefusalsWriteNothing }
{}

/// States that a command has one reply and one batch, over one registry at one next offset.
pub fn steps_are_single()
    ensures { StepsAreSingle }
{
    level_verdicts_are_single();
}

/// States that a registration without an id writes nothing, or one version that meets the level in
/// force against the live versions.
pub fn steps_meet_levels()
    ensures { StepsMeetLevels }
{}

/// States that the records of a batch have the offsets from the next one on, without a gap.
pub fn batches_go_on()
    ensures { BatchesGoOn }
{}

/// States that a batch's last offset is within the limit.
pub fn batches_end_by_the_limit()
    ensures { BatchesEndByTheLimit }
{}

/// States that each record of a batch has a line, which reads back to the record unless it is too
/// long to be written.
pub fn batches_have_lines()
    ensures { BatchesHaveLines }
{
    entries_are_in_limits();
    entries_are_read();
    id_mark_is_in_limits();
    normal_texts_read_back();
    written_values_have_lines();
}

/// States that each value of a batch can be read under its key.
pub fn batches_are_read()
    ensures { BatchesAreRead }
{
    entries_are_in_limits();
    entries_are_read();
    id_mark_is_in_limits();
    normal_texts_read_back();
    written_values_read_back();
}
