// What holds after every command. The laws cost nothing at run time: a function that needs a law
// calls it.
ghost use Rattle.reg_leader.specs.Deletes.{DeletesNameGreatest};
ghost use Rattle.reg_leader.specs.Harmless.{StepsAreHarmless};
ghost use Rattle.reg_leader.specs.StayOpen.{StepsKeepIds, StepsStayOpen};
ghost use Rattle.reg_leader.specs.GivenIds.{EntriesHaveGivenIds, StepsKeepGivenIds};

use reg_rules::avro_schema::normal_texts_read_back;
use reg_rules::reg_fold::{
    entries_are_in_limits, entries_are_of_places, entries_are_read, id_mark_is_in_limits,
    none_is_no_opaque_last, two_schemas_is_least,
};
use reg_rules::reg_set::{
    last_is_greatest, last_records_are_enough, merging_joins_sets, records_are_ordered,
};
use reg_rules::reg_values::written_values_read_back;

/// States what any command writes: records that aren't a version with a value, or such records and
/// then one version whose text is a schema's and whose id names no other schema.
pub fn steps_are_harmless()
    ensures { StepsAreHarmless }
{
    entries_are_in_limits();
    entries_are_read();
    normal_texts_read_back();
    two_schemas_is_least();
}

/// States that a registry that takes commands still does after a command, and that each id names
/// one schema then.
pub fn steps_stay_open()
    ensures stay { StepsStayOpen }
    ensures ids { StepsKeepIds }
{
    entries_are_of_places();
    last_is_greatest();
    merging_joins_sets();
    none_is_no_opaque_last();
    records_are_ordered();
    steps_are_harmless();
    two_schemas_is_least();
    written_values_read_back();
}

/// States that in a registry that takes commands the id of an entry is given to its schema for
/// good: after any command no entry has the id with another schema, and no command gives it to one.
pub fn steps_keep_given_ids()
    ensures entries { EntriesHaveGivenIds }
    ensures kept { StepsKeepGivenIds }
{
    entries_are_in_limits();
    entries_are_of_places();
    entries_are_read();
    id_mark_is_in_limits();
    last_is_greatest();
    last_records_are_enough();
    merging_joins_sets();
    normal_texts_read_back();
    records_are_ordered();
    two_schemas_is_least();
    written_values_read_back();
}

/// States that a batch that soft-deletes a subject is that one record, which names the subject's
/// greatest version.
pub fn deletes_name_greatest()
    ensures { DeletesNameGreatest }
{
    entries_are_in_limits();
}
