// The laws of entries, of opaque versions, and of records that give the same. What is proved here
// costs nothing at run time: a function that needs a law calls it.
ghost use Rattle.reg_fold.specs.Entries.{EntriesAreInLimits, EntriesAreOfKeys, EntriesAreOfPlaces, EntriesAreRead};
ghost use Rattle.reg_fold.specs.GiveAlike.{EachGivesAlikeItself, GivingAlikeComposes, GivingAlikeIsSymmetric};
ghost use Rattle.reg_fold.specs.IdMark.{IdMarkIsInLimits};
ghost use Rattle.reg_fold.specs.Opaque.{NoneIsNoOpaqueLast};
ghost use Rattle.reg_fold.specs.Standing.{EntriesStandByVersion, FoundEntriesStand};

use reg_set::{last_is_greatest, last_records_are_enough, records_are_ordered};
use reg_values::values_are_of_keys;

/// States that the text of each entry is a schema's, and that the entry's normal text is that
/// schema's.
pub fn entries_are_read()
    ensures { EntriesAreRead }
{}

/// States that the entry found for a version of a subject is one of the entries.
pub fn found_entries_stand()
    ensures { FoundEntriesStand }
{}

/// States that the entries of a subject are in the order of versions, each version once.
pub fn entries_stand_by_version()
    ensures { EntriesStandByVersion }
{}

/// States that each entry's version and id are within their limits.
pub fn entries_are_in_limits()
    ensures { EntriesAreInLimits }
{
    values_are_of_keys();
}

/// States that the id mark is 0 or an id within its limits.
pub fn id_mark_is_in_limits()
    ensures { IdMarkIsInLimits }
{
    values_are_of_keys();
}

/// States that an entry exists exactly if the last record of its subject and version gives it, and
/// that it has the subject and version of that record's key.
pub fn entries_are_of_places()
    ensures keys { EntriesAreOfKeys }
    ensures stand { EntriesAreOfPlaces }
{
    records_are_ordered();
    last_is_greatest();
    last_records_are_enough();
}

/// States that no version is opaque exactly if no key's last record is opaque.
pub fn none_is_no_opaque_last()
    ensures { NoneIsNoOpaqueLast }
{
    records_are_ordered();
    last_is_greatest();
    last_records_are_enough();
}

/// States that giving alike (the same entries, levels, modes, id mark and least opaque offset) is
/// an equivalence of sets of last records.
pub fn giving_alike_is_an_equivalence()
    ensures itself { EachGivesAlikeItself }
    ensures back { GivingAlikeIsSymmetric }
    ensures across { GivingAlikeComposes }
{}
