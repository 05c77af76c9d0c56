// The laws of obstacles. What is proved here costs nothing at run time: a function that needs a law calls it.
ghost use Rattle.reg_inspection.specs.Cause.{CausesAreOfOpaque};
ghost use Rattle.reg_inspection.specs.Foreign.{TalliesHaveEach, TalliesRise};
ghost use Rattle.reg_inspection.specs.Obstacles.{NoObstacleIsOpen};
ghost use Rattle.reg_inspection.specs.Shared.{SharedIdsNameTwo, SharedIdsRise};

use reg_fold::two_schemas_is_least;

/// States that a record has a cause exactly if it can't be read.
pub fn causes_are_of_opaque()
    ensures { CausesAreOfOpaque }
{}

/// States that the ids that name two schemas rise, and that an id is among them exactly if two
/// entries with it have different normal texts.
pub fn shared_ids_name_two()
    ensures rise { SharedIdsRise }
    ensures name { SharedIdsNameTwo }
{}

/// States that there is no obstacle exactly if the registry over a log's last records takes
/// commands, and a mark of ids that is due has an offset.
pub fn no_obstacle_is_open()
    ensures { NoObstacleIsOpen }
{
    causes_are_of_opaque();
    shared_ids_name_two();
    two_schemas_is_least();
}

/// States that the keytypes of a tally rise, and that a keytype is in it exactly if it was counted.
pub fn tallies_have_each_keytype()
    ensures rise { TalliesRise }
    ensures each { TalliesHaveEach }
{}
