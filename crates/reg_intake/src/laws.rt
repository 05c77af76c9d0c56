// What the first records of a log are. What is proved here costs nothing at run time.
ghost use Rattle.reg_intake.specs.Intake.{FirstRecordsAreOfFirstLines};

/// States that the records of a log's first lines, and then more of all its records in their order,
/// are the records of as many first lines or more. Costs nothing at run time.
pub fn first_records_are_of_first_lines()
    ensures { FirstRecordsAreOfFirstLines }
{}
