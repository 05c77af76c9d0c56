// What the clauses say together.
ghost use Rattle.reg_tail.specs.Looks.{AllIsGivenFromZero, LooksGiveTheFile, PassedLinesAreNotGivenAgain, PassedLinesStand};

/// States that the texts of `begin` and then of `more` are together the file's lines from the
/// offset on (from 0 on, its bytes), if its lines stay; that what was passed outlives each crash
/// after a sync; and that no line is given again in a file that takes its place. Costs nothing at
/// run time.
pub fn looks_give_the_file()
    ensures given { LooksGiveTheFile }
    ensures all { AllIsGivenFromZero }
    ensures outlive { PassedLinesStand }
    ensures once { PassedLinesAreNotGivenAgain }
{}
