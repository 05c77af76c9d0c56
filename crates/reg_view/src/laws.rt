// The law of judgements. It costs nothing at run time: a function that needs it calls it.
ghost use Rattle.reg_view.specs.Alike.{AlikeJudgesAlike};

/// States that two sets of last records that answer alike also judge registrations alike.
pub fn alike_judges_alike()
    ensures { AlikeJudgesAlike }
{}
