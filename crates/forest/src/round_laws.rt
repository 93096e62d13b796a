// Theorems on the rounds of peeling.
ghost use Rattle.forest.specs.RoundLaws.{RoundsList, InnermostByRounds, PeelingIsRounds, RoundsBySteps, RoundsMeetCirclesOnce};

pub fn rounds_meet_circles_once()
    ensures { RoundsMeetCirclesOnce }
{}

pub fn rounds_by_steps()
    ensures { RoundsBySteps }
{}

pub fn peeling_is_rounds()
    ensures { PeelingIsRounds }
{}

pub fn innermost_by_rounds()
    ensures { InnermostByRounds }
{}

pub fn rounds_list()
    ensures { RoundsList }
{}
