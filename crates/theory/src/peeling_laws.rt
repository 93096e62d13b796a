// Theorems on peeling, on who is dropped, and on innermost circles.
ghost use Rattle.theory.specs.PeelingLaws.{DroppedAreOwn, InnermostDropsAll, InnermostIsTested, PeelingMeetsCirclesOnce, RoundStaysInComponent};

pub fn peeling_meets_circles_once()
    ensures { PeelingMeetsCirclesOnce }
{}

pub fn round_stays_in_component()
    ensures { RoundStaysInComponent }
{}

pub fn dropped_are_own()
    ensures { DroppedAreOwn }
{}

pub fn innermost_drops_all()
    ensures { InnermostDropsAll }
{}

pub fn innermost_is_tested()
    ensures { InnermostIsTested }
{}
