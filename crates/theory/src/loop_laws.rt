// Theorems that the loops of a finder rest on.
ghost use Rattle.theory.specs.LoopLaws.{CascadeEndsAtCore, CascadeKeepsCore, CoreNumberIsMet, DegreeByList, DegreeFallsByOne, SearchEndsAtComponent};

pub fn cascade_ends_at_core()
    ensures { CascadeEndsAtCore }
{}

pub fn cascade_keeps_core()
    ensures { CascadeKeepsCore }
{}

pub fn search_ends_at_component()
    ensures { SearchEndsAtComponent }
{}

pub fn core_number_is_met()
    ensures { CoreNumberIsMet }
{}

pub fn degree_falls_by_one()
    ensures { DegreeFallsByOne }
{}

pub fn degree_by_list()
    ensures { DegreeByList }
{}
