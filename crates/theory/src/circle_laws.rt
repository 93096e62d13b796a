// Theorems on circles; one that holds as published and where persons may be level says both, in two clauses that read at once.
ghost use Rattle.theory.specs.CircleLaws.{ApartOrNested, CircleFormsAgree, CirclesAreComponents, CoreNumberTellsCircles, NestedByK};
ghost use Rattle.theory.specs.Circles.{Circle, LevelCircle};
ghost use Rattle.theory.specs.Orders.{Order, StrictOrder};

pub fn circle_forms_agree()
    ensures { CircleFormsAgree }
{}

pub fn circles_are_components()
    ensures published { CirclesAreComponents Circle StrictOrder }
    ensures level { CirclesAreComponents LevelCircle Order }
{}

pub fn circles_are_apart_or_nested()
    ensures published { ApartOrNested Circle StrictOrder }
    ensures level { ApartOrNested LevelCircle Order }
{}

pub fn circles_are_nested_by_k()
    ensures published { NestedByK Circle StrictOrder }
    ensures level { NestedByK LevelCircle Order }
{}

pub fn core_number_tells_circles()
    ensures published { CoreNumberTellsCircles Circle StrictOrder }
    ensures level { CoreNumberTellsCircles LevelCircle Order }
{}
