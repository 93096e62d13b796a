// The bow tie and two pairs, computed and turned into theorems, and the tempting errors refuted.
ghost use Rattle.theory.specs.Example.{BowTieCoreNumbers, BowTieListed, FallenNeighbourCounts, PairsListed, TriangleIsNoCircle, TwoPartsAreNoCircle};

pub fn bow_tie_core_numbers()
    ensures { BowTieCoreNumbers }
{}

pub fn bow_tie_listed()
    ensures { BowTieListed }
{}

pub fn pairs_listed()
    ensures { PairsListed }
{}

pub fn triangle_is_no_circle()
    ensures { TriangleIsNoCircle }
{}

pub fn two_parts_are_no_circle()
    ensures { TwoPartsAreNoCircle }
{}

pub fn fallen_neighbour_counts()
    ensures { FallenNeighbourCounts }
{}
