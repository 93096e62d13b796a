// The tree of the bow tie, computed and turned into a theorem.
ghost use Rattle.forest.specs.Example.{BowTieTree};

pub fn bow_tie_tree()
    ensures { BowTieTree }
{}
