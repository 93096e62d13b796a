// Theorems on joining parts and finding their roots, the last round first.
ghost use Rattle.forest.specs.JoiningLaws.{FindingEndsAtRoot, JoiningStepsBack, RootsEndHolders};

pub fn roots_end_holders()
    ensures { RootsEndHolders }
{}

pub fn joining_steps_back()
    ensures { JoiningStepsBack }
{}

pub fn finding_ends_at_root()
    ensures { FindingEndsAtRoot }
{}
