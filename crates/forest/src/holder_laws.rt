// Theorems on holders, and on sums along them.
ghost use Rattle.forest.specs.HolderLaws.{AddingUpIsWhole, HoldersAreSmallest, SizesAddUp};

pub fn holders_are_smallest()
    ensures { HoldersAreSmallest }
{}

pub fn sizes_add_up()
    ensures { SizesAddUp }
{}

pub fn adding_up_is_whole()
    ensures { AddingUpIsWhole }
{}
