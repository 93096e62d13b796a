// Theorems on the tree of a network, and on what is read from it.
ghost use Rattle.forest.specs.TreeLaws.{ChildrenStandLater, EntriesAreCoreNumbers, HolderIsFound, PickingLists, TreeIsRight, VerticesForK, VerticesGatherCircles};

pub fn tree_is_right()
    ensures { TreeIsRight }
{}

pub fn vertices_for_k()
    ensures { VerticesForK }
{}

pub fn entries_are_core_numbers()
    ensures { EntriesAreCoreNumbers }
{}

pub fn vertices_gather_circles()
    ensures { VerticesGatherCircles }
{}

pub fn children_stand_later()
    ensures { ChildrenStandLater }
{}

pub fn picking_lists()
    ensures { PickingLists }
{}

pub fn holder_is_found()
    ensures { HolderIsFound }
{}
