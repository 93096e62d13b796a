// Theorems on orders with the ties broken, on lists of members, and on the listing.
ghost use Rattle.theory.specs.ListingLaws.{DataIsLawful, LevelListingIsRight, ListingIsRight, MembersRise, PeelingLists, SmallerNumberIsWeaker, TiesAreBroken};

pub fn ties_are_broken()
    ensures { TiesAreBroken }
{}

pub fn smaller_number_is_weaker()
    ensures { SmallerNumberIsWeaker }
{}

pub fn data_is_lawful()
    ensures { DataIsLawful }
{}

pub fn members_rise()
    ensures { MembersRise }
{}

pub fn level_listing_is_right()
    ensures { LevelListingIsRight }
{}

pub fn listing_is_right()
    ensures { ListingIsRight }
{}

pub fn peeling_lists()
    ensures { PeelingLists }
{}
