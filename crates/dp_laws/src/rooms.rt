ghost use Rattle.dp_laws.specs.RoomLaws.{WideningIsWantOfRoom, RootFrontHasRoom, ChoiceKeepsRoom};
ghost use Rattle.dp_laws.specs.RoomLaws.{MergingKeepsRoom, RootFrontKeepsApart, ChoiceKeepsApart};
ghost use Rattle.dp_laws.specs.RoomLaws.{ApartFrontsAreWithinStageCells, NodesHaveRoom};
ghost use Rattle.dp_laws.specs.RoomLaws.{ChoosingKeepsApart, AdvancingKeepsApart, ApartFrontsHaveAClassEach};
ghost use Rattle.dp_laws.specs.RoomLaws.{NodesKeepApartWithoutMerges, NoNodeIsWideInVersionOne};

/// A front widens exactly where a step is left after the next one and the front after a choice and
/// the advance has no room.
#[tactic(auto, using(crate::proofs::FrontRoom::widens_is))]
pub fn widening_is_want_of_room()
    ensures { WideningIsWantOfRoom }
{}

/// The root front has room. So have the fronts after a choice at a node that is not wide, and those
/// after a merge.
#[tactic(auto, using(crate::proofs::FrontRoom::root_has_room, crate::proofs::FrontRoom::choice_keeps_room, crate::proofs::FrontRoom::merging_keeps_room))]
pub fn steps_keep_room()
    ensures root { RootFrontHasRoom }
    ensures choice { ChoiceKeepsRoom }
    ensures merge { MergingKeepsRoom }
{}

/// The root front keeps own histories apart, a choice and the advance that may follow keep them
/// apart, and then a front with room is within the limit of stage cells.
#[tactic(auto, using(crate::proofs::FrontRoom::root_apart, crate::proofs::FrontRoom::after_choice_apart, crate::proofs::FrontRoom::apart_within_cells))]
pub fn choices_keep_histories_apart()
    ensures root { RootFrontKeepsApart }
    ensures choice { ChoiceKeepsApart }
    ensures cells { ApartFrontsAreWithinStageCells }
{}

/// A choice alone keeps own histories apart.
#[tactic(auto, using(crate::proofs::FrontRoom::chosen_keeps_apart))]
pub fn choosing_keeps_histories_apart()
    ensures { ChoosingKeepsApart }
{}

/// So does an advance alone.
#[tactic(auto, using(crate::proofs::FrontRoom::advanced_keeps_apart))]
pub fn advancing_keeps_histories_apart()
    ensures { AdvancingKeepsApart }
{}

/// A front that keeps own histories apart has as many joint classes as its stage has joint histories.
pub fn apart_fronts_have_a_class_each()
    ensures { ApartFrontsHaveAClassEach }
{}

/// The front of each node of a tree that fits the root front is well formed and has room.
pub fn nodes_have_room()
    ensures { NodesHaveRoom }
{}

/// Where nothing may be merged, the front of each such node keeps own histories apart.
pub fn nodes_keep_apart_without_merges()
    ensures { NodesKeepApartWithoutMerges }
{}

/// Within the limits of version 1 no node of a tree that fits the root front is wide.
pub fn no_node_is_wide_in_version_one()
    ensures { NoNodeIsWideInVersionOne }
{}
