ghost use Rattle.dp_laws.specs.TreeDepthLaws.{PathsBelowAFrontAreShort, PathsBelowTheRootAreShort};
ghost use Rattle.dp_laws.specs.TreeDepthLaws.{PathsBelowTheRootAreLimited};
ghost use Rattle.dp_laws.specs.TreeDepthLaws.{PathsOfValidTreesAreShort, FittingBranchesAreSmall};

/// On a path of a tree that fits a well-formed front there are at most as many inner nodes as own
/// histories from the front's stage on.
#[tactic(auto, using(crate::proofs::TreeDepth::depth_below))]
pub fn paths_below_a_front_are_short()
    ensures { PathsBelowAFrontAreShort }
{}

/// On a path of a tree that fits the root front there are at most as many inner nodes as own
/// histories shorter than the horizon.
#[tactic(auto, using(crate::proofs::TreeDepth::root_depth))]
pub fn paths_below_the_root_are_short()
    ensures { PathsBelowTheRootAreShort }
{}

/// At any horizon there are at most 2048 inner nodes on a path of a tree that fits the root front.
#[tactic(auto, using(crate::proofs::TreeDepth::root_depth_limit))]
pub fn paths_below_the_root_are_limited()
    ensures { PathsBelowTheRootAreLimited }
{}

/// On a path of a valid certificate's tree there are at most 2048 inner nodes.
#[tactic(auto, using(crate::proofs::TreeDepth::valid_depth))]
pub fn paths_of_valid_trees_are_short()
    ensures { PathsOfValidTreesAreShort }
{}

/// Each branch of a tree that fits the root front has from 1 to 256 children.
#[tactic(auto, using(crate::proofs::SmallBranches::fitting_branches))]
pub fn fitting_branches_are_small()
    ensures { FittingBranchesAreSmall }
{}
