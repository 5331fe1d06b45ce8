ghost use Rattle.dp_laws.specs.GrowthLaws.{SearchKeepsItsPromises};
ghost use Rattle.dp_laws.specs.GrowthLaws.{SearchedCertificatesArePlanned};
ghost use Rattle.dp_laws.specs.GrowthLaws.{FullBoundsAreValues};
ghost use Rattle.dp_laws.specs.GrowthLaws.{LowTreesAreClosed};
ghost use Rattle.dp_laws.specs.GrowthLaws.{ArenasStart};
ghost use Rattle.dp_laws.specs.GrowthLaws.{ArenasGrow};
ghost use Rattle.dp_laws.specs.GrowthLaws.{ArenasAreCounted};

/// A best-first search over the fronts of a model ends with a tree that fits the root front, and
/// that is lean, merged and ruled.
pub fn search_keeps_its_promises()
    ensures { SearchKeepsItsPromises }
{}

/// A certificate of such a search keeps the promises of a plan.
pub fn searched_certificates_are_planned()
    ensures { SearchedCertificatesArePlanned }
{}

/// In exact arithmetic the bound of a full front is the value of the policy that it fixes.
pub fn full_bounds_are_values()
    ensures { FullBoundsAreValues }
{}

/// In exact arithmetic every leaf is at most the lower end where each that is not full is, and so is
/// the value of the policy of each full one.
pub fn low_trees_are_closed()
    ensures { LowTreesAreClosed }
{}

/// One leaf is an arena of one tree.
pub fn arenas_start()
    ensures { ArenasStart }
{}

/// An arena stays one tree where a leaf becomes a step with children.
pub fn arenas_grow()
    ensures { ArenasGrow }
{}

/// The tree of an arena has as many branches and merges as the arena has steps.
pub fn arenas_are_counted()
    ensures { ArenasAreCounted }
{}
