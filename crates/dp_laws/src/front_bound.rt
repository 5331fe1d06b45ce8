ghost use Rattle.dp_laws.specs.FrontBoundLaws.{AdvancingNeverRaisesBound, ChoiceNeverRaisesBound};
ghost use Rattle.dp_laws.specs.FrontBoundLaws.{ChoosingNeverRaisesBound, MergingNeverRaisesBound};
ghost use Rattle.dp_laws.specs.FrontBoundLaws.{NoKeepingPolicyAboveBound, NoKeepingPolicyAboveComputedBound};
ghost use Rattle.dp_laws.specs.FrontBoundLaws.{ChoosingNeverRaisesComputedBound, SpreadsAreNeverNegative};
ghost use Rattle.dp_laws.specs.FrontBoundLaws.{SpreadsAreLimited};

/// No policy that keeps a front is worth more than the front's bound, with any look.
#[tactic(auto, using(crate::proofs::KeptBound::keeper_under_bound))]
pub fn no_keeping_policy_above_bound()
    ensures { NoKeepingPolicyAboveBound }
{}

/// The bound of a front does not grow where an unassigned class is given an action, in exact
/// numbers.
#[tactic(auto, using(crate::proofs::ChosenBound::chosen_bound_le))]
pub fn choosing_never_raises_bound()
    ensures { ChoosingNeverRaisesBound }
{}

/// The bound of a front with a look of at least 1 does not grow where a complete front goes on to
/// the next stage, in exact numbers.
#[tactic(auto, using(crate::proofs::AdvancedBound::advanced_bound_le))]
pub fn advancing_never_raises_bound()
    ensures { AdvancingNeverRaisesBound }
{}

/// The bound of a front does not grow where two unassigned classes are merged, equivalent or not,
/// in exact numbers.
#[tactic(auto, using(crate::proofs::MergedBound::merged_bound_le))]
pub fn merging_never_raises_bound()
    ensures { MergingNeverRaisesBound }
{}

/// The bound of a front with a look of at least 1 does not grow by a choice and the advance that
/// may follow, in exact numbers.
#[tactic(auto, using(crate::proofs::BoundOnPath::after_choice_bound_le))]
pub fn choice_never_raises_bound()
    ensures { ChoiceNeverRaisesBound }
{}

/// No policy that keeps a front is worth more than the bound that is computed in the arithmetic of
/// either mode, with any look.
pub fn no_keeping_policy_above_computed_bound()
    ensures { NoKeepingPolicyAboveComputedBound }
{}

/// The bound that is computed in any arithmetic does not grow where an unassigned class is given an
/// action.
pub fn choosing_never_raises_computed_bound()
    ensures { ChoosingNeverRaisesComputedBound }
{}

/// In any arithmetic the spread of an unassigned class, which is how far a choice there may lower the
/// bound, is never negative.
pub fn spreads_are_never_negative()
    ensures { SpreadsAreNeverNegative }
{}

/// In either mode the spread of an unassigned class is at most `2^127`, in outward mode where the
/// front's stage is within the limit of stage cells.
pub fn spreads_are_limited()
    ensures { SpreadsAreLimited }
{}
