ghost use Rattle.dp_laws.specs.FrontStepLaws.{AdvancingKeepsWellFormed, ChoosingKeepsWellFormed};
ghost use Rattle.dp_laws.specs.FrontStepLaws.{FrontAfterChoiceIsWellFormed, KeepingPolicyAdvances};
ghost use Rattle.dp_laws.specs.FrontStepLaws.{KeepingPolicyGoesOn, KeepingPolicyMakesChoice};
ghost use Rattle.dp_laws.specs.FrontStepLaws.{MergingKeepsWellFormed};

/// A well-formed front stays so where an unassigned class is given an action of its agent.
#[tactic(auto, using(crate::proofs::WellFormedSteps::chosen_is_front))]
pub fn choosing_keeps_well_formed()
    ensures { ChoosingKeepsWellFormed }
{}

/// A well-formed front that is complete stays so where it goes on to the next stage.
pub fn advancing_keeps_well_formed()
    ensures { AdvancingKeepsWellFormed }
{}

/// A well-formed front stays so where two unassigned classes are merged.
#[tactic(auto, using(crate::proofs::WellFormedSteps::merged_is_front))]
pub fn merging_keeps_well_formed()
    ensures { MergingKeepsWellFormed }
{}

/// A well-formed front stays so after a choice, and after the advance where it follows.
#[tactic(auto, using(crate::proofs::WellFormedSteps::after_choice_is_front))]
pub fn front_after_choice_is_well_formed()
    ensures { FrontAfterChoiceIsWellFormed }
{}

/// A policy that keeps a front keeps one of its fronts after a choice of any unassigned class.
#[tactic(auto, using(crate::proofs::KeptSteps::keeps_some_choice))]
pub fn keeping_policy_makes_choice()
    ensures { KeepingPolicyMakesChoice }
{}

/// A policy that keeps a complete front keeps the advanced front.
pub fn keeping_policy_advances()
    ensures { KeepingPolicyAdvances }
{}

/// A policy that keeps a front keeps one of its fronts after a choice of any unassigned class, and
/// after the advance where it follows.
#[tactic(auto, using(crate::proofs::KeptSteps::keeps_some_next))]
pub fn keeping_policy_goes_on()
    ensures { KeepingPolicyGoesOn }
{}
