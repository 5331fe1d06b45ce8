ghost use Rattle.dp_laws.specs.RootFrontLaws.{EveryPolicyKeepsTheRootFront, RootFrontIsWellFormed};

/// The root front of a model is well formed, for every horizon.
pub fn root_front_is_well_formed()
    ensures { RootFrontIsWellFormed }
{}

/// Every joint policy keeps the root front.
#[tactic(auto, using(crate::proofs::RootFront::policy_keeps_root))]
pub fn every_policy_keeps_the_root_front()
    ensures { EveryPolicyKeepsTheRootFront }
{}
