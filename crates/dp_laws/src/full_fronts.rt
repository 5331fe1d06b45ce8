ghost use Rattle.dp_laws.specs.FullFrontLaws.{FullFrontEarnsTheValue, FullFrontHasOnePolicy};
ghost use Rattle.dp_laws.specs.FullFrontLaws.{FullPolicyKeepsItsFront};

/// What a well-formed full front fixes is a joint policy, and keeps the front.
pub fn full_policy_keeps_its_front()
    ensures { FullPolicyKeepsItsFront }
{}

/// Two joint policies of at least one step that keep one full front are equal.
#[tactic(auto, using(crate::proofs::FullPolicies::full_front_keepers_equal))]
pub fn full_front_has_one_policy()
    ensures { FullFrontHasOnePolicy }
{}

/// The value of a joint policy that keeps a full front is what the front earns.
#[tactic(auto, using(crate::proofs::KeptValue::value_at_full_front))]
pub fn full_front_earns_the_value()
    ensures { FullFrontEarnsTheValue }
{}
