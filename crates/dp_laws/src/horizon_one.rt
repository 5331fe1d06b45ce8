ghost use Rattle.dp_laws.specs.HorizonOneLaws.{ConstantPolicyIsPolicy, RootBoundIsBestConstantAction};

/// A constant policy is a joint policy of the model.
#[tactic(auto, using(crate::proofs::ConstantPolicies::constant_policy_fits))]
pub fn constant_policy_is_policy()
    ensures { ConstantPolicyIsPolicy }
{}

/// At a horizon of one step the bound of the root front, with any look, is the greatest value of a
/// constant joint action, in exact numbers.
#[tactic(auto, using(crate::proofs::ConstantPolicies::root_bound_at_one))]
pub fn root_bound_is_best_constant_action()
    ensures { RootBoundIsBestConstantAction }
{}
