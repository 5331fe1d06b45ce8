ghost use Rattle.dp_laws.specs.ForwardLaws.{ValueIsEarned, ValueIsEarnedAndRemaining};

/// The value of a joint policy, defined backwards, is what its own joint actions earn, computed
/// forwards.
#[tactic(auto, using(crate::proofs::EarnedValue::value_is_earned))]
pub fn value_is_earned()
    ensures { ValueIsEarned }
{}

/// The value of a joint policy that keeps a front is what is earned before the front's stage, and
/// the weighted values of what remains.
#[tactic(auto, using(crate::proofs::KeptValue::value_at_front))]
pub fn value_is_earned_and_remaining()
    ensures { ValueIsEarnedAndRemaining }
{}
