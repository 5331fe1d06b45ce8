ghost use Rattle.dp_laws.specs.ArithmeticLaws.{ExactArithmeticIsSound, OutwardArithmeticIsSound};
ghost use Rattle.dp_laws.specs.ArithmeticLaws.{ArithmeticIsSound, ExactArithmeticGivesTheNumbers};
ghost use Rattle.dp_laws.specs.ArithmeticLaws.{OutwardArithmeticEnclosesTheNumbers, ArithmeticKeepsZero};
ghost use Rattle.dp_laws.specs.ArithmeticLaws.{ArithmeticEnclosesTheNumbers, RecursionGivesForwardWorth};

/// Each operation of the exact arithmetic gives the true number.
#[tactic(auto, using(crate::proofs::ExactArithmetic::exact_sound))]
pub fn exact_arithmetic_is_sound()
    ensures { ExactArithmeticIsSound }
{}

/// Each operation of the outward arithmetic gives a span round the true number.
pub fn outward_arithmetic_is_sound()
    ensures { OutwardArithmeticIsSound }
{}

/// Each operation of the arithmetic of either mode is sound.
pub fn arithmetic_is_sound()
    ensures { ArithmeticIsSound }
{}

/// In the arithmetic of either mode what has weight 0 or chance 0 adds nothing.
pub fn arithmetic_keeps_zero()
    ensures { ArithmeticKeepsZero }
{}

/// The exact arithmetic gives the number of each exact definition: weights, rewards, worth,
/// table, look-ahead and bound.
#[tactic(auto, using(crate::proofs::QuantityLaws::exact_quantities))]
pub fn exact_arithmetic_gives_the_numbers()
    ensures { ExactArithmeticGivesTheNumbers }
{}

/// The outward arithmetic encloses the number of each exact definition.
#[tactic(auto, using(crate::proofs::QuantityLaws::outward_quantities))]
pub fn outward_arithmetic_encloses_the_numbers()
    ensures { OutwardArithmeticEnclosesTheNumbers }
{}

/// The arithmetic of either mode encloses the number of each exact definition.
#[tactic(auto, using(crate::proofs::QuantityLaws::mode_quantities))]
pub fn arithmetic_encloses_the_numbers()
    ensures { ArithmeticEnclosesTheNumbers }
{}

/// In any arithmetic the recursion that updates weights along the trees gives the
/// forward worth.
#[tactic(auto, using(crate::proofs::Recursion::recursive_worth_is_forward))]
pub fn recursion_gives_forward_worth()
    ensures { RecursionGivesForwardWorth }
{}
