ghost use Rattle.dp_laws.specs.LookAheadLaws.{ActionLookAheadBoundsEveryPolicy, LookAheadBoundsEveryPolicy};
ghost use Rattle.dp_laws.specs.LookAheadLaws.{MoreLookNeverRaises, MoreLookNeverRaisesAction, TableBoundsEveryPolicy};
ghost use Rattle.dp_laws.specs.LookAheadLaws.{LookAheadScales, ActionLookAheadScales};
ghost use Rattle.dp_laws.specs.LookAheadLaws.{ExactLookAheadScales, ExactActionLookAheadScales};

/// No joint policy is worth more from a state than the table of the Markov decision process says.
#[tactic(auto, using(crate::proofs::OneStep::value_le_table))]
pub fn table_bounds_every_policy()
    ensures { TableBoundsEveryPolicy }
{}

/// No joint policy earns more from weights over states than their look-ahead says.
#[tactic(auto, using(crate::proofs::OneStep::value_le_look_ahead))]
pub fn look_ahead_bounds_every_policy()
    ensures { LookAheadBoundsEveryPolicy }
{}

/// No joint policy that begins with a joint action earns more than that action's look-ahead says.
#[tactic(auto, using(crate::proofs::LongerLook::value_under_action))]
pub fn action_look_ahead_bounds_every_policy()
    ensures { ActionLookAheadBoundsEveryPolicy }
{}

/// A longer look gives no greater look-ahead, in exact numbers.
#[tactic(auto, using(crate::proofs::LongerLook::longer_look_le))]
pub fn more_look_never_raises()
    ensures { MoreLookNeverRaises }
{}

/// A longer look gives no greater look-ahead after a joint action, in exact numbers.
#[tactic(auto, using(crate::proofs::LongerLook::longer_look_action_le))]
pub fn more_look_never_raises_action()
    ensures { MoreLookNeverRaisesAction }
{}

/// A factor times the weights gives that factor times the look-ahead, in exact numbers.
pub fn look_ahead_scales()
    ensures { LookAheadScales }
{}

/// The same of the look-ahead after a joint action.
pub fn action_look_ahead_scales()
    ensures { ActionLookAheadScales }
{}

/// A factor times the weights gives that factor times the look-ahead, in the exact arithmetic.
pub fn exact_look_ahead_scales()
    ensures { ExactLookAheadScales }
{}

/// The same of the look-ahead after a joint action.
pub fn exact_action_look_ahead_scales()
    ensures { ExactActionLookAheadScales }
{}
