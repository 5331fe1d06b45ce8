ghost use Rattle.dp_laws.specs.SizeLaws.{ModeAllowsWeightUpdates, ModeAllowsRewards, ModeAllowsTable};
ghost use Rattle.dp_laws.specs.SizeLaws.{ModeAllowsLookAhead, HistoryWeightsAreWithinBound};
ghost use Rattle.dp_laws.specs.SizeLaws.{ModeAllowsWorth, ModeAllowsSharedWorth, ModeAllowsRefining};

/// In either mode the weights of the start, and from weights within the sum bound those of the
/// next time, are computed by allowed calls and stay within 127 bits with a sign.
pub fn mode_allows_weight_updates()
    ensures { ModeAllowsWeightUpdates }
{}

/// In either mode the reward of a joint action, from weights within the sum bound, is computed by
/// allowed calls and within 127 bits with a sign.
#[tactic(auto, using(crate::proofs::SizeLaws::mode_can_reward))]
pub fn mode_allows_rewards()
    ensures { ModeAllowsRewards }
{}

/// In either mode the table of the Markov decision process is computed by allowed calls and within
/// 127 bits with a sign.
#[tactic(auto, using(crate::proofs::SizeLaws::mode_can_tabulate))]
pub fn mode_allows_table()
    ensures { ModeAllowsTable }
{}

/// In either mode look-ahead, from weights within the sum bound, is computed by allowed calls and
/// within 127 bits with a sign.
#[tactic(auto, using(crate::proofs::SizeLaws::mode_can_look_ahead))]
pub fn mode_allows_look_ahead()
    ensures { ModeAllowsLookAhead }
{}

/// In either mode the weights of a joint history are within the sum bound of its time.
pub fn history_weights_are_within_bound()
    ensures { HistoryWeightsAreWithinBound }
{}

/// In exact mode always, and in outward mode within the limit of stage cells, the worth of a joint
/// policy can be added up.
pub fn mode_allows_worth()
    ensures { ModeAllowsWorth }
{}

/// In either mode the weights of the joint rows of a shared policy are within the sum bound of their
/// stages, and they and what they earn can be added up.
pub fn mode_allows_shared_worth()
    ensures { ModeAllowsSharedWorth }
{}

/// In exact mode always, and in outward mode where the stage of a front is within the limit of stage
/// cells, the front can be bounded and advanced.
pub fn mode_allows_refining()
    ensures { ModeAllowsRefining }
{}
