ghost use Rattle.dp_meaning.specs.MeaningLaws.{LastCoveringChanceWins, LastCoveringRewardWins, OtherChancesAreKept};
ghost use Rattle.dp_meaning.specs.MeaningLaws.{OtherRewardsAreKept, ObservationsAreNearlyGiven, RewardsAreAsGiven};
ghost use Rattle.dp_meaning.specs.MeaningLaws.{RightObservationsAreKept, RightTransitionsAreKept, StartIsNearlyGiven};
ghost use Rattle.dp_meaning.specs.MeaningLaws.{TransitionsAreNearlyGiven, UncoveredObservationsAreZero};
ghost use Rattle.dp_meaning.specs.MeaningLaws.{UncoveredRewardsAreZero, UncoveredTransitionsAreZero};

/// A transition that no statement covers has the chance 0, also in a row that was repaired.
#[tactic(auto, using(crate::proofs::CellLaws::uncovered_transition))]
pub fn uncovered_transitions_are_zero()
    ensures { UncoveredTransitionsAreZero }
{}

/// An observation that no statement covers has the chance 0, also in a row that was repaired.
#[tactic(auto, using(crate::proofs::CellLaws::uncovered_observation))]
pub fn uncovered_observations_are_zero()
    ensures { UncoveredObservationsAreZero }
{}

/// A reward that no statement covers is 0.
#[tactic(auto, using(crate::proofs::CellLaws::uncovered_reward))]
pub fn uncovered_rewards_are_zero()
    ensures { UncoveredRewardsAreZero }
{}

/// The last statement that covers a chance gives it.
#[tactic(auto, using(crate::proofs::CellValues::chance_of_last))]
pub fn last_covering_chance_wins()
    ensures { LastCoveringChanceWins }
{}

/// The last statement that covers a reward gives it.
#[tactic(auto, using(crate::proofs::CellValues::reward_of_last))]
pub fn last_covering_reward_wins()
    ensures { LastCoveringRewardWins }
{}

/// A statement changes no chance that it does not cover.
#[tactic(auto, using(crate::proofs::CellValues::chance_of_others))]
pub fn other_chances_are_kept()
    ensures { OtherChancesAreKept }
{}

/// A statement changes no reward that it does not cover.
#[tactic(auto, using(crate::proofs::CellValues::reward_of_others))]
pub fn other_rewards_are_kept()
    ensures { OtherRewardsAreKept }
{}

/// The transitions of a row that is given with the right sum are the model's.
#[tactic(auto, using(crate::proofs::CellLaws::right_transition))]
pub fn right_transitions_are_kept()
    ensures { RightTransitionsAreKept }
{}

/// The observations of a row that is given with the right sum are the model's.
#[tactic(auto, using(crate::proofs::CellLaws::right_observation))]
pub fn right_observations_are_kept()
    ensures { RightObservationsAreKept }
{}

/// The rewards that are given are the model's.
#[tactic(auto, using(crate::proofs::CellLaws::reward_as_given))]
pub fn rewards_are_as_given()
    ensures { RewardsAreAsGiven }
{}

/// The start chances are those that are given, but for the first of the largest, and the given
/// sum misses the scale by at most a thousandth.
pub fn start_is_nearly_given()
    ensures { StartIsNearlyGiven }
{}

/// The transitions of a row are those that are given, but for the first of the largest, and the
/// given sum misses the scale by at most a thousandth.
pub fn transitions_are_nearly_given()
    ensures { TransitionsAreNearlyGiven }
{}

/// The observations of a row are those that are given, but for the first of the largest, and the
/// given sum misses the scale by at most a thousandth.
pub fn observations_are_nearly_given()
    ensures { ObservationsAreNearlyGiven }
{}
