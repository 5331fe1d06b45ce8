ghost use Rattle.dp_laws.specs.ClassStepLaws.{ClassesStepAsHistories};
ghost use Rattle.dp_laws.specs.ClassStepLaws.{ApartClassesStepAsHistories};
ghost use Rattle.dp_laws.specs.ClassStepLaws.{JointClassesHoldHistories};
ghost use Rattle.dp_laws.specs.ClassStepLaws.{AdvancedWeightsAreNextWeights};
ghost use Rattle.dp_laws.specs.ClassStepLaws.{AdvancedEarningsAreRewards};
ghost use Rattle.dp_laws.specs.ClassStepLaws.{KeptClassesKeepWeights};
ghost use Rattle.dp_laws.specs.ClassStepLaws.{JoinedClassesHaveBothWeights};
ghost use Rattle.dp_laws.specs.ClassStepLaws.{PlacedNumbersAreByRow};
ghost use Rattle.dp_laws.specs.ClassStepLaws.{PlaceWeightsAreClassWeights};
ghost use Rattle.dp_laws.specs.ClassStepLaws.{PlaceWeightsAddToTotal};
ghost use Rattle.dp_laws.specs.ClassStepLaws.{ClassWeightsFit};
ghost use Rattle.dp_laws.specs.ClassStepLaws.{ClassTotalsFit};

/// In the arithmetic of either mode a step from the weights of a joint class is the sum of the steps
/// from its joint histories, where in outward mode no two own histories share a class.
pub fn classes_step_as_histories()
    ensures { ClassesStepAsHistories }
{}

/// The same in any arithmetic where no two own histories share a class.
pub fn apart_classes_step_as_histories()
    ensures { ApartClassesStepAsHistories }
{}

/// Each joint class of a well-formed front holds a joint history of its stage.
pub fn joint_classes_hold_histories()
    ensures { JointClassesHoldHistories }
{}

/// The weights of a joint class of the advanced front are those after the joint class and the joint
/// observation that lead to it.
pub fn advanced_weights_are_next_weights()
    ensures { AdvancedWeightsAreNextWeights }
{}

/// The advanced front has earned what was earned before and the rewards of the joint classes.
pub fn advanced_earnings_are_rewards()
    ensures { AdvancedEarningsAreRewards }
{}

/// In exact arithmetic a joint class without the joined class has the weights that it had.
pub fn kept_classes_keep_weights()
    ensures { KeptClassesKeepWeights }
{}

/// In exact arithmetic a joint class with the joined class has the weights of the two together.
pub fn joined_classes_have_both_weights()
    ensures { JoinedClassesHaveBothWeights }
{}

/// The number of a joint class by the class of one agent, the row of the agents before it and the place
/// of those behind it.
pub fn placed_numbers_are_by_row()
    ensures { PlacedNumbersAreByRow }
{}

/// In exact arithmetic a joint class has the weights of its places.
pub fn place_weights_are_class_weights()
    ensures { PlaceWeightsAreClassWeights }
{}

/// The weights of a class at its places add up to its total.
pub fn place_weights_add_to_total()
    ensures { PlaceWeightsAddToTotal }
{}

/// Where a front can be refined, the weights of its joint classes are within 127 bits with a sign.
pub fn class_weights_fit()
    ensures { ClassWeightsFit }
{}

/// In exact mode the totals of classes are within 127 bits.
pub fn class_totals_fit()
    ensures { ClassTotalsFit }
{}
