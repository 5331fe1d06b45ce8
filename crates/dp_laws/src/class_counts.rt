ghost use Rattle.dp_laws.specs.ClassCountLaws.{ClassesAreAtMostOwnHistories};
ghost use Rattle.dp_laws.specs.ClassCountLaws.{JointClassesAreAtMostJointHistories};

/// An agent of a well-formed front has at most one class for each own history of the stage.
pub fn classes_are_at_most_own_histories()
    ensures { ClassesAreAtMostOwnHistories }
{}

/// A well-formed front has at most one joint class for each joint history of the stage.
pub fn joint_classes_are_at_most_joint_histories()
    ensures { JointClassesAreAtMostJointHistories }
{}
