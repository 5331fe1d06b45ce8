ghost use Rattle.dp_laws.specs.ReasonLaws.{FittingIsRightNodes, NoReasonWhereValid, FirstReasonIsFound};

/// A tree fits the root front exactly where nothing is wrong at any of its nodes.
pub fn fitting_trees_have_right_nodes()
    ensures { FittingIsRightNodes }
{}

/// A certificate whose horizon and policy are of its version has no reason against it exactly where
/// it is valid.
pub fn valid_certificates_have_no_reason()
    ensures { NoReasonWhereValid }
{}

/// A reason against a certificate is the first exactly where the definitions find what it says: all
/// that is checked before it is right, and what it names, which they give, is not what is stated.
pub fn first_reason_is_what_is_found()
    ensures { FirstReasonIsFound }
{}
