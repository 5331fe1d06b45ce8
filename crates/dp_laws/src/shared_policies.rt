ghost use Rattle.dp_laws.specs.SharedLaws.{SharedRowsMeanAPolicy, ExactSharedWorthIsTheValue};
ghost use Rattle.dp_laws.specs.SharedLaws.{SharedWorthEnclosesTheValue, PlainFormMeansThePolicy};
ghost use Rattle.dp_laws.specs.SharedLaws.{PlainPolicyIsItsPlainForm, PlainWorthIsForwardWorth};
ghost use Rattle.dp_laws.specs.SharedLaws.{SharedFormMeansThePolicy, ReducedRowsAreASharedForm};
ghost use Rattle.dp_laws.specs.SharedLaws.{PlainFormHasTheForwardWorth, ConstantRowsAreASharedForm};
ghost use Rattle.dp_laws.specs.SharedLaws.{SharedCellsPassNoLimit, HistoriesReachTheirRows, RowsAreFew};

/// The rows of a shared policy mean a joint policy.
#[tactic(auto, using(crate::proofs::SharedTrees::unfolded_is_policy))]
pub fn shared_rows_mean_a_policy()
    ensures { SharedRowsMeanAPolicy }
{}

/// In exact arithmetic the worth of a shared policy is the value of what its rows mean.
#[tactic(auto, using(crate::proofs::SharedLaws::exact_shared_worth))]
pub fn exact_shared_worth_is_the_value()
    ensures { ExactSharedWorthIsTheValue }
{}

/// In either mode the worth of a shared policy encloses the value of what its rows mean.
#[tactic(auto, using(crate::proofs::SharedLaws::shared_worth_in_mode))]
pub fn shared_worth_encloses_the_value()
    ensures { SharedWorthEnclosesTheValue }
{}

/// Within the limit of stage cells the plain form of a joint policy is a shared policy, is plain,
/// and means the policy.
pub fn plain_form_means_the_policy()
    ensures { PlainFormMeansThePolicy }
{}

/// A plain shared policy is the plain form of what its rows mean.
#[tactic(auto, using(crate::proofs::PlainForms::plain_is_form))]
pub fn plain_policy_is_its_plain_form()
    ensures { PlainPolicyIsItsPlainForm }
{}

/// In any arithmetic the worth of a plain shared policy is the forward worth of what its rows mean.
#[tactic(auto, using(crate::proofs::PlainWorth::plain_worth_is_forward))]
pub fn plain_worth_is_forward_worth()
    ensures { PlainWorthIsForwardWorth }
{}

/// The shared form of what the rows of a shared policy mean is a shared policy, means the same, and
/// is a shared form.
pub fn shared_form_means_the_policy()
    ensures { SharedFormMeansThePolicy }
{}

/// A shared policy whose rows differ at each stage and are reached in order is a shared form.
#[tactic(auto, using(crate::proofs::ReducedRows::reduced_is_form))]
pub fn reduced_rows_are_a_shared_form()
    ensures { ReducedRowsAreASharedForm }
{}

/// Within the limit of stage cells the worth of a joint policy's plain form is its forward worth, in
/// any arithmetic.
#[tactic(auto, using(crate::proofs::SharedLaws::plain_form_worth))]
pub fn plain_form_has_the_forward_worth()
    ensures { PlainFormHasTheForwardWorth }
{}

/// The rows of a constant joint policy are a shared policy, mean it, and are a shared form.
pub fn constant_rows_are_a_shared_form()
    ensures { ConstantRowsAreASharedForm }
{}

/// The cells of the stages of a shared policy pass no limit.
pub fn shared_cells_pass_no_limit()
    ensures { SharedCellsPassNoLimit }
{}

/// After each own history shorter than the horizon an agent does the action of the row that the
/// history reaches.
pub fn histories_reach_their_rows()
    ensures { HistoriesReachTheirRows }
{}

/// At each stage of a shared policy there is a joint row, and there are at most 2^22, so that no
/// agent has more rows.
pub fn rows_are_few()
    ensures { RowsAreFew }
{}
