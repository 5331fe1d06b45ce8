ghost use Rattle.std.specs.Prelude.{◌≡◌};
ghost use Rattle.std.specs.Fn.{FnReturnsAt};
ghost use Rattle.dp_spec.specs.PolicyTree.{PolicyTree, root_action};
ghost use Rattle.dp_policy.specs.SharedRows.{remaining_after};
ghost use Rattle.dp_sim.specs.Acting.{AnswersTree, HasActionAfter};

/// Who acts for an agent: a rule that answers the agent's own observations so far, the earliest first,
/// with an action. Contracts see the agent and the rule.
#[derive(Drop)]
pub struct Actor<F> {
    agent: u32,
    rule: F,
}

impl<F> std::marker::Model for Actor<F> {
    ghost use Rattle.dp_sim.specs.Acting.{ActorOf};

    ghost Value = { ActorOf F };

    ghost view = { λ a. record { agent = a.agent; rule = a.rule } };
}

impl<F: Fn(&[u32]) -> u32> Actor<F> {
    /// Keeps a rule for an agent. There is a policy tree that the rule answers: it may be called on each
    /// own history after which the tree has an action, and answers that action.
    pub fn new(agent: u32, rule: F) -> Actor<F>
        requires rule { (q : PolicyTree) × AnswersTree F.Fn rule q }
        ensures { result ≡ record { agent = agent; rule = rule } }
    {
        Actor { agent, rule }
    }

    // What the rule answers for an own history. It is handed nothing else.
    pub(crate) fn act(&self, history: &[u32]) -> u32
        requires { (q : PolicyTree) × AnswersTree F.Fn self.now.rule q × HasActionAfter q history.now }
        ensures { (q : PolicyTree) → AnswersTree F.Fn self.now.rule q → HasActionAfter q history.now
            → result ≡ root_action (remaining_after q history.now) }
    {
        (self.rule)(history)
    }
}
