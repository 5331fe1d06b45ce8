ghost use Rattle.std.specs.Prelude.{◌≡◌};
ghost use Rattle.std.specs.Result.{result_err};
ghost use Rattle.dp_model.specs.Limits.{greatest_allowed, limit_word, passed_by};

/// What is counted, and has a greatest allowed count.
///
/// The limits keep every table and every number of a run within its type. Where several are
/// passed at one step, the first in this order is answered.
#[derive(Clone, Copy, Debug, PartialEq, Eq)]
pub enum Limit {
    /// The agents: 6.
    Agents,
    /// The states: 256.
    States,
    /// The joint actions, the product of the agents' numbers of actions: 256.
    JointActions,
    /// The joint observations, the product of the agents' numbers of observations: 256.
    JointObservations,
    /// The chances of next states, by joint action, state and next state: 2^22.
    TransCells,
    /// The chances of joint observations, by joint action, next state and joint observation: 2^22.
    ObsCells,
    /// The rewards, by joint action, state, next state and joint observation: 2^28.
    RewardCells,
    /// The reward statements of a model file: 65,536.
    RewardLines,
    /// The common scale of the start chances, of the transitions or of the observations: 2^62.
    Scale,
    /// The steps of a policy: 16, and 24 in a certificate of version 2.
    Horizon,
    /// The own histories shorter than the horizon, of all agents together: 2,048.
    OwnHistories,
    /// The states times the joint histories of the last stage: 2^22.
    StageCells,
    /// The joint actions times the joint histories of the last stage: 2^24.
    GameCells,
    /// The budget of inner nodes of a bound tree: 1,000,000.
    Nodes,
    /// That budget times the greatest number of actions of an agent: 2^22.
    TreeNodes,
    /// The states times the joint rows of a stage of a policy with shared rows: 2^22.
    PolicyCells,
    /// The inner nodes on a path of a bound tree: 2,048.
    Depth,
    /// The bytes of a model file: 2^26.
    ModelBytes,
    /// The bytes of a second file: 2^28.
    FileBytes,
    /// The bytes of a model table text: 2^28.
    TextBytes,
}

impl Limit {
    /// The limit's word in a printed line.
    pub fn word(self) -> &'static str
        ensures { result.now ≡ limit_word self }
    {
        match self {
            Limit::Agents => "agents",
            Limit::States => "states",
            Limit::JointActions => "joint-actions",
            Limit::JointObservations => "joint-observations",
            Limit::TransCells => "trans-cells",
            Limit::ObsCells => "obs-cells",
            Limit::RewardCells => "reward-cells",
            Limit::RewardLines => "reward-lines",
            Limit::Scale => "scale",
            Limit::Horizon => "horizon",
            Limit::OwnHistories => "own-histories",
            Limit::StageCells => "stage-cells",
            Limit::GameCells => "game-cells",
            Limit::Nodes => "nodes",
            Limit::TreeNodes => "tree-nodes",
            Limit::PolicyCells => "policy-cells",
            Limit::Depth => "depth",
            Limit::ModelBytes => "model-bytes",
            Limit::FileBytes => "file-bytes",
            Limit::TextBytes => "text-bytes",
        }
    }

    /// The greatest count that it allows.
    pub fn greatest_allowed(self) -> u128
        ensures { result ≡ greatest_allowed self }
    {
        match self {
            Limit::Agents => 6,
            Limit::States | Limit::JointActions | Limit::JointObservations => 256,
            Limit::TransCells
            | Limit::ObsCells
            | Limit::StageCells
            | Limit::TreeNodes
            | Limit::PolicyCells => 1 << 22,
            Limit::RewardCells | Limit::FileBytes | Limit::TextBytes => 1 << 28,
            Limit::RewardLines => 65_536,
            Limit::Scale => 1 << 62,
            Limit::Horizon => 16,
            Limit::OwnHistories | Limit::Depth => 2048,
            Limit::GameCells => 1 << 24,
            Limit::Nodes => 1_000_000,
            Limit::ModelBytes => 1 << 26,
        }
    }

    /// The limit is passed where the count is more than it allows: `TooLarge` names it with that
    /// count.
    pub fn check(self, count: u128) -> Result<(), TooLarge>
        ensures { result_err result ≡ passed_by self count }
    {
        if count > self.greatest_allowed() {
            Err(TooLarge { what: self, count })
        } else {
            Ok(())
        }
    }
}

/// A limit that was passed, and the count that passed it.
#[derive(Clone, Copy, Debug, PartialEq, Eq)]
pub struct TooLarge {
    pub what: Limit,
    pub count: u128,
}
