use crate::Name;
use dp_base::Memory;

/// What a command is to do, with which files and options.
#[derive(Drop)]
pub enum Job {
    /// A plan for a model.
    Plan(PlanJob),
    /// The value of a joint policy.
    Value(ValueJob),
    /// The check of a certificate.
    Check(CheckJob),
    /// The policy of a certificate, in names.
    Show(ShowJob),
    /// Episodes of the policy of a certificate.
    Sim(SimJob),
    /// A model made from a seed.
    Make(MakeJob),
    /// The tables of a model.
    Print(PrintJob),
    /// A plan for a model made from a seed.
    Trial(TrialJob),
}

/// A plan for the model: the version of its certificate's text, its horizon, the budget of inner
/// nodes of the bound tree, the steps of look-ahead in its bounds, whether equivalent classes are
/// merged, and the order in which the search takes the places of a front.
#[derive(Drop)]
pub struct PlanJob {
    pub model: Name,
    pub version: u32,
    pub horizon: u32,
    pub nodes: u32,
    pub look: u32,
    pub merge: bool,
    pub order: OrderWord,
}

/// The value of the joint policy of a policy file for the model of a model file.
#[derive(Drop)]
pub struct ValueJob {
    pub model: Name,
    pub policy: Name,
}

/// The check of the certificate of a second file against the model of a model file.
#[derive(Drop)]
pub struct CheckJob {
    pub model: Name,
    pub cert: Name,
}

/// The policy of the certificate of a second file, in the names of the model of a model file.
#[derive(Drop)]
pub struct ShowJob {
    pub model: Name,
    pub cert: Name,
}

/// Episodes of the policy of the certificate of a second file, in the model of a model file: how
/// many, and the seed of the generator that draws them.
#[derive(Drop)]
pub struct SimJob {
    pub model: Name,
    pub cert: Name,
    pub seed: u64,
    pub episodes: u32,
}

/// A model made from a seed: its numbers of agents and of states, and how many actions and observations each
/// agent has.
#[derive(Clone, Copy, Debug, PartialEq, Eq)]
pub struct MakeJob {
    pub seed: u64,
    pub agents: u32,
    pub states: u32,
    pub actions: u32,
    pub observations: u32,
}

/// The tables of the model of a model file.
#[derive(Drop)]
pub struct PrintJob {
    pub model: Name,
}

/// A plan, with merging and by the order of the first place, for a model made from a seed: its horizon, the
/// budget of inner nodes of the bound tree, and the steps of look-ahead in its bounds.
#[derive(Drop)]
pub struct TrialJob {
    pub made: MakeJob,
    pub horizon: u32,
    pub nodes: u32,
    pub look: u32,
}

/// The place of a front at which a plan's search branches.
#[derive(Clone, Copy, Debug, PartialEq, Eq)]
pub enum OrderWord {
    /// The first place.
    First,
    /// The first place of greatest weight.
    Heavy,
    /// The first place of greatest spread.
    Spread,
}

/// Why the words gave no job.
#[derive(Clone, Copy, Debug, PartialEq, Eq)]
pub enum WordFault {
    /// They ask for none.
    Usage,
    /// Memory ran out.
    Memory,
}

impl From<Memory> for WordFault {
    ghost use Rattle.std.specs.Prelude.{◌≡◌};
    ghost use Rattle.dp_words.specs.declared.job.WordFault.TheVariants as faults;

    ghost from_gives = { λ _ fault. fault ≡ faults.Memory };

    fn from(_: Memory) -> WordFault {
        WordFault::Memory
    }
}
