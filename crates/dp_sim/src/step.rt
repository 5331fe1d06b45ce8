//! What happens in an episode.

use dp_model::Sequence;

/// A step: the joint action that is done, the state and the joint observation that follow, and the
/// reward, in units of one over the reward scale.
#[derive(Clone, Copy, Default)]
pub struct SimStep {
    pub action: u32,
    pub next: u32,
    pub seen: u32,
    pub reward: i64,
}

/// An episode: the state in which it starts, its steps, and the sum of their rewards without discount,
/// in units of one over the reward scale.
///
/// Contracts see the episode of the definitions.
#[derive(Drop)]
pub struct Trace {
    pub start: u32,
    pub steps: Sequence<SimStep>,
    pub total: i128,
}

impl std::marker::Model for Trace {
    ghost use Rattle.dp_sim.specs.Traces.{Episode};

    ghost Value = { Episode };

    ghost view = { λ t. record { start = t.start; steps = t.steps; total = t.total } };
}
