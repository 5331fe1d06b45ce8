//! What a model is built from, besides its names and scales.
use crate::Sequence;

/// How many states, and for each agent how many actions and observations.
#[derive(Drop)]
pub struct Sizes {
    pub states: u32,
    pub actions: Sequence<u32>,
    pub observations: Sequence<u32>,
}

/// The tables of a model, as whole numbers over its scales. With `S` states and `O` joint
/// observations,
///
/// - number `s` of `start` is the chance to start in state `s`;
/// - number `(a * S + s) * S + t` of `trans` is the chance of the next state `t` after joint
///   action `a` in state `s`;
/// - number `(a * S + t) * O + o` of `obs` is the chance of joint observation `o` on arriving in
///   state `t` by joint action `a`;
/// - number `((a * S + s) * S + t) * O + o` of `reward` is the reward of joint action `a` in state
///   `s` where state `t` and joint observation `o` follow.
#[derive(Drop)]
pub struct Cells {
    pub start: Sequence<u64>,
    pub trans: Sequence<u64>,
    pub obs: Sequence<u64>,
    pub reward: Sequence<i64>,
}
