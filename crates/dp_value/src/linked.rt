//! Weights one step later, and rewards, over the steps of a chance above 0 alone.
ghost use Rattle.std.specs.Prelude.{◌≡◌, ◌<◌, false, length};
ghost use Rattle.dp_spec.specs.Model.{joint_actions, joint_observations, trans_at};
ghost use Rattle.dp_spec.specs.Quantities.{weighted_reward_in, weights_after_in};
ghost use Rattle.dp_spec.specs.Zeros.{KeepsZero, nothing};
ghost use Rattle.dp_links.specs.Links.{AreLinksOf};
ghost use Rattle.dp_value.specs.Rewards.{IsRewardable, reward_arriving, reward_from};
ghost use Rattle.dp_value.specs.WeightUpdates.{AreUpdatable, weights_of};

use dp_links::Links;
use dp_model::Model;
use dp_num::{Arith, add_spans};
use dp_spec::Span;

// The weight of state `next` after a joint action and a joint observation, as `next_weight` gives it.
pub(crate) fn linked_weight<A: Arith>(
    arith: &A,
    model: &Model,
    links: &Links,
    weights: &[Span],
    action: u32,
    observation: u32,
    next: u32,
) -> Span
    requires zeros { KeepsZero (A.operations arith.now) }
    requires links { AreLinksOf model.now.model links.now }
    requires one_each { length weights.now ≡ model.now.model.states }
    requires sizes { AreUpdatable (A.operations arith.now) (A.calls arith.now)
        model.now.model (weights_of weights.now) }
    requires action { action < joint_actions model.now.model }
    requires observation { observation < joint_observations model.now.model }
    requires next { next < model.now.model.states }
    ensures { result ≡ weights_after_in (A.operations arith.now) model.now.model
        (weights_of weights.now) action observation next }
{
    if model.obs(action, next, observation) == 0 {
        return Span { low: 0, high: 0 };
    }
    weight_before(arith, model, links, weights, action, observation, next)
}

// The sum over the states before it.
fn weight_before<A: Arith>(
    arith: &A,
    model: &Model,
    links: &Links,
    weights: &[Span],
    action: u32,
    observation: u32,
    next: u32,
) -> Span
    requires zeros { KeepsZero (A.operations arith.now) }
    requires links { AreLinksOf model.now.model links.now }
    requires one_each { length weights.now ≡ model.now.model.states }
    requires sizes { AreUpdatable (A.operations arith.now) (A.calls arith.now)
        model.now.model (weights_of weights.now) }
    requires action { action < joint_actions model.now.model }
    requires observation { observation < joint_observations model.now.model }
    requires next { next < model.now.model.states }
    ensures { result ≡ weights_after_in (A.operations arith.now) model.now.model
        (weights_of weights.now) action observation next }
{
    let seen = model.obs(action, next, observation);
    let states = links.before(model, action, next);
    let mut total = Span { low: 0, high: 0 };
    for place in 0..states.len() {
        let state = states[place];
        let reached = arith.chance(
            weights[state as usize],
            model.trans(action, state, next),
            seen,
        );
        total = add_spans(total, arith.later(reached));
    }
    total
}

// The reward of a joint action from the weights, as `weighted_reward` gives it.
pub(crate) fn linked_reward<A: Arith>(
    arith: &A,
    model: &Model,
    links: &Links,
    weights: &[Span],
    action: u32,
    rest: u32,
) -> Span
    requires zeros { KeepsZero (A.operations arith.now) }
    requires links { AreLinksOf model.now.model links.now }
    requires one_each { length weights.now ≡ model.now.model.states }
    requires sizes { IsRewardable (A.operations arith.now) (A.calls arith.now)
        model.now.model rest (weights_of weights.now) }
    requires action { action < joint_actions model.now.model }
    ensures { result ≡ weighted_reward_in (A.operations arith.now)
        model.now.model rest (weights_of weights.now) action }
{
    let mut total = Span { low: 0, high: 0 };
    for state in 0..model.states() {
        if is_some(weights[state as usize]) {
            total = add_spans(
                total,
                reward_after(arith, model, links, weights, action, rest, state),
            );
        }
    }
    total
}

// The part of the reward that comes from a state.
fn reward_after<A: Arith>(
    arith: &A,
    model: &Model,
    links: &Links,
    weights: &[Span],
    action: u32,
    rest: u32,
    state: u32,
) -> Span
    requires zeros { KeepsZero (A.operations arith.now) }
    requires links { AreLinksOf model.now.model links.now }
    requires one_each { length weights.now ≡ model.now.model.states }
    requires sizes { IsRewardable (A.operations arith.now) (A.calls arith.now)
        model.now.model rest (weights_of weights.now) }
    requires action { action < joint_actions model.now.model }
    requires state { state < model.now.model.states }
    ensures { result ≡ reward_from (A.operations arith.now)
        model.now.model rest (weights_of weights.now state) action state }
{
    let nexts = links.after(model, action, state);
    let mut total = Span { low: 0, high: 0 };
    for place in 0..nexts.len() {
        let next = nexts[place];
        let arriving = reward_seen(arith, model, weights, action, rest, state, next);
        total = add_spans(total, arriving);
    }
    total
}

// The part where a next state follows. Joint observations of chance 0 are left out.
fn reward_seen<A: Arith>(
    arith: &A,
    model: &Model,
    weights: &[Span],
    action: u32,
    rest: u32,
    state: u32,
    next: u32,
) -> Span
    requires zeros { KeepsZero (A.operations arith.now) }
    requires one_each { length weights.now ≡ model.now.model.states }
    requires sizes { IsRewardable (A.operations arith.now) (A.calls arith.now)
        model.now.model rest (weights_of weights.now) }
    requires action { action < joint_actions model.now.model }
    requires state { state < model.now.model.states }
    requires next { next < model.now.model.states }
    ensures { result ≡ reward_arriving (A.operations arith.now)
        model.now.model rest (weights_of weights.now state) action state next }
{
    let weight = weights[state as usize];
    let chance = model.trans(action, state, next);
    let mut total = Span { low: 0, high: 0 };
    for seen in 0..model.joint_observations() {
        let observed = model.obs(action, next, seen);
        if observed != 0 {
            let reached = arith.chance(weight, chance, observed);
            let reward = model.reward(action, state, next, seen);
            total = add_spans(total, arith.gain(reached, reward, rest));
        }
    }
    total
}

// Whether a weight is not 0.
#[inline]
pub(crate) fn is_some(weight: Span) -> bool
    ensures { result ≡ false → weight ≡ nothing }
{
    weight.low != 0 || weight.high != 0
}
