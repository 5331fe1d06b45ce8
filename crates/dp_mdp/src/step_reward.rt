//! The reward of one step from one state.
ghost use Rattle.std.specs.Prelude.{◌≡◌, ◌<◌};
ghost use Rattle.dp_spec.specs.Model.{joint_actions, trans_at};
ghost use Rattle.dp_mdp.specs.StepRewards.{AllowsReward, arrival_reward, state_reward};
ghost use Rattle.dp_spec.specs.Zeros.{KeepsZero};

use dp_model::Model;
use dp_num::{Arith, add_spans};
use dp_spec::Span;

/// The reward of joint action `action` from weight `weight` of state `state`, where `rest` steps are
/// left after this one, computed in an arithmetic. Next states of chance 0 are left out, and so are
/// joint observations of chance 0.
pub fn state_reward<A: Arith>(
    arith: &A,
    model: &Model,
    rest: u32,
    weight: Span,
    action: u32,
    state: u32,
) -> Span
    requires zero { KeepsZero (A.operations arith.now) }
    requires sizes { AllowsReward (A.operations arith.now) (A.calls arith.now) model.now.model rest weight action
        state }
    requires action { action < joint_actions model.now.model }
    requires state { state < model.now.model.states }
    ensures { result ≡ state_reward (A.operations arith.now) model.now.model rest weight action state }
{
    let mut total = Span { low: 0, high: 0 };
    for next in 0..model.states() {
        let chance = model.trans(action, state, next);
        if chance != 0 {
            let part = arrival_reward(arith, model, rest, weight, action, state, next, chance);
            total = add_spans(total, part);
        }
    }
    total
}

// The part of one next state, of chance `chance`.
fn arrival_reward<A: Arith>(
    arith: &A,
    model: &Model,
    rest: u32,
    weight: Span,
    action: u32,
    state: u32,
    next: u32,
    chance: u64,
) -> Span
    requires zero { KeepsZero (A.operations arith.now) }
    requires sizes { AllowsReward (A.operations arith.now) (A.calls arith.now) model.now.model rest weight action
        state }
    requires action { action < joint_actions model.now.model }
    requires state { state < model.now.model.states }
    requires next { next < model.now.model.states }
    requires chance { chance ≡ trans_at model.now.model action state next }
    ensures { result ≡ arrival_reward (A.operations arith.now) model.now.model rest weight action state next }
{
    let mut total = Span { low: 0, high: 0 };
    for seen in 0..model.joint_observations() {
        let observed = model.obs(action, next, seen);
        if observed != 0 {
            let reached = arith.chance(weight, chance, observed);
            let reward = model.reward(action, state, next, seen);
            total = add_spans(total, arith.gain(reached, reward, rest));
        }
    }
    total
}
