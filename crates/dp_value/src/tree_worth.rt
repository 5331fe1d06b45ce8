//! The worth of a joint policy: weights are updated along its trees.
ghost use Rattle.std.specs.Prelude.{◌≡◌, ℕ, ◌*◌, ◌<◌, ◌≤◌, false, suc, length};
ghost use Rattle.dp_spec.specs.Model.{joint_actions, joint_observations};
ghost use Rattle.dp_spec.specs.Quantities.{recursive_worth_in, weights_after_in};
ghost use Rattle.dp_spec.specs.Zeros.{KeepsZero, nothing};
ghost use Rattle.dp_value.specs.JointTrees.{IsEvaluable, first_trees};
ghost use Rattle.dp_links.specs.Links.{AreLinksOf};
ghost use Rattle.dp_value.specs.WeightUpdates.{AreUpdatable, weights_of};

use crate::joint_trees::{joint_action, subtrees};
use crate::linked::{is_some, linked_reward, linked_weight};
use dp_links::Links;
use dp_model::Model;
use dp_num::{Arith, add_spans};
use dp_policy::PTree;
use dp_spec::Span;

// What the trees earn from weights that stand first in a list, where `rest` steps are left after this
// one. The weights of later times are written behind them.
pub(crate) fn worth_from<A: Arith>(
    arith: &A,
    model: &Model,
    links: &Links,
    trees: &[&PTree; 6],
    rest: u32,
    weights: &mut [Span],
) -> Span
    requires links { AreLinksOf model.now.model links.now }
    requires room { suc rest * model.now.model.states ≤ length weights.old }
    requires sizes { IsEvaluable (A.operations arith.now) (A.calls arith.now) model.now.model (suc rest)
        (weights_of weights.old) (first_trees (length model.now.model.actions) trees.now) }
    ensures { result ≡ recursive_worth_in (A.operations arith.now) model.now.model (suc rest)
        (weights_of weights.old) (first_trees (length model.now.model.actions) trees.now) }
{
    let action = joint_action(model, trees, rest);
    let (now, later) = weights.split_at_mut(model.states() as usize);
    let mut total = linked_reward(arith, model, links, now, action, rest);
    if rest > 0 {
        for seen in 0..model.joint_observations() {
            if update_all(arith, model, links, now, action, seen, later) {
                let after = subtrees(model, trees, seen, rest);
                let earned = worth_from(arith, model, links, &after, rest - 1, later);
                total = add_spans(total, earned);
            }
        }
    }
    total
}

// Writes the weights after a joint action and a joint observation, and says whether one is not 0.
fn update_all<A: Arith>(
    arith: &A,
    model: &Model,
    links: &Links,
    weights: &[Span],
    action: u32,
    seen: u32,
    later: &mut [Span],
) -> bool
    requires zeros { KeepsZero (A.operations arith.now) }
    requires links { AreLinksOf model.now.model links.now }
    requires one_each { length weights.now ≡ model.now.model.states }
    requires room { model.now.model.states ≤ length later.old }
    requires sizes { AreUpdatable (A.operations arith.now) (A.calls arith.now)
        model.now.model (weights_of weights.now) }
    requires action { action < joint_actions model.now.model }
    requires seen { seen < joint_observations model.now.model }
    ensures weights { (s : ℕ) → s < model.now.model.states → weights_of later.new s ≡
        weights_after_in (A.operations arith.now) model.now.model (weights_of weights.now) action seen s }
    ensures none { result ≡ false → (s : ℕ) → s < model.now.model.states → weights_of later.new s ≡ nothing }
{
    let mut some = false;
    for state in 0..model.states() {
        let weight = linked_weight(arith, model, links, weights, action, seen, state);
        some = some || is_some(weight);
        later[state as usize] = weight;
    }
    some
}
