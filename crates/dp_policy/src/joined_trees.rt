//! Trees joined to a joint policy.
ghost use Rattle.std.specs.Prelude.{◌≡◌, ◌<◌, ◌↔◌, IsTrue, SomeIff, map};
ghost use Rattle.dp_spec.specs.Mode.{IsWithinLimits};
ghost use Rattle.dp_spec.specs.PolicyTree.{IsPolicyOf};
ghost use Rattle.dp_policy.specs.TreeValue.{policy_tree};

use crate::tree::is_tree;
use crate::{PTree, Policy};
use dp_model::Model;

/// The joint policy of these trees over a horizon that keeps the limits; `None` exactly where they are
/// not one tree of that many steps for each agent of the model, and then they are dropped. It takes no
/// memory.
pub fn join(trees: Vec<PTree>, model: &Model, horizon: u32) -> Option<Policy>
    requires { IsWithinLimits model.now.model horizon }
    ensures { SomeIff result (IsPolicyOf model.now.model horizon (map policy_tree trees.items))
        (record { horizon = horizon; trees = trees.items }) }
{
    model.invariant();
    if are_policy(&trees, model, horizon) {
        Some(Policy::of(trees, horizon))
    } else {
        None
    }
}

// Whether these are trees of so many steps, one for each agent of a model.
pub(crate) fn are_policy(trees: &[PTree], model: &Model, horizon: u32) -> bool
    requires { 0 < horizon }
    ensures { IsTrue result ↔ IsPolicyOf model.now.model horizon (map policy_tree trees.now) }
{
    model.invariant();
    if trees.len() != model.agents() as usize {
        return false;
    }
    for agent in 0..model.agents() {
        let tree = &trees[agent as usize];
        if !is_tree(
            tree,
            model.actions(agent),
            model.observations(agent),
            horizon,
        ) {
            return false;
        }
    }
    true
}
