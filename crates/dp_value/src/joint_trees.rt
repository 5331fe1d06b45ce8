//! The trees of a joint policy, one for each agent, in an array of references.
ghost use Rattle.std.specs.Prelude.{◌≡◌, ◌<◌, suc, length};
ghost use Rattle.dp_spec.specs.Model.{joint_actions, joint_observations};
ghost use Rattle.dp_spec.specs.PolicyTree.{IsPolicyOf};
ghost use Rattle.dp_spec.specs.Value.{joint_root_action, trees_after};
ghost use Rattle.dp_policy.specs.Trees.{joint_policy};
ghost use Rattle.dp_value.specs.JointTrees.{first_trees};

use dp_model::Model;
use dp_policy::{PTree, Policy};

// The most agents.
pub(crate) const MOST_AGENTS: usize = 6;

// The trees of a joint policy. The places behind them hold the first one again.
pub(crate) fn trees_of<'a>(policy: &'a Policy) -> [&'a PTree; 6]
    requires { 0 < length policy.now.trees }
    ensures { first_trees (length policy.now.trees) result ≡ joint_policy policy.now }
{
    let mut trees = [policy.tree(0); MOST_AGENTS];
    for agent in 0..policy.agents() {
        trees[agent as usize] = policy.tree(agent);
    }
    trees
}

// The joint action at the roots.
pub(crate) fn joint_action(model: &Model, trees: &[&PTree; 6], rest: u32) -> u32
    requires policy { IsPolicyOf model.now.model (suc rest) (first_trees (length model.now.model.actions) trees.now) }
    ensures is { result ≡ joint_root_action model.now.model
        (first_trees (length model.now.model.actions) trees.now) }
    ensures action { result < joint_actions model.now.model }
{
    model.invariant();
    let mut actions = [0; MOST_AGENTS];
    for agent in 0..model.agents() {
        actions[agent as usize] = trees[agent as usize].root_action();
    }
    model.joint_action_of(&actions[..model.agents() as usize])
}

// In each tree what remains after that agent's part of a joint observation.
pub(crate) fn subtrees<'a>(
    model: &Model,
    trees: &[&'a PTree; 6],
    seen: u32,
    rest: u32,
) -> [&'a PTree; 6]
    requires policy { IsPolicyOf model.now.model (suc rest) (first_trees (length model.now.model.actions) trees.now) }
    requires some { 0 < rest }
    requires seen { seen < joint_observations model.now.model }
    ensures { first_trees (length model.now.model.actions) result ≡
        trees_after model.now.model (first_trees (length model.now.model.actions) trees.now) seen }
{
    model.invariant();
    let mut after = *trees;
    for agent in 0..model.agents() {
        after[agent as usize] = trees[agent as usize].subtree(model.local_obs(seen, agent));
    }
    after
}
