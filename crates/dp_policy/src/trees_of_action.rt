//! The joint policy that always does one joint action.
ghost use Rattle.std.specs.Prelude.{◌≡◌, ◌<◌, IfOk};
ghost use Rattle.dp_spec.specs.ConstantPolicy.{constant_policy, constant_tree};
ghost use Rattle.dp_spec.specs.Mode.{IsWithinLimits};
ghost use Rattle.dp_spec.specs.Model.{joint_actions};
ghost use Rattle.dp_policy.specs.TreeValue.{policy_tree};
ghost use Rattle.dp_policy.specs.Trees.{joint_policy};

use crate::{PTree, Policy};
use dp_base::Memory;
use dp_model::Model;
use std::alloc::Global;

/// The joint policy over a horizon that keeps the limits in which every agent always does its part of
/// joint action `a`. The error is want of memory.
pub fn constant(alloc: Global, model: &Model, horizon: u32, a: u32) -> Result<Policy, Memory>
    requires within { IsWithinLimits model.now.model horizon }
    requires action { a < joint_actions model.now.model }
    ensures horizon { IfOk result (λ p. p.horizon ≡ horizon) }
    ensures policy { IfOk result (λ p. joint_policy p ≡ constant_policy model.now.model horizon a) }
{
    model.invariant();
    let mut trees = Vec::new(alloc);
    for agent in 0..model.agents() {
        let observations = model.observations(agent);
        let tree = constant_tree(alloc, observations, horizon, model.local_action(a, agent))?;
        trees.push(tree)?;
    }
    Ok(Policy::of(trees, horizon))
}

// The tree of so many steps that always does one action.
fn constant_tree(alloc: Global, observations: u32, steps: u32, action: u32) -> Result<PTree, Memory>
    ensures { IfOk result (λ t. policy_tree t ≡ constant_tree observations steps action) }
{
    let mut kids = Vec::new(alloc);
    if steps > 1 {
        for _seen in 0..observations {
            kids.push(constant_tree(alloc, observations, steps - 1, action)?)?;
        }
    }
    Ok(PTree { action, kids })
}
