//! The plain form of a joint policy: one row for each own history.
ghost use Rattle.std.specs.Prelude.{◌≡◌, ℕ, ◌+◌, ◌*◌, ◌^◌, ◌<◌, ◌≤◌, length, map, IfOk};
ghost use Rattle.std.specs.List.{range_with_len};
ghost use Rattle.dp_spec.specs.Mode.{IsWithinLimits};
ghost use Rattle.dp_spec.specs.PlainForm.{plain_form, plain_rows};
ghost use Rattle.dp_spec.specs.PolicyTree.{IsPolicyOf, IsPolicyTree};
ghost use Rattle.dp_policy.specs.TreeRows.{AreRowsOfTrees, AreSubtrees, GoOn};
ghost use Rattle.dp_policy.specs.TreeValue.{policy_tree};
ghost use Rattle.dp_policy.specs.Trees.{joint_policy};

use crate::rows_of_action::nexts_at;
use crate::{PTree, Policy, Row, Shared};
use dp_base::Memory;
use dp_model::{Model, Sequence};
use std::alloc::Global;

/// The plain form of a joint policy of a model over a horizon that keeps the limits: at each stage one
/// row for each own history, in the order of their numbers. The error is want of memory.
pub fn plain(alloc: Global, policy: &Policy, model: &Model) -> Result<Shared, Memory>
    requires within { IsWithinLimits model.now.model policy.now.horizon }
    requires policy { IsPolicyOf model.now.model policy.now.horizon (joint_policy policy.now) }
    ensures { IfOk result (λ p. p ≡ record {
      horizon = policy.now.horizon;
      rows = plain_form model.now.model policy.now.horizon (joint_policy policy.now);
    }) }
{
    model.invariant();
    let horizon = policy.horizon();
    let mut rows = Vec::new(alloc);
    for agent in 0..policy.agents() {
        let observations = model.observations(agent);
        let stages = agent_rows(alloc, policy.tree(agent), observations, horizon)?;
        rows.push(stages)?;
    }
    Ok(Shared::of(rows, horizon))
}

// The rows of one agent.
fn agent_rows(
    alloc: Global,
    root: &PTree,
    observations: u32,
    horizon: u32,
) -> Result<Vec<Vec<Row>>, Memory>
    requires some { 0 < observations }
    requires observations { observations ≤ 256 }
    requires tree { IsPolicyTree (2 ^ 32) observations horizon (policy_tree root.now) }
    requires few { (t : ℕ) → t < horizon → observations ^ t ≤ 2 ^ 22 }
    ensures { IfOk result
        (λ v. map (λ r. r.items) v.items ≡ plain_rows observations horizon (policy_tree root.now)) }
{
    let mut stages = Vec::new(alloc);
    let mut trees = Vec::new(alloc);
    trees.push(root)?;
    for stage in 0..horizon {
        let nexts = nexts_at(stage, horizon, observations);
        stages.push(stage_rows(alloc, &trees, observations, nexts)?)?;
        trees = all_subtrees(alloc, &trees, nexts)?;
    }
    Ok(stages)
}

// The rows of a stage, which go on after so many observations.
fn stage_rows(
    alloc: Global,
    trees: &[&PTree],
    observations: u32,
    nexts: u32,
) -> Result<Vec<Row>, Memory>
    requires count { length trees.now ≤ 2 ^ 22 }
    requires few { length trees.now * observations ≤ 2 ^ 30 }
    requires nexts { nexts ≤ observations }
    ensures { IfOk result (λ v. AreRowsOfTrees observations nexts trees.now v.items) }
{
    let mut rows = Vec::new(alloc);
    for number in 0..trees.len() {
        let first = number as u32 * observations;
        let next = Sequence::of(numbers_from(alloc, first, nexts)?);
        rows.push(Row {
            action: trees[number].root_action(),
            next,
        })?;
    }
    Ok(rows)
}

// So many numbers, from the first one on.
fn numbers_from(alloc: Global, first: u32, count: u32) -> Result<Vec<u32>, Memory>
    requires { first + count < 2 ^ 32 }
    ensures { IfOk result (λ v. v.items ≡ map (λ o. first + o) (range_with_len 0 count)) }
{
    let mut all = Vec::new(alloc);
    for place in 0..count {
        all.push(first + place)?;
    }
    Ok(all)
}

// What remains of each tree after each of so many observations, tree by tree.
fn all_subtrees<'a>(
    alloc: Global,
    trees: &[&'a PTree],
    observations: u32,
) -> Result<Vec<&'a PTree>, Memory>
    requires count { length trees.now ≤ 2 ^ 22 }
    requires few { length trees.now * observations ≤ 2 ^ 30 }
    requires kids { GoOn observations trees.now }
    ensures { IfOk result (λ v. AreSubtrees observations trees.now v.items) }
{
    let mut all = Vec::new(alloc);
    for place in 0..trees.len() as u32 * observations {
        let tree = trees[(place / observations) as usize];
        all.push(tree.subtree(place % observations))?;
    }
    Ok(all)
}
