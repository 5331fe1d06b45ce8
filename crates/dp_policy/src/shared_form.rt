//! The shared form of a shared policy: one row for each different tree that remains.
ghost use Rattle.std.specs.Prelude.{◌≡◌, ℕ, ◌-◌, ◌<◌, ◌≤◌, [], suc, IfOk, length, map, get_or};
ghost use Rattle.dp_spec.specs.SharedForm.{shared_form, shared_rows};
ghost use Rattle.dp_spec.specs.SharedPolicy.{IsSharedOf, unfolded, unfolded_tree};

use crate::kinds::agent_kinds;
use crate::renumbered::renumbered_rows;
use crate::{Row, Shared};
use dp_base::Memory;
use dp_model::Model;
use std::alloc::Global;

/// The shared form of the joint policy that a shared policy of a model means: at each stage one row for
/// each different tree that remains, in order of the first history that reaches it. The error is want of
/// memory.
pub fn reduce(alloc: Global, policy: &Shared, model: &Model) -> Result<Shared, Memory>
    requires { IsSharedOf model.now.model policy.now.horizon policy.now.rows }
    ensures { IfOk result (λ p. p ≡ record {
      horizon = policy.now.horizon;
      rows = shared_form model.now.model policy.now.horizon (unfolded policy.now.rows);
    }) }
{
    model.invariant();
    let horizon = policy.horizon();
    let mut rows = Vec::new(alloc);
    for agent in 0..policy.agents() {
        rows.push(agent_rows(alloc, policy, model, agent)?)?;
    }
    Ok(Shared::of(rows, horizon))
}

// The rows of one agent, stage by stage as they are reached.
fn agent_rows(
    alloc: Global,
    policy: &Shared,
    model: &Model,
    agent: u32,
) -> Result<Vec<Vec<Row>>, Memory>
    requires policy { IsSharedOf model.now.model policy.now.horizon policy.now.rows }
    requires agent { agent < length policy.now.rows }
    ensures { IfOk result (λ v. map (λ r. r.items) v.items ≡
        shared_rows (get_or model.now.model.observations agent 0) policy.now.horizon
        (unfolded_tree (get_or policy.now.rows agent []) 0)) }
{
    model.invariant();
    let kinds = agent_kinds(alloc, policy, model, agent)?;
    let mut stages = Vec::new(alloc);
    let mut reached = Vec::new(alloc);
    reached.push(0)?;
    for stage in 0..policy.horizon() {
        let next = kinds_of_stage(&kinds, stage as usize + 1);
        let mut later = Vec::new(alloc);
        let rows = renumbered_rows(alloc, policy, agent, stage, &reached, next, &mut later)?;
        stages.push(rows)?;
        reached = later;
    }
    Ok(stages)
}

// The kinds of a stage, where those of the last stage stand first, or none past the last stage.
fn kinds_of_stage(kinds: &[Vec<u32>], stage: usize) -> &[u32]
    ensures is { stage < length kinds.now →
        result.now ≡ get_or (map (λ s. s.items) kinds.now) (length kinds.now - suc stage) [] }
    ensures none { length kinds.now ≤ stage → result.now ≡ [] }
{
    if stage < kinds.len() {
        &kinds[kinds.len() - 1 - stage]
    } else {
        &[]
    }
}
