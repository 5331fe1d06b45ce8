//! The rows of a joint policy that always does one joint action.
ghost use Rattle.std.specs.Prelude.{◌≡◌, ◌<◌, ◌≤◌, suc, cond, nat_lt, [], ◌∷◌, map, IfOk};
ghost use Rattle.std.specs.List.{range_with_len};
ghost use Rattle.dp_spec.specs.ConstantRows.{constant_agent_rows, constant_row, constant_rows};
ghost use Rattle.dp_spec.specs.Model.{joint_actions};

use crate::{Row, Shared};
use dp_base::Memory;
use dp_model::{Model, Sequence};
use std::alloc::Global;

/// The rows over a horizon from 1 to 24 in which every agent always does its part of joint action `a`:
/// for each agent one row at each stage, which goes on to itself. They are the shared form of the
/// constant policy. The error is want of memory.
pub fn constant_rows(alloc: Global, model: &Model, horizon: u32, a: u32) -> Result<Shared, Memory>
    requires some_step { 1 ≤ horizon }
    requires limit { horizon ≤ 24 }
    requires action { a < joint_actions model.now.model }
    ensures { IfOk result (λ p. p ≡ record { horizon = horizon; rows = constant_rows model.now.model horizon a }) }
{
    model.invariant();
    let mut rows = Vec::new(alloc);
    for agent in 0..model.agents() {
        let stages = agent_rows(
            alloc,
            horizon,
            model.observations(agent),
            model.local_action(a, agent),
        )?;
        rows.push(stages)?;
    }
    Ok(Shared::of(rows, horizon))
}

// The rows of one agent.
fn agent_rows(
    alloc: Global,
    horizon: u32,
    observations: u32,
    action: u32,
) -> Result<Vec<Vec<Row>>, Memory>
    requires { 1 ≤ horizon }
    ensures { IfOk result (λ v. map (λ r. r.items) v.items ≡ constant_agent_rows observations horizon action) }
{
    let mut stages = Vec::new(alloc);
    for stage in 0..horizon {
        stages.push(one_row(alloc, action, nexts_at(stage, horizon, observations))?)?;
    }
    Ok(stages)
}

// After how many observations a row of a stage goes on.
pub(crate) fn nexts_at(stage: u32, horizon: u32, observations: u32) -> u32
    requires { stage < horizon }
    ensures { result ≡ cond (nat_lt (suc stage) horizon) observations 0 }
{
    if stage + 1 < horizon { observations } else { 0 }
}

// One row, which goes on to the first row of the next stage.
fn one_row(alloc: Global, action: u32, nexts: u32) -> Result<Vec<Row>, Memory>
    ensures { IfOk result
        (λ v. v.items ≡ record { action = action; next = map (λ o. 0) (range_with_len 0 nexts) } ∷ []) }
{
    let mut rows = Vec::new(alloc);
    let next = Sequence::of(zeros(alloc, nexts)?);
    rows.push(Row { action, next })?;
    Ok(rows)
}

// So many zeros.
fn zeros(alloc: Global, count: u32) -> Result<Vec<u32>, Memory>
    ensures { IfOk result (λ v. v.items ≡ map (λ o. 0) (range_with_len 0 count)) }
{
    let mut all = Vec::new(alloc);
    for _place in 0..count {
        all.push(0)?;
    }
    Ok(all)
}
