//! Joint rows: one row of a stage for each agent, as one number.
ghost use Rattle.std.specs.Prelude.{◌≡◌, ◌*◌, ◌^◌, ◌<◌, ◌≤◌, suc, length};
ghost use Rattle.dp_spec.specs.Model.{joint_actions, joint_observations};
ghost use Rattle.dp_spec.specs.SharedPolicy.{IsSharedOf};
ghost use Rattle.dp_spec.specs.SharedWorth.{joint_row_action, joint_row_count, next_joint_row};

use dp_model::Model;
use dp_policy::Shared;

// How many joint rows a stage has.
pub(crate) fn joint_rows(model: &Model, policy: &Shared, stage: u32) -> usize
    requires policy { IsSharedOf model.now.model policy.now.horizon policy.now.rows }
    requires stage { stage < policy.now.horizon }
    ensures is { result ≡ joint_row_count policy.now.rows stage }
    ensures limit { model.now.model.states * result ≤ 2 ^ 22 }
    ensures some { 0 < result }
    ensures few { result ≤ 2 ^ 22 }
{
    model.invariant();
    let mut count = 1;
    for agent in 0..policy.agents() {
        count *= policy.rows(agent, stage) as usize;
    }
    count
}

// The joint action of a joint row of a stage.
pub(crate) fn action_of(model: &Model, policy: &Shared, stage: u32, row: usize) -> u32
    requires policy { IsSharedOf model.now.model policy.now.horizon policy.now.rows }
    requires stage { stage < policy.now.horizon }
    requires row { row < joint_row_count policy.now.rows stage }
    ensures is { result ≡ joint_row_action model.now.model policy.now.rows stage row }
    ensures action { result < joint_actions model.now.model }
{
    model.invariant();
    let mut left = joint_rows(model, policy, stage);
    let mut rest = row;
    let mut action = 0;
    for agent in 0..policy.agents() {
        left = left / policy.rows(agent, stage) as usize;
        let own = (rest / left) as u32;
        rest = rest % left;
        action = action * model.actions(agent) + policy.action(agent, stage, own);
    }
    action
}

// The joint row of the next stage that follows a joint row after a joint observation.
pub(crate) fn next_of(model: &Model, policy: &Shared, stage: u32, row: usize, seen: u32) -> usize
    requires policy { IsSharedOf model.now.model policy.now.horizon policy.now.rows }
    requires stage { suc stage < policy.now.horizon }
    requires row { row < joint_row_count policy.now.rows stage }
    requires seen { seen < joint_observations model.now.model }
    ensures is { result ≡ next_joint_row model.now.model policy.now.rows stage row seen }
    ensures next { result < joint_row_count policy.now.rows (suc stage) }
{
    model.invariant();
    let _horizon = policy.horizon();
    let mut left = joint_rows(model, policy, stage);
    let mut rest = row;
    let mut next = 0;
    for agent in 0..policy.agents() {
        left = left / policy.rows(agent, stage) as usize;
        let own = (rest / left) as u32;
        rest = rest % left;
        let follows = policy.next(agent, stage, own, model.local_obs(seen, agent));
        let count = policy.rows(agent, stage + 1);
        next = next * count as usize + follows as usize;
    }
    next
}
