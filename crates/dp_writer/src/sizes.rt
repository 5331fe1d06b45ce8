//! The sizes of a model that is made, and the limits on them.
ghost use Rattle.std.specs.Prelude.{◌≡◌, ◌*◌, ◌≤◌, ◌^◌, IfOk, replicate};
ghost use Rattle.std.specs.Result.{result_err};
ghost use Rattle.dp_spec.specs.JointNumbers.{product};
ghost use Rattle.dp_meaning.specs.Limits.{product_past};
ghost use Rattle.dp_model.specs.Limits.{first_passed, greatest_allowed, passed_by};
ghost use Rattle.dp_writer.specs.MadeModel.{actions_made, cell_limits, made_passed, observations_made};
ghost use Rattle.dp_writer.specs.MadeSizes.{AreJointSizes};

use dp_model::{Limit, TooLarge};

/// How many agents and states a model to be made has, and how many actions and observations each of its
/// agents.
#[derive(Clone, Copy, Debug, PartialEq, Eq)]
pub struct MakeSize {
    pub agents: u32,
    pub states: u32,
    pub actions: u32,
    pub observations: u32,
}

// How many joint actions and joint observations a model has, and how many rows of chances each of its tables.
#[derive(Clone, Copy)]
pub(crate) struct JointSizes {
    pub actions: u32,
    pub observations: u32,
    pub rows: u32,
}

// The greatest allowed number of joint actions, and of joint observations.
const MOST: u64 = 256;

// The joint sizes of a model of these sizes, or the first limit that it passes.
#[tactic(auto, unfolding(crate::specs::MadeModel::made_passed))]
pub(crate) fn sizes_within_limits(size: MakeSize) -> Result<JointSizes, TooLarge>
    ensures passed { result_err result ≡ made_passed size }
    ensures sizes { IfOk result (λ joint. AreJointSizes size joint) }
{
    Limit::Agents.check(u128::from(size.agents))?;
    Limit::States.check(u128::from(size.states))?;
    let actions = joint_size(Limit::JointActions, size.agents, size.actions)?;
    let observations = joint_size(Limit::JointObservations, size.agents, size.observations)?;
    check_cells(actions, size.states, observations)?;
    Ok(JointSizes {
        actions,
        observations,
        rows: actions * size.states,
    })
}

// The number of joint numbers of agents of this size each, where it is at most 256.
fn joint_size(what: Limit, agents: u32, size: u32) -> Result<u32, TooLarge>
    requires { greatest_allowed what ≡ 256 }
    ensures passed { result_err result ≡ passed_by what (product_past 256 1 (replicate agents size)) }
    ensures is { IfOk result (λ n. n ≡ product (replicate agents size)) }
    ensures limit { IfOk result (λ n. n ≤ 256) }
{
    let product = first_product_past_most(agents, size);
    what.check(u128::from(product))?;
    Ok(product as u32)
}

// The first product of the sizes of agents 0, 1 and so on, each of them this one, that is more than 256, or the
// product of all.
fn first_product_past_most(agents: u32, size: u32) -> u64
    ensures { result ≡ product_past 256 1 (replicate agents size) }
{
    let mut product = 1;
    for _agent in 0..agents {
        if product > MOST {
            return product;
        }
        product *= u64::from(size);
    }
    product
}

// Tries the limits on the cells of the tables.
fn check_cells(actions: u32, states: u32, observations: u32) -> Result<(), TooLarge>
    requires actions { actions ≤ 256 }
    requires states { states ≤ 256 }
    requires observations { observations ≤ 256 }
    ensures { result_err result ≡ first_passed (cell_limits actions states observations) }
{
    let states = u128::from(states);
    let observations = u128::from(observations);
    let rows = u128::from(actions) * states;
    Limit::TransCells.check(rows * states)?;
    Limit::ObsCells.check(rows * observations)?;
    Limit::RewardCells.check(rows * states * observations)
}
