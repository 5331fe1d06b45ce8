//! The limits on a model file, tried in order.
ghost use Rattle.std.specs.Prelude.{◌≡◌, ◌≤◌, ◌^◌, IfOk, [], ◌∷◌, length};
ghost use Rattle.std.specs.Result.{result_err};
ghost use Rattle.dp_meaning.specs.Cells.{statements_for};
ghost use Rattle.dp_model.specs.Limits.{first_passed, passed_by};
ghost use Rattle.dp_meaning.specs.Limits.{passed_limit};
ghost use Rattle.dp_meaning.specs.Meaning.{IsSaid};
ghost use Rattle.dp_meaning.specs.Scales as spec;
ghost use Rattle.dp_meaning.specs.Scales.{scales_of};
ghost use Rattle.dp_tables.specs.Limits.{cell_limits, scale_limits, size_limits};
ghost use Rattle.dp_tables.specs.Sizes.{AreSizesOf};

use crate::scales::{discount_scale, gain, reward_scale, start_scale, table_scale};
use crate::sizes::{JointSizes, check_product, check_size};
use crate::statements::count_of;
use dp_meaning::{Table, Text};
use dp_model::{Limit, TooLarge};
use dp_spec::Scales;

/// The sizes and the scales of a text, or the first limit that it passes, with the count that
/// passes it.
pub(crate) fn bounds_of(text: &Text) -> Result<(JointSizes, Scales), TooLarge>
    requires { IsSaid text.now }
    ensures passed { passed_limit text.now ≡ result_err result }
    ensures sizes { IfOk result (λ bounds. AreSizesOf text.now bounds.0) }
    ensures scales { IfOk result (λ bounds. bounds.1 ≡ scales_of text.now) }
{
    let sizes = check_sizes(text)?;
    check_cells(sizes)?;
    check_reward_lines(text)?;
    let scales = check_scales(text, sizes)?;
    Ok((sizes, scales))
}

/// The sizes that a text gives, or the first limit on sizes that it passes.
fn check_sizes(text: &Text) -> Result<JointSizes, TooLarge>
    ensures passed { first_passed (size_limits text.now) ≡ result_err result }
    ensures sizes { IfOk result (AreSizesOf text.now) }
{
    Limit::Agents.check(u128::from(text.header.agents.size()))?;
    let states = check_size(Limit::States, u128::from(text.header.states.size()))?;
    let joint_actions = check_product(Limit::JointActions, text.header.actions.as_slice())?;
    let joint_observations = check_product(
        Limit::JointObservations,
        text.header.observations.as_slice(),
    )?;
    Ok(JointSizes {
        states,
        joint_actions,
        joint_observations,
    })
}

/// Tries the limits on the cells of the tables.
fn check_cells(sizes: JointSizes) -> Result<(), TooLarge>
    requires states { sizes.states ≤ 256 }
    requires joint_actions { sizes.joint_actions ≤ 256 }
    requires joint_observations { sizes.joint_observations ≤ 256 }
    ensures { first_passed (cell_limits sizes.joint_actions sizes.states sizes.joint_observations)
        ≡ result_err result }
{
    let states = u128::from(sizes.states);
    let joint_observations = u128::from(sizes.joint_observations);
    let rows = u128::from(sizes.joint_actions) * states;
    Limit::TransCells.check(rows * states)?;
    Limit::ObsCells.check(rows * joint_observations)?;
    Limit::RewardCells.check(rows * states * joint_observations)
}

/// Tries the limit on the reward statements.
fn check_reward_lines(text: &Text) -> Result<(), TooLarge>
    ensures { result_err result
        ≡ passed_by Limit.RewardLines (length (statements_for Table.Reward text.now.statements)) }
{
    let count = count_of(Table::Reward, text.statements.as_slice());
    Limit::RewardLines.check(count as u128)
}

/// The scales of a text of these sizes, or the first scale of chances that passes its limit.
fn check_scales(text: &Text, sizes: JointSizes) -> Result<Scales, TooLarge>
    requires said { IsSaid text.now }
    requires sizes { AreSizesOf text.now sizes }
    ensures passed { let statements = text.now.statements in
        first_passed (scale_limits
        (spec.start_scale text.now.header.start sizes.states)
        (spec.table_scale (statements_for Table.Trans statements) sizes.states)
        (spec.table_scale (statements_for Table.Obs statements) sizes.joint_observations))
        ≡ result_err result }
    ensures scales { IfOk result (λ scales. scales ≡ scales_of text.now) }
{
    let start = check_scale(start_scale(text, sizes.states))?;
    let trans = check_scale(table_scale(text, Table::Trans, sizes.states))?;
    let obs = check_scale(table_scale(text, Table::Obs, sizes.joint_observations))?;
    Ok(Scales {
        start,
        trans,
        obs,
        reward: reward_scale(text),
        discount: discount_scale(text),
        gain: gain(text),
    })
}

/// The scale, where it is at most 2^62.
fn check_scale(scale: u128) -> Result<u64, TooLarge>
    ensures passed { result_err result ≡ passed_by Limit.Scale scale }
    ensures scale { IfOk result (λ n. n ≡ scale) }
{
    Limit::Scale.check(scale)?;
    Ok(scale as u64)
}
