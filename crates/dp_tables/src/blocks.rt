//! The values of a statement as a block: those of the cells of the axes without a field, the last
//! axis fastest, or one for all of them.
ghost use Rattle.std.specs.Prelude.{◌≡◌, ◌<◌, ◌≤◌, ◌*◌, ◌^◌, ◌*ℤ◌, pos, unsigned_abs};
ghost use Rattle.std.specs.Prelude.{[], ◌∷◌, map, All, true, IfOk};
ghost use Rattle.std.specs.List.{range_with_len};
ghost use Rattle.dp_meaning.specs.Numbers.{is_chance, is_reward};
ghost use Rattle.dp_meaning.specs.Cells as spec;
ghost use Rattle.dp_tables.specs.Blocks as blocks;
ghost use Rattle.dp_tables.specs.Blocks.{IsChanceValue, IsRewardValue};

use dp_base::{Decimal, Memory};
use dp_meaning::Value;
use std::alloc::Global;

/// The chances of a value, in a table whose rows have so many cells.
pub(crate) fn chance_block(
    alloc: Global,
    scale: u64,
    len: u32,
    value: &Value,
) -> Result<Vec<u64>, Memory>
    requires len { 0 < len }
    requires limit { len ≤ 256 }
    requires chances { IsChanceValue value.now }
    ensures { IfOk result (λ block. block.items ≡ blocks.chance_block scale len value.now) }
{
    match value {
        Value::Uniform => one_value(alloc, scale / u64::from(len)),
        Value::Identity => identity(alloc, scale, len as usize),
        Value::Numbers(numbers) => chances_over(alloc, scale, numbers.as_slice()),
    }
}

fn one_value(alloc: Global, value: u64) -> Result<Vec<u64>, Memory>
    ensures { IfOk result (λ block. block.items ≡ value ∷ []) }
{
    let mut block = Vec::new(alloc);
    block.push(value)?;
    Ok(block)
}

/// The identity of so many rows over the scale, row by row.
fn identity(alloc: Global, scale: u64, len: usize) -> Result<Vec<u64>, Memory>
    requires some { 0 < len }
    requires limit { len ≤ 256 }
    ensures { IfOk result
        (λ block. block.items ≡ map (blocks.identity_at scale len) (range_with_len 0 (len * len))) }
{
    let mut block = Vec::new(alloc);
    for j in 0..len * len {
        block.push(identity_at(scale, len, j))?;
    }
    Ok(block)
}

/// A cell of the identity of so many rows over the scale.
fn identity_at(scale: u64, len: usize, cell: usize) -> u64
    requires { 0 < len }
    ensures { result ≡ blocks.identity_at scale len cell }
{
    if cell / len == cell % len { scale } else { 0 }
}

/// Chances over the scale.
fn chances_over(alloc: Global, scale: u64, chances: &[Decimal]) -> Result<Vec<u64>, Memory>
    requires { All (λ d. is_chance d ≡ true) chances.now }
    ensures { IfOk result (λ block. block.items ≡ map (spec.chance_over scale) chances.now) }
{
    let mut block = Vec::new(alloc);
    for chance in chances {
        block.push(chance_over(scale, *chance))?;
    }
    Ok(block)
}

/// A chance over the scale.
pub(crate) fn chance_over(scale: u64, chance: Decimal) -> u64
    requires { is_chance chance ≡ true }
    ensures { result ≡ spec.chance_over scale chance }
{
    let unit = scale / 10u64.pow(u32::from(chance.digits));
    chance.units.unsigned_abs() as u64 * unit
}

/// The rewards of a value over the scale. Only Numbers give rewards.
pub(crate) fn reward_block(
    alloc: Global,
    cost: bool,
    scale: u64,
    value: &Value,
) -> Result<Vec<i64>, Memory>
    requires scale { scale ≤ 10 ^ 9 }
    requires rewards { IsRewardValue value.now }
    ensures { IfOk result (λ block. block.items ≡ blocks.reward_block cost scale value.now) }
{
    match value {
        Value::Uniform | Value::Identity => Ok(Vec::new(alloc)),
        Value::Numbers(numbers) => rewards_over(alloc, cost, scale, numbers.as_slice()),
    }
}

/// Rewards over the scale.
fn rewards_over(
    alloc: Global,
    cost: bool,
    scale: u64,
    rewards: &[Decimal],
) -> Result<Vec<i64>, Memory>
    requires scale { scale ≤ 10 ^ 9 }
    requires rewards { All (λ d. is_reward d ≡ true) rewards.now }
    ensures { IfOk result (λ block. block.items ≡ map (spec.reward_over cost scale) rewards.now) }
{
    let mut block = Vec::new(alloc);
    for reward in rewards {
        block.push(reward_over(cost, scale, *reward))?;
    }
    Ok(block)
}

/// A reward over the scale, where it may be given as a cost.
fn reward_over(cost: bool, scale: u64, reward: Decimal) -> i64
    requires scale { scale ≤ 10 ^ 9 }
    requires range { is_reward reward ≡ true }
    ensures { result ≡ spec.reward_over cost scale reward }
{
    let unit = scale / 10u64.pow(u32::from(reward.digits));
    let over = times(reward.units, unit);
    if cost { -over } else { over }
}

/// So many units of this size.
fn times(units: i128, unit: u64) -> i64
    requires { unsigned_abs units * unit ≤ 10 ^ 17 }
    ensures value { result ≡ units *ℤ pos unit }
    ensures limit { unsigned_abs result ≤ 10 ^ 17 }
{
    (units * i128::from(unit)) as i64
}
