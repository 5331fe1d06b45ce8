//! The limits of a horizon, its mode and its unit.
ghost use Rattle.std.specs.Prelude.{◌≡◌, ◌*◌, ◌-◌, ◌^◌, ◌<◌, ◌≤◌, true, IfOk, OnOk, IfSome, SomeIff};
ghost use Rattle.std.specs.Result.{result_err};
ghost use Rattle.dp_spec.specs.Mode.{IsWithinLimits, IsWithinVersion, is_exact_mode, own_history_count};
ghost use Rattle.dp_spec.specs.Model.{AreScales, joint_observations, step_scale, value_scale};
ghost use Rattle.dp_base.specs.Sums.{nat_sum};
ghost use Rattle.dp_model.specs.Horizons.{fit_of, horizon_limits, long_horizon_passed};
ghost use Rattle.dp_model.specs.Limits.{first_passed};

use crate::{Limit, Model, TooLarge};
use dp_spec::Scales;

// In exact mode no value is greater.
const MOST_VALUE: u128 = 1 << 126;

const OUTWARD_UNIT: i128 = 1_000_000_000;

// The most steps of a policy in version 2 of certificates.
const LONGEST_HORIZON: u32 = 24;

/// A horizon that keeps every limit of a model, with its mode and its unit.
#[derive(Clone, Copy, Debug, PartialEq, Eq)]
pub struct Fit {
    /// How many steps a policy has.
    pub horizon: u32,
    /// Whether the mode is exact: the bound on every value is at most `2^126`. Else numbers are
    /// rounded outward.
    pub exact: bool,
    /// What values are counted in: in exact mode the expected reward is the value over the unit.
    pub unit: i128,
}

/// The mode and the unit of a horizon of at least 1, or the first of the limits `Horizon`,
/// `OwnHistories`, `StageCells` and `GameCells`, in this order, that it passes, with its count. It
/// takes no memory.
pub fn fits(model: &Model, horizon: u32) -> Result<Fit, TooLarge>
    requires { 1 ≤ horizon }
    ensures passed { result_err result ≡ first_passed (horizon_limits model.now.model horizon) }
    ensures within { OnOk result (IsWithinLimits model.now.model horizon) }
    ensures fit { IfOk result (λ fit. fit ≡ fit_of model.now.model horizon) }
{
    within_limits(model, horizon)?;
    Ok(mode_and_unit(model, horizon))
}

/// The mode and the unit of a horizon of at least 1 in version 2 of certificates, or the limit
/// `Horizon` with the horizon where it is more than 24. No other limit is tried. It takes no memory.
pub fn fits_two(model: &Model, horizon: u32) -> Result<Fit, TooLarge>
    requires { 1 ≤ horizon }
    ensures passed { result_err result ≡ long_horizon_passed horizon }
    ensures within { OnOk result (IsWithinVersion model.now.model horizon 2) }
    ensures fit { IfOk result (λ fit. fit ≡ fit_of model.now.model horizon) }
{
    if horizon > LONGEST_HORIZON {
        return Err(TooLarge {
            what: Limit::Horizon,
            count: u128::from(horizon),
        });
    }
    Ok(mode_and_unit(model, horizon))
}

// Tries the limits in order.
fn within_limits(model: &Model, horizon: u32) -> Result<(), TooLarge>
    requires { 1 ≤ horizon }
    ensures { result_err result ≡ first_passed (horizon_limits model.now.model horizon) }
{
    Limit::Horizon.check(u128::from(horizon))?;
    let own = own_histories(model, horizon);
    Limit::OwnHistories.check(own)?;
    let joint = joint_histories(model, horizon);
    let stage_cells = u128::from(model.states()) * joint;
    let game_cells = u128::from(model.joint_actions()) * joint;
    Limit::StageCells.check(stage_cells)?;
    Limit::GameCells.check(game_cells)
}

// How many own histories shorter than the horizon the agents have together.
fn own_histories(model: &Model, horizon: u32) -> u128
    requires { horizon ≤ 16 }
    ensures { result ≡ own_history_count model.now.model.observations horizon }
{
    model.invariant();
    let mut count = 0;
    for agent in 0..model.agents() {
        count += histories_of(model.observations(agent), horizon);
    }
    count
}

// How many own histories shorter than the horizon an agent of so many observations has.
fn histories_of(observations: u32, horizon: u32) -> u128
    requires few { observations ≤ 256 }
    requires short { horizon ≤ 16 }
    ensures is { result ≡ nat_sum horizon (λ t. observations ^ t) }
    ensures limit { result ≤ 2 ^ 124 }
{
    let mut count = 0;
    for seen in 0..horizon {
        count += u128::from(observations).pow(seen);
    }
    count
}

// How many joint histories the last stage has.
fn joint_histories(model: &Model, horizon: u32) -> u128
    requires some { 1 ≤ horizon }
    requires few { own_history_count model.now.model.observations horizon ≤ 2048 }
    ensures is { result ≡ joint_observations model.now.model ^ (horizon - 1) }
    ensures limit { result ≤ 2 ^ 66 }
{
    model.invariant();
    u128::from(model.joint_observations()).pow(horizon - 1)
}

// The mode and the unit.
fn mode_and_unit(model: &Model, horizon: u32) -> Fit
    requires { 1 ≤ horizon }
    ensures { result ≡ fit_of model.now.model horizon }
{
    match exact_unit(model, horizon) {
        Some(unit) => Fit {
            horizon,
            exact: true,
            unit: unit as i128,
        },
        None => Fit {
            horizon,
            exact: false,
            unit: OUTWARD_UNIT,
        },
    }
}

// The unit of exact mode, or `None` in outward mode.
fn exact_unit(model: &Model, horizon: u32) -> Option<u128>
    requires { 1 ≤ horizon }
    ensures is { SomeIff result
        (is_exact_mode model.now.model horizon ≡ true) (value_scale model.now.model horizon) }
    ensures limit { IfSome result (λ unit. unit ≤ 2 ^ 126) }
{
    model.invariant();
    let scales = model.scales();
    let weights = weight_scale(model, horizon)?;
    let steps = product_within(weights, u128::from(horizon))?;
    let reward = model.greatest_reward().max(scales.reward);
    product_within(steps, u128::from(reward))?;
    Some(weights * u128::from(scales.reward))
}

// What weights are counted in after so many steps, or `None` where it is more than 2^126.
fn weight_scale(model: &Model, steps: u32) -> Option<u128>
    ensures { let scale = model.now.model.scales.start * step_scale model.now.model ^ steps in
        SomeIff result (scale ≤ 2 ^ 126) scale }
{
    model.invariant();
    let scales = model.scales();
    let mut scale = u128::from(scales.start);
    for _step in 0..steps {
        scale = match scale_after_step(scale, &scales) {
            Some(next) => next,
            None => return None,
        };
    }
    Some(scale)
}

// The scale of weights one step on, or `None` where it is more than 2^126.
fn scale_after_step(scale: u128, scales: &Scales) -> Option<u128>
    requires { AreScales scales.now }
    ensures { let next = scale * (scales.now.trans * scales.now.obs * scales.now.discount) in
        SomeIff result (next ≤ 2 ^ 126) next }
{
    let arrived = product_within(scale, u128::from(scales.trans))?;
    let seen = product_within(arrived, u128::from(scales.obs))?;
    product_within(seen, u128::from(scales.discount))
}

// The product, or `None` where it is more than 2^126.
fn product_within(a: u128, b: u128) -> Option<u128>
    ensures { SomeIff result (a * b ≤ 2 ^ 126) (a * b) }
{
    let product = a.checked_mul(b)?;
    if product <= MOST_VALUE {
        Some(product)
    } else {
        None
    }
}
