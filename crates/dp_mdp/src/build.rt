// The rows of the table, from the last step on.
ghost use Rattle.std.specs.Prelude.{◌≡◌, ◌<◌, ◌≤◌, ◌^◌, ℕ, [], pos, suc, length, get_or, IfOk};
ghost use Rattle.dp_spec.specs.Model.{joint_actions, trans_at};
ghost use Rattle.dp_spec.specs.Quantities.{mdp_table_in};
ghost use Rattle.dp_mdp.specs.Building.{AllowsLastRewards, AllowsRow, AreLastRewards, IsLastReward};
ghost use Rattle.dp_mdp.specs.Building.{action_value, later_value};
ghost use Rattle.dp_mdp.specs.StepRewards.{state_reward};
ghost use Rattle.dp_mdp.specs.TableRows.{IsRow};

use crate::state_reward;
use dp_base::Memory;
use dp_model::{Model, Sequence};
use dp_num::Arith;
use std::alloc::Global;

/// The rows of the table up to a horizon, from the rewards of the last step, and what they are
/// multiplied by where more steps are left.
pub fn rows_in<A: Arith>(
    alloc: Global,
    arith: &A,
    model: &Model,
    rewards: &[Sequence<i128>],
    powers: &[i128],
    horizon: u32,
) -> Result<Vec<Sequence<i128>>, Memory>
    requires rewards { AreLastRewards (A.operations arith.now) model.now.model rewards.now }
    requires as_many { length powers.now ≡ horizon }
    requires sizes { (r : ℕ) → r < horizon → AllowsRow (A.operations arith.now) (A.calls arith.now)
        model.now.model r (get_or powers.now r (pos 0)) }
    ensures long { IfOk result (λ rows. length rows.items ≡ suc horizon) }
    ensures each { IfOk result (λ rows. (r : ℕ) → r ≤ horizon →
        IsRow (A.operations arith.now) model.now.model r (get_or rows.items r [])) }
{
    let mut rows = Vec::new(alloc);
    rows.push(Sequence::of(vec![in alloc; 0; model.states() as usize]?))?;
    for rest in 0..horizon {
        let row = rows[rest as usize].as_slice();
        let power = power_at(powers, rest);
        let next = next_row(alloc, arith, model, rewards, row, rest, power)?;
        rows.push(next)?;
    }
    Ok(rows)
}

// What the rewards of the last step are multiplied by where `rest` steps are left.
#[inline]
fn power_at(powers: &[i128], rest: u32) -> i128
    requires { rest < length powers.now }
    ensures { result ≡ get_or powers.now rest (pos 0) }
{
    powers[rest as usize]
}

/// The powers of `step`, from that of 0 up to that before `horizon`.
pub fn powers_of(alloc: Global, step: u128, horizon: u32) -> Result<Vec<i128>, Memory>
    requires some { 0 < step }
    requires small { step ^ horizon < 2 ^ 127 }
    ensures as_many { IfOk result (λ powers. length powers.items ≡ horizon) }
    ensures powers { IfOk result (λ powers. (r : ℕ) → r < horizon →
        get_or powers.items r (pos 0) ≡ pos (step ^ r)) }
{
    let mut powers = Vec::new(alloc);
    let mut power: u128 = 1;
    for _steps in 0..horizon {
        powers.push(power as i128)?;
        power *= step;
    }
    Ok(powers)
}

/// The reward of the last step, for each joint action and state.
pub fn last_rewards<A: Arith>(
    alloc: Global,
    arith: &A,
    model: &Model,
) -> Result<Vec<Sequence<i128>>, Memory>
    requires sizes { AllowsLastRewards (A.operations arith.now) (A.calls arith.now) model.now.model }
    ensures { IfOk result (λ rewards. AreLastRewards (A.operations arith.now) model.now.model rewards.items) }
{
    let mut rewards = Vec::new(alloc);
    for action in 0..model.joint_actions() {
        rewards.push(action_rewards(alloc, arith, model, action)?)?;
    }
    Ok(rewards)
}

// That of one joint action, for each state.
fn action_rewards<A: Arith>(
    alloc: Global,
    arith: &A,
    model: &Model,
    action: u32,
) -> Result<Sequence<i128>, Memory>
    requires sizes { AllowsLastRewards (A.operations arith.now) (A.calls arith.now) model.now.model }
    requires action { action < joint_actions model.now.model }
    ensures { IfOk result (λ row. IsLastReward (A.operations arith.now) model.now.model action row) }
{
    let mut row = Vec::new(alloc);
    for state in 0..model.states() {
        row.push(state_reward(arith, model, 0, arith.one(), action, state).high)?;
    }
    Ok(Sequence::of(row))
}

// The row of one step more, where `rest` steps are left after it.
fn next_row<A: Arith>(
    alloc: Global,
    arith: &A,
    model: &Model,
    rewards: &[Sequence<i128>],
    row: &[i128],
    rest: u32,
    power: i128,
) -> Result<Sequence<i128>, Memory>
    requires rewards { AreLastRewards (A.operations arith.now) model.now.model rewards.now }
    requires row { IsRow (A.operations arith.now) model.now.model rest row.now }
    requires sizes { AllowsRow (A.operations arith.now) (A.calls arith.now) model.now.model rest power }
    ensures { IfOk result (λ next. IsRow (A.operations arith.now) model.now.model (suc rest) next) }
{
    let mut next = Vec::new(alloc);
    for state in 0..model.states() {
        next.push(best_value(arith, model, rewards, row, rest, power, state))?;
    }
    Ok(Sequence::of(next))
}

// The greatest value from one state.
fn best_value<A: Arith>(
    arith: &A,
    model: &Model,
    rewards: &[Sequence<i128>],
    row: &[i128],
    rest: u32,
    power: i128,
    state: u32,
) -> i128
    requires rewards { AreLastRewards (A.operations arith.now) model.now.model rewards.now }
    requires row { IsRow (A.operations arith.now) model.now.model rest row.now }
    requires sizes { AllowsRow (A.operations arith.now) (A.calls arith.now) model.now.model rest power }
    requires state { state < model.now.model.states }
    ensures { result ≡ mdp_table_in (A.operations arith.now) model.now.model (suc rest) state }
{
    model.invariant();
    let mut best = action_value(arith, model, rewards, row, rest, power, 0, state);
    for action in 1..model.joint_actions() {
        let value = action_value(arith, model, rewards, row, rest, power, action, state);
        best = value.max(best);
    }
    best
}

// The value of one joint action from one state.
fn action_value<A: Arith>(
    arith: &A,
    model: &Model,
    rewards: &[Sequence<i128>],
    row: &[i128],
    rest: u32,
    power: i128,
    action: u32,
    state: u32,
) -> i128
    requires rewards { AreLastRewards (A.operations arith.now) model.now.model rewards.now }
    requires row { IsRow (A.operations arith.now) model.now.model rest row.now }
    requires sizes { AllowsRow (A.operations arith.now) (A.calls arith.now) model.now.model rest power }
    requires action { action < joint_actions model.now.model }
    requires state { state < model.now.model.states }
    ensures { result ≡ action_value (A.operations arith.now) model.now.model rest state action }
{
    let now = reward_now(arith, model, rewards, rest, power, action, state);
    now + later_value(arith, model, row, rest, power, action, state)
}

// The reward now, from that of the last step.
fn reward_now<A: Arith>(
    arith: &A,
    model: &Model,
    rewards: &[Sequence<i128>],
    rest: u32,
    power: i128,
    action: u32,
    state: u32,
) -> i128
    requires rewards { AreLastRewards (A.operations arith.now) model.now.model rewards.now }
    requires sizes { AllowsRow (A.operations arith.now) (A.calls arith.now) model.now.model rest power }
    requires action { action < joint_actions model.now.model }
    requires state { state < model.now.model.states }
    ensures { result
        ≡ (state_reward (A.operations arith.now) model.now.model rest (A.operations arith.now).one action
        state).high }
{
    last_reward(rewards, action, state) * power
}

// The reward of the last step.
fn last_reward(rewards: &[Sequence<i128>], action: u32, state: u32) -> i128
    requires action { action < length rewards.now }
    requires state { state < length (get_or rewards.now action []) }
    ensures { result ≡ get_or (get_or rewards.now action []) state (pos 0) }
{
    rewards[action as usize].as_slice()[state as usize]
}

// The value after it. Next states of chance 0 are left out.
fn later_value<A: Arith>(
    arith: &A,
    model: &Model,
    row: &[i128],
    rest: u32,
    power: i128,
    action: u32,
    state: u32,
) -> i128
    requires row { IsRow (A.operations arith.now) model.now.model rest row.now }
    requires sizes { AllowsRow (A.operations arith.now) (A.calls arith.now) model.now.model rest power }
    requires action { action < joint_actions model.now.model }
    requires state { state < model.now.model.states }
    ensures { result ≡ later_value (A.operations arith.now) model.now.model rest action state }
{
    let mut total = 0;
    for next in 0..model.states() {
        let chance = model.trans(action, state, next);
        if chance != 0 {
            total += carried(arith, model, row, rest, power, action, state, next, chance);
        }
    }
    total
}

// The part of one next state, of chance `chance`.
fn carried<A: Arith>(
    arith: &A,
    model: &Model,
    row: &[i128],
    rest: u32,
    power: i128,
    action: u32,
    state: u32,
    next: u32,
    chance: u64,
) -> i128
    requires row { IsRow (A.operations arith.now) model.now.model rest row.now }
    requires sizes { AllowsRow (A.operations arith.now) (A.calls arith.now) model.now.model rest power }
    requires action { action < joint_actions model.now.model }
    requires state { state < model.now.model.states }
    requires next { next < model.now.model.states }
    requires chance { chance ≡ trans_at model.now.model action state next }
    ensures { result ≡ (A.operations arith.now).carry
        (mdp_table_in (A.operations arith.now) model.now.model rest next)
        (trans_at model.now.model action state next) }
{
    arith.carry(row[next as usize], chance)
}
