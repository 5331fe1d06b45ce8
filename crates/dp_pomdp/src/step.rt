// One step from weights, in an arithmetic: the weights after it, its reward, and what the table says.
ghost use Rattle.std.specs.Prelude.{◌≡◌, ◌<◌, ◌≤◌, ◌^◌, ◌*ℤ◌, true, ℕ, suc, length, unsigned_abs};
ghost use Rattle.dp_base.specs.Sums.{int_sum};
ghost use Rattle.dp_spec.specs.Model.{joint_actions, joint_observations, obs_at};
ghost use Rattle.dp_spec.specs.Quantities.{mdp_table_in, weighted_reward_in, weighted_table_in, weights_after_in};
ghost use Rattle.dp_links.specs.Links.{AreLinksOf};
ghost use Rattle.dp_mdp.specs.TableRows.{IsRow, IsTable};
ghost use Rattle.dp_pomdp.specs.Looking.{AreZero, IsBeforeHorizon, IsLooking, updated_part, weighed_part, weights_of};

use dp_mdp::{MdpTable, state_reward};
use dp_model::Model;
use dp_num::{Arith, add_spans};
use dp_spec::Span;

/// Writes the weights after a joint action and a joint observation.
pub fn push_weights<A: Arith>(
    arith: &A,
    model: &Model,
    table: &MdpTable,
    weights: &[Span],
    action: u32,
    seen: u32,
    next: &mut [Span],
)
    requires sizes { IsBeforeHorizon (A.operations arith.now) (A.calls arith.now) model.now.model weights.now }
    requires links { AreLinksOf model.now.model table.now.links }
    requires action { action < joint_actions model.now.model }
    requires seen { seen < joint_observations model.now.model }
    requires one_each { length next.old ≡ model.now.model.states }
    ensures pushed { (t : ℕ) → t < model.now.model.states → weights_of next.new t
        ≡ weights_after_in (A.operations arith.now) model.now.model (weights_of weights.now) action seen t }
{
    for to in 0..model.states() {
        next[to as usize] = next_weight(arith, model, table, weights, action, seen, to);
    }
}

// The next weight of one state.
fn next_weight<A: Arith>(
    arith: &A,
    model: &Model,
    table: &MdpTable,
    weights: &[Span],
    action: u32,
    seen: u32,
    to: u32,
) -> Span
    requires sizes { IsBeforeHorizon (A.operations arith.now) (A.calls arith.now) model.now.model weights.now }
    requires links { AreLinksOf model.now.model table.now.links }
    requires action { action < joint_actions model.now.model }
    requires seen { seen < joint_observations model.now.model }
    requires to { to < model.now.model.states }
    ensures { result ≡ weights_after_in (A.operations arith.now) model.now.model (weights_of weights.now) action seen
        to }
{
    let chance = model.obs(action, to, seen);
    if chance == 0 {
        return Span { low: 0, high: 0 };
    }
    weight_from(arith, model, table, weights, action, seen, to, chance)
}

// The same where the joint observation has chance `chance`: what comes from the states before it.
fn weight_from<A: Arith>(
    arith: &A,
    model: &Model,
    table: &MdpTable,
    weights: &[Span],
    action: u32,
    seen: u32,
    to: u32,
    chance: u64,
) -> Span
    requires sizes { IsBeforeHorizon (A.operations arith.now) (A.calls arith.now) model.now.model weights.now }
    requires links { AreLinksOf model.now.model table.now.links }
    requires action { action < joint_actions model.now.model }
    requires seen { seen < joint_observations model.now.model }
    requires to { to < model.now.model.states }
    requires chance { chance ≡ obs_at model.now.model action to seen }
    ensures { result ≡ weights_after_in (A.operations arith.now) model.now.model (weights_of weights.now) action seen
        to }
{
    let states = table.before(model, action, to);
    let mut total = Span { low: 0, high: 0 };
    for place in 0..states.len() {
        let part = part_of(
            arith,
            model,
            weights,
            action,
            seen,
            to,
            states[place],
            chance,
        );
        total = add_spans(total, part);
    }
    total
}

// The part of the next weight of state `to` that comes from one state. A weight of 0 gives nothing.
#[inline]
fn part_of<A: Arith>(
    arith: &A,
    model: &Model,
    weights: &[Span],
    action: u32,
    seen: u32,
    to: u32,
    state: u32,
    chance: u64,
) -> Span
    requires sizes { IsBeforeHorizon (A.operations arith.now) (A.calls arith.now) model.now.model weights.now }
    requires action { action < joint_actions model.now.model }
    requires seen { seen < joint_observations model.now.model }
    requires to { to < model.now.model.states }
    requires state { state < model.now.model.states }
    requires chance { chance ≡ obs_at model.now.model action to seen }
    ensures { result ≡ updated_part (A.operations arith.now) model.now.model weights.now action seen to state }
{
    let weight = weights[state as usize];
    if weight.high == 0 {
        return Span { low: 0, high: 0 };
    }
    arith.later(arith.chance(weight, model.trans(action, state, to), chance))
}

/// The reward of a joint action, where `rest` steps are left after this one, from above. Where nothing is
/// rounded it is what the table says of the last step, weighed, and multiplied by what has changed since.
pub fn reward_now<A: Arith>(
    arith: &A,
    model: &Model,
    table: &MdpTable,
    exact: bool,
    rest: u32,
    weights: &[Span],
    action: u32,
) -> i128
    requires sizes { IsLooking (A.operations arith.now) (A.calls arith.now) model.now.model (suc rest) weights.now }
    requires mode { exact ≡ (A.operations arith.now).is_exact }
    requires table { IsTable (A.operations arith.now) model.now.model (suc rest) table.now }
    requires action { action < joint_actions model.now.model }
    ensures { result
        ≡ (weighted_reward_in (A.operations arith.now) model.now.model rest (weights_of weights.now) action).high }
{
    if exact {
        weighed(table.rewards(action), weights, table.power(rest))
    } else {
        summed_reward(arith, model, rest, weights, action)
    }
}

// The weights times rewards, one for each state, and times a power.
fn weighed(rewards: &[i128], weights: &[Span], power: i128) -> i128
    requires one_each { length weights.now ≡ length rewards.now }
    requires parts { (s : ℕ) → s < length rewards.now →
        unsigned_abs (weighed_part rewards.now weights.now s) < 2 ^ 127 }
    requires sums { (k : ℕ) → k ≤ length rewards.now →
        unsigned_abs (int_sum k (weighed_part rewards.now weights.now)) < 2 ^ 127 }
    requires whole { unsigned_abs (int_sum (length rewards.now) (weighed_part rewards.now weights.now) *ℤ power)
        < 2 ^ 127 }
    ensures { result ≡ int_sum (length rewards.now) (weighed_part rewards.now weights.now) *ℤ power }
{
    let mut total = 0;
    for state in 0..rewards.len() {
        total += weighed_part(rewards, weights, state);
    }
    total * power
}

// One of the weights times the reward of its state.
#[inline]
fn weighed_part(rewards: &[i128], weights: &[Span], state: usize) -> i128
    requires state { state < length rewards.now }
    requires one_each { length weights.now ≡ length rewards.now }
    requires room { unsigned_abs (weighed_part rewards.now weights.now state) < 2 ^ 127 }
    ensures { result ≡ weighed_part rewards.now weights.now state }
{
    weights[state].high * rewards[state]
}

// The reward summed over the states, the next states and the joint observations.
fn summed_reward<A: Arith>(
    arith: &A,
    model: &Model,
    rest: u32,
    weights: &[Span],
    action: u32,
) -> i128
    requires sizes { IsLooking (A.operations arith.now) (A.calls arith.now) model.now.model (suc rest) weights.now }
    requires action { action < joint_actions model.now.model }
    ensures { result
        ≡ (weighted_reward_in (A.operations arith.now) model.now.model rest (weights_of weights.now) action).high }
{
    let mut total = Span { low: 0, high: 0 };
    for state in 0..model.states() {
        let weight = weights[state as usize];
        if weight.high != 0 {
            total = add_spans(
                total,
                state_reward(arith, model, rest, weight, action, state),
            );
        }
    }
    total.high
}

/// The weights against a row of the table, from above.
pub fn against_table<A: Arith>(
    arith: &A,
    model: &Model,
    rest: u32,
    row: &[i128],
    weights: &[Span],
) -> i128
    requires sizes { IsLooking (A.operations arith.now) (A.calls arith.now) model.now.model rest weights.now }
    requires row { IsRow (A.operations arith.now) model.now.model rest row.now }
    ensures { result ≡ weighted_table_in (A.operations arith.now) model.now.model rest (weights_of weights.now) }
{
    let mut total = 0;
    for state in 0..model.states() {
        total += table_part(arith, model, rest, row, weights, state);
    }
    total
}

// The part of one state. A weight of 0 earns nothing.
fn table_part<A: Arith>(
    arith: &A,
    model: &Model,
    rest: u32,
    row: &[i128],
    weights: &[Span],
    state: u32,
) -> i128
    requires sizes { IsLooking (A.operations arith.now) (A.calls arith.now) model.now.model rest weights.now }
    requires row { IsRow (A.operations arith.now) model.now.model rest row.now }
    requires state { state < model.now.model.states }
    ensures { result ≡ (A.operations arith.now).tail (weights_of weights.now state)
        (mdp_table_in (A.operations arith.now) model.now.model rest state) }
{
    let weight = weights[state as usize];
    if weight.high == 0 {
        return 0;
    }
    arith.tail(weight, row[state as usize])
}

/// Whether the upper end of each weight is 0.
pub fn all_zero(weights: &[Span]) -> bool
    ensures yes { result ≡ true → AreZero weights.now }
    ensures no { AreZero weights.now → result ≡ true }
{
    for weight in weights {
        if weight.high != 0 {
            return false;
        }
    }
    true
}
