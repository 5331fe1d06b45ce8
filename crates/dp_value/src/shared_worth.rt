//! The worth of a shared policy: weights of joint rows are updated stage by stage.
ghost use Rattle.std.specs.Prelude.{◌≡◌, ℕ, ◌+◌, ◌-◌, ◌*◌, ◌^◌, ◌<◌, ◌≤◌, ◌≢◌};
ghost use Rattle.std.specs.Prelude.{suc, pos, length, slice_index_or};
ghost use Rattle.dp_spec.specs.Arithmetic.{arithmetic, point, span_add};
ghost use Rattle.dp_spec.specs.Calls.{size};
ghost use Rattle.dp_spec.specs.Model.{joint_actions, joint_observations, start_at};
ghost use Rattle.dp_spec.specs.Quantities.{span_sum, weights_after_in};
ghost use Rattle.dp_spec.specs.SharedWorth.{joint_row_count, rows_earn_in, shared_worth_in};
ghost use Rattle.dp_spec.specs.Zeros.{KeepsZero};
ghost use Rattle.dp_links.specs.Links.{AreLinksOf};
ghost use Rattle.dp_value.specs.WeightUpdates.{AreUpdatable, weights_of};
ghost use Rattle.dp_value.specs.RowWeights.{AreRowWeights, IsSharable, row_gives, row_part, weight_in};

use crate::linked::{linked_reward, linked_weight};
use crate::rows::{action_of, joint_rows, next_of};
use dp_links::Links;
use dp_model::Model;
use dp_num::{Arith, add_spans};
use dp_policy::Shared;
use dp_spec::Span;

// The worth of a shared policy in an arithmetic, with room for the weights of two stages.
pub(crate) fn shared_worth<A: Arith>(
    arith: &A,
    model: &Model,
    links: &Links,
    policy: &Shared,
    now: &mut [Span],
    next: &mut [Span],
) -> Span
    requires links { AreLinksOf model.now.model links.now }
    requires sizes { IsSharable (A.operations arith.now) (A.calls arith.now)
        model.now.model policy.now.horizon policy.now.rows }
    requires now { (t : ℕ) → t < policy.now.horizon →
        joint_row_count policy.now.rows t * model.now.model.states ≤ length now.old }
    requires next { length next.old ≡ length now.old }
    ensures { result ≡ shared_worth_in (A.operations arith.now) model.now.model policy.now.horizon policy.now.rows }
{
    start_weights(arith, model, policy, now);
    let mut total = Span { low: 0, high: 0 };
    for stage in 0..policy.horizon() {
        total = earned(arith, model, links, policy, stage, now, total);
        if stage + 1 < policy.horizon() {
            update_stage(arith, model, links, policy, stage, now, next);
            copy(next, now);
        }
    }
    total
}

// Writes the weights of the start.
fn start_weights<A: Arith>(arith: &A, model: &Model, policy: &Shared, now: &mut [Span])
    requires sizes { IsSharable (A.operations arith.now) (A.calls arith.now)
        model.now.model policy.now.horizon policy.now.rows }
    requires room { joint_row_count policy.now.rows 0 * model.now.model.states ≤ length now.old }
    ensures weights { AreRowWeights (A.operations arith.now) model.now.model policy.now.rows 0 now.new }
{
    for state in 0..model.states() {
        now[state as usize] = arith.start(model.start(state));
    }
}

// Copies the one list to the other.
fn copy(from: &[Span], to: &mut [Span])
    requires { length from.now ≡ length to.old }
    ensures { to.new ≡ from.now }
{
    for k in 0..from.len() {
        to[k] = from[k];
    }
}

// What was earned before a stage, with what its joint rows earn.
fn earned<A: Arith>(
    arith: &A,
    model: &Model,
    links: &Links,
    policy: &Shared,
    stage: u32,
    now: &[Span],
    before: Span,
) -> Span
    requires links { AreLinksOf model.now.model links.now }
    requires sizes { IsSharable (A.operations arith.now) (A.calls arith.now)
        model.now.model policy.now.horizon policy.now.rows }
    requires stage { stage < policy.now.horizon }
    requires weights { AreRowWeights (A.operations arith.now) model.now.model policy.now.rows stage now.now }
    requires before { before ≡
        rows_earn_in (A.operations arith.now) model.now.model policy.now.rows policy.now.horizon stage }
    ensures { result ≡
        rows_earn_in (A.operations arith.now) model.now.model policy.now.rows policy.now.horizon (suc stage) }
{
    let rest = policy.horizon() - stage - 1;
    let mut total = Span { low: 0, high: 0 };
    for row in 0..joint_rows(model, policy, stage) {
        let weights = weights_at(now, model.states(), row);
        let reward = linked_reward(
            arith,
            model,
            links,
            weights,
            action_of(model, policy, stage, row),
            rest,
        );
        total = add_spans(total, reward);
    }
    add_spans(before, total)
}

// The weights of a joint row.
#[inline]
fn weights_at(now: &[Span], states: u32, row: usize) -> &[Span]
    requires { (row + 1) * states ≤ length now.now }
    ensures length { length result.now ≡ states }
    ensures are { (s : ℕ) → s < states → weights_of result.now s ≡ weight_in states now.now row s }
{
    let start = row * states as usize;
    &now[start..start + states as usize]
}

// Writes the weights of the next stage.
fn update_stage<A: Arith>(
    arith: &A,
    model: &Model,
    links: &Links,
    policy: &Shared,
    stage: u32,
    now: &[Span],
    next: &mut [Span],
)
    requires links { AreLinksOf model.now.model links.now }
    requires sizes { IsSharable (A.operations arith.now) (A.calls arith.now)
        model.now.model policy.now.horizon policy.now.rows }
    requires stage { suc stage < policy.now.horizon }
    requires weights { AreRowWeights (A.operations arith.now) model.now.model policy.now.rows stage now.now }
    requires room { joint_row_count policy.now.rows (suc stage) * model.now.model.states ≤ length next.old }
    ensures { AreRowWeights (A.operations arith.now) model.now.model policy.now.rows (suc stage) next.new }
{
    clear(next);
    for row in 0..joint_rows(model, policy, stage) {
        add_row(arith, model, links, policy, stage, row, now, next);
    }
}

// Writes zeros.
fn clear(next: &mut [Span])
    ensures { (k : ℕ) → slice_index_or next.new k (point (pos 0)) ≡ point (pos 0) }
{
    for weight in next.iter_mut() {
        *weight = Span { low: 0, high: 0 };
    }
}

// Adds the weights after a joint row and each joint observation to those of the joint rows that follow.
fn add_row<A: Arith>(
    arith: &A,
    model: &Model,
    links: &Links,
    policy: &Shared,
    stage: u32,
    row: usize,
    now: &[Span],
    next: &mut [Span],
)
    requires links { AreLinksOf model.now.model links.now }
    requires sizes { IsSharable (A.operations arith.now) (A.calls arith.now)
        model.now.model policy.now.horizon policy.now.rows }
    requires stage { suc stage < policy.now.horizon }
    requires row { row < joint_row_count policy.now.rows stage }
    requires weights { AreRowWeights (A.operations arith.now) model.now.model policy.now.rows stage now.now }
    requires room { joint_row_count policy.now.rows (suc stage) * model.now.model.states ≤ length next.old }
    requires sum { (j s : ℕ) → j < joint_row_count policy.now.rows (suc stage) → s < model.now.model.states →
        weight_in model.now.model.states next.old j s ≡
        span_sum row (row_gives (A.operations arith.now) model.now.model policy.now.rows stage j s) }
    ensures { (j s : ℕ) → j < joint_row_count policy.now.rows (suc stage) → s < model.now.model.states →
        weight_in model.now.model.states next.new j s ≡
        span_sum (suc row) (row_gives (A.operations arith.now) model.now.model policy.now.rows stage j s) }
{
    let action = action_of(model, policy, stage, row);
    let weights = weights_at(now, model.states(), row);
    for seen in 0..model.joint_observations() {
        let to = next_of(model, policy, stage, row, seen);
        add_seen(arith, model, links, weights, action, seen, to, next);
    }
}

// Adds the weights after a joint action and a joint observation to those of a joint row.
fn add_seen<A: Arith>(
    arith: &A,
    model: &Model,
    links: &Links,
    weights: &[Span],
    action: u32,
    seen: u32,
    to: usize,
    next: &mut [Span],
)
    requires zeros { KeepsZero (A.operations arith.now) }
    requires links { AreLinksOf model.now.model links.now }
    requires one_each { length weights.now ≡ model.now.model.states }
    requires sizes { AreUpdatable (A.operations arith.now) (A.calls arith.now)
        model.now.model (weights_of weights.now) }
    requires action { action < joint_actions model.now.model }
    requires seen { seen < joint_observations model.now.model }
    requires to { (to + 1) * model.now.model.states ≤ length next.old }
    requires sum { (s : ℕ) → s < model.now.model.states →
        size (span_add (weight_in model.now.model.states next.old to s)
        (weights_after_in (A.operations arith.now) model.now.model (weights_of weights.now) action seen s)) <
        2 ^ 127 }
    ensures here { (s : ℕ) → s < model.now.model.states → weight_in model.now.model.states next.new to s ≡
        span_add (weight_in model.now.model.states next.old to s)
        (weights_after_in (A.operations arith.now) model.now.model (weights_of weights.now) action seen s) }
    ensures others { (j s : ℕ) → s < model.now.model.states → to ≢ j →
        weight_in model.now.model.states next.new j s ≡ weight_in model.now.model.states next.old j s }
{
    for state in 0..model.states() {
        let at = to * model.states() as usize + state as usize;
        let updated = linked_weight(arith, model, links, weights, action, seen, state);
        next[at] = add_spans(next[at], updated);
    }
}
