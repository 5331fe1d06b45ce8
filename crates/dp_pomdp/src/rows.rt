// Rows of look-ahead: what can be earned from weights by each joint action, or by one.
ghost use Rattle.std.specs.Prelude.{◌≡◌, ℤ, ◌*◌, ◌/◌, ◌%◌, ◌-◌, ◌+◌, ◌++◌, ◌^◌, ◌<◌, ◌≤◌, ◌*ℤ◌, ℕ, get_or, pos, map};
ghost use Rattle.std.specs.Prelude.{length, unsigned_abs, IfOk, IfSome};
ghost use Rattle.std.specs.List.{range_with_len};
ghost use Rattle.dp_spec.specs.Arithmetic.{Arithmetic, arithmetic};
ghost use Rattle.dp_spec.specs.Mode.{IsTrueFit};
ghost use Rattle.dp_spec.specs.Model.{Model as PlainModel, joint_actions};
ghost use Rattle.dp_spec.specs.Quantities.{action_look_ahead_in};
ghost use Rattle.dp_spec.specs.Sizes.{AreWeights};
ghost use Rattle.dp_mdp.specs.TableRows.{IsTable};
ghost use Rattle.dp_pomdp.specs.Looking.{weights_of};
ghost use Rattle.dp_pomdp.specs.Memos.{AreKept, action_of, look_of, row_of};

use crate::bounds::action_in_mode;
use crate::memo::Memo;
use crate::recursion::push_looks;
use dp_base::Memory;
use dp_mdp::MdpTable;
use dp_model::{Fit, Model};
use dp_num::{Exact, Outward};
use dp_spec::Span;

/// Makes `row` the row of the weights of time `t` with a look, from a memo of rows where it keeps that
/// row. The only error is want of memory.
pub fn kept_row(
    model: &Model,
    fit: Fit,
    table: &MdpTable,
    weights: &[Span],
    t: u32,
    look: u32,
    room: &mut [Span],
    looks: &mut Memo,
    rows: &mut Memo,
    row: &mut Vec<i128>,
) -> Result<(), Memory>
    requires fit { IsTrueFit model.now.model fit.horizon fit.exact fit.unit }
    requires table { IsTable (arithmetic fit.exact model.now.model.scales) model.now.model fit.horizon table.now }
    requires time { t < fit.horizon }
    requires some_look { 0 < look }
    requires room { look * model.now.model.states ≤ length room.old }
    requires one_each { length weights.now ≡ model.now.model.states }
    requires weights { AreWeights fit.exact model.now.model t (weights_of weights.now) }
    requires looks { AreKept (look_of (arithmetic fit.exact model.now.model.scales) model.now.model) looks.old }
    requires rows { AreKept (row_of (arithmetic fit.exact model.now.model.scales) model.now.model) rows.old }
    ensures is { IfOk result (λ _. row.new.items ≡ row_of (arithmetic fit.exact model.now.model.scales)
        model.now.model (fit.horizon - t) look weights.now) }
    ensures room { length room.new ≡ length room.old }
    ensures looks { AreKept (look_of (arithmetic fit.exact model.now.model.scales) model.now.model) looks.new }
    ensures rows { AreKept (row_of (arithmetic fit.exact model.now.model.scales) model.now.model) rows.new }
{
    let rest = fit.horizon - t;
    row.clear();
    if let Some(values) = rows.find(rest, look, weights) {
        row.extend_from_slice(values)?;
        return Ok(());
    }
    row_in_mode(model, fit, table, weights, t, look, room, looks, row)?;
    rows.keep(rest, look, weights, row);
    Ok(())
}

/// The look-ahead of joint action `a` from the weights of time `t` with a look, from a memo where it keeps it.
pub fn kept_action(
    model: &Model,
    fit: Fit,
    table: &MdpTable,
    weights: &[Span],
    t: u32,
    a: u32,
    look: u32,
    room: &mut [Span],
    looks: &mut Memo,
    actions: &mut Memo,
) -> i128
    requires fit { IsTrueFit model.now.model fit.horizon fit.exact fit.unit }
    requires table { IsTable (arithmetic fit.exact model.now.model.scales) model.now.model fit.horizon table.now }
    requires time { t < fit.horizon }
    requires action { a < joint_actions model.now.model }
    requires some_look { 0 < look }
    requires look { look ≤ 16 }
    requires room { look * model.now.model.states ≤ length room.old }
    requires one_each { length weights.now ≡ model.now.model.states }
    requires weights { AreWeights fit.exact model.now.model t (weights_of weights.now) }
    requires looks { AreKept (look_of (arithmetic fit.exact model.now.model.scales) model.now.model) looks.old }
    requires actions { AreKept (action_of (arithmetic fit.exact model.now.model.scales) model.now.model) actions.old }
    ensures is { result ≡ action_look_ahead_in (arithmetic fit.exact model.now.model.scales) model.now.model
        (fit.horizon - t - 1) (weights_of weights.now) a look }
    ensures room { length room.new ≡ length room.old }
    ensures looks { AreKept (look_of (arithmetic fit.exact model.now.model.scales) model.now.model) looks.new }
    ensures actions { AreKept (action_of (arithmetic fit.exact model.now.model.scales) model.now.model) actions.new }
{
    model.invariant();
    let rest = fit.horizon - t;
    let number = look * 256 + a;
    if let Some(value) = first_kept(actions, rest, number, weights) {
        return value;
    }
    let value = action_in_mode(model, fit, table, weights, t, a, look, room, looks);
    actions.keep(rest, number, weights, &[value]);
    value
}

// What a memo of joint actions keeps of weights, if it is found.
fn first_kept(memo: &Memo, rest: u32, number: u32, weights: &[Span]) -> Option<i128>
    ensures { (A : Arithmetic) (m : PlainModel) → AreKept (action_of A m) memo.now →
        IfSome result (λ x. x ≡ action_look_ahead_in A m (rest - 1) (weights_of weights.now) (number % 256)
        (number / 256)) }
{
    let values = memo.find(rest, number, weights)?;
    values.first().copied()
}

// Adds the row of the weights, in the arithmetic of the fit's mode.
fn row_in_mode(
    model: &Model,
    fit: Fit,
    table: &MdpTable,
    weights: &[Span],
    t: u32,
    look: u32,
    room: &mut [Span],
    memo: &mut Memo,
    row: &mut Vec<i128>,
) -> Result<(), Memory>
    requires fit { IsTrueFit model.now.model fit.horizon fit.exact fit.unit }
    requires table { IsTable (arithmetic fit.exact model.now.model.scales) model.now.model fit.horizon table.now }
    requires time { t < fit.horizon }
    requires some_look { 0 < look }
    requires room { look * model.now.model.states ≤ length room.old }
    requires one_each { length weights.now ≡ model.now.model.states }
    requires weights { AreWeights fit.exact model.now.model t (weights_of weights.now) }
    requires memo { AreKept (look_of (arithmetic fit.exact model.now.model.scales) model.now.model) memo.old }
    ensures is { IfOk result (λ _. row.new.items ≡ row.old.items
        ++ map (λ a. action_look_ahead_in (arithmetic fit.exact model.now.model.scales) model.now.model
        (fit.horizon - t - 1) (weights_of weights.now) a look) (range_with_len 0 (joint_actions model.now.model))) }
    ensures room { length room.new ≡ length room.old }
    ensures memo { AreKept (look_of (arithmetic fit.exact model.now.model.scales) model.now.model) memo.new }
{
    model.invariant();
    let rest = fit.horizon - t - 1;
    if fit.exact {
        let arith = Exact::of(model.scales());
        push_looks(
            &arith, model, table, true, rest, weights, look, room, memo, row,
        )
    } else {
        let arith = Outward::of(model.scales());
        push_looks(
            &arith, model, table, false, rest, weights, look, room, memo, row,
        )
    }
}

/// Adds to a list a factor times each of some numbers. The only error is want of memory.
pub fn push_times(factor: i128, values: &[i128], row: &mut Vec<i128>) -> Result<(), Memory>
    requires { (k : ℕ) → k < length values.now → unsigned_abs (factor *ℤ get_or values.now k (pos 0)) < 2 ^ 127 }
    ensures { IfOk result (λ _. row.new.items ≡ row.old.items ++ map (λ (v : ℤ). factor *ℤ v) values.now) }
{
    for at in 0..values.len() {
        row.push(product_of(factor, values, at))?;
    }
    Ok(())
}

// A factor times one of some numbers.
#[inline]
fn product_of(factor: i128, values: &[i128], at: usize) -> i128
    requires at { at < length values.now }
    requires room { unsigned_abs (factor *ℤ get_or values.now at (pos 0)) < 2 ^ 127 }
    ensures { result ≡ factor *ℤ get_or values.now at (pos 0) }
{
    factor * values[at]
}
