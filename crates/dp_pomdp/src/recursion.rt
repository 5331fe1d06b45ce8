//! Look-ahead.
ghost use Rattle.std.specs.Prelude.{◌≡◌, ◌-◌, ◌*◌, ◌*ℤ◌, ◌++◌, ◌^◌, ◌<◌, ◌≤◌, map, length, suc, unsigned_abs, IfOk};
ghost use Rattle.std.specs.Prelude.{IfSome};
ghost use Rattle.std.specs.List.{range_with_len};
ghost use Rattle.dp_spec.specs.Arithmetic.{Arithmetic};
ghost use Rattle.dp_spec.specs.Model.{Model as PlainModel, joint_actions};
ghost use Rattle.dp_spec.specs.Quantities.{action_look_ahead_in, look_ahead_in, weighted_table_in};
ghost use Rattle.dp_mdp.specs.TableRows.{IsTable};
ghost use Rattle.dp_pomdp.specs.Looking.{IsLooking, weights_of};
ghost use Rattle.dp_pomdp.specs.Memos.{AreKept, look_of};

use crate::memo::Memo;
use crate::reduce::reduced;
use crate::step::{against_table, all_zero, push_weights, reward_now};
use dp_base::Memory;
use dp_mdp::MdpTable;
use dp_model::Model;
use dp_num::Arith;
use dp_spec::Span;

/// What can be earned from the weights over `rest` steps with look `look`. `room` has a buffer of one
/// weight for each state for each step of the look. `memo` keeps what was looked ahead, and `exact`
/// says whether the arithmetic is.
#[cycle(looking)]
pub fn look_ahead<A: Arith>(
    arith: &A,
    model: &Model,
    table: &MdpTable,
    exact: bool,
    rest: u32,
    weights: &[Span],
    look: u32,
    room: &mut [Span],
    memo: &mut Memo,
) -> i128
    requires sizes { IsLooking (A.operations arith.now) (A.calls arith.now) model.now.model rest weights.now }
    requires mode { exact ≡ (A.operations arith.now).is_exact }
    requires table { IsTable (A.operations arith.now) model.now.model rest table.now }
    requires room { look * model.now.model.states ≤ length room.old }
    requires memo { AreKept (look_of (A.operations arith.now) model.now.model) memo.old }
    ensures is { result ≡ look_ahead_in (A.operations arith.now) model.now.model rest (weights_of weights.now) look }
    ensures room { length room.new ≡ length room.old }
    ensures memo { AreKept (look_of (A.operations arith.now) model.now.model) memo.new }
{
    if rest == 0 || all_zero(weights) {
        return 0;
    }
    if look == 0 {
        return against_table(arith, model, rest, table.row(rest), weights);
    }
    if let Some(value) = found(memo, rest, look, weights) {
        return value;
    }
    let cap = against_table(arith, model, rest, table.row(rest), weights);
    let value = greatest_look(
        arith,
        model,
        table,
        exact,
        rest - 1,
        weights,
        look,
        cap,
        room,
        memo,
    );
    memo.keep(rest, look, weights, &[value]);
    value
}

// What a memo keeps of weights, if it is found.
fn found(memo: &Memo, rest: u32, look: u32, weights: &[Span]) -> Option<i128>
    ensures { (A : Arithmetic) (m : PlainModel) → AreKept (look_of A m) memo.now →
        IfSome result (λ x. x ≡ look_ahead_in A m rest (weights_of weights.now) look) }
{
    let values = memo.find(rest, look, weights)?;
    values.first().copied()
}

/// The same with a look of at least 1, where `rest` steps are left after this one and `cap` is what the
/// table says of the weights: the greatest over the joint actions, but at most the cap.
#[cycle(looking)]
pub fn greatest_look<A: Arith>(
    arith: &A,
    model: &Model,
    table: &MdpTable,
    exact: bool,
    rest: u32,
    weights: &[Span],
    look: u32,
    cap: i128,
    room: &mut [Span],
    memo: &mut Memo,
) -> i128
    requires sizes { IsLooking (A.operations arith.now) (A.calls arith.now) model.now.model (suc rest) weights.now }
    requires mode { exact ≡ (A.operations arith.now).is_exact }
    requires table { IsTable (A.operations arith.now) model.now.model (suc rest) table.now }
    requires look { 0 < look }
    requires cap { cap ≡ weighted_table_in (A.operations arith.now) model.now.model (suc rest)
        (weights_of weights.now) }
    requires room { look * model.now.model.states ≤ length room.old }
    requires memo { AreKept (look_of (A.operations arith.now) model.now.model) memo.old }
    ensures is { result ≡ look_ahead_in (A.operations arith.now) model.now.model (suc rest) (weights_of weights.now)
        look }
    ensures room { length room.new ≡ length room.old }
    ensures memo { AreKept (look_of (A.operations arith.now) model.now.model) memo.new }
{
    model.invariant();
    let mut best = action_look_ahead(
        arith, model, table, exact, rest, weights, 0, look, room, memo,
    );
    for action in 1..model.joint_actions() {
        if best >= cap {
            return cap;
        }
        let value = action_look_ahead(
            arith, model, table, exact, rest, weights, action, look, room, memo,
        );
        best = value.max(best);
    }
    best.min(cap)
}

/// The same where a joint action is done now, and `rest` steps are left after it. What may not be seen is
/// left out.
#[cycle(looking)]
pub fn action_look_ahead<A: Arith>(
    arith: &A,
    model: &Model,
    table: &MdpTable,
    exact: bool,
    rest: u32,
    weights: &[Span],
    action: u32,
    look: u32,
    room: &mut [Span],
    memo: &mut Memo,
) -> i128
    requires sizes { IsLooking (A.operations arith.now) (A.calls arith.now) model.now.model (suc rest) weights.now }
    requires mode { exact ≡ (A.operations arith.now).is_exact }
    requires table { IsTable (A.operations arith.now) model.now.model (suc rest) table.now }
    requires action { action < joint_actions model.now.model }
    requires look { 0 < look }
    requires room { look * model.now.model.states ≤ length room.old }
    requires memo { AreKept (look_of (A.operations arith.now) model.now.model) memo.old }
    ensures is { result ≡ action_look_ahead_in (A.operations arith.now) model.now.model rest
        (weights_of weights.now) action look }
    ensures room { length room.new ≡ length room.old }
    ensures memo { AreKept (look_of (A.operations arith.now) model.now.model) memo.new }
{
    let mut total = reward_now(arith, model, table, exact, rest, weights, action);
    let (next, deeper) = room.split_at_mut(model.states() as usize);
    let observed = table.seen(model, action);
    for place in 0..observed.len() {
        let seen = observed[place];
        push_weights(arith, model, table, weights, action, seen, next);
        let factor = reduced(exact, look, next);
        let value = look_ahead(
            arith,
            model,
            table,
            exact,
            rest,
            next,
            look - 1,
            deeper,
            memo,
        );
        total += times(factor, value);
    }
    total
}

/// A product of 127 bits with a sign.
#[inline]
pub(crate) fn times(factor: i128, value: i128) -> i128
    requires { unsigned_abs (factor *ℤ value) < 2 ^ 127 }
    ensures { result ≡ factor *ℤ value }
{
    factor * value
}

/// Adds the look-ahead of each joint action, where `rest` steps are left after it.
pub fn push_looks<A: Arith>(
    arith: &A,
    model: &Model,
    table: &MdpTable,
    exact: bool,
    rest: u32,
    weights: &[Span],
    look: u32,
    room: &mut [Span],
    memo: &mut Memo,
    row: &mut Vec<i128>,
) -> Result<(), Memory>
    requires sizes { IsLooking (A.operations arith.now) (A.calls arith.now) model.now.model (suc rest) weights.now }
    requires mode { exact ≡ (A.operations arith.now).is_exact }
    requires table { IsTable (A.operations arith.now) model.now.model (suc rest) table.now }
    requires look { 0 < look }
    requires room { look * model.now.model.states ≤ length room.old }
    requires memo { AreKept (look_of (A.operations arith.now) model.now.model) memo.old }
    ensures row { IfOk result (λ _. row.new.items ≡ row.old.items
        ++ map (λ a. action_look_ahead_in (A.operations arith.now) model.now.model rest (weights_of weights.now) a
        look) (range_with_len 0 (joint_actions model.now.model))) }
    ensures room { length room.new ≡ length room.old }
    ensures memo { AreKept (look_of (A.operations arith.now) model.now.model) memo.new }
{
    for action in 0..model.joint_actions() {
        let value = action_look_ahead(
            arith, model, table, exact, rest, weights, action, look, room, memo,
        );
        row.push(value)?;
    }
    Ok(())
}
