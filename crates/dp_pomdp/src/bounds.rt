//! Bounds on what can be earned from weights over the states.
ghost use Rattle.std.specs.Prelude.{◌≡◌, ◌*◌, ◌-◌, ◌++◌, ◌<◌, ◌≤◌, ℕ, Bool, map, length, IfOk, OnErr, OnOk};
ghost use Rattle.std.specs.List.{range_with_len};
ghost use Rattle.dp_spec.specs.Arithmetic.{arithmetic};
ghost use Rattle.dp_spec.specs.Mode.{IsTrueFit};
ghost use Rattle.dp_spec.specs.Model.{joint_actions};
ghost use Rattle.dp_spec.specs.Quantities.{action_look_ahead_in, look_ahead_in};
ghost use Rattle.dp_spec.specs.Sizes.{AreWeights};
ghost use Rattle.dp_mdp.specs.TableRows.{IsTable};
ghost use Rattle.dp_pomdp.specs.Bounding.{BoundsEarnings, BoundsEarningsOf};
ghost use Rattle.dp_pomdp.specs.Looking.{weights_of};
ghost use Rattle.dp_pomdp.specs.Memos.{AreKept, look_of};
ghost use Rattle.dp_pomdp.specs.Rooms.{IsRoomFor};

use crate::memo::Memo;
use crate::recursion::{action_look_ahead, look_ahead, times};
use crate::reduce::base_of;
use crate::rows::{kept_action, kept_row, push_times};
use dp_base::Memory;
use dp_mdp::MdpTable;
use dp_model::{Fit, Model};
use dp_num::{Exact, Outward};
use dp_spec::Span;
use std::alloc::Global;

/// How many numbers a memo keeps at most.
const MOST_NUMBERS: usize = 1 << 22;

/// Room for look-ahead, with what was looked ahead before. It is made once for a model and serves any
/// weights. Contracts see for how many weights it has room, and what it keeps.
///
/// In exact mode weights that are a multiple of others have as many times their look-ahead, so what is
/// kept is that of weights without a common divisor.
#[derive(Drop)]
pub struct LookRoom {
    // One weight for each state and each step of the look.
    weights: Vec<Span>,
    // Weights divided by their greatest common divisor, and their row.
    base: Vec<Span>,
    row: Vec<i128>,
    looks: Memo,
    rows: Memo,
    actions: Memo,
}

impl std::marker::Model for LookRoom {
    ghost use Rattle.std.specs.Prelude.{length};
    ghost use Rattle.dp_pomdp.specs.Rooms.{KeptRoom};

    ghost Value = { KeptRoom };

    ghost view = { λ r. record {
      buffers = length r.weights.items;
      looks = r.looks;
      rows = r.rows;
      actions = r.actions;
    } };
}

impl LookRoom {
    /// Room for looks of at most `look` steps, at most 16, over the states of a model. The only error
    /// is want of memory.
    pub fn new(alloc: Global, model: &Model, look: u32) -> Result<LookRoom, Memory>
        requires look { look ≤ 16 }
        ensures { IfOk result (λ room. (e : Bool) → IsRoomFor e model.now.model look room) }
    {
        let states = model.states() as usize;
        let actions = model.joint_actions() as usize;
        let none = Span { low: 0, high: 0 };
        let weights = vec![in alloc; none; look as usize * states]?;
        Ok(LookRoom {
            weights,
            base: Vec::new(alloc),
            row: Vec::new(alloc),
            looks: Memo::new(alloc, MOST_NUMBERS / (2 * states + 1)),
            rows: Memo::new(alloc, MOST_NUMBERS / (2 * states + actions + 1)),
            actions: Memo::new(alloc, MOST_NUMBERS / (2 * states + 1)),
        })
    }

    /// Makes the room long enough for looks of `look` steps, at most 16. What it keeps stays. The only
    /// error is want of memory, and leaves the room as it was.
    pub fn reach(&mut self, alloc: Global, model: &Model, look: u32) -> Result<(), Memory>
        requires look { look ≤ 16 }
        ensures reached { OnOk result ((e : Bool) (before : ℕ) → IsRoomFor e model.now.model before self.old →
            IsRoomFor e model.now.model look self.new) }
        ensures stays { (e : Bool) (before : ℕ) → IsRoomFor e model.now.model before self.old →
            IsRoomFor e model.now.model before self.new }
        ensures same { OnErr result (self.new ≡ self.old) }
        ensures looks { self.new.looks ≡ self.old.looks }
        ensures rows { self.new.rows ≡ self.old.rows }
        ensures actions { self.new.actions ≡ self.old.actions }
    {
        let size = look as usize * model.states() as usize;
        if self.weights.len() < size {
            let none = Span { low: 0, high: 0 };
            self.weights = vec![in alloc; none; size]?;
        }
        Ok(())
    }

    /// The look-ahead with look `look` from the weights of time `t`, one for each state: the greatest
    /// reward of the steps that are left that an agent with all observations can earn, where from the
    /// look's end on it sees the state. It is computed in the arithmetic of the fit's mode, from above,
    /// and no joint policy of the steps that are left earns more.
    pub fn tail_bound(
        &mut self,
        model: &Model,
        fit: Fit,
        table: &MdpTable,
        weights: &[Span],
        t: u32,
        look: u32,
    ) -> i128
        requires fit { IsTrueFit model.now.model fit.horizon fit.exact fit.unit }
        requires table { IsTable (arithmetic fit.exact model.now.model.scales) model.now.model fit.horizon table.now }
        requires time { t ≤ fit.horizon }
        requires room { IsRoomFor fit.exact model.now.model look self.old }
        requires one_each { length weights.now ≡ model.now.model.states }
        requires weights { AreWeights fit.exact model.now.model t (weights_of weights.now) }
        ensures is { result ≡ look_ahead_in (arithmetic fit.exact model.now.model.scales) model.now.model
            (fit.horizon - t) (weights_of weights.now) look }
        ensures sound { BoundsEarnings fit.exact model.now.model fit.horizon fit.unit t (weights_of weights.now)
            result }
        ensures room { IsRoomFor fit.exact model.now.model look self.new }
    {
        model.invariant();
        look_in_mode(
            model,
            fit,
            table,
            weights,
            t,
            look,
            &mut self.weights,
            &mut self.looks,
        )
    }

    /// The same where joint action `a` is done first, with a look of at least 1: the reward of `a`, and
    /// the look-ahead after each joint observation. No joint policy whose roots do `a` earns more.
    pub fn action_bound(
        &mut self,
        model: &Model,
        fit: Fit,
        table: &MdpTable,
        weights: &[Span],
        t: u32,
        a: u32,
        look: u32,
    ) -> i128
        requires fit { IsTrueFit model.now.model fit.horizon fit.exact fit.unit }
        requires table { IsTable (arithmetic fit.exact model.now.model.scales) model.now.model fit.horizon table.now }
        requires time { t < fit.horizon }
        requires action { a < joint_actions model.now.model }
        requires some_look { 0 < look }
        requires room { IsRoomFor fit.exact model.now.model look self.old }
        requires one_each { length weights.now ≡ model.now.model.states }
        requires weights { AreWeights fit.exact model.now.model t (weights_of weights.now) }
        ensures is { result ≡ action_look_ahead_in (arithmetic fit.exact model.now.model.scales) model.now.model
            (fit.horizon - t - 1) (weights_of weights.now) a look }
        ensures sound { BoundsEarningsOf fit.exact model.now.model fit.horizon fit.unit t (weights_of weights.now) a
            result }
        ensures room { IsRoomFor fit.exact model.now.model look self.new }
    {
        model.invariant();
        action_in_mode(
            model,
            fit,
            table,
            weights,
            t,
            a,
            look,
            &mut self.weights,
            &mut self.looks,
        )
    }

    /// What `action_bound` gives. What was computed before, of these weights or of a multiple, is not computed
    /// again. The only error is want of memory.
    pub fn kept_action_bound(
        &mut self,
        model: &Model,
        fit: Fit,
        table: &MdpTable,
        weights: &[Span],
        t: u32,
        a: u32,
        look: u32,
    ) -> Result<i128, Memory>
        requires fit { IsTrueFit model.now.model fit.horizon fit.exact fit.unit }
        requires table { IsTable (arithmetic fit.exact model.now.model.scales) model.now.model fit.horizon table.now }
        requires time { t < fit.horizon }
        requires action { a < joint_actions model.now.model }
        requires some_look { 0 < look }
        requires look { look ≤ 16 }
        requires room { IsRoomFor fit.exact model.now.model look self.old }
        requires one_each { length weights.now ≡ model.now.model.states }
        requires weights { AreWeights fit.exact model.now.model t (weights_of weights.now) }
        ensures is { IfOk result (λ x. x ≡ action_look_ahead_in (arithmetic fit.exact model.now.model.scales)
            model.now.model (fit.horizon - t - 1) (weights_of weights.now) a look) }
        ensures room { IsRoomFor fit.exact model.now.model look self.new }
    {
        model.invariant();
        let factor = base_of(fit.exact, weights, &mut self.base)?;
        let value = kept_action(
            model,
            fit,
            table,
            &self.base,
            t,
            a,
            look,
            &mut self.weights,
            &mut self.looks,
            &mut self.actions,
        );
        Ok(times(factor, value))
    }

    /// Adds to a list the row of the weights: for each joint action what `action_bound` gives, with the
    /// same look. A row that was computed before, of these weights or of a multiple, is not computed
    /// again. The only error is want of memory.
    pub fn push_row(
        &mut self,
        model: &Model,
        fit: Fit,
        table: &MdpTable,
        weights: &[Span],
        t: u32,
        look: u32,
        row: &mut Vec<i128>,
    ) -> Result<(), Memory>
        requires fit { IsTrueFit model.now.model fit.horizon fit.exact fit.unit }
        requires table { IsTable (arithmetic fit.exact model.now.model.scales) model.now.model fit.horizon table.now }
        requires time { t < fit.horizon }
        requires some_look { 0 < look }
        requires room { IsRoomFor fit.exact model.now.model look self.old }
        requires one_each { length weights.now ≡ model.now.model.states }
        requires weights { AreWeights fit.exact model.now.model t (weights_of weights.now) }
        ensures is { IfOk result (λ _. row.new.items ≡ row.old.items
            ++ map (λ a. action_look_ahead_in (arithmetic fit.exact model.now.model.scales) model.now.model
            (fit.horizon - t - 1) (weights_of weights.now) a look)
            (range_with_len 0 (joint_actions model.now.model))) }
        ensures room { IsRoomFor fit.exact model.now.model look self.new }
    {
        model.invariant();
        let factor = base_of(fit.exact, weights, &mut self.base)?;
        kept_row(
            model,
            fit,
            table,
            &self.base,
            t,
            look,
            &mut self.weights,
            &mut self.looks,
            &mut self.rows,
            &mut self.row,
        )?;
        push_times(factor, &self.row, row)?;
        Ok(())
    }
}

// Look-ahead in the arithmetic of the fit's mode.
fn look_in_mode(
    model: &Model,
    fit: Fit,
    table: &MdpTable,
    weights: &[Span],
    t: u32,
    look: u32,
    room: &mut [Span],
    memo: &mut Memo,
) -> i128
    requires fit { IsTrueFit model.now.model fit.horizon fit.exact fit.unit }
    requires table { IsTable (arithmetic fit.exact model.now.model.scales) model.now.model fit.horizon table.now }
    requires time { t ≤ fit.horizon }
    requires room { look * model.now.model.states ≤ length room.old }
    requires one_each { length weights.now ≡ model.now.model.states }
    requires weights { AreWeights fit.exact model.now.model t (weights_of weights.now) }
    requires memo { AreKept (look_of (arithmetic fit.exact model.now.model.scales) model.now.model) memo.old }
    ensures is { result ≡ look_ahead_in (arithmetic fit.exact model.now.model.scales) model.now.model
        (fit.horizon - t) (weights_of weights.now) look }
    ensures room { length room.new ≡ length room.old }
    ensures memo { AreKept (look_of (arithmetic fit.exact model.now.model.scales) model.now.model) memo.new }
{
    model.invariant();
    let rest = fit.horizon - t;
    if fit.exact {
        let arith = Exact::of(model.scales());
        look_ahead(&arith, model, table, true, rest, weights, look, room, memo)
    } else {
        let arith = Outward::of(model.scales());
        look_ahead(&arith, model, table, false, rest, weights, look, room, memo)
    }
}

/// The same of a joint action.
pub(crate) fn action_in_mode(
    model: &Model,
    fit: Fit,
    table: &MdpTable,
    weights: &[Span],
    t: u32,
    a: u32,
    look: u32,
    room: &mut [Span],
    memo: &mut Memo,
) -> i128
    requires fit { IsTrueFit model.now.model fit.horizon fit.exact fit.unit }
    requires table { IsTable (arithmetic fit.exact model.now.model.scales) model.now.model fit.horizon table.now }
    requires time { t < fit.horizon }
    requires action { a < joint_actions model.now.model }
    requires some_look { 0 < look }
    requires room { look * model.now.model.states ≤ length room.old }
    requires one_each { length weights.now ≡ model.now.model.states }
    requires weights { AreWeights fit.exact model.now.model t (weights_of weights.now) }
    requires memo { AreKept (look_of (arithmetic fit.exact model.now.model.scales) model.now.model) memo.old }
    ensures is { result ≡ action_look_ahead_in (arithmetic fit.exact model.now.model.scales) model.now.model
        (fit.horizon - t - 1) (weights_of weights.now) a look }
    ensures room { length room.new ≡ length room.old }
    ensures memo { AreKept (look_of (arithmetic fit.exact model.now.model.scales) model.now.model) memo.new }
{
    model.invariant();
    let rest = fit.horizon - t - 1;
    if fit.exact {
        let arith = Exact::of(model.scales());
        action_look_ahead(
            &arith, model, table, true, rest, weights, a, look, room, memo,
        )
    } else {
        let arith = Outward::of(model.scales());
        action_look_ahead(
            &arith, model, table, false, rest, weights, a, look, room, memo,
        )
    }
}

/// `LookRoom::tail_bound` with room of its own. The only error is want of memory.
pub fn tail_bound(
    alloc: Global,
    model: &Model,
    fit: Fit,
    table: &MdpTable,
    weights: &[Span],
    t: u32,
    look: u32,
) -> Result<i128, Memory>
    requires fit { IsTrueFit model.now.model fit.horizon fit.exact fit.unit }
    requires table { IsTable (arithmetic fit.exact model.now.model.scales) model.now.model fit.horizon table.now }
    requires time { t ≤ fit.horizon }
    requires look { look ≤ 16 }
    requires one_each { length weights.now ≡ model.now.model.states }
    requires weights { AreWeights fit.exact model.now.model t (weights_of weights.now) }
    ensures is { IfOk result (λ bound. bound ≡ look_ahead_in (arithmetic fit.exact model.now.model.scales)
        model.now.model (fit.horizon - t) (weights_of weights.now) look) }
    ensures sound { IfOk result
        (BoundsEarnings fit.exact model.now.model fit.horizon fit.unit t (weights_of weights.now)) }
{
    let mut room = LookRoom::new(alloc, model, look)?;
    Ok(room.tail_bound(model, fit, table, weights, t, look))
}

/// `LookRoom::action_bound` with room of its own. The only error is want of memory.
pub fn action_bound(
    alloc: Global,
    model: &Model,
    fit: Fit,
    table: &MdpTable,
    weights: &[Span],
    t: u32,
    a: u32,
    look: u32,
) -> Result<i128, Memory>
    requires fit { IsTrueFit model.now.model fit.horizon fit.exact fit.unit }
    requires table { IsTable (arithmetic fit.exact model.now.model.scales) model.now.model fit.horizon table.now }
    requires time { t < fit.horizon }
    requires action { a < joint_actions model.now.model }
    requires some_look { 0 < look }
    requires look { look ≤ 16 }
    requires one_each { length weights.now ≡ model.now.model.states }
    requires weights { AreWeights fit.exact model.now.model t (weights_of weights.now) }
    ensures is { IfOk result (λ bound. bound ≡ action_look_ahead_in (arithmetic fit.exact model.now.model.scales)
        model.now.model (fit.horizon - t - 1) (weights_of weights.now) a look) }
    ensures sound { IfOk result
        (BoundsEarningsOf fit.exact model.now.model fit.horizon fit.unit t (weights_of weights.now) a) }
{
    let mut room = LookRoom::new(alloc, model, look)?;
    Ok(room.action_bound(model, fit, table, weights, t, a, look))
}
