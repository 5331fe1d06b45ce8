// The weights after keys, in the order of the keys.
ghost use Rattle.std.specs.Prelude.{◌≡◌, ◌+◌, ◌*◌, ◌/◌, ◌%◌, ◌<◌, ◌≤◌, ◌^◌, ℕ, suc, map, length, get_or, min, IfOk};
ghost use Rattle.std.specs.List.{range_with_len};
ghost use Rattle.dp_spec.specs.Arithmetic.{arithmetic};
ghost use Rattle.dp_spec.specs.Mode.{IsTrueFit};
ghost use Rattle.dp_spec.specs.Model.{joint_actions, joint_observations, start_at};
ghost use Rattle.dp_spec.specs.Quantities.{weights_after_in};
ghost use Rattle.dp_spec.specs.Sizes.{AreWeights};
ghost use Rattle.dp_links.specs.Links.{AreLinksOf};
ghost use Rattle.dp_pomdp.specs.Keys.{AreKeyWeights, keys_below, no_key_weights, pairs_of, start_weights};
ghost use Rattle.dp_pomdp.specs.Looking.{weights_of};

use crate::step::push_weights;
use dp_base::Memory;
use dp_mdp::MdpTable;
use dp_model::{Fit, Model};
use dp_num::{Arith, Exact, Outward};
use dp_spec::Span;
use std::alloc::Global;

// The weights after a key, and how many steps were done before them.
#[derive(Drop)]
pub(crate) struct KeyRow {
    pub(crate) time: u32,
    pub(crate) weights: Vec<Span>,
}

impl std::marker::Model for KeyRow {
    ghost use Rattle.dp_pomdp.specs.Keys.{KeyWeights};

    ghost Value = { KeyWeights };

    ghost view = { λ r. record { time = r.time; weights = r.weights.items } };
}

/// How many keys of fewer than `horizon` of so many pairs there are, but at most `most`.
pub(crate) fn kept_count(pairs: u32, horizon: u32, most: u32) -> usize
    requires pairs { pairs ≤ 2 ^ 16 }
    requires some { 0 < pairs }
    ensures { result ≡ min most (keys_below pairs horizon) }
{
    let mut count: usize = 0;
    for _step in 0..horizon {
        count = (1 + count * pairs as usize).min(most as usize);
    }
    count
}

/// The weights after the first `count` keys. The only error is want of memory.
pub(crate) fn key_rows(
    alloc: Global,
    model: &Model,
    fit: Fit,
    table: &MdpTable,
    count: usize,
) -> Result<Vec<KeyRow>, Memory>
    requires fit { IsTrueFit model.now.model fit.horizon fit.exact fit.unit }
    requires links { AreLinksOf model.now.model table.now.links }
    requires count { count ≤ keys_below (pairs_of model.now.model) fit.horizon }
    ensures count { IfOk result (λ rows. length rows.items ≡ count) }
    ensures rows { IfOk result (λ rows. (p : ℕ) → p < count →
        AreKeyWeights fit.exact model.now.model p (get_or rows.items p no_key_weights)) }
{
    let mut rows = Vec::new(alloc);
    for place in 0..count {
        let row = row_at(alloc, model, fit, table, &rows, place)?;
        rows.push(row)?;
    }
    Ok(rows)
}

// Those of the next key, where the keys before it have the given rows.
fn row_at(
    alloc: Global,
    model: &Model,
    fit: Fit,
    table: &MdpTable,
    rows: &[KeyRow],
    place: usize,
) -> Result<KeyRow, Memory>
    requires fit { IsTrueFit model.now.model fit.horizon fit.exact fit.unit }
    requires links { AreLinksOf model.now.model table.now.links }
    requires place { place < keys_below (pairs_of model.now.model) fit.horizon }
    requires count { length rows.now ≡ place }
    requires rows { (p : ℕ) → p < place →
        AreKeyWeights fit.exact model.now.model p (get_or rows.now p no_key_weights) }
    ensures { IfOk result (AreKeyWeights fit.exact model.now.model place) }
{
    model.invariant();
    if place == 0 {
        return first_row(alloc, model, fit);
    }
    let seen = model.joint_observations() as usize;
    let pairs = model.joint_actions() as usize * seen;
    let pair = (place - 1) % pairs;
    let row = &rows[(place - 1) / pairs];
    let next = next_row(
        alloc,
        model,
        fit,
        table,
        row,
        (pair / seen) as u32,
        (pair % seen) as u32,
    )?;
    Ok(next)
}

// The weights of the start.
fn first_row(alloc: Global, model: &Model, fit: Fit) -> Result<KeyRow, Memory>
    requires fit { IsTrueFit model.now.model fit.horizon fit.exact fit.unit }
    ensures { IfOk result (AreKeyWeights fit.exact model.now.model 0) }
{
    model.invariant();
    let weights = start_weights_in(alloc, model, fit)?;
    Ok(KeyRow { time: 0, weights })
}

// The same in the arithmetic of the fit's mode.
fn start_weights_in(alloc: Global, model: &Model, fit: Fit) -> Result<Vec<Span>, Memory>
    requires fit { IsTrueFit model.now.model fit.horizon fit.exact fit.unit }
    ensures { IfOk result (λ v. v.items ≡ map (start_weights (arithmetic fit.exact model.now.model.scales)
        model.now.model) (range_with_len 0 model.now.model.states)) }
{
    model.invariant();
    if fit.exact {
        start_weights(alloc, &Exact::of(model.scales()), model)
    } else {
        start_weights(alloc, &Outward::of(model.scales()), model)
    }
}

// The same in an arithmetic.
fn start_weights<A: Arith>(alloc: Global, arith: &A, model: &Model) -> Result<Vec<Span>, Memory>
    requires { (s : ℕ) → s < model.now.model.states → (A.calls arith.now).Start (start_at model.now.model s) }
    ensures { IfOk result (λ v. v.items ≡ map (start_weights (A.operations arith.now) model.now.model)
        (range_with_len 0 model.now.model.states)) }
{
    let mut weights = Vec::new(alloc);
    for state in 0..model.states() {
        weights.push(arith.start(model.start(state)))?;
    }
    Ok(weights)
}

// The weights one step later, after a joint action and a joint observation.
fn next_row(
    alloc: Global,
    model: &Model,
    fit: Fit,
    table: &MdpTable,
    row: &KeyRow,
    action: u32,
    seen: u32,
) -> Result<KeyRow, Memory>
    requires fit { IsTrueFit model.now.model fit.horizon fit.exact fit.unit }
    requires links { AreLinksOf model.now.model table.now.links }
    requires time { row.now.time < fit.horizon }
    requires one_each { length row.now.weights ≡ model.now.model.states }
    requires weights { AreWeights fit.exact model.now.model row.now.time (weights_of row.now.weights) }
    requires action { action < joint_actions model.now.model }
    requires seen { seen < joint_observations model.now.model }
    ensures time { IfOk result (λ next. next.time ≡ suc row.now.time) }
    ensures one_each { IfOk result (λ next. length next.weights ≡ model.now.model.states) }
    ensures pushed { IfOk result (λ next. (u : ℕ) → u < model.now.model.states → weights_of next.weights u
        ≡ weights_after_in (arithmetic fit.exact model.now.model.scales) model.now.model
        (weights_of row.now.weights) action seen u) }
{
    let none = Span { low: 0, high: 0 };
    let mut weights = vec![in alloc; none; model.states() as usize]?;
    push_in_mode(
        model,
        fit,
        table,
        row.time,
        &row.weights,
        action,
        seen,
        &mut weights,
    );
    Ok(KeyRow {
        time: row.time + 1,
        weights,
    })
}

// Writes them, in the arithmetic of the fit's mode.
fn push_in_mode(
    model: &Model,
    fit: Fit,
    table: &MdpTable,
    time: u32,
    weights: &[Span],
    action: u32,
    seen: u32,
    next: &mut [Span],
)
    requires fit { IsTrueFit model.now.model fit.horizon fit.exact fit.unit }
    requires links { AreLinksOf model.now.model table.now.links }
    requires time { time < fit.horizon }
    requires one_each { length weights.now ≡ model.now.model.states }
    requires weights { AreWeights fit.exact model.now.model time (weights_of weights.now) }
    requires action { action < joint_actions model.now.model }
    requires seen { seen < joint_observations model.now.model }
    requires next { length next.old ≡ model.now.model.states }
    ensures { (u : ℕ) → u < model.now.model.states → weights_of next.new u
        ≡ weights_after_in (arithmetic fit.exact model.now.model.scales) model.now.model
        (weights_of weights.now) action seen u }
{
    model.invariant();
    if fit.exact {
        push_weights(
            &Exact::of(model.scales()),
            model,
            table,
            weights,
            action,
            seen,
            next,
        );
    } else {
        push_weights(
            &Outward::of(model.scales()),
            model,
            table,
            weights,
            action,
            seen,
            next,
        );
    }
}
