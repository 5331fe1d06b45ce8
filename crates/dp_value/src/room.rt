//! Memory for the worth of a shared policy, and the worth.
ghost use Rattle.std.specs.Prelude.{◌≡◌, ℕ, ◌*◌, ◌^◌, ◌<◌, ◌≤◌, IfOk, length};
ghost use Rattle.dp_spec.specs.Arithmetic.{arithmetic};
ghost use Rattle.dp_spec.specs.SharedPolicy.{IsSharedOf, unfolded};
ghost use Rattle.dp_spec.specs.SharedWorth.{joint_row_count, shared_worth_in};
ghost use Rattle.dp_model.specs.Horizons.{fit_of};
ghost use Rattle.dp_value.specs.Rooms.{IsRoomFor};
ghost use Rattle.dp_value.specs.Worths.{IsWorthOf, ends_of};

use crate::rows::joint_rows;
use crate::shared_worth::shared_worth;
use dp_base::Memory;
use dp_links::Links;
use dp_model::{Fit, Model};
use dp_num::{Exact, Outward};
use dp_policy::Shared;
use dp_spec::Span;
use std::alloc::Global;

/// The worth of a policy between two ends: the expected reward is from `low` to `high`, each over
/// `unit`. In exact mode the two are equal.
#[derive(Clone, Copy, Debug, PartialEq, Eq)]
pub struct Worth {
    pub low: i128,
    pub high: i128,
    pub unit: i128,
}

/// The memory that computing the worth of a shared policy takes: the weights of the joint rows of two
/// stages, and lists of which states follow which, so that steps of chance 0 are left out.
#[derive(Drop)]
pub struct SharedRoom {
    fit: Fit,
    links: Links,
    now: Vec<Span>,
    next: Vec<Span>,
}

impl std::marker::Model for SharedRoom {
    ghost use Rattle.std.specs.Prelude.{◌≡◌, length};
    ghost use Rattle.dp_value.specs.Rooms.{KeptRoom};

    ghost Value = { KeptRoom };

    ghost view = { λ r. record { fit = r.fit; cells = length r.now.items; links = r.links } };

    ghost invariant = { λ r. length r.next.items ≡ length r.now.items };
}

impl SharedRoom {
    /// Memory for the worth of a policy of a model, over the horizon of a fit.
    pub fn new(
        alloc: Global,
        model: &Model,
        fit: Fit,
        policy: &Shared,
    ) -> Result<SharedRoom, Memory>
        requires policy { IsSharedOf model.now.model policy.now.horizon policy.now.rows }
        requires fit { fit ≡ fit_of model.now.model policy.now.horizon }
        ensures { IfOk result (λ room. IsRoomFor model.now.model policy.now room) }
    {
        let cells = most_joint_rows(model, policy) * model.states() as usize;
        Ok(SharedRoom {
            fit,
            links: Links::new(alloc, model)?,
            now: zeros(alloc, cells)?,
            next: zeros(alloc, cells)?,
        })
    }
}

/// The worth of a shared policy, in the mode and the unit of its room. In exact mode both ends are the
/// value of the joint policy that its rows mean. In outward mode they are sums of numbers that were
/// rounded down and up, and the expected reward lies between them over the unit. It takes no memory.
pub fn worth_shared(model: &Model, policy: &Shared, room: &mut SharedRoom) -> Worth
    requires room { IsRoomFor model.now.model policy.now room.old }
    requires policy { IsSharedOf model.now.model policy.now.horizon policy.now.rows }
    ensures sums { ends_of result ≡ shared_worth_in (arithmetic room.old.fit.exact model.now.model.scales)
        model.now.model policy.now.horizon policy.now.rows }
    ensures value { IsWorthOf room.old.fit.exact model.now.model policy.now.horizon
        (unfolded policy.now.rows) result }
    ensures unit { result.unit ≡ room.old.fit.unit }
    ensures room { room.new ≡ room.old }
{
    model.invariant();
    let unit = room.fit.unit;
    worth_of(sums_in_mode(model, policy, room), unit)
}

// The worth with these ends.
pub(crate) fn worth_of(ends: Span, unit: i128) -> Worth
    ensures ends { ends_of result ≡ ends }
    ensures unit { result.unit ≡ unit }
{
    Worth {
        low: ends.low,
        high: ends.high,
        unit,
    }
}

// The sums of what joint rows earn, in the arithmetic of the mode.
fn sums_in_mode(model: &Model, policy: &Shared, room: &mut SharedRoom) -> Span
    requires room { IsRoomFor model.now.model policy.now room.old }
    requires policy { IsSharedOf model.now.model policy.now.horizon policy.now.rows }
    ensures sums { result ≡ shared_worth_in (arithmetic room.old.fit.exact model.now.model.scales)
        model.now.model policy.now.horizon policy.now.rows }
    ensures room { room.new ≡ room.old }
{
    model.invariant();
    let _horizon = policy.horizon();
    if room.fit.exact {
        shared_worth(
            &Exact::of(model.scales()),
            model,
            &room.links,
            policy,
            &mut room.now,
            &mut room.next,
        )
    } else {
        shared_worth(
            &Outward::of(model.scales()),
            model,
            &room.links,
            policy,
            &mut room.now,
            &mut room.next,
        )
    }
}

// The greatest number of joint rows of a stage.
fn most_joint_rows(model: &Model, policy: &Shared) -> usize
    requires { IsSharedOf model.now.model policy.now.horizon policy.now.rows }
    ensures most { (t : ℕ) → t < policy.now.horizon → joint_row_count policy.now.rows t ≤ result }
    ensures limit { model.now.model.states * result ≤ 2 ^ 22 }
{
    let mut most = 0;
    for stage in 0..policy.horizon() {
        most = joint_rows(model, policy, stage).max(most);
    }
    most
}

// So many zeros.
pub(crate) fn zeros(alloc: Global, count: usize) -> Result<Vec<Span>, Memory>
    ensures { IfOk result (λ v. length v.items ≡ count) }
{
    let mut all = Vec::new(alloc);
    for _place in 0..count {
        all.push(Span { low: 0, high: 0 })?;
    }
    Ok(all)
}
