//! Memory for the worth of a joint policy, and the worth.
ghost use Rattle.std.specs.Prelude.{◌≡◌, ℕ, ◌*◌, ◌<◌, ◌≤◌, IfOk, length};
ghost use Rattle.dp_spec.specs.Arithmetic.{arithmetic};
ghost use Rattle.dp_spec.specs.Mode.{IsWithinLimits};
ghost use Rattle.dp_spec.specs.PolicyTree.{IsPolicyOf};
ghost use Rattle.dp_spec.specs.Quantities.{forward_worth_in};
ghost use Rattle.dp_model.specs.Horizons.{fit_of};
ghost use Rattle.dp_policy.specs.Trees.{joint_policy};
ghost use Rattle.dp_value.specs.JointTrees.{IsEvaluable};
ghost use Rattle.dp_links.specs.Links.{AreLinksOf};
ghost use Rattle.dp_value.specs.Rooms.{IsRoomOf};
ghost use Rattle.dp_value.specs.WeightUpdates.{weights_of};
ghost use Rattle.dp_value.specs.Worths.{IsWorthOf, ends_of};
ghost use Rattle.dp_spec.specs.Model.{start_at};

use crate::Worth;
use crate::joint_trees::trees_of;
use crate::room::{worth_of, zeros};
use crate::tree_worth::worth_from;
use dp_base::Memory;
use dp_links::Links;
use dp_model::{Fit, Model};
use dp_num::{Arith, Exact, Outward};
use dp_policy::Policy;
use dp_spec::Span;
use std::alloc::Global;

/// The memory that computing the worth of a joint policy takes: one weight of each state for each
/// step, and lists of which states follow which, so that steps of chance 0 are left out.
#[derive(Drop)]
pub struct Room {
    fit: Fit,
    links: Links,
    weights: Vec<Span>,
}

impl std::marker::Model for Room {
    ghost use Rattle.std.specs.Prelude.{length};
    ghost use Rattle.dp_value.specs.Rooms.{KeptRoom};

    ghost Value = { KeptRoom };

    ghost view = { λ r. record { fit = r.fit; cells = length r.weights.items; links = r.links } };
}

impl Room {
    /// Memory for the worth of joint policies of a model over the horizon of a fit that keeps the
    /// limits.
    pub fn new(alloc: Global, model: &Model, fit: Fit) -> Result<Room, Memory>
        requires within { IsWithinLimits model.now.model fit.horizon }
        requires fit { fit ≡ fit_of model.now.model fit.horizon }
        ensures { IfOk result (λ room. IsRoomOf model.now.model fit.horizon room) }
    {
        let cells = fit.horizon as usize * model.states() as usize;
        Ok(Room {
            fit,
            links: Links::new(alloc, model)?,
            weights: zeros(alloc, cells)?,
        })
    }
}

/// The worth of a joint policy, in the mode and the unit of its room. In exact mode both ends are the
/// value of the policy. In outward mode they are sums of numbers that were rounded down and up, and the
/// expected reward lies between them over the unit. Joint histories of weight 0 are not followed. It
/// takes no memory.
pub fn worth(model: &Model, policy: &Policy, room: &mut Room) -> Worth
    requires room { IsRoomOf model.now.model policy.now.horizon room.old }
    requires policy { IsPolicyOf model.now.model policy.now.horizon (joint_policy policy.now) }
    ensures sums { ends_of result ≡ forward_worth_in (arithmetic room.old.fit.exact model.now.model.scales)
        model.now.model policy.now.horizon (joint_policy policy.now) }
    ensures value { IsWorthOf room.old.fit.exact model.now.model policy.now.horizon (joint_policy policy.now) result }
    ensures unit { result.unit ≡ room.old.fit.unit }
    ensures room { room.new ≡ room.old }
{
    model.invariant();
    let unit = room.fit.unit;
    worth_of(sums_in_mode(model, policy, room), unit)
}

// The sums of what joint histories earn, in the arithmetic of the mode.
fn sums_in_mode(model: &Model, policy: &Policy, room: &mut Room) -> Span
    requires room { IsRoomOf model.now.model policy.now.horizon room.old }
    requires policy { IsPolicyOf model.now.model policy.now.horizon (joint_policy policy.now) }
    ensures sums { result ≡ forward_worth_in (arithmetic room.old.fit.exact model.now.model.scales)
        model.now.model policy.now.horizon (joint_policy policy.now) }
    ensures room { room.new ≡ room.old }
{
    model.invariant();
    if room.fit.exact {
        sums(
            &Exact::of(model.scales()),
            model,
            &room.links,
            policy,
            &mut room.weights,
        )
    } else {
        sums(
            &Outward::of(model.scales()),
            model,
            &room.links,
            policy,
            &mut room.weights,
        )
    }
}

// The sums in an arithmetic.
fn sums<A: Arith>(
    arith: &A,
    model: &Model,
    links: &Links,
    policy: &Policy,
    weights: &mut [Span],
) -> Span
    requires links { AreLinksOf model.now.model links.now }
    requires some { 0 < policy.now.horizon }
    requires room { policy.now.horizon * model.now.model.states ≤ length weights.old }
    requires sizes { IsEvaluable (A.operations arith.now) (A.calls arith.now) model.now.model policy.now.horizon
        (λ s. (A.operations arith.now).start (start_at model.now.model s)) (joint_policy policy.now) }
    ensures { result ≡ forward_worth_in (A.operations arith.now)
        model.now.model policy.now.horizon (joint_policy policy.now) }
{
    start_weights(arith, model, weights);
    let trees = trees_of(policy);
    worth_from(arith, model, links, &trees, policy.horizon() - 1, weights)
}

// Writes the weights of the start.
fn start_weights<A: Arith>(arith: &A, model: &Model, weights: &mut [Span])
    requires room { model.now.model.states ≤ length weights.old }
    requires calls { (s : ℕ) → s < model.now.model.states →
        (A.calls arith.now).Start (start_at model.now.model s) }
    ensures { (s : ℕ) → s < model.now.model.states →
        weights_of weights.new s ≡ (A.operations arith.now).start (start_at model.now.model s) }
{
    for state in 0..model.states() {
        weights[state as usize] = arith.start(model.start(state));
    }
}
