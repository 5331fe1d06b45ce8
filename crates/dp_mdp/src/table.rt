//! The table.
ghost use Rattle.std.specs.Prelude.{◌≡◌, ◌<◌, [], true, pos, length, get_or, IfOk};
ghost use Rattle.dp_spec.specs.Arithmetic.{arithmetic};
ghost use Rattle.dp_spec.specs.Mode.{IsTrueFit};
ghost use Rattle.dp_spec.specs.Model.{joint_actions};
ghost use Rattle.dp_mdp.specs.Building.{IsTabulating};
ghost use Rattle.dp_links.specs.Links.{AreLinksOf, linked, seen_after};
ghost use Rattle.dp_mdp.specs.TableRows.{BoundsEachValue, IsTable, value_at};

use crate::build::{last_rewards, powers_of, rows_in};
use dp_base::Memory;
use dp_links::Links;
use dp_model::{Fit, Model, Sequence};
use dp_num::{Arith, Exact, Outward};
use std::alloc::Global;

/// The greatest values of the underlying Markov decision process, whose agents all see the state
/// (Q_MDP: Oliehoek and Amato, A Concise Introduction to Decentralized POMDPs, chapter 4).
///
/// Contracts see its rows: for each number of steps that are left, from 0 to the horizon, a list of
/// one value for each state. In exact mode a value over `r` steps is counted in the scale of the
/// rewards times the step scale to the power `r`, and in outward mode in `10^-9`, from above.
///
/// It also keeps what each step needs: the rewards of the last step, what they are multiplied by where
/// steps are left, which states follow which by a chance above 0, and what may be seen.
#[derive(Drop)]
pub struct MdpTable {
    rows: Sequence<Sequence<i128>>,
    rewards: Sequence<Sequence<i128>>,
    powers: Sequence<i128>,
    links: Links,
}

impl std::marker::Model for MdpTable {
    ghost use Rattle.dp_mdp.specs.TableRows.{KeptTable};

    ghost Value = { KeptTable };

    ghost view = { λ t. record { rows = t.rows; rewards = t.rewards; powers = t.powers; links = t.links } };
}

impl MdpTable {
    /// The table of a model up to the horizon of a true fit, which is from 1 to 24 steps, computed in
    /// the arithmetic of the fit's mode. No joint policy is worth more from a state than it says. The
    /// only error is want of memory.
    pub fn build(alloc: Global, model: &Model, fit: Fit) -> Result<MdpTable, Memory>
        requires fit { IsTrueFit model.now.model fit.horizon fit.exact fit.unit }
        ensures table { IfOk result
            (IsTable (arithmetic fit.exact model.now.model.scales) model.now.model fit.horizon) }
        ensures sound { IfOk result (λ t. BoundsEachValue fit.exact model.now.model fit.horizon t.rows) }
    {
        model.invariant();
        let scales = model.scales();
        let table = if fit.exact {
            let step = u128::from(scales.trans)
                * u128::from(scales.obs)
                * u128::from(scales.discount);
            table_in(alloc, &Exact::of(scales), model, fit.horizon, step)?
        } else {
            table_in(alloc, &Outward::of(scales), model, fit.horizon, 1)?
        };
        Ok(table)
    }

    /// The greatest value over `r` steps from state `s`, in outward mode from above.
    #[inline]
    pub fn at(&self, r: u32, s: u32) -> i128
        requires steps { r < length self.now.rows }
        requires state { s < length (get_or self.now.rows r []) }
        ensures { result ≡ value_at self.now.rows r s }
    {
        self.row(r)[s as usize]
    }

    /// The values over `r` steps, one for each state.
    #[inline]
    pub fn row(&self, r: u32) -> &[i128]
        requires steps { r < length self.now.rows }
        ensures { result.now ≡ get_or self.now.rows r [] }
    {
        self.rows.as_slice()[r as usize].as_slice()
    }

    /// The rewards of joint action `a` in the last step, one for each state: what a weight of 1 earns.
    #[inline]
    pub fn rewards(&self, a: u32) -> &[i128]
        requires action { a < length self.now.rewards }
        ensures { result.now ≡ get_or self.now.rewards a [] }
    {
        self.rewards.as_slice()[a as usize].as_slice()
    }

    /// What the rewards of the last step are multiplied by where `r` steps are left.
    #[inline]
    pub fn power(&self, r: u32) -> i128
        requires steps { r < length self.now.powers }
        ensures { result ≡ get_or self.now.powers r (pos 0) }
    {
        self.powers.as_slice()[r as usize]
    }

    /// The states from which joint action `a` may lead to state `t`, in order.
    #[inline]
    pub fn before(&self, model: &Model, a: u32, t: u32) -> &[u32]
        requires links { AreLinksOf model.now.model self.now.links }
        requires action { a < joint_actions model.now.model }
        requires state { t < model.now.model.states }
        ensures { result.now ≡ linked model.now.model true a t }
    {
        self.links.before(model, a, t)
    }

    /// The joint observations that may be seen after joint action `a`, in some state, in order.
    #[inline]
    pub fn seen(&self, model: &Model, a: u32) -> &[u32]
        requires links { AreLinksOf model.now.model self.now.links }
        requires action { a < joint_actions model.now.model }
        ensures { result.now ≡ seen_after model.now.model a }
    {
        self.links.seen(model, a)
    }
}

// The table in an arithmetic. With each step that is left a reward is `step` times what it was.
fn table_in<A: Arith>(
    alloc: Global,
    arith: &A,
    model: &Model,
    horizon: u32,
    step: u128,
) -> Result<MdpTable, Memory>
    requires some { 0 < horizon }
    requires sizes { IsTabulating (A.operations arith.now) (A.calls arith.now) model.now.model horizon step }
    ensures { IfOk result (IsTable (A.operations arith.now) model.now.model horizon) }
{
    let links = Links::new(alloc, model)?;
    let rewards = last_rewards(alloc, arith, model)?;
    let powers = powers_of(alloc, step, horizon)?;
    let rows = rows_in(alloc, arith, model, &rewards, &powers, horizon)?;
    Ok(MdpTable {
        rows: Sequence::of(rows),
        rewards: Sequence::of(rewards),
        powers: Sequence::of(powers),
        links,
    })
}
