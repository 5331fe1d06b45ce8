//! The joint policies of a planner, as shared rows.
ghost use Rattle.std.specs.Prelude.{◌≡◌, ◌<◌, ◌≤◌, IfOk};
ghost use Rattle.dp_spec.specs.Arithmetic.{arithmetic};
ghost use Rattle.dp_spec.specs.ConstantPolicy.{constant_policy};
ghost use Rattle.dp_spec.specs.FullPolicy.{full_policy};
ghost use Rattle.dp_spec.specs.Mode.{IsWithinVersion};
ghost use Rattle.dp_spec.specs.Model.{joint_actions};
ghost use Rattle.dp_spec.specs.SharedPolicy.{IsSharedOf, unfolded};
ghost use Rattle.dp_spec.specs.SharedWorth.{low_worth};
ghost use Rattle.dp_model.specs.Horizons.{fit_of};
ghost use Rattle.dp_cluster.specs.KeptFronts.{IsFrontOf};
ghost use Rattle.dp_search.specs.Constants.{constant_low_worth};
ghost use Rattle.dp_search.specs.FrontPlanners.{IsPlannerPolicy, planner_worth};

use crate::look::copied;
use dp_base::Memory;
use dp_cluster::Front;
use dp_model::{Fit, Model};
use dp_policy::{Shared, constant, constant_rows, plain, reduce};
use dp_value::{SharedRoom, worth_shared};
use std::alloc::Global;

// The low worth of a joint policy.
pub(crate) fn policy_worth(
    alloc: Global,
    model: &Model,
    fit: Fit,
    policy: &Shared,
) -> Result<i128, Memory>
    requires policy { IsSharedOf model.now.model fit.horizon policy.now.rows }
    requires horizon { policy.now.horizon ≡ fit.horizon }
    requires fit { fit ≡ fit_of model.now.model fit.horizon }
    ensures { IfOk result (λ x. x ≡ planner_worth model.now.model fit policy.now) }
{
    let mut room = SharedRoom::new(alloc, model, fit, policy)?;
    Ok(copied(&worth_shared(model, policy, &mut room).low))
}

// The constant policy of a joint action, in the form of a version: plain in version 1, and a shared form
// in version 2.
pub(crate) fn constant_of_version(
    alloc: Global,
    model: &Model,
    fit: Fit,
    version: u32,
    action: u32,
) -> Result<Shared, Memory>
    requires some_step { 0 < fit.horizon }
    requires limit { fit.horizon ≤ 24 }
    requires within { IsWithinVersion model.now.model fit.horizon version }
    requires action { action < joint_actions model.now.model }
    ensures policy { IfOk result (λ p. IsPlannerPolicy model.now.model fit.horizon version p) }
    ensures means { IfOk result (λ p.
        unfolded p.rows ≡ constant_policy model.now.model fit.horizon action) }
    ensures worth { IfOk result (λ p. planner_worth model.now.model fit p ≡
        constant_low_worth fit.exact model.now.model version fit.horizon action) }
{
    model.invariant();
    if version == 1 {
        let policy = constant(alloc, model, fit.horizon, action)?;
        let rows = plain(alloc, &policy, model)?;
        Ok(rows)
    } else {
        let rows = constant_rows(alloc, model, fit.horizon, action)?;
        Ok(rows)
    }
}

// The policy that a full front fixes, in the form of a version: plain in version 1, and in version 2 the
// shared form of its rows, one for each class.
pub(crate) fn full_of_version(
    alloc: Global,
    model: &Model,
    fit: Fit,
    version: u32,
    front: &Front,
) -> Result<Shared, Memory>
    requires within { IsWithinVersion model.now.model fit.horizon version }
    requires of_model { IsFrontOf model.now.model front.now }
    requires horizon { front.now.horizon ≡ fit.horizon }
    requires full { front.now.front.stage ≡ front.now.horizon }
    ensures policy { IfOk result (λ p. IsPlannerPolicy model.now.model fit.horizon version p) }
    ensures worth { IfOk result (λ p. planner_worth model.now.model fit p ≡
        low_worth (arithmetic fit.exact model.now.model.scales) model.now.model version fit.horizon
        (full_policy model.now.model front.now.front)) }
{
    model.invariant();
    if version == 1 {
        let policy = front.full_policy(alloc, model)?;
        let rows = plain(alloc, &policy, model)?;
        Ok(rows)
    } else {
        let rows = front.full_rows(alloc, model)?;
        let form = reduce(alloc, &rows, model)?;
        Ok(form)
    }
}
