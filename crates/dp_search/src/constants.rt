ghost use Rattle.std.specs.Prelude.{◌≡◌, ◌<◌, ◌≤◌, ◌==◌, ◌||◌, IfOk};
ghost use Rattle.dp_spec.specs.Arithmetic.{arithmetic};
ghost use Rattle.dp_spec.specs.ConstantPolicy.{constant_policy};
ghost use Rattle.dp_spec.specs.ConstantRows.{constant_rows};
ghost use Rattle.dp_spec.specs.Mode.{IsWithinLimits, IsWithinVersion};
ghost use Rattle.dp_spec.specs.Model.{joint_actions};
ghost use Rattle.dp_spec.specs.Quantities.{forward_worth_in};
ghost use Rattle.dp_spec.specs.SharedWorth.{shared_worth_in};
ghost use Rattle.dp_model.specs.Horizons.{fit_of};
ghost use Rattle.dp_search.specs.Constants.{IsLeastGreatest, constant_low_worth};

use crate::action_worth::{ActionWorth, better};
use crate::look::copied;
use dp_base::Memory;
use dp_model::{Fit, Model};
use dp_policy::{constant, constant_rows};
use dp_value::{Room, SharedRoom, worth, worth_shared};
use std::alloc::Global;

/// The least joint action among those whose constant policies have the greatest low worth in a version of
/// certificates, with that worth.
pub fn best_constant(
    alloc: Global,
    model: &Model,
    fit: Fit,
    version: u32,
) -> Result<ActionWorth, Memory>
    requires some_step { 0 < fit.horizon }
    requires limit { fit.horizon ≤ 24 }
    requires within { IsWithinVersion model.now.model fit.horizon version }
    requires fit { fit ≡ fit_of model.now.model fit.horizon }
    ensures best { IfOk result (λ b. IsLeastGreatest (joint_actions model.now.model)
        (constant_low_worth fit.exact model.now.model version fit.horizon) b.action) }
    ensures worth { IfOk result (λ b.
        b.worth ≡ constant_low_worth fit.exact model.now.model version fit.horizon b.action) }
{
    model.invariant();
    let mut best = ActionWorth {
        action: 0,
        worth: low_worth(alloc, model, fit, version, 0)?,
    };
    for action in 1..model.joint_actions() {
        let worth = low_worth(alloc, model, fit, version, action)?;
        best = better(action, best, ActionWorth { action, worth });
    }
    Ok(best)
}

// The low worth of the constant policy of a joint action in a version: of its plain form in version 1 and
// of its shared form in version 2. In exact mode both are its value, and the shared form has fewer rows.
fn low_worth(
    alloc: Global,
    model: &Model,
    fit: Fit,
    version: u32,
    action: u32,
) -> Result<i128, Memory>
    requires some_step { 0 < fit.horizon }
    requires limit { fit.horizon ≤ 24 }
    requires within { IsWithinVersion model.now.model fit.horizon version }
    requires fit { fit ≡ fit_of model.now.model fit.horizon }
    requires action { action < joint_actions model.now.model }
    ensures { IfOk result (λ x.
        x ≡ constant_low_worth fit.exact model.now.model version fit.horizon action) }
{
    model.invariant();
    if has_rows(fit.exact, version) {
        shared_worth(alloc, model, fit, action)
    } else {
        tree_worth(alloc, model, fit, action)
    }
}

// Whether the low worth in a version is that of the shared form.
fn has_rows(exact: bool, version: u32) -> bool
    ensures { result ≡ (exact || version == 2) }
{
    exact || version == 2
}

// The low worth of the shared form of the constant policy of a joint action.
fn shared_worth(alloc: Global, model: &Model, fit: Fit, action: u32) -> Result<i128, Memory>
    requires some_step { 0 < fit.horizon }
    requires limit { fit.horizon ≤ 24 }
    requires fit { fit ≡ fit_of model.now.model fit.horizon }
    requires action { action < joint_actions model.now.model }
    ensures { IfOk result (λ x. x ≡ (shared_worth_in (arithmetic fit.exact model.now.model.scales)
        model.now.model fit.horizon (constant_rows model.now.model fit.horizon action)).low) }
{
    model.invariant();
    let rows = constant_rows(alloc, model, fit.horizon, action)?;
    let mut room = SharedRoom::new(alloc, model, fit, &rows)?;
    Ok(copied(&worth_shared(model, &rows, &mut room).low))
}

// The low worth of the trees of the constant policy of a joint action.
fn tree_worth(alloc: Global, model: &Model, fit: Fit, action: u32) -> Result<i128, Memory>
    requires within { IsWithinLimits model.now.model fit.horizon }
    requires fit { fit ≡ fit_of model.now.model fit.horizon }
    requires action { action < joint_actions model.now.model }
    ensures { IfOk result (λ x. x ≡ (forward_worth_in (arithmetic fit.exact model.now.model.scales)
        model.now.model fit.horizon (constant_policy model.now.model fit.horizon action)).low) }
{
    model.invariant();
    let policy = constant(alloc, model, fit.horizon, action)?;
    let mut room = Room::new(alloc, model, fit)?;
    Ok(copied(&worth(model, &policy, &mut room).low))
}
