//! The plan of a model over a horizon.
ghost use Rattle.std.specs.Prelude.{◌≡◌, ◌+◌, ◌*◌, ◌^◌, ◌<◌, ◌≤◌, IfOk};
ghost use Rattle.dp_spec.specs.Mode.{IsWithinVersion};
ghost use Rattle.dp_spec.specs.Promises.{IsPlanned};
ghost use Rattle.dp_model.specs.Horizons.{fit_of};
ghost use Rattle.dp_cert.specs.CertificateValue.{certificate_of};
ghost use Rattle.dp_search.specs.FrontPlanners.{widest};
ghost use Rattle.dp_search.specs.FrontPlanning.{asked_for, certificate_found};
ghost use Rattle.dp_search.specs.Rules.{IsBranchingRule, MayAnswer};

use crate::chooser::Chooser;
use crate::constants::best_constant;
use crate::front_planner::FrontPlanner;
use crate::greatest_leaf::greatest_bound;
use crate::options::PlanOpts;
use crate::place::Place;
use crate::search::{Searched, search_best_first};
use dp_base::Memory;
use dp_cert::Certificate;
use dp_game::Bounder;
use dp_model::{Fit, Model};
use dp_policy::Shared;
use std::alloc::Global;

/// Plans for a model over a horizon: it searches best first for a bound tree of at most `options.nodes`
/// branches and merges, and answers its certificate, in the unit of the fit. (Oliehoek and Amato 2016,
/// chapter 5.)
///
/// The certificate is valid, lean and merged as far as asked for, its policy is at least as good as every
/// constant one and as each that a full leaf fixes, and each branch stands where the rule answers. The
/// version is 1 or 2: in version 1 the policy has a row for each own history and the horizon keeps the
/// limits of such policies, and in version 2 the policy is a shared form, over up to 24 steps. The only
/// error is want of memory.
pub fn plan<F: Fn(&[Place]) -> usize>(
    alloc: Global,
    model: &Model,
    fit: Fit,
    options: PlanOpts,
    rule: &Chooser<F>,
) -> Result<Certificate, Memory>
    requires within { IsWithinVersion model.now.model fit.horizon options.version }
    requires fit { fit ≡ fit_of model.now.model fit.horizon }
    requires some_look { 1 ≤ options.look }
    requires look { options.look ≤ 16 }
    requires tree_nodes { 1 + options.nodes * widest model.now.model.actions < 2 ^ 32 }
    requires rule { IsBranchingRule F.Fn rule.now.rule }
    ensures planned { IfOk result (λ c.
        IsPlanned model.now.model (MayAnswer F.Fn rule.now) fit.horizon (asked_for options) (certificate_of c)) }
{
    model.invariant();
    let best = best_constant(alloc, model, fit, options.version)?;
    let bounder = Bounder::new(alloc, model, fit, options.look)?;
    let planner = FrontPlanner {
        model,
        fit,
        options,
        bounder: &bounder,
        best,
        rule,
    };
    let found = search_best_first(&planner, alloc, options.nodes)?;
    Ok(certified(fit, options, found))
}

// The certificate of what a search found.
fn certified(fit: Fit, options: PlanOpts, found: Searched<Shared>) -> Certificate
    ensures { certificate_of result ≡ certificate_found fit options found }
{
    let upper = greatest_bound(&found.tree);
    Certificate {
        version: options.version,
        horizon: fit.horizon,
        look: options.look,
        exact: fit.exact,
        unit: fit.unit,
        lower: found.lower,
        upper,
        inner: found.inner,
        policy: found.policy,
        tree: found.tree,
    }
}
