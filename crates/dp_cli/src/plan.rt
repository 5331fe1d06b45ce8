// The command `plan`.
ghost use Rattle.std.specs.Prelude.{◌≡◌, ◌⊎◌, ◌<◌, ◌≤◌, ℕ, Bool, IfOk, OnOk, length, pos};
ghost use Rattle.std.specs.Result.{result_err};
ghost use Rattle.dp_spec.specs.Mode.{IsWithinVersion};
ghost use Rattle.dp_spec.specs.Promises.{IsPlanned};
ghost use Rattle.dp_cert.specs.CertificateGrammar.{horizon_passed};
ghost use Rattle.dp_cert.specs.CertificateValue.{certificate_of};
ghost use Rattle.dp_model.specs.Horizons.{fit_of};
ghost use Rattle.dp_model.specs.Limits.{first_passed};
ghost use Rattle.dp_search.specs.FrontPlanning.{asked_for};
ghost use Rattle.dp_cli.specs.Orders.{IsFirstGreatest, order_rule};
ghost use Rattle.dp_cli.specs.PlanCommand.{plan_command};
ghost use Rattle.dp_cli.specs.Planned.{CanPlan, PlansModel, options_for, options_of, plan_limits};
ghost use Rattle.dp_cli.specs.Run.{Does};
ghost use Rattle.dp_cli.specs.Steps.{answer_of};

use crate::Refusal;
use crate::fetch::fetch_model;
use crate::orders::{heaviest, most_spread};
use dp_base::Memory;
use dp_cert::{Certificate, write_cert};
use dp_io::Shelf;
use dp_model::{Fit, Limit, Model, TooLarge, fits, fits_two};
use dp_search::{Chooser, Place, PlanOpts, widest};
use dp_words::{OrderWord, PlanJob};
use std::alloc::Global;

// The certificate of a plan, or why there is none.
pub fn plan<S: Shelf>(alloc: Global, job: &PlanJob, shelf: &mut S) -> Result<Vec<u8>, Refusal>
    requires some_step { 1 ≤ job.now.horizon }
    requires look { (1 ≤ job.now.look) × (job.now.look ≤ 16) }
    requires version { (job.now.version ≡ 1) ⊎ (job.now.version ≡ 2) }
    ensures { Does (plan_command job.now) (S.view shelf.old) (S.view shelf.new) (answer_of result) }
{
    let read = fetch_model(alloc, shelf, &job.model)?;
    plan_model(alloc, job, &read.model)
}

// The certificate of a plan for a model, or the first limit that the job passes.
fn plan_model(alloc: Global, job: &PlanJob, model: &Model) -> Result<Vec<u8>, Refusal>
    requires some_step { 1 ≤ job.now.horizon }
    requires look { (1 ≤ job.now.look) × (job.now.look ≤ 16) }
    requires version { (job.now.version ≡ 1) ⊎ (job.now.version ≡ 2) }
    ensures { PlansModel job.now model.now.model result }
{
    model.invariant();
    let fit = fit_within_limits(model, job.version, job.horizon, job.nodes)?;
    let certificate = planned(alloc, job, model, fit)?;
    Ok(write_cert(alloc, &certificate)?)
}

// The mode and the unit of a horizon, or the first limit that it passes in a version of certificates, or that the
// budget of branches and merges does.
pub(crate) fn fit_within_limits(
    model: &Model,
    version: u32,
    horizon: u32,
    nodes: u32,
) -> Result<Fit, TooLarge>
    requires some_step { 1 ≤ horizon }
    requires version { (version ≡ 1) ⊎ (version ≡ 2) }
    ensures passed { result_err result ≡ first_passed (plan_limits model.now.model version horizon nodes) }
    ensures fit { IfOk result (λ fit. fit ≡ fit_of model.now.model horizon) }
    ensures can { IfOk result (λ fit. (look : ℕ) (merge : Bool) → 1 ≤ look → look ≤ 16 →
        CanPlan model.now.model fit
        (record { version = version; nodes = nodes; look = look; merge = merge })) }
{
    let fit = fit_of_version(model, version, horizon)?;
    let budget = u128::from(nodes);
    Limit::Nodes.check(budget)?;
    Limit::TreeNodes.check(budget * u128::from(widest(model)))?;
    Ok(fit)
}

// The mode and the unit of a horizon in a version of certificates, or the first limit that it passes.
#[tactic(auto, unfolding(dp_cert::specs::CertificateGrammar::horizon_passed))]
fn fit_of_version(model: &Model, version: u32, horizon: u32) -> Result<Fit, TooLarge>
    requires some_step { 1 ≤ horizon }
    requires version { (version ≡ 1) ⊎ (version ≡ 2) }
    ensures passed { result_err result ≡ horizon_passed model.now.model version horizon }
    ensures within { OnOk result (IsWithinVersion model.now.model horizon version) }
    ensures fit { IfOk result (λ fit. fit ≡ fit_of model.now.model horizon) }
{
    if version == 1 {
        fits(model, horizon)
    } else {
        fits_two(model, horizon)
    }
}

// The certificate of a plan by the order of a job.
fn planned(alloc: Global, job: &PlanJob, model: &Model, fit: Fit) -> Result<Certificate, Memory>
    requires { CanPlan model.now.model fit (options_for job.now) }
    ensures { IfOk result (λ c. IsPlanned model.now.model (order_rule job.now.order) fit.horizon
        (options_of job.now) (certificate_of c)) }
{
    let options = PlanOpts {
        version: job.version,
        nodes: job.nodes,
        look: job.look,
        merge: job.merge,
    };
    match job.order {
        OrderWord::First => planned_by_number(alloc, model, fit, options),
        OrderWord::Heavy => planned_by_weight(alloc, model, fit, options),
        OrderWord::Spread => planned_by_spread(alloc, model, fit, options),
    }
}

// The certificate of a plan that branches on the first place.
pub(crate) fn planned_by_number(
    alloc: Global,
    model: &Model,
    fit: Fit,
    options: PlanOpts,
) -> Result<Certificate, Memory>
    requires { CanPlan model.now.model fit options }
    ensures { IfOk result (λ c. IsPlanned model.now.model (order_rule OrderWord.First) fit.horizon
        (asked_for options) (certificate_of c)) }
{
    let rule = Chooser::without_spreads(
        |_: &[Place]|
            ensures { result ≡ 0 }
        { 0 },
    );
    dp_search::plan(alloc, model, fit, options, &rule)
}

// The certificate of a plan that branches on the first place of greatest weight.
fn planned_by_weight(
    alloc: Global,
    model: &Model,
    fit: Fit,
    options: PlanOpts,
) -> Result<Certificate, Memory>
    requires { CanPlan model.now.model fit options }
    ensures { IfOk result (λ c. IsPlanned model.now.model (order_rule OrderWord.Heavy) fit.horizon
        (asked_for options) (certificate_of c)) }
{
    let rule = Chooser::without_spreads(
        |places: &[Place]|
            requires { 0 < length places.now }
            ensures { IsFirstGreatest (λ p. p.weight) places.now result }
        { heaviest(places) },
    );
    dp_search::plan(alloc, model, fit, options, &rule)
}

// The certificate of a plan that branches on the first place of greatest spread.
fn planned_by_spread(
    alloc: Global,
    model: &Model,
    fit: Fit,
    options: PlanOpts,
) -> Result<Certificate, Memory>
    requires { CanPlan model.now.model fit options }
    ensures { IfOk result (λ c. IsPlanned model.now.model (order_rule OrderWord.Spread) fit.horizon
        (asked_for options) (certificate_of c)) }
{
    let rule = Chooser::new(
        |places: &[Place]|
            requires { 0 < length places.now }
            ensures { IsFirstGreatest (λ p. pos p.spread) places.now result }
        { most_spread(places) },
    );
    dp_search::plan(alloc, model, fit, options, &rule)
}
