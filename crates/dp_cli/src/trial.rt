// The command `trial`.
ghost use Rattle.std.specs.Prelude.{◌≡◌, ◌^◌, ◌≤◌, ◌≤ℤ◌, [], IfOk, pos, unsigned_abs};
ghost use Rattle.dp_cert.specs.CertificateValue.{certificate_of};
ghost use Rattle.dp_words.specs.Words.{AreMakeSizes};
ghost use Rattle.dp_cli.specs.Answer.{GivesText};
ghost use Rattle.dp_cli.specs.TrialCommand.{IsTextOfTrial, IsTrialOf, fault_of_trial, trial_limits_fault, trial_text};

use crate::Refusal;
use crate::make::sizes_for;
use crate::number::{push_number, push_signed};
use crate::plan::{fit_within_limits, planned_by_number};
use crate::value::{mode_word, push_end};
use dp_base::Memory;
use dp_cert::Certificate;
use dp_model::Model;
use dp_search::PlanOpts;
use dp_words::TrialJob;
use dp_writer::make_model;
use std::alloc::Global;

// The numbers of a plan for a made model, or why there are none.
pub fn trial(alloc: Global, job: &TrialJob) -> Result<Vec<u8>, Refusal>
    requires some_step { 1 ≤ job.now.horizon }
    requires look { (1 ≤ job.now.look) × (job.now.look ≤ 16) }
    requires sizes { AreMakeSizes job.now.made }
    ensures { GivesText (fault_of_trial job.now []) (λ text. IsTextOfTrial job.now [] text) result }
{
    let model = make_model(alloc, job.made.seed, sizes_for(&job.made))?;
    trial_of(alloc, job, &model)
}

// The numbers of a plan for a model, or the first limit that the job passes.
fn trial_of(alloc: Global, job: &TrialJob, model: &Model) -> Result<Vec<u8>, Refusal>
    requires some_step { 1 ≤ job.now.horizon }
    requires look { (1 ≤ job.now.look) × (job.now.look ≤ 16) }
    ensures { GivesText (trial_limits_fault job.now model.now.model)
        (λ text. IsTrialOf model.now.model job.now text) result }
{
    model.invariant();
    let fit = fit_within_limits(model, 1, job.horizon, job.nodes)?;
    let options = PlanOpts {
        version: 1,
        nodes: job.nodes,
        look: job.look,
        merge: true,
    };
    let certificate = planned_by_number(alloc, model, fit, options)?;
    Ok(trial_text(alloc, job.made.seed, &certificate)?)
}

// The lines that tell a certificate.
fn trial_text(alloc: Global, seed: u64, cert: &Certificate) -> Result<Vec<u8>, Memory>
    requires lower { unsigned_abs cert.now.lower ≤ 2 ^ 126 }
    requires upper { unsigned_abs cert.now.upper ≤ 2 ^ 126 }
    requires some { pos 1 ≤ℤ cert.now.unit }
    requires unit { cert.now.unit ≤ℤ pos (2 ^ 126) }
    ensures { IfOk result (λ text. text.items ≡ trial_text seed (certificate_of cert.now)) }
{
    let mut text = Vec::new(alloc);
    push_number(&mut text, b"trial ", seed)?;
    text.extend_from_slice(b"\nmode ")?;
    text.extend_from_slice(mode_word(cert.exact).as_bytes())?;
    push_signed(&mut text, b"\nunit ", cert.unit)?;
    push_number(&mut text, b"\ninner ", u64::from(cert.inner))?;
    text.push(b'\n')?;
    push_end(alloc, &mut text, b"lower ", cert.lower, cert.unit, false)?;
    push_end(alloc, &mut text, b"upper ", cert.upper, cert.unit, true)?;
    Ok(text)
}
