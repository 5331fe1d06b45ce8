// The command `make`.
ghost use Rattle.std.specs.Prelude.{◌≡◌, [], IsTrue};
ghost use Rattle.dp_words.specs.Words.{AreMakeSizes};
ghost use Rattle.dp_writer.specs.Writable.{is_writable};
ghost use Rattle.dp_cli.specs.Answer.{GivesText};
ghost use Rattle.dp_cli.specs.MadeJobs.{sizes_for};
ghost use Rattle.dp_cli.specs.MakeCommand.{IsTextOfMake, IsWrittenText, fault_of_make, written_fault};

use crate::Refusal;
use dp_model::Model;
use dp_words::MakeJob;
use dp_writer::{MakeSize, make_model, write_model};
use std::alloc::Global;

// The text of a model that is made from a seed, or the first limit that it passes.
pub fn make(alloc: Global, job: &MakeJob) -> Result<Vec<u8>, Refusal>
    requires { AreMakeSizes job.now }
    ensures { GivesText (fault_of_make job.now []) (λ text. IsTextOfMake job.now [] text) result }
{
    let model = make_model(alloc, job.seed, sizes_for(job))?;
    make_of(alloc, &model)
}

// The text of a model, or the limit that it passes.
fn make_of(alloc: Global, model: &Model) -> Result<Vec<u8>, Refusal>
    requires { IsTrue (is_writable model.now.model) }
    ensures { GivesText (written_fault model.now) (λ text. IsWrittenText model.now text) result }
{
    model.invariant();
    Ok(write_model(alloc, model)?)
}

// The sizes that a job asks for.
pub(crate) fn sizes_for(job: &MakeJob) -> MakeSize
    ensures { result ≡ sizes_for job.now }
{
    MakeSize {
        agents: job.agents,
        states: job.states,
        actions: job.actions,
        observations: job.observations,
    }
}
