// The command `sim`.
ghost use Rattle.std.specs.Prelude.{◌≡◌, ◌^◌, ◌≤◌, None, length};
ghost use Rattle.dp_cli.specs.Answer.{GivesText};
ghost use Rattle.dp_cli.specs.CertificateFile.{certificate_or};
ghost use Rattle.dp_cli.specs.Run.{Does};
ghost use Rattle.dp_cli.specs.SimCommand.{IsPlayedText, sim_command};
ghost use Rattle.dp_cli.specs.Steps.{answer_of};

use crate::episodes::episodes_of;
use crate::fetch::{fetch, fetch_model};
use crate::{FileRole, Refusal};
use dp_cert::read_cert;
use dp_io::Shelf;
use dp_reader::ReadModel;
use dp_words::SimJob;
use std::alloc::Global;

// Episodes of the policy of a certificate, or why there are none.
pub fn sim<S: Shelf>(alloc: Global, job: &SimJob, shelf: &mut S) -> Result<Vec<u8>, Refusal>
    ensures { Does (sim_command job.now) (S.view shelf.old) (S.view shelf.new) (answer_of result) }
{
    let read = fetch_model(alloc, shelf, &job.model)?;
    let text = fetch(alloc, shelf, FileRole::Second, &job.cert)?;
    sim_of(alloc, &read, &text, job.seed, job.episodes)
}

// Episodes of the policy of the certificate whose text these bytes are, or what is wrong with them.
fn sim_of(
    alloc: Global,
    read: &ReadModel,
    bytes: &[u8],
    seed: u64,
    episodes: u32,
) -> Result<Vec<u8>, Refusal>
    requires { length bytes.now ≤ 2 ^ 28 }
    ensures { GivesText (certificate_or (λ c. None) bytes.now read.now.model.model)
        (λ text. IsPlayedText read.now.model.model seed episodes bytes.now text) result }
{
    read.model.invariant();
    let cert = read_cert(alloc, bytes, &read.model)?;
    cert.policy.invariant();
    Ok(episodes_of(alloc, &read.model, &cert.policy, seed, episodes)?)
}
