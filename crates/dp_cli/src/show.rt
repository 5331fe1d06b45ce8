// The command `show`.
ghost use Rattle.std.specs.Prelude.{◌≡◌, ◌^◌, ◌≤◌, length};
ghost use Rattle.dp_cli.specs.Answer.{GivesText};
ghost use Rattle.dp_cli.specs.Run.{Does};
ghost use Rattle.dp_cli.specs.ShowCommand.{IsShownText, show_command, shown_fault};
ghost use Rattle.dp_cli.specs.Steps.{answer_of};

use crate::fetch::{fetch, fetch_model};
use crate::shown::policy_text;
use crate::{FileRole, Refusal};
use dp_cert::read_cert;
use dp_io::Shelf;
use dp_model::fits;
use dp_reader::ReadModel;
use dp_words::ShowJob;
use std::alloc::Global;

// The policy of a certificate in names, or why there is none.
pub fn show<S: Shelf>(alloc: Global, job: &ShowJob, shelf: &mut S) -> Result<Vec<u8>, Refusal>
    ensures { Does (show_command job.now) (S.view shelf.old) (S.view shelf.new) (answer_of result) }
{
    let read = fetch_model(alloc, shelf, &job.model)?;
    let text = fetch(alloc, shelf, FileRole::Second, &job.cert)?;
    show_of(alloc, &read, &text)
}

// The policy of the certificate whose text these bytes are, or what is wrong with them. Each own history
// has a line, so the horizon has to keep the limits of own histories, in both versions.
fn show_of(alloc: Global, read: &ReadModel, bytes: &[u8]) -> Result<Vec<u8>, Refusal>
    requires { length bytes.now ≤ 2 ^ 28 }
    ensures { GivesText (shown_fault bytes.now read.now.model.model)
        (λ text. IsShownText read.now.model bytes.now text) result }
{
    read.model.invariant();
    let cert = read_cert(alloc, bytes, &read.model)?;
    cert.policy.invariant();
    fits(&read.model, cert.horizon)?;
    Ok(policy_text(alloc, &read.model, &cert.policy)?)
}
