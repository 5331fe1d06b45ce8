// The command `check`.
ghost use Rattle.std.specs.Prelude.{◌≡◌, ◌^◌, ◌≤◌, ◌++◌, IfOk, OnOk, length, pos, unsigned_abs, ◌≤ℤ◌};
ghost use Rattle.dp_cli.specs.Answer.{GivesText};
ghost use Rattle.dp_cli.specs.CheckCommand.{IsCheckOfCertificate, accepted_text, certificate_fault, check_command};
ghost use Rattle.dp_cli.specs.CheckCommand.{counts_text};
ghost use Rattle.dp_cli.specs.CheckCommand.{quality_text, yes_word};
ghost use Rattle.dp_cli.specs.Run.{Does};
ghost use Rattle.dp_cli.specs.Steps.{answer_of};

use crate::fetch::{fetch, fetch_model};
use crate::value::push_end;
use crate::{FileRole, JobFault, Refusal};
use dp_base::Memory;
use dp_cert::{Certificate, read_cert};
use dp_check::Verdict;
use dp_io::Shelf;
use dp_reader::ReadModel;
use dp_words::CheckJob;
use itoa::Buffer;
use std::alloc::Global;

// The check of a certificate against a model, or why there is none.
pub fn check<S: Shelf>(alloc: Global, job: &CheckJob, shelf: &mut S) -> Result<Vec<u8>, Refusal>
    ensures { Does (check_command job.now) (S.view shelf.old) (S.view shelf.new) (answer_of result) }
{
    let read = fetch_model(alloc, shelf, &job.model)?;
    let text = fetch(alloc, shelf, FileRole::Second, &job.cert)?;
    check_of(alloc, &read, &text)
}

// The check of the certificate whose text these bytes are, or what is wrong with them.
fn check_of(alloc: Global, read: &ReadModel, bytes: &[u8]) -> Result<Vec<u8>, Refusal>
    requires { length bytes.now ≤ 2 ^ 28 }
    ensures { GivesText (certificate_fault bytes.now read.now.model.model)
        (λ text. IsCheckOfCertificate read.now.model.model read.now.repaired bytes.now text) result }
{
    read.model.invariant();
    let cert = read_cert(alloc, bytes, &read.model)?;
    // What is read fits the model. That is not proved yet, so it is asked: `check` requires it.
    match dp_check::check(alloc, &read.model, &cert)? {
        Verdict::Rejected(reason) => Err(Refusal::from(JobFault::Rejected(reason))),
        Verdict::Accepted {
            closed,
            lean,
            merged,
        } => {
            let qualities = Qualities {
                closed,
                lean,
                merged,
            };
            Ok(accepted_text(alloc, read.repaired, qualities, &cert)?)
        }
    }
}

// What can be said of a valid certificate.
#[derive(Clone, Copy)]
struct Qualities {
    closed: bool,
    lean: bool,
    merged: bool,
}

// The lines that tell a certificate that is accepted.
fn accepted_text(
    alloc: Global,
    repaired: u32,
    qualities: Qualities,
    cert: &Certificate,
) -> Result<Vec<u8>, Memory>
    requires lower { unsigned_abs cert.now.lower ≤ 2 ^ 126 }
    requires upper { unsigned_abs cert.now.upper ≤ 2 ^ 126 }
    requires some { pos 1 ≤ℤ cert.now.unit }
    requires unit { cert.now.unit ≤ℤ pos (2 ^ 126) }
    ensures { IfOk result (λ text. text.items ≡ accepted_text repaired qualities.closed qualities.lean
        qualities.merged cert.now.unit cert.now.lower cert.now.upper) }
{
    let unit = cert.unit;
    let mut text = Vec::new(alloc);
    text.extend_from_slice(b"accepted\n")?;
    push_quality(&mut text, b"closed ", qualities.closed)?;
    push_quality(&mut text, b"lean ", qualities.lean)?;
    push_quality(&mut text, b"merged ", qualities.merged)?;
    push_counts(&mut text, repaired, unit)?;
    push_end(alloc, &mut text, b"lower ", cert.lower, unit, false)?;
    push_end(alloc, &mut text, b"upper ", cert.upper, unit, true)?;
    Ok(text)
}

// The line of a quality.
fn push_quality(text: &mut Vec<u8>, word: &[u8], holds: bool) -> Result<(), Memory>
    ensures { OnOk result (text.new.items ≡ text.old.items ++ quality_text word.now holds) }
{
    text.extend_from_slice(word)?;
    text.extend_from_slice(yes_word(holds).as_bytes())?;
    text.push(b'\n')?;
    Ok(())
}

// The lines of how many rows of the model were repaired, and of the unit.
fn push_counts(text: &mut Vec<u8>, repaired: u32, unit: i128) -> Result<(), Memory>
    ensures { OnOk result (text.new.items ≡ text.old.items ++ counts_text repaired unit) }
{
    let mut buffer = Buffer::new();
    text.extend_from_slice(b"repaired ")?;
    text.extend_from_slice(buffer.format(repaired).as_bytes())?;
    text.extend_from_slice(b"\nunit ")?;
    text.extend_from_slice(buffer.format(unit).as_bytes())?;
    text.push(b'\n')?;
    Ok(())
}

// The word of whether something is so.
fn yes_word(holds: bool) -> &'static str
    ensures { result.now ≡ yes_word holds }
{
    if holds { "yes" } else { "no" }
}
