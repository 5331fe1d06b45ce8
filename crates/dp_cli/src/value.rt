// The command `value`.
ghost use Rattle.std.specs.Prelude.{◌≡◌, ◌^◌, ◌≤◌, ◌++◌, IfOk, OnOk, length, pos, unsigned_abs, ◌≤ℤ◌};
ghost use Rattle.dp_value.specs.Worths.{ends_of};
ghost use Rattle.dp_cli.specs.Answer.{GivesText};
ghost use Rattle.dp_cli.specs.Run.{Does};
ghost use Rattle.dp_cli.specs.Steps.{answer_of};
ghost use Rattle.dp_cli.specs.ValueCommand.{IsWorthOfText, end_text, head_text, mode_word, policy_fault};
ghost use Rattle.dp_cli.specs.ValueCommand.{value_command, value_text};

use crate::fetch::{fetch, fetch_model};
use crate::{FileRole, Refusal};
use dp_base::Memory;
use dp_io::Shelf;
use dp_model::fits;
use dp_num::fraction_text;
use dp_policy::read_policy;
use dp_reader::ReadModel;
use dp_value::{Room, Worth, worth};
use dp_words::ValueJob;
use itoa::Buffer;
use std::alloc::Global;

// The value of a joint policy for a model, or why there is none.
pub fn value<S: Shelf>(alloc: Global, job: &ValueJob, shelf: &mut S) -> Result<Vec<u8>, Refusal>
    ensures { Does (value_command job.now) (S.view shelf.old) (S.view shelf.new) (answer_of result) }
{
    let read = fetch_model(alloc, shelf, &job.model)?;
    let text = fetch(alloc, shelf, FileRole::Second, &job.policy)?;
    value_of(alloc, &read, &text)
}

// The value of the joint policy whose text these bytes are, or what is wrong with them.
fn value_of(alloc: Global, read: &ReadModel, bytes: &[u8]) -> Result<Vec<u8>, Refusal>
    requires { length bytes.now ≤ 2 ^ 28 }
    ensures { GivesText (policy_fault bytes.now read.now.model.model)
        (λ text. IsWorthOfText read.now.model.model read.now.repaired bytes.now text) result }
{
    read.model.invariant();
    let policy = read_policy(alloc, bytes, &read.model)?;
    let fit = fits(&read.model, policy.horizon())?;
    let mut room = Room::new(alloc, &read.model, fit)?;
    let worth = worth(&read.model, &policy, &mut room);
    Ok(worth_text(alloc, read.repaired, fit.exact, worth)?)
}

// The lines that tell a worth.
fn worth_text(alloc: Global, repaired: u32, exact: bool, worth: Worth) -> Result<Vec<u8>, Memory>
    requires low { unsigned_abs worth.low ≤ 2 ^ 126 }
    requires high { unsigned_abs worth.high ≤ 2 ^ 126 }
    requires some { pos 1 ≤ℤ worth.unit }
    requires unit { worth.unit ≤ℤ pos (2 ^ 126) }
    ensures { IfOk result (λ text. text.items ≡ value_text repaired exact worth.unit (ends_of worth)) }
{
    let Worth { low, high, unit } = worth;
    let mut text = Vec::new(alloc);
    push_head(&mut text, repaired, exact, unit)?;
    push_end(alloc, &mut text, b"low ", low, unit, false)?;
    push_end(alloc, &mut text, b"high ", high, unit, true)?;
    Ok(text)
}

// The lines before the ends.
fn push_head(text: &mut Vec<u8>, repaired: u32, exact: bool, unit: i128) -> Result<(), Memory>
    ensures { OnOk result (text.new.items ≡ text.old.items ++ head_text repaired exact unit) }
{
    let mut buffer = Buffer::new();
    text.extend_from_slice(b"repaired ")?;
    text.extend_from_slice(buffer.format(repaired).as_bytes())?;
    text.extend_from_slice(b"\nmode ")?;
    text.extend_from_slice(mode_word(exact).as_bytes())?;
    text.extend_from_slice(b"\nunit ")?;
    text.extend_from_slice(buffer.format(unit).as_bytes())?;
    text.push(b'\n')?;
    Ok(())
}

// The line of an end, with what it is over the unit, rounded down, or up.
pub(crate) fn push_end(
    alloc: Global,
    text: &mut Vec<u8>,
    word: &[u8],
    number: i128,
    unit: i128,
    up: bool,
) -> Result<(), Memory>
    requires number { unsigned_abs number ≤ 2 ^ 126 }
    requires some { pos 1 ≤ℤ unit }
    requires unit { unit ≤ℤ pos (2 ^ 126) }
    ensures { OnOk result (text.new.items ≡ text.old.items ++ end_text word.now number unit up) }
{
    let mut buffer = Buffer::new();
    let fraction = fraction_text(alloc, number, unit, up)?;
    text.extend_from_slice(word)?;
    text.extend_from_slice(buffer.format(number).as_bytes())?;
    text.push(b' ')?;
    text.extend_from_slice(fraction.as_bytes())?;
    text.push(b'\n')?;
    Ok(())
}

// The word of a mode.
pub(crate) fn mode_word(exact: bool) -> &'static str
    ensures { result.now ≡ mode_word exact }
{
    if exact { "exact" } else { "outward" }
}
