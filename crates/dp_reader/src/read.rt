//! Reading of a model file.
ghost use Rattle.std.specs.Prelude.{◌≡◌, ◌≢◌, ◌↔◌, ℕ, ◌≤◌, ◌^◌, Ok, Err, length};
ghost use Rattle.dp_model.specs.declared.limit.TooLarge.{TooLarge};
ghost use Rattle.dp_meaning.specs.declared.why.Why.{Why};
ghost use Rattle.dp_meaning.specs.Meaning.{FaultAt, Means, Passes, meaning, text_of};
ghost use Rattle.dp_reader.specs.declared.build.ReadModel.{ReadModel};
ghost use Rattle.dp_reader.specs.Reading.{IsMeaning, meant_model, told};

use crate::build::repaired_model;
use crate::fault::fault_at;
use crate::{ModelFault, ReadModel};
use dp_lexer::lex;
use dp_meaning::Text;
use dp_tables::BoundedText;
use dp_text::{TextFault, read_text};
use std::alloc::Global;

/// The fault of a text with its place.
fn told(bytes: &[u8], fault: TextFault) -> ModelFault
    requires { length bytes.now ≤ 2 ^ 26 }
    ensures { result ≡ told bytes.now fault }
{
    match fault {
        TextFault::At(fault) => fault_at(bytes, fault),
        TextFault::Memory => ModelFault::Memory,
    }
}

/// The model of the text that the file says, or the first limit that it passes, or else the first
/// fault of its rows.
fn model_within_limits(alloc: Global, bytes: &[u8], text: Text) -> Result<ReadModel, ModelFault>
    requires short { length bytes.now ≤ 2 ^ 26 }
    requires says { text_of bytes.now ≡ Ok text }
    ensures { IsMeaning (meaning bytes.now) result }
{
    let text = BoundedText::of(text, bytes.len() as u32)?;
    repaired_model(alloc, bytes, text)
}

/// What a model file means, by its tokens and its text.
fn read(alloc: Global, bytes: &[u8]) -> Result<ReadModel, ModelFault>
    requires { length bytes.now ≤ 2 ^ 26 }
    ensures { IsMeaning (meaning bytes.now) result }
{
    let tokens = lex(alloc, bytes)?;
    match read_text(alloc, bytes, &tokens) {
        Ok(text) => model_within_limits(alloc, bytes, text),
        Err(fault) => Err(told(bytes, fault)),
    }
}

/// The model that a model file of at most 64 MiB means, with its names, and how many of its rows of
/// chances were repaired to sum to 1.
///
/// `At` names what is wrong with the file, and where: the first bad byte, or else the first fault
/// of the text. In a text without faults, `TooLarge` names the first limit that it passes, and
/// within the limits `At` names the first row of the start, the transitions or the observations
/// that cannot be repaired. `Memory` says that memory ran out.
pub fn read_model(alloc: Global, bytes: &[u8]) -> Result<ReadModel, ModelFault>
    requires { length bytes.now ≤ 2 ^ 26 }
    ensures is { IsMeaning (meaning bytes.now) result }

    // Want of memory aside, each answer comes exactly where it is what the file means.
    ensures model { (read : ReadModel) → result ≢ Err ModelFault.Memory →
        ((result ≡ Ok read) ↔ (meaning bytes.now ≡ Means (meant_model read))) }
    ensures fault { (line column : ℕ) (why : Why) → result ≢ Err ModelFault.Memory →
        ((result ≡ Err (ModelFault.At line column why))
        ↔ (meaning bytes.now ≡ FaultAt (record { line = line; column = column }) why)) }
    ensures limit { (passed : TooLarge) → result ≢ Err ModelFault.Memory →
        ((result ≡ Err (ModelFault.TooLarge passed)) ↔ (meaning bytes.now ≡ Passes passed)) }
{
    read(alloc, bytes)
}
