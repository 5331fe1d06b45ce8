//! The text of a model.
ghost use Rattle.std.specs.Prelude.{◌≡◌, IsTrue, IfErr, IfOk, OnOk, None, Some, length};
ghost use Rattle.dp_model.specs.Limits.{passed_by};
ghost use Rattle.dp_model.specs.declared.limit.Limit.TheVariants.{ModelBytes};
ghost use Rattle.dp_writer.specs.LimitedTexts.{added};
ghost use Rattle.dp_writer.specs.Writable.{is_writable};
ghost use Rattle.dp_writer.specs.WriterLaws.{MeansAgain};
ghost use Rattle.dp_writer.specs.WrittenModel.{written_model};

use crate::MakeFault;
use crate::header::push_header;
use crate::limited::LimitedText;
use crate::rewards::push_rewards;
use crate::rows::ChanceTable;
use crate::statements::push_table;
use dp_base::Memory;
use dp_model::{Limit, Model, TooLarge};
use std::alloc::Global;

/// The text of a model file that means a writable model: reading gives that model again, with no repaired row, equal
/// sizes, equal names and the same fractions. It takes memory linear in the text, and of a text past the limit
/// `ModelBytes` no more than the limit. The errors are that limit with the length of the text, and want of memory.
pub fn write_model(alloc: Global, model: &Model) -> Result<Vec<u8>, MakeFault>
    requires writable { IsTrue (is_writable model.now.model) }
    ensures text { IfOk result (λ text. text.items ≡ written_model model.now) }
    ensures read_back { IfOk result (λ text. MeansAgain model.now text.items) }
    ensures within { OnOk result (passed_by ModelBytes (length (written_model model.now)) ≡ None) }
    ensures too_large { IfErr result (λ e. (passed : TooLarge) → e ≡ MakeFault.TooLarge passed →
        passed_by ModelBytes (length (written_model model.now)) ≡ Some passed) }
{
    model.invariant();
    model.names().invariant();
    let mut text = LimitedText::new(alloc, Limit::ModelBytes);
    push_model(&mut text, model)?;
    text.finish()
}

// Appends the lines of a model.
fn push_model(text: &mut LimitedText, model: &Model) -> Result<(), Memory>
    ensures { OnOk result (text.new ≡ added text.old (written_model model.now)) }
{
    push_header(text, model)?;
    push_table(text, model, ChanceTable::Next)?;
    push_table(text, model, ChanceTable::Seen)?;
    push_rewards(text, model)
}
