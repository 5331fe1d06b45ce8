//! The text of a model's tables.
ghost use Rattle.std.specs.Prelude.{◌≡◌, IfErr, IfOk, None, OnOk, Some, length};
ghost use Rattle.dp_model.specs.Limits.{passed_by};
ghost use Rattle.dp_model.specs.declared.limit.Limit.TheVariants.{TextBytes};
ghost use Rattle.dp_writer.specs.LimitedTexts.{added};
ghost use Rattle.dp_writer.specs.TableText.{table_text};

use crate::MakeFault;
use crate::limited::LimitedText;
use crate::rows::ChanceTable;
use crate::table_head::push_table_head;
use crate::table_rows::{push_chances, push_rewards};
use dp_base::Memory;
use dp_model::{Limit, Model, TooLarge};
use std::alloc::Global;

/// The text of the tables of a model, of whose rows so many were repaired: its names, scales and cells, as whole
/// numbers. It has a line for each row of chances by joint action and state; the rewards of a joint action and a
/// state are one line where all of them are equal, and else one line for each next state.
///
/// It takes memory linear in the text, and of a text past the limit `TextBytes` no more than the limit. The errors
/// are that limit with the length of the text, and want of memory.
pub fn write_table(alloc: Global, model: &Model, repaired: u32) -> Result<Vec<u8>, MakeFault>
    ensures text { IfOk result (λ text. text.items ≡ table_text model.now repaired) }
    ensures within { OnOk result (passed_by TextBytes (length (table_text model.now repaired)) ≡ None) }
    ensures too_large { IfErr result (λ e. (passed : TooLarge) → e ≡ MakeFault.TooLarge passed →
        passed_by TextBytes (length (table_text model.now repaired)) ≡ Some passed) }
{
    let mut text = LimitedText::new(alloc, Limit::TextBytes);
    push_tables(&mut text, model, repaired)?;
    text.finish()
}

// Appends the lines of the tables.
fn push_tables(text: &mut LimitedText, model: &Model, repaired: u32) -> Result<(), Memory>
    ensures { OnOk result (text.new ≡ added text.old (table_text model.now repaired)) }
{
    push_table_head(text, model, repaired)?;
    push_chances(text, model, ChanceTable::Next)?;
    push_chances(text, model, ChanceTable::Seen)?;
    push_rewards(text, model)?;
    text.push(b"end\n")?;
    Ok(())
}
