//! The line of a row of chances.
ghost use Rattle.std.specs.Prelude.{◌≡◌, true, map, OnOk};
ghost use Rattle.dp_writer.specs.ChanceRows.{IsRowOf, cells_of, scale_of_row};
ghost use Rattle.dp_writer.specs.LimitedTexts.{added};
ghost use Rattle.dp_writer.specs.WrittenLines.{line_text, words_text};
ghost use Rattle.dp_writer.specs.WrittenModel.{chance_word, row_words};

use crate::decimals::push_chance;
use crate::limited::LimitedText;
use crate::rows::ChanceRow;
use dp_base::Memory;
use dp_model::Model;

/// Appends the line of a row: `uniform` where all its cells are equal, and else its decimals.
pub(crate) fn push_row(text: &mut LimitedText, model: &Model, row: ChanceRow) -> Result<(), Memory>
    requires { IsRowOf model.now.model row }
    ensures { OnOk result (text.new ≡ added text.old
        (line_text (row_words (scale_of_row model.now.model row) (cells_of model.now.model row)))) }
{
    if row.has_equal_cells(model) {
        return text.push(b"uniform\n");
    }
    push_chances(text, model, row)?;
    text.push(b"\n")
}

// Appends the decimals of a row, divided by one space.
fn push_chances(text: &mut LimitedText, model: &Model, row: ChanceRow) -> Result<(), Memory>
    requires { IsRowOf model.now.model row }
    ensures { OnOk result (text.new ≡ added text.old
        (words_text true (map (chance_word (scale_of_row model.now.model row)) (cells_of model.now.model row)))) }
{
    model.invariant();
    let scale = row.scale(model);
    for place in 0..row.len(model) {
        text.push_space(true, place)?;
        push_chance(text, row.cell(model, place), scale)?;
    }
    Ok(())
}
