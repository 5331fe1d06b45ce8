//! The statements of the chances.
ghost use Rattle.std.specs.Prelude.{◌≡◌, ◌<◌, true, false, map, OnOk};
ghost use Rattle.std.specs.Fmt.{decimal};
ghost use Rattle.std.specs.List.{flat_map, range_with_len};
ghost use Rattle.dp_spec.specs.JointNumbers.{parts_of};
ghost use Rattle.dp_spec.specs.Model.{joint_actions};
ghost use Rattle.dp_writer.specs.LimitedTexts.{added};
ghost use Rattle.dp_writer.specs.WrittenLines.{lines_text, words_text};
ghost use Rattle.dp_writer.specs.WrittenModel.{chance_lines, lines_by_state, statement_words, table_word};

use crate::decimals::push_number;
use crate::limited::LimitedText;
use crate::row_text::push_row;
use crate::rows::{ChanceRow, ChanceTable};
use dp_base::Memory;
use dp_model::Model;

/// Appends the statements of a table, a row each, by joint action and state.
pub(crate) fn push_table(
    text: &mut LimitedText,
    model: &Model,
    table: ChanceTable,
) -> Result<(), Memory>
    ensures { OnOk result (text.new ≡ added text.old
        (lines_text (lines_by_state model.now.model (chance_lines model.now.model table)))) }
{
    for action in 0..model.joint_actions() {
        push_rows(text, model, table, action)?;
    }
    Ok(())
}

// Appends the statements of a joint action.
fn push_rows(
    text: &mut LimitedText,
    model: &Model,
    table: ChanceTable,
    action: u32,
) -> Result<(), Memory>
    requires { action < joint_actions model.now.model }
    ensures { OnOk result (text.new ≡ added text.old
        (lines_text (flat_map (chance_lines model.now.model table action)
        (range_with_len 0 model.now.model.states)))) }
{
    for state in 0..model.states() {
        push_statement(text, model, table, action, state)?;
    }
    Ok(())
}

// Appends the statement of a row.
fn push_statement(
    text: &mut LimitedText,
    model: &Model,
    table: ChanceTable,
    action: u32,
    state: u32,
) -> Result<(), Memory>
    requires action { action < joint_actions model.now.model }
    requires state { state < model.now.model.states }
    ensures { OnOk result (text.new ≡ added text.old (lines_text (chance_lines model.now.model table action state))) }
{
    push_fields(text, model, table_word(table), action, state)?;
    text.push(b"\n")?;
    push_row(
        text,
        model,
        ChanceRow::Of {
            table,
            action,
            state,
        },
    )
}

// The first word of a table's statements.
fn table_word(table: ChanceTable) -> &'static [u8]
    ensures { result.now ≡ table_word table }
{
    match table {
        ChanceTable::Next => b"T:",
        ChanceTable::Seen => b"O:",
    }
}

/// Appends the first words of a statement: the table's, each agent's action, and the state.
pub(crate) fn push_fields(
    text: &mut LimitedText,
    model: &Model,
    word: &[u8],
    action: u32,
    state: u32,
) -> Result<(), Memory>
    requires { action < joint_actions model.now.model }
    ensures { OnOk result (text.new ≡ added text.old
        (words_text true (statement_words model.now.model word.now action state))) }
{
    text.push(word)?;
    push_actions(text, model, action)?;
    text.push(b" : ")?;
    push_number(text, u64::from(state))?;
    text.push(b" :")
}

// Appends each agent's action, by its number, behind a space.
fn push_actions(text: &mut LimitedText, model: &Model, action: u32) -> Result<(), Memory>
    requires { action < joint_actions model.now.model }
    ensures { OnOk result (text.new ≡ added text.old
        (words_text false (map decimal (parts_of model.now.model.actions action)))) }
{
    for agent in 0..model.agents() {
        text.push(b" ")?;
        push_number(text, u64::from(model.local_action(action, agent)))?;
    }
    Ok(())
}
