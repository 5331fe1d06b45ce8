//! The rows of the text of a model's tables.
ghost use Rattle.std.specs.Prelude.{◌≡◌, ◌<◌, false, map, true, OnOk};
ghost use Rattle.std.specs.Fmt.{signed_decimal};
ghost use Rattle.std.specs.List.{flat_map, range_with_len};
ghost use Rattle.dp_spec.specs.Model.{joint_actions};
ghost use Rattle.dp_writer.specs.LimitedTexts.{added};
ghost use Rattle.dp_writer.specs.ModelRows.{each_below, reward_row};
ghost use Rattle.dp_writer.specs.TableText.{chances_lines, chances_word, rewards_line, rewards_lines};
ghost use Rattle.dp_writer.specs.WrittenLines.{lines_text, words_text};
ghost use Rattle.dp_writer.specs.WrittenModel.{lines_by_state};

use crate::limited::LimitedText;
use crate::rewards::is_only_reward;
use crate::rows::{ChanceRow, ChanceTable};
use crate::table_head::{push_cells, push_numbers};
use dp_base::Memory;
use dp_model::Model;
use itoa::Buffer;

/// Appends the rows of a table of chances, by joint action and state.
pub(crate) fn push_chances(
    text: &mut LimitedText,
    model: &Model,
    table: ChanceTable,
) -> Result<(), Memory>
    ensures { OnOk result (text.new ≡ added text.old
        (lines_text (lines_by_state model.now.model (chances_lines model.now.model table)))) }
{
    for action in 0..model.joint_actions() {
        push_chances_of(text, model, table, action)?;
    }
    Ok(())
}

// Appends the rows of a joint action.
fn push_chances_of(
    text: &mut LimitedText,
    model: &Model,
    table: ChanceTable,
    action: u32,
) -> Result<(), Memory>
    requires { action < joint_actions model.now.model }
    ensures { OnOk result (text.new ≡ added text.old (lines_text (flat_map
        (chances_lines model.now.model table action) (range_with_len 0 model.now.model.states)))) }
{
    for state in 0..model.states() {
        push_chances_line(text, model, table, action, state)?;
    }
    Ok(())
}

// Appends the row of a joint action and a state.
fn push_chances_line(
    text: &mut LimitedText,
    model: &Model,
    table: ChanceTable,
    action: u32,
    state: u32,
) -> Result<(), Memory>
    requires action { action < joint_actions model.now.model }
    requires state { state < model.now.model.states }
    ensures { OnOk result (text.new ≡ added text.old
        (lines_text (chances_lines model.now.model table action state))) }
{
    text.push(chances_word(table))?;
    push_numbers(text, &[u64::from(action), u64::from(state)])?;
    push_cells(
        text,
        model,
        ChanceRow::Of {
            table,
            action,
            state,
        },
    )?;
    text.push(b"\n")?;
    Ok(())
}

// The word of a table.
fn chances_word(table: ChanceTable) -> &'static [u8]
    ensures { result.now ≡ chances_word table }
{
    match table {
        ChanceTable::Next => b"T",
        ChanceTable::Seen => b"O",
    }
}

/// Appends the lines of the rewards, by joint action and state.
pub(crate) fn push_rewards(text: &mut LimitedText, model: &Model) -> Result<(), Memory>
    ensures { OnOk result (text.new ≡ added text.old
        (lines_text (lines_by_state model.now.model (rewards_lines model.now.model)))) }
{
    for action in 0..model.joint_actions() {
        push_rewards_of(text, model, action)?;
    }
    Ok(())
}

// Appends the lines of a joint action.
fn push_rewards_of(text: &mut LimitedText, model: &Model, action: u32) -> Result<(), Memory>
    requires { action < joint_actions model.now.model }
    ensures { OnOk result (text.new ≡ added text.old
        (lines_text (flat_map (rewards_lines model.now.model action) (range_with_len 0 model.now.model.states)))) }
{
    for state in 0..model.states() {
        push_rewards_lines(text, model, action, state)?;
    }
    Ok(())
}

// Appends the lines of a joint action and a state: one where all rewards are equal.
fn push_rewards_lines(
    text: &mut LimitedText,
    model: &Model,
    action: u32,
    state: u32,
) -> Result<(), Memory>
    requires action { action < joint_actions model.now.model }
    requires state { state < model.now.model.states }
    ensures { OnOk result (text.new ≡ added text.old (lines_text (rewards_lines model.now.model action state))) }
{
    model.invariant();
    let first = model.reward(action, state, 0, 0);
    if !is_only_reward(model, action, state, first) {
        push_matrix(text, model, action, state)?;
        return Ok(());
    }
    text.push(b"Q")?;
    push_numbers(text, &[u64::from(action), u64::from(state)])?;
    text.push(b" ")?;
    push_reward(text, first)?;
    text.push(b"\n")?;
    Ok(())
}

// Appends a line for each next state.
fn push_matrix(text: &mut LimitedText, model: &Model, action: u32, state: u32) -> Result<(), Memory>
    requires action { action < joint_actions model.now.model }
    requires state { state < model.now.model.states }
    ensures { OnOk result (text.new ≡ added text.old
        (lines_text (each_below (rewards_line model.now.model action state) model.now.model.states))) }
{
    for next in 0..model.states() {
        push_rewards_line(text, model, action, state, next)?;
        text.push(b"\n")?;
    }
    Ok(())
}

// Appends the words of the line of a joint action and a state where a state follows.
fn push_rewards_line(
    text: &mut LimitedText,
    model: &Model,
    action: u32,
    state: u32,
    next: u32,
) -> Result<(), Memory>
    requires action { action < joint_actions model.now.model }
    requires state { state < model.now.model.states }
    requires next { next < model.now.model.states }
    ensures { OnOk result (text.new ≡ added text.old
        (words_text true (rewards_line model.now.model action state next))) }
{
    text.push(b"R")?;
    push_numbers(
        text,
        &[u64::from(action), u64::from(state), u64::from(next)],
    )?;
    push_row(text, model, action, state, next)?;
    Ok(())
}

// Appends the rewards of a joint action and a state where a state follows, each behind a space.
fn push_row(
    text: &mut LimitedText,
    model: &Model,
    action: u32,
    state: u32,
    next: u32,
) -> Result<(), Memory>
    requires action { action < joint_actions model.now.model }
    requires state { state < model.now.model.states }
    requires next { next < model.now.model.states }
    ensures { OnOk result (text.new ≡ added text.old
        (words_text false (map signed_decimal (reward_row model.now.model action state next)))) }
{
    for seen in 0..model.joint_observations() {
        text.push(b" ")?;
        push_reward(text, model.reward(action, state, next, seen))?;
    }
    Ok(())
}

// Appends a reward, in units of one over its scale.
fn push_reward(text: &mut LimitedText, reward: i64) -> Result<(), Memory>
    ensures { OnOk result (text.new ≡ added text.old (signed_decimal reward)) }
{
    let mut buffer = Buffer::new();
    text.push(buffer.format(reward).as_bytes())
}
