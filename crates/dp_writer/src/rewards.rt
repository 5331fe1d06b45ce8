//! The statements of the rewards.
ghost use Rattle.std.specs.Prelude.{◌≡◌, ◌<◌, true, map, OnOk};
ghost use Rattle.std.specs.List.{flat_map, list_all, range_with_len};
ghost use Rattle.std.specs.Ordering.{int_eq};
ghost use Rattle.dp_spec.specs.Model.{joint_actions};
ghost use Rattle.dp_writer.specs.LimitedTexts.{added};
ghost use Rattle.dp_writer.specs.ModelRows.{reward_row, reward_rows};
ghost use Rattle.dp_writer.specs.WrittenLines.{lines_text, words_text};
ghost use Rattle.dp_writer.specs.WrittenModel.{is_only_reward, lines_by_state, matrix_lines, reward_lines};
ghost use Rattle.dp_writer.specs.WrittenModel.{reward_word};

use crate::decimals::push_reward;
use crate::limited::LimitedText;
use crate::statements::push_fields;
use dp_base::Memory;
use dp_model::Model;

/// Appends the statements of the rewards, by joint action and state.
pub(crate) fn push_rewards(text: &mut LimitedText, model: &Model) -> Result<(), Memory>
    ensures { OnOk result (text.new ≡ added text.old
        (lines_text (lines_by_state model.now.model (reward_lines model.now.model)))) }
{
    for action in 0..model.joint_actions() {
        push_of_action(text, model, action)?;
    }
    Ok(())
}

// Appends the statements of a joint action.
fn push_of_action(text: &mut LimitedText, model: &Model, action: u32) -> Result<(), Memory>
    requires { action < joint_actions model.now.model }
    ensures { OnOk result (text.new ≡ added text.old
        (lines_text (flat_map (reward_lines model.now.model action) (range_with_len 0 model.now.model.states)))) }
{
    for state in 0..model.states() {
        push_of_state(text, model, action, state)?;
    }
    Ok(())
}

// Appends the statement of a joint action and a state: none where all rewards are 0, one reward where all are equal.
fn push_of_state(
    text: &mut LimitedText,
    model: &Model,
    action: u32,
    state: u32,
) -> Result<(), Memory>
    requires action { action < joint_actions model.now.model }
    requires state { state < model.now.model.states }
    ensures { OnOk result (text.new ≡ added text.old (lines_text (reward_lines model.now.model action state))) }
{
    model.invariant();
    let first = model.reward(action, state, 0, 0);
    if !is_only_reward(model, action, state, first) {
        push_fields(text, model, b"R:", action, state)?;
        text.push(b"\n")?;
        return push_matrix(text, model, action, state);
    }
    if first == 0 {
        return Ok(());
    }
    push_fields(text, model, b"R:", action, state)?;
    let scales = model.scales();
    text.push(b" * : * : ")?;
    push_reward(text, first, scales.reward)?;
    text.push(b"\n")
}

/// Whether all rewards of a joint action and a state are this one.
pub(crate) fn is_only_reward(model: &Model, action: u32, state: u32, reward: i64) -> bool
    requires action { action < joint_actions model.now.model }
    requires state { state < model.now.model.states }
    ensures { result ≡ is_only_reward reward (reward_rows model.now.model action state) }
{
    for next in 0..model.states() {
        if !is_only_in_row(model, action, state, next, reward) {
            return false;
        }
    }
    true
}

// Whether all rewards are this one where a state follows.
fn is_only_in_row(model: &Model, action: u32, state: u32, next: u32, reward: i64) -> bool
    requires action { action < joint_actions model.now.model }
    requires state { state < model.now.model.states }
    requires next { next < model.now.model.states }
    ensures { result ≡ list_all (λ x. int_eq x reward) (reward_row model.now.model action state next) }
{
    for seen in 0..model.joint_observations() {
        if model.reward(action, state, next, seen) != reward {
            return false;
        }
    }
    true
}

// Appends a line of rewards for each next state.
fn push_matrix(text: &mut LimitedText, model: &Model, action: u32, state: u32) -> Result<(), Memory>
    requires action { action < joint_actions model.now.model }
    requires state { state < model.now.model.states }
    ensures { OnOk result (text.new ≡ added text.old
        (lines_text (matrix_lines model.now.model action state))) }
{
    for next in 0..model.states() {
        push_matrix_row(text, model, action, state, next)?;
        text.push(b"\n")?;
    }
    Ok(())
}

// Appends the rewards where a state follows, divided by one space.
fn push_matrix_row(
    text: &mut LimitedText,
    model: &Model,
    action: u32,
    state: u32,
    next: u32,
) -> Result<(), Memory>
    requires action { action < joint_actions model.now.model }
    requires state { state < model.now.model.states }
    requires next { next < model.now.model.states }
    ensures { OnOk result (text.new ≡ added text.old (words_text true
        (map (reward_word model.now.model.scales.reward) (reward_row model.now.model action state next)))) }
{
    model.invariant();
    let scales = model.scales();
    for seen in 0..model.joint_observations() {
        text.push_space(true, seen)?;
        push_reward(text, model.reward(action, state, next, seen), scales.reward)?;
    }
    Ok(())
}
