//! The header of a written model.
ghost use Rattle.std.specs.Prelude.{◌≡◌, ◌∷◌, ◌++◌, [], true, codes, length, OnOk};
ghost use Rattle.dp_writer.specs.LimitedTexts.{added};
ghost use Rattle.dp_writer.specs.WrittenLines.{line_text, lines_text};
ghost use Rattle.dp_writer.specs.WrittenModel.{agent_lines, chance_word, header_lines, list_words, row_words};

use crate::decimals::push_chance;
use crate::limited::LimitedText;
use crate::lists::{ThingList, push_list};
use crate::row_text::push_row;
use crate::rows::ChanceRow;
use dp_base::Memory;
use dp_model::Model;

/// Appends the entries of the header.
pub(crate) fn push_header(text: &mut LimitedText, model: &Model) -> Result<(), Memory>
    ensures { OnOk result (text.new ≡ added text.old (lines_text (header_lines model.now))) }
{
    push_agents_line(text, model)?;
    push_discount_line(text, model)?;
    push_states_line(text, model)?;
    text.push(b"start:\n")?;
    push_row(text, model, ChanceRow::Start)?;
    text.push(b"actions:\n")?;
    push_action_lists(text, model)?;
    text.push(b"observations:\n")?;
    push_observation_lists(text, model)
}

// Appends the entry of the agents.
fn push_agents_line(text: &mut LimitedText, model: &Model) -> Result<(), Memory>
    ensures { OnOk result (text.new ≡ added text.old
        (line_text (codes "agents:" ∷ list_words model.now.names.agents (length model.now.model.actions)))) }
{
    text.push(b"agents:")?;
    push_list(text, model, ThingList::Agents, false)?;
    text.push(b"\n")
}

// Appends the entry of the discount, and that of the values.
fn push_discount_line(text: &mut LimitedText, model: &Model) -> Result<(), Memory>
    ensures { OnOk result (text.new ≡ added text.old (lines_text
        ((codes "discount:" ∷ chance_word model.now.model.scales.discount model.now.model.scales.gain ∷ [])
        ∷ (codes "values:" ∷ codes "reward" ∷ []) ∷ []))) }
{
    model.invariant();
    let scales = model.scales();
    text.push(b"discount: ")?;
    push_chance(text, scales.gain, scales.discount)?;
    text.push(b"\nvalues: reward\n")
}

// Appends the entry of the states.
fn push_states_line(text: &mut LimitedText, model: &Model) -> Result<(), Memory>
    ensures { OnOk result (text.new ≡ added text.old
        (line_text (codes "states:" ∷ list_words model.now.names.states model.now.model.states))) }
{
    text.push(b"states:")?;
    push_list(text, model, ThingList::States, false)?;
    text.push(b"\n")
}

// Appends for each agent the line of its actions.
fn push_action_lists(text: &mut LimitedText, model: &Model) -> Result<(), Memory>
    ensures { OnOk result (text.new ≡ added text.old
        (lines_text (agent_lines model.now.names.actions model.now.model.actions))) }
{
    for agent in 0..model.agents() {
        push_list(text, model, ThingList::Actions { agent }, true)?;
        text.push(b"\n")?;
    }
    Ok(())
}

// Appends for each agent the line of its observations.
fn push_observation_lists(text: &mut LimitedText, model: &Model) -> Result<(), Memory>
    ensures { OnOk result (text.new ≡ added text.old
        (lines_text (agent_lines model.now.names.observations model.now.model.observations))) }
{
    model.invariant();
    for agent in 0..model.agents() {
        push_list(text, model, ThingList::Observations { agent }, true)?;
        text.push(b"\n")?;
    }
    Ok(())
}
