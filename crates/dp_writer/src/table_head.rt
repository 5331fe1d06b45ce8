//! The first lines of the text of a model's tables: its names, its scales and its start.
ghost use Rattle.std.specs.Prelude.{◌≡◌, ◌<◌, ◌∷◌, ◌++◌, [], false, length, map, OnOk};
ghost use Rattle.std.specs.Fmt.{decimal};
ghost use Rattle.std.specs.List.{flat_map, range_with_len};
ghost use Rattle.dp_writer.specs.ChanceRows.{IsRowOf, cells_of};
ghost use Rattle.dp_writer.specs.GivenLists.{IsListOf, count_in, names_in};
ghost use Rattle.dp_writer.specs.LimitedTexts.{added};
ghost use Rattle.dp_writer.specs.TableText.{agent_table_lines, first_lines, name_word, name_words, start_line};
ghost use Rattle.dp_writer.specs.WrittenLines.{lines_text, words_text};

use crate::decimals::push_number;
use crate::limited::LimitedText;
use crate::lists::ThingList;
use crate::rows::ChanceRow;
use dp_base::Memory;
use dp_model::Model;

/// Appends the lines before the rows of the tables.
pub(crate) fn push_table_head(
    text: &mut LimitedText,
    model: &Model,
    repaired: u32,
) -> Result<(), Memory>
    ensures { OnOk result (text.new ≡ added text.old (lines_text (first_lines model.now repaired
        ++ (flat_map (agent_table_lines model.now) (range_with_len 0 (length model.now.model.actions))
        ++ start_line model.now.model ∷ [])))) }
{
    push_first_lines(text, model, repaired)?;
    push_agents(text, model)?;
    text.push(b"start")?;
    push_cells(text, model, ChanceRow::Start)?;
    text.push(b"\n")?;
    Ok(())
}

// Appends the title, the scales and the names of the states.
fn push_first_lines(text: &mut LimitedText, model: &Model, repaired: u32) -> Result<(), Memory>
    ensures { OnOk result (text.new ≡ added text.old (lines_text (first_lines model.now repaired))) }
{
    let scales = model.scales();
    text.push(b"decplan model 1\n")?;
    push_numbers_line(text, b"repaired", &[u64::from(repaired)])?;
    push_numbers_line(text, b"discount", &[scales.gain, scales.discount])?;
    push_numbers_line(
        text,
        b"scales",
        &[scales.start, scales.trans, scales.obs, scales.reward],
    )?;
    push_names_line(text, model, b"states", ThingList::States)?;
    Ok(())
}

// Appends the lines of the agents.
fn push_agents(text: &mut LimitedText, model: &Model) -> Result<(), Memory>
    ensures { OnOk result (text.new ≡ added text.old (lines_text
        (flat_map (agent_table_lines model.now) (range_with_len 0 (length model.now.model.actions))))) }
{
    for agent in 0..model.agents() {
        push_agent(text, model, agent)?;
    }
    Ok(())
}

// Appends the lines of an agent.
fn push_agent(text: &mut LimitedText, model: &Model, agent: u32) -> Result<(), Memory>
    requires { agent < length model.now.model.actions }
    ensures { OnOk result (text.new ≡ added text.old (lines_text (agent_table_lines model.now agent))) }
{
    text.push(b"agent ")?;
    push_name(text, model, ThingList::Agents, agent)?;
    text.push(b"\n")?;
    push_names_line(text, model, b"actions", ThingList::Actions { agent })?;
    push_names_line(
        text,
        model,
        b"observations",
        ThingList::Observations { agent },
    )?;
    Ok(())
}

// Appends a line: a word, and the names of all things of a list.
fn push_names_line(
    text: &mut LimitedText,
    model: &Model,
    word: &[u8],
    list: ThingList,
) -> Result<(), Memory>
    requires { IsListOf model.now list }
    ensures { OnOk result (text.new ≡ added text.old (lines_text
        ((word.now ∷ name_words (names_in model.now.names list) (count_in model.now list)) ∷ []))) }
{
    text.push(word)?;
    push_names(text, model, list)?;
    text.push(b"\n")?;
    Ok(())
}

// Appends a line: a word, and numbers.
fn push_numbers_line(text: &mut LimitedText, word: &[u8], numbers: &[u64]) -> Result<(), Memory>
    ensures { OnOk result (text.new ≡ added text.old
        (lines_text ((word.now ∷ map decimal numbers.now) ∷ []))) }
{
    text.push(word)?;
    push_numbers(text, numbers)?;
    text.push(b"\n")?;
    Ok(())
}

// Appends the names of all things of a list, or their numbers where it has none, each behind a space.
fn push_names(text: &mut LimitedText, model: &Model, list: ThingList) -> Result<(), Memory>
    requires { IsListOf model.now list }
    ensures { OnOk result (text.new ≡ added text.old (words_text false
        (name_words (names_in model.now.names list) (count_in model.now list)))) }
{
    for place in 0..list.count(model) {
        text.push(b" ")?;
        push_name(text, model, list, place)?;
    }
    Ok(())
}

// Appends the name of a thing of a list, or its number where the list has none.
fn push_name(
    text: &mut LimitedText,
    model: &Model,
    list: ThingList,
    place: u32,
) -> Result<(), Memory>
    requires list { IsListOf model.now list }
    requires place { place < count_in model.now list }
    ensures { OnOk result (text.new ≡ added text.old (name_word (names_in model.now.names list) place)) }
{
    model.invariant();
    match list.name(model.names(), place) {
        Some(name) => text.push(name.as_bytes()),
        None => push_number(text, u64::from(place)),
    }
}

/// Appends numbers, each behind a space.
pub(crate) fn push_numbers(text: &mut LimitedText, numbers: &[u64]) -> Result<(), Memory>
    ensures { OnOk result (text.new ≡ added text.old (words_text false (map decimal numbers.now))) }
{
    for number in numbers {
        text.push(b" ")?;
        push_number(text, *number)?;
    }
    Ok(())
}

/// Appends the cells of a row of chances, each behind a space.
pub(crate) fn push_cells(
    text: &mut LimitedText,
    model: &Model,
    row: ChanceRow,
) -> Result<(), Memory>
    requires { IsRowOf model.now.model row }
    ensures { OnOk result (text.new ≡ added text.old
        (words_text false (map decimal (cells_of model.now.model row)))) }
{
    for place in 0..row.len(model) {
        text.push(b" ")?;
        push_number(text, row.cell(model, place))?;
    }
    Ok(())
}
