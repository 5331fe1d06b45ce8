//! The model of a text, from its header and its tables.
ghost use Rattle.std.specs.Prelude.{◌≡◌, ◌≤◌, ◌^◌, Ok, IfOk, length, map};
ghost use Rattle.dp_spec.specs.Model.{IsModel};
ghost use Rattle.dp_model.specs.Names.{AreNames};
ghost use Rattle.dp_model.specs.Tables.{AreNamesOf};
ghost use Rattle.dp_meaning.specs.Meaning.{meaning, names_given, text_of};
ghost use Rattle.dp_meaning.specs.NameLists.{size_of};
ghost use Rattle.dp_reader.specs.Repaired.{ReadsAllRows, model_of_rows};
ghost use Rattle.dp_reader.specs.Reading.{IsMeaning};

use crate::ModelFault;
use crate::lists::{all_names, names_in, sizes};
use crate::repaired::{Repaired, repaired_rows};
use dp_base::Memory;
use dp_meaning::Header;
use dp_model::{Cells, Model, Names, Sequence, Sizes};
use dp_tables::{BoundedText, ChancesOf, rewards};
use std::alloc::Global;

/// A model, and how many of the rows of its file were repaired to sum to 1.
#[derive(Drop)]
pub struct ReadModel {
    pub model: Model,
    pub repaired: u32,
}

/// The rows of chances of a model.
#[derive(Drop)]
pub(crate) struct Rows {
    pub start: Repaired,
    pub transitions: Repaired,
    pub observations: Repaired,
}

/// The rows of all chances that the text gives, repaired.
fn all_rows(alloc: Global, bytes: &[u8], text: &BoundedText) -> Result<Rows, ModelFault>
    requires { length bytes.now ≤ 2 ^ 26 }
    ensures { ReadsAllRows bytes.now text.now result }
{
    let start = repaired_rows(alloc, bytes, text, ChancesOf::Start)?;
    let transitions = repaired_rows(alloc, bytes, text, ChancesOf::Transitions)?;
    let observations = repaired_rows(alloc, bytes, text, ChancesOf::Observations)?;
    Ok(Rows {
        start,
        transitions,
        observations,
    })
}

/// How many states there are, and actions and observations of each agent.
fn sizes_in(alloc: Global, header: &Header) -> Result<Sizes, Memory>
    ensures { IfOk result (λ sizes. sizes ≡ record {
      states = size_of header.now.states;
      actions = map size_of header.now.actions;
      observations = map size_of header.now.observations;
    }) }
{
    Ok(Sizes {
        states: header.states.size(),
        actions: sizes(alloc, header.actions.as_slice())?,
        observations: sizes(alloc, header.observations.as_slice())?,
    })
}

/// The names that a header gives.
fn names_of(alloc: Global, header: Header) -> Result<Names, Memory>
    requires { AreNames (names_given header) }
    ensures { IfOk result (λ names. names ≡ names_given header) }
{
    let agents = names_in(alloc, header.agents);
    let states = names_in(alloc, header.states);
    let actions = all_names(alloc, header.actions)?;
    let observations = all_names(alloc, header.observations)?;
    Ok(Names::of_lists(agents, states, actions, observations))
}

/// The model of a text whose rows of chances these are.
fn build(alloc: Global, text: BoundedText, rows: Rows) -> Result<Model, Memory>
    requires names { AreNames (names_given text.text.header) }
    requires model { IsModel (model_of_rows text.text rows) }
    requires named { AreNamesOf (model_of_rows text.text rows) (names_given text.text.header) }
    ensures { IfOk result
        (λ model. model ≡ record { model = model_of_rows text.text rows; names = names_given text.text.header }) }
{
    let reward = rewards(alloc, &text)?;
    let sizes = sizes_in(alloc, text.header())?;
    let scales = text.scales();
    let names = names_of(alloc, text.into_header())?;
    let cells = Cells {
        start: Sequence::of(rows.start.cells),
        trans: Sequence::of(rows.transitions.cells),
        obs: Sequence::of(rows.observations.cells),
        reward: Sequence::of(reward),
    };
    Ok(Model::build(sizes, names, scales, cells))
}

/// The model of the text that the file says, or the first fault of its rows.
pub(crate) fn repaired_model(
    alloc: Global,
    bytes: &[u8],
    text: BoundedText,
) -> Result<ReadModel, ModelFault>
    requires short { length bytes.now ≤ 2 ^ 26 }
    requires says { text_of bytes.now ≡ Ok text.text }
    requires end { text.end ≡ length bytes.now }
    ensures { IsMeaning (meaning bytes.now) result }
{
    text.invariant();
    let rows = all_rows(alloc, bytes, &text)?;
    let repaired = rows.start.count + rows.transitions.count + rows.observations.count;
    let model = build(alloc, text, rows)?;
    Ok(ReadModel { model, repaired })
}
