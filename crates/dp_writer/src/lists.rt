//! The lists of a model that may have names.
ghost use Rattle.std.specs.Prelude.{◌≡◌, ◌<◌, ◌↔◌, [], ℕ, length, slice_get, unwrap_or, IsNone, OnOk};
ghost use Rattle.std.specs.Option.{option_copied};
ghost use Rattle.dp_writer.specs.GivenLists.{IsListOf, count_in, names_in};
ghost use Rattle.dp_writer.specs.LimitedTexts.{added};
ghost use Rattle.dp_writer.specs.WrittenLines.{words_text};
ghost use Rattle.dp_writer.specs.WrittenModel.{list_words};

use crate::decimals::push_number;
use crate::limited::LimitedText;
use dp_base::Memory;
use dp_model::{Model, Names};

/// A list of things that may have names.
#[derive(Clone, Copy)]
pub(crate) enum ThingList {
    Agents,
    States,
    Actions { agent: u32 },
    Observations { agent: u32 },
}

impl ThingList {
    /// How many things it has.
    pub(crate) fn count(self, model: &Model) -> u32
        requires { IsListOf model.now self }
        ensures { result ≡ count_in model.now self }
    {
        model.invariant();
        match self {
            ThingList::Agents => model.agents(),
            ThingList::States => model.states(),
            ThingList::Actions { agent } => model.actions(agent),
            ThingList::Observations { agent } => model.observations(agent),
        }
    }

    /// The name of the thing at a place, or none where the list was given as a count.
    pub(crate) fn name(self, names: &Names, place: u32) -> Option<&str>
        requires actions { (agent : ℕ) → self ≡ ThingList.Actions agent → agent < length names.now.actions }
        requires observations { (agent : ℕ) → self ≡ ThingList.Observations agent →
            agent < length names.now.observations }
        requires place { 0 < length (names_in names.now self) → place < length (names_in names.now self) }
        ensures name { option_copied result ≡ slice_get (names_in names.now self) place }
        ensures none { IsNone result ↔ (names_in names.now self ≡ []) }
    {
        match self {
            ThingList::Agents => names.agent(place),
            ThingList::States => names.state(place),
            ThingList::Actions { agent } => names.action(agent, place),
            ThingList::Observations { agent } => names.observation(agent, place),
        }
    }
}

/// Appends the words of a list: its names, or its count where it has none. The first of them stands at the front of a
/// line, or behind other words.
pub(crate) fn push_list(
    text: &mut LimitedText,
    model: &Model,
    list: ThingList,
    first: bool,
) -> Result<(), Memory>
    requires { IsListOf model.now list }
    ensures { OnOk result (text.new
        ≡ added text.old (words_text first (list_words (names_in model.now.names list) (count_in model.now list)))) }
{
    model.invariant();
    let count = list.count(model);
    if list.name(model.names(), 0).is_some() {
        return push_names(text, model.names(), list, count, first);
    }
    text.push_space(first, 0)?;
    push_number(text, u64::from(count))
}

// Appends the names of a list that has them.
fn push_names(
    text: &mut LimitedText,
    names: &Names,
    list: ThingList,
    count: u32,
    first: bool,
) -> Result<(), Memory>
    requires actions { (agent : ℕ) → list ≡ ThingList.Actions agent → agent < length names.now.actions }
    requires observations { (agent : ℕ) → list ≡ ThingList.Observations agent →
        agent < length names.now.observations }
    requires count { length (names_in names.now list) ≡ count }
    ensures { OnOk result (text.new ≡ added text.old (words_text first (names_in names.now list))) }
{
    for place in 0..count {
        text.push_space(first, place)?;
        push_name(text, list.name(names, place))?;
    }
    Ok(())
}

// Appends a name, where there is one.
fn push_name(text: &mut LimitedText, name: Option<&str>) -> Result<(), Memory>
    ensures { OnOk result (text.new ≡ added text.old (unwrap_or (option_copied name.entry) [])) }
{
    match name {
        Some(name) => text.push(name.as_bytes()),
        None => Ok(()),
    }
}
