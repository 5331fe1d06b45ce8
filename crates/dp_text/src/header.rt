//! The header of a text.
ghost use Rattle.std.specs.Prelude.{◌≡◌, List, drop, Ok, Err, MatchResult};
ghost use Rattle.dp_meaning.specs.Header as spec;
ghost use Rattle.dp_meaning.specs.Items as spec_items;
ghost use Rattle.dp_text.specs.HeaderSteps.{ReadsHeader, header_and};
ghost use Rattle.dp_text.specs.Reading.{Reads};

use crate::entries::{discount_of, is_cost, start_of};
use crate::fault::{TextFault, fault};
use crate::name_lists::{name_list, name_lists};
use crate::words::says;
use dp_items::{Document, Item, Piece};
use dp_meaning::{Entries, Entry, Fault, Header, ItemKind, Table, Why};
use std::alloc::Global;

/// The header, and how many items of the text it takes: those before the first statement.
///
/// `Expected` names the first item that is neither an entry nor a statement. `Header` names an
/// entry that comes twice or too early, or the item before which one is missing.
pub(crate) fn read_header(alloc: Global, document: &Document) -> Result<(Header, usize), TextFault>
    ensures { ReadsHeader document.now.items
        (spec.header_of document.now.end spec.no_entries document.now.items) result }
{
    let mut entries = no_entries();
    for place in 0..document.len() {
        let item = document.item(place);
        match kind_of(&item) {
            ItemKind::HeaderEntry(entry) => {
                entries = with_entry(alloc, entry, &item, entries)?;
            }
            ItemKind::StatementOf(_) => return header_behind(item.at(), entries, place),
            ItemKind::NoItem => return Err(TextFault::At(fault(Why::Expected, item.at()))),
        }
    }
    header_behind(document.end(), entries, document.len())
}

fn no_entries() -> Entries
    ensures { result ≡ spec.no_entries }
{
    Entries {
        agents: None,
        discount: None,
        cost: None,
        states: None,
        start: None,
        actions: None,
        observations: None,
    }
}

/// The header of all entries, which took so many items.
fn header_behind(at: u32, entries: Entries, taken: usize) -> Result<(Header, usize), TextFault>
    ensures { (items : List spec_items.Item) →
        ReadsHeader items (header_and at entries (drop taken items)) result }
{
    let header = header_with(at, entries)?;
    Ok((header, taken))
}

/// What an item is, by its first token.
#[tactic(auto, unfolding(dp_meaning::specs::Header::kind_of))]
pub(crate) fn kind_of(item: &Item) -> ItemKind
    ensures { result ≡ spec.kind_of item.now }
{
    match item.first_line().split_first() {
        Some((piece, _)) => kind_of_word(&piece),
        None => ItemKind::NoItem,
    }
}

fn kind_of_word(piece: &Piece) -> ItemKind
    ensures { result ≡ spec.kind_in spec.item_words piece.now.text }
{
    if says(b"agents", piece) {
        ItemKind::HeaderEntry(Entry::Agents)
    } else if says(b"discount", piece) {
        ItemKind::HeaderEntry(Entry::Discount)
    } else if says(b"values", piece) {
        ItemKind::HeaderEntry(Entry::Values)
    } else if says(b"states", piece) {
        ItemKind::HeaderEntry(Entry::States)
    } else if says(b"start", piece) {
        ItemKind::HeaderEntry(Entry::StartEntry)
    } else if says(b"actions", piece) {
        ItemKind::HeaderEntry(Entry::Actions)
    } else if says(b"observations", piece) {
        ItemKind::HeaderEntry(Entry::Observations)
    } else if says(b"T", piece) {
        ItemKind::StatementOf(Table::Trans)
    } else if says(b"O", piece) {
        ItemKind::StatementOf(Table::Obs)
    } else if says(b"R", piece) {
        ItemKind::StatementOf(Table::Reward)
    } else {
        ItemKind::NoItem
    }
}

/// An entry that has come.
fn entry<T: Drop>(at: u32, entry: Option<T>) -> Result<T, Fault>
    ensures { result ≡ spec.entry at entry }
{
    match entry {
        Some(value) => Ok(value),
        None => Err(fault(Why::Header, at)),
    }
}

/// All seven entries, or that one is missing at an offset.
#[tactic(auto, unfolding(dp_meaning::specs::Header::header_with))]
pub(crate) fn header_with(at: u32, entries: Entries) -> Result<Header, Fault>
    ensures { result ≡ spec.header_with at entries }
{
    Ok(Header {
        agents: entry(at, entries.agents)?,
        discount: entry(at, entries.discount)?,
        cost: entry(at, entries.cost)?,
        states: entry(at, entries.states)?,
        start: entry(at, entries.start)?,
        actions: entry(at, entries.actions)?,
        observations: entry(at, entries.observations)?,
    })
}

/// The entries, with one more of them. A list of actions or observations comes behind the agents,
/// and the start behind the states.
#[tactic(auto, unfolding(dp_meaning::specs::Header::with_entry))]
pub(crate) fn with_entry(
    alloc: Global,
    entry: Entry,
    item: &Item,
    entries: Entries,
) -> Result<Entries, TextFault>
    ensures { Reads (spec.with_entry entry item.now entries) result }
{
    match entry {
        Entry::Agents => with_agents(alloc, item, entries),
        Entry::Discount => with_discount(item, entries),
        Entry::Values => with_values(item, entries),
        Entry::States => with_states(alloc, item, entries),
        Entry::StartEntry => with_start(alloc, item, entries),
        Entry::Actions => with_actions(alloc, item, entries),
        Entry::Observations => with_observations(alloc, item, entries),
    }
}

/// No such entry has come yet.
fn unless_come<T>(at: u32, entry: &Option<T>) -> Result<(), Fault>
    ensures { result ≡ spec.unless_come at entry.now }
{
    match entry {
        Some(_) => Err(fault(Why::Header, at)),
        None => Ok(()),
    }
}

/// Such an entry has come.
fn come<T>(at: u32, entry: &Option<T>) -> Result<&T, Fault>
    ensures { MatchResult result (λ value. spec.entry at entry.now ≡ Ok value.now)
        (λ why. spec.entry at entry.now ≡ Err why) }
{
    match entry {
        Some(value) => Ok(value),
        None => Err(fault(Why::Header, at)),
    }
}

#[tactic(auto, unfolding(dp_meaning::specs::Header::with_entry))]
fn with_agents(alloc: Global, item: &Item, entries: Entries) -> Result<Entries, TextFault>
    ensures { Reads (spec.with_entry Entry.Agents item.now entries) result }
{
    unless_come(item.at(), &entries.agents)?;
    let agents = name_list(alloc, item.next(), &item.value())?;
    Ok(Entries {
        agents: Some(agents),
        ..entries
    })
}

#[tactic(auto, unfolding(dp_meaning::specs::Header::with_entry))]
fn with_discount(item: &Item, entries: Entries) -> Result<Entries, TextFault>
    ensures { Reads (spec.with_entry Entry.Discount item.now entries) result }
{
    unless_come(item.at(), &entries.discount)?;
    let discount = discount_of(item.next(), &item.value())?;
    Ok(Entries {
        discount: Some(discount),
        ..entries
    })
}

#[tactic(auto, unfolding(dp_meaning::specs::Header::with_entry))]
fn with_values(item: &Item, entries: Entries) -> Result<Entries, TextFault>
    ensures { Reads (spec.with_entry Entry.Values item.now entries) result }
{
    unless_come(item.at(), &entries.cost)?;
    let cost = is_cost(item.next(), &item.value())?;
    Ok(Entries {
        cost: Some(cost),
        ..entries
    })
}

#[tactic(auto, unfolding(dp_meaning::specs::Header::with_entry))]
fn with_states(alloc: Global, item: &Item, entries: Entries) -> Result<Entries, TextFault>
    ensures { Reads (spec.with_entry Entry.States item.now entries) result }
{
    unless_come(item.at(), &entries.states)?;
    let states = name_list(alloc, item.next(), &item.value())?;
    Ok(Entries {
        states: Some(states),
        ..entries
    })
}

#[tactic(auto, unfolding(dp_meaning::specs::Header::with_entry))]
fn with_start(alloc: Global, item: &Item, entries: Entries) -> Result<Entries, TextFault>
    ensures { Reads (spec.with_entry Entry.StartEntry item.now entries) result }
{
    unless_come(item.at(), &entries.start)?;
    let states = come(item.at(), &entries.states)?;
    let start = start_of(alloc, states, item.next(), &item.value())?;
    Ok(Entries {
        start: Some(start),
        ..entries
    })
}

#[tactic(auto, unfolding(dp_meaning::specs::Header::with_entry))]
fn with_actions(alloc: Global, item: &Item, entries: Entries) -> Result<Entries, TextFault>
    ensures { Reads (spec.with_entry Entry.Actions item.now entries) result }
{
    unless_come(item.at(), &entries.actions)?;
    let agents = come(item.at(), &entries.agents)?.size();
    let actions = name_lists(alloc, agents, item)?;
    Ok(Entries {
        actions: Some(actions),
        ..entries
    })
}

#[tactic(auto, unfolding(dp_meaning::specs::Header::with_entry))]
fn with_observations(alloc: Global, item: &Item, entries: Entries) -> Result<Entries, TextFault>
    ensures { Reads (spec.with_entry Entry.Observations item.now entries) result }
{
    unless_come(item.at(), &entries.observations)?;
    let agents = come(item.at(), &entries.agents)?.size();
    let observations = name_lists(alloc, agents, item)?;
    Ok(Entries {
        observations: Some(observations),
        ..entries
    })
}
