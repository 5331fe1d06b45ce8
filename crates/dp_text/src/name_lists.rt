//! Lists of agents, states, actions and observations, as they are given and as they are looked up.
ghost use Rattle.std.specs.Prelude.{◌≡◌, [], ◌∷◌, ◌+◌, ◌<◌, ◌^◌, drop, length, true};
ghost use Rattle.dp_base.specs.DecimalShape.{is_index};
ghost use Rattle.dp_meaning.specs.Entries.{agent_lines};
ghost use Rattle.dp_meaning.specs.NameLists as spec;
ghost use Rattle.dp_text.specs.NameListSteps.{counted, with_new_name};
ghost use Rattle.dp_text.specs.Reading.{Reads};

use crate::fault::{TextFault, fault};
use crate::numbers::ended;
use crate::words::{index, is_index, is_name, text_of};
use dp_items::{Item, Piece, Pieces};
use dp_meaning::{Fault, GivenList, Why};
use dp_model::{NameList, Sequence};
use std::alloc::Global;

// The most things that a list has that is given as a count.
const MOST: u32 = 65536;

/// A list as it is given: one count, or one or more names. A missing token belongs at `next`.
#[tactic(auto, unfolding(dp_meaning::specs::NameLists::name_list))]
pub(crate) fn name_list(alloc: Global, next: u32, pieces: &Pieces) -> Result<GivenList, TextFault>
    ensures { Reads (spec.name_list next pieces.now) result }
{
    match pieces.split_first() {
        None => Err(TextFault::At(fault(Why::Expected, next))),
        Some((first, behind)) if is_index(&first) => Ok(counted(&first, &behind)?),
        Some(_) => Ok(GivenList::Named(names(alloc, pieces)?)),
    }
}

/// A list that is given as a count, behind which nothing may stand.
fn counted(first: &Piece, behind: &Pieces) -> Result<GivenList, Fault>
    requires { is_index first.now.text ≡ true }
    ensures { result ≡ counted first.now behind.now }
{
    let size = count(first)?;
    ended(behind)?;
    Ok(GivenList::Counted(size))
}

fn count(piece: &Piece) -> Result<u32, Fault>
    requires { is_index piece.now.text ≡ true }
    ensures { result ≡ spec.count piece.now }
{
    match index(piece) {
        Some(size) if 1 <= size && size <= MOST => Ok(size),
        _ => Err(fault(Why::Number, piece.at())),
    }
}

/// Names, of which none stands twice.
fn names(alloc: Global, pieces: &Pieces) -> Result<NameList, TextFault>
    ensures { Reads (spec.names_after [] pieces.now) result }
{
    let mut names = NameList::new(alloc);
    for place in 0..pieces.len() {
        let piece = piece_at(pieces, place);
        names = with_name(alloc, names, &piece)?;
    }
    Ok(names)
}

fn piece_at<'a>(pieces: &Pieces<'a>, place: usize) -> Piece<'a>
    requires { place < length pieces.now }
    ensures { drop place pieces.now ≡ result ∷ drop (place + 1) pieces.now }
{
    match pieces.get(place) {
        Some(piece) => piece,
        None => unreachable!(),
    }
}

/// The names, and behind them one that is not among them.
#[tactic(auto, unfolding(crate::specs::NameListSteps::with_new_name))]
fn with_name(alloc: Global, names: NameList, piece: &Piece) -> Result<NameList, TextFault>
    requires room { length names < 2 ^ 26 }
    ensures { Reads (with_new_name names piece.now) result }
{
    if !is_name(piece) {
        return Err(TextFault::At(fault(Why::Expected, piece.at())));
    }
    let mut names = names;
    if names.add(alloc, text_of(piece))? {
        Ok(names)
    } else {
        Err(TextFault::At(fault(Why::DoubleName, piece.at())))
    }
}

/// A list for each agent, from the lines of an item. A missing token belongs at `next`.
pub(crate) fn name_lists(
    alloc: Global,
    agents: u32,
    item: &Item,
) -> Result<Sequence<GivenList>, TextFault>
    ensures { Reads (spec.name_lists item.now.next agents (agent_lines item.now)) result }
{
    let mut lists = Vec::new(alloc);
    for agent in 0..agents as usize {
        let line = match item.agent_line(agent) {
            Some(line) => line,
            None => return Err(TextFault::At(fault(Why::Expected, item.next()))),
        };
        let list = name_list(alloc, item.next(), &line)?;
        lists.push(list)?;
    }
    if let Some(line) = item.agent_line(agents as usize) {
        ended(&line)?;
    }
    Ok(Sequence::of(lists))
}

/// The number of the thing of a list that a token names, by an index or by a name.
#[tactic(auto, unfolding(dp_meaning::specs::NameLists::find_in))]
pub(crate) fn find_in(list: &GivenList, piece: &Piece) -> Result<u32, Fault>
    ensures { result ≡ spec.find_in list.now piece.now }
{
    if !(is_index(piece) || is_name(piece)) {
        return Err(fault(Why::Expected, piece.at()));
    }
    match place_in(list, piece) {
        Some(place) => Ok(place),
        None => Err(fault(Why::UnknownName, piece.at())),
    }
}

fn place_in(list: &GivenList, piece: &Piece) -> Option<u32>
    ensures { result ≡ spec.place_in list.now piece.now }
{
    if is_index(piece) {
        return index_below(list.size(), piece);
    }
    match list {
        GivenList::Counted(_) => None,
        GivenList::Named(names) => names.find(text_of(piece)),
    }
}

/// The number that an index writes, where it is below the size of its list.
fn index_below(size: u32, piece: &Piece) -> Option<u32>
    requires { is_index piece.now.text ≡ true }
    ensures { result ≡ spec.if_below size (spec.index piece.now) }
{
    match index(piece) {
        Some(place) if place < size => Some(place),
        _ => None,
    }
}
