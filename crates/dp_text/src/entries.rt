//! The values of the header's entries.
ghost use Rattle.std.specs.Prelude.{◌≡◌};
ghost use Rattle.dp_meaning.specs.Entries as spec;
ghost use Rattle.dp_meaning.specs.Numbers.{ended};
ghost use Rattle.dp_text.specs.EntrySteps as steps;
ghost use Rattle.dp_text.specs.Reading.{Reads};

use crate::fault::{TextFault, fault};
use crate::name_lists::find_in;
use crate::numbers::{Range, ended, number, numbers};
use crate::words::{is_index, is_name, says};
use dp_base::Decimal;
use dp_items::{Piece, Pieces};
use dp_meaning::{Fault, GivenList, Start, Why};
use std::alloc::Global;

/// The discount: one Number from 0 to 1. A missing token belongs at `next`.
pub(crate) fn discount_of(next: u32, pieces: &Pieces) -> Result<Decimal, Fault>
    ensures { result ≡ spec.discount_of next pieces.now }
{
    match pieces.split_first() {
        None => Err(fault(Why::Expected, next)),
        Some((piece, behind)) => lone_chance(&piece, &behind),
    }
}

fn lone_chance(piece: &Piece, behind: &Pieces) -> Result<Decimal, Fault>
    ensures { result ≡ steps.lone_chance piece.now behind.now }
{
    let chance = number(Range::Chance, piece)?;
    ended(behind)?;
    Ok(chance)
}

/// Whether the numbers of the rewards are costs: `cost` or `reward`. A missing token belongs at
/// `next`.
pub(crate) fn is_cost(next: u32, pieces: &Pieces) -> Result<bool, Fault>
    ensures { result ≡ spec.is_cost next pieces.now }
{
    let (piece, behind) = match pieces.split_first() {
        Some(parts) => parts,
        None => return Err(fault(Why::Expected, next)),
    };
    let cost = says(b"cost", &piece);
    if !cost && !says(b"reward", &piece) {
        return Err(fault(Why::Expected, piece.at()));
    }
    ended(&behind)?;
    Ok(cost)
}

/// How a run starts: `uniform`, one state, or a chance for each state. A missing token belongs at
/// `next`.
#[tactic(auto, unfolding(dp_meaning::specs::Entries::start_of))]
pub(crate) fn start_of(
    alloc: Global,
    states: &GivenList,
    next: u32,
    pieces: &Pieces,
) -> Result<Start, TextFault>
    ensures { Reads (spec.start_of states.now next pieces.now) result }
{
    let (piece, behind) = match pieces.split_first() {
        Some(parts) => parts,
        None => return Err(TextFault::At(fault(Why::Expected, next))),
    };
    if says(b"uniform", &piece) {
        Ok(any_state(&behind)?)
    } else if is_one_state(states.size(), &piece, &behind) {
        Ok(lone_state(states, &piece, &behind)?)
    } else {
        state_row(alloc, next, states.size(), piece.at(), pieces)
    }
}

/// Whether one index is a state: where there is one state, only `0` is it, and any other Number is
/// its chance.
fn is_state_index(states: u32, piece: &Piece) -> bool
    ensures { result ≡ spec.is_state_index states piece.now }
{
    is_index(piece) && (states != 1 || says(b"0", piece))
}

fn is_one_state(states: u32, piece: &Piece, behind: &Pieces) -> bool
    ensures { result ≡ spec.is_one_state states piece.now behind.now }
{
    is_name(piece) || (behind.len() == 0 && is_state_index(states, piece))
}

fn any_state(behind: &Pieces) -> Result<Start, Fault>
    ensures { result ≡ ended Start.AnyState behind.now }
{
    ended(behind)?;
    Ok(Start::AnyState)
}

fn lone_state(states: &GivenList, piece: &Piece, behind: &Pieces) -> Result<Start, Fault>
    ensures { result ≡ steps.lone_state states.now piece.now behind.now }
{
    let state = find_in(states, piece)?;
    ended(behind)?;
    Ok(Start::OneState(state))
}

/// A chance for each of so many states, of which the first stands at `at`.
fn state_row(
    alloc: Global,
    next: u32,
    states: u32,
    at: u32,
    pieces: &Pieces,
) -> Result<Start, TextFault>
    ensures { Reads (steps.state_row next states at pieces.now) result }
{
    let row = numbers(alloc, Range::Chance, next, u64::from(states), pieces)?;
    Ok(Start::StartRow(at, row))
}
