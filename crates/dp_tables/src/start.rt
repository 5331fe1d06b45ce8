//! The row of the start.
ghost use Rattle.std.specs.Prelude.{◌≡◌, ◌<◌, ◌≤◌, ◌∷◌, [], IfOk};
ghost use Rattle.dp_meaning.specs.Rows as spec;
ghost use Rattle.dp_meaning.specs.Rows.{repair_all, start_row};
ghost use Rattle.dp_tables.specs.Repair.{Repairs};
ghost use Rattle.dp_tables.specs.Start.{IsChanceStart};

use crate::BoundedText;
use crate::blocks::chance_over;
use crate::repair::repair_rows;
use dp_base::Memory;
use dp_meaning::{Fault, Start, Why};
use std::alloc::Global;

/// The chances to start in each state, as the text gives them over their scale.
pub(crate) fn start_chances(alloc: Global, text: &BoundedText) -> Result<Vec<u64>, Memory>
    ensures { IfOk result (λ cells. cells.items ≡ (start_row text.now.text).cells) }
{
    text.invariant();
    let scale = text.scales().start;
    let states = text.states();
    let start = &text.header().start;
    let mut cells = Vec::new(alloc);
    for state in 0..states {
        cells.push(start_chance(scale, states, start, state))?;
    }
    Ok(cells)
}

/// The chance to start in a state.
fn start_chance(scale: u64, states: u32, start: &Start, state: u32) -> u64
    requires some { 0 < states }
    requires chances { IsChanceStart start.now }
    ensures { result ≡ spec.start_chance scale states start.now state }
{
    match start {
        Start::AnyState => scale / u64::from(states),
        Start::OneState(only) => { if state == *only { scale } else { 0 } }
        Start::StartRow(_, row) => match row.as_slice().get(state as usize) {
            Some(chance) => chance_over(scale, *chance),
            None => 0,
        },
    }
}

/// Where the value of `start` begins, which only a row of chances has to say.
fn offset_of_start(start: &Start) -> u32
    ensures { result ≡ spec.offset_of_start start.now }
{
    match start {
        Start::StartRow(at, _) => *at,
        _ => 0,
    }
}

/// Repairs the row of the start in place, and answers how often that was, 0 or 1; or else its
/// fault.
pub(crate) fn repair_start(cells: &mut [u64], text: &BoundedText) -> Result<u32, Fault>
    requires { cells.old ≡ (start_row text.now.text).cells }
    ensures few { IfOk result (λ repaired. repaired ≤ 1) }
    ensures is { Repairs (repair_all text.now.end (start_row text.now.text ∷ [])) cells.new result }
{
    match repair_rows(cells, 1, text.states(), text.scales().start) {
        Ok(repaired) => Ok(repaired),
        Err(_) => Err(Fault {
            at: offset_of_start(&text.header().start),
            why: Why::RowSum,
        }),
    }
}
