//! The chances of a text, and the repair of their rows.
ghost use Rattle.std.specs.Prelude.{◌≡◌, ◌≤◌, ◌^◌, IfOk};
ghost use Rattle.dp_meaning.specs.Rows.{repair_all};
ghost use Rattle.dp_tables.specs.Repair.{Repairs};
ghost use Rattle.dp_tables.specs.Tables.{given_chances, rows_of};

use crate::BoundedText;
use crate::chance_table::table_chances;
use crate::rows::repair_table;
use crate::start::{repair_start, start_chances};
use dp_base::Memory;
use dp_meaning::{Fault, Table};
use std::alloc::Global;

/// Whose chances.
#[derive(Clone, Copy)]
pub enum ChancesOf {
    /// The row of the start, over the states.
    Start,
    /// The transitions: by joint action and state a row over the next states.
    Transitions,
    /// The observations: by joint action and next state a row over the joint observations.
    Observations,
}

/// The chances as the statements of the text give them, over their scale, row by row.
pub fn given_chances(alloc: Global, text: &BoundedText, of: ChancesOf) -> Result<Vec<u64>, Memory>
    ensures { IfOk result (λ cells. cells.items ≡ given_chances text.now.text of) }
{
    match of {
        ChancesOf::Start => start_chances(alloc, text),
        ChancesOf::Transitions => table_chances(alloc, text, Table::Trans),
        ChancesOf::Observations => table_chances(alloc, text, Table::Obs),
    }
}

/// Repairs the rows of these chances in place, and answers how many did not sum to their scale; or
/// else the fault of the first row that cannot be repaired, with which the cells are of no use. It
/// takes no memory.
#[tactic(auto, unfolding(dp_meaning::specs::Rows::trans_rows, dp_meaning::specs::Rows::obs_rows))]
pub fn repair_chances(cells: &mut [u64], text: &BoundedText, of: ChancesOf) -> Result<u32, Fault>
    requires { cells.old ≡ given_chances text.now.text of }
    ensures few { IfOk result (λ repaired. repaired ≤ 2 ^ 16) }
    ensures is { Repairs (repair_all text.now.end (rows_of text.now.text of)) cells.new result }
{
    match of {
        ChancesOf::Start => repair_start(cells, text),
        ChancesOf::Transitions => repair_table(cells, text, Table::Trans),
        ChancesOf::Observations => repair_table(cells, text, Table::Obs),
    }
}
