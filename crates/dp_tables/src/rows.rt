//! The rows of a table of chances, and what is wrong with them.
ghost use Rattle.std.specs.Prelude.{◌≡◌, ◌*◌, ◌<◌, ◌≤◌, ◌∷◌, [], IfOk, ◌^◌};
ghost use Rattle.dp_spec.specs.JointNumbers.{parts_of};
ghost use Rattle.dp_meaning.specs.Cells.{statements_for};
ghost use Rattle.dp_meaning.specs.Rows.{last_of_row, repair_all, row_cells, statement_at, table_rows};
ghost use Rattle.dp_meaning.specs.Statements.{axes_of};
ghost use Rattle.dp_meaning.specs.Text.{joint_actions_in, states_in};
ghost use Rattle.dp_tables.specs.Repair.{Repairs, fault_of_row};
ghost use Rattle.dp_tables.specs.Tables.{given_cells, row_length, scale_in};

use crate::BoundedText;
use crate::covering::{RowNumber, last_of_row};
use crate::repair::repair_rows;
use dp_meaning::{Fault, Table, Why};

/// What is wrong with a row of this number that cannot be repaired: its sum, at the last statement
/// that covers a cell of it, or else that it is missing, at the end of the text.
fn fault_of_row(text: &BoundedText, table: Table, row: u32, len: u32) -> Fault
    requires { row < joint_actions_in text.now.text * states_in text.now.text }
    ensures { let sizes = joint_actions_in text.now.text ∷ states_in text.now.text ∷ [] in
        let statements = statements_for table text.now.text.statements in
        let cells = row_cells (parts_of sizes row) len in
        let last = last_of_row (axes_of text.now.text.header table) statements cells in
        result ≡ fault_of_row text.now.end (statement_at last) }
{
    let states = text.states();
    let number = RowNumber {
        action: row / states,
        state: row % states,
    };
    match last_of_row(text, table, number, len) {
        Some(at) => Fault {
            at,
            why: Why::RowSum,
        },
        None => Fault {
            at: text.end(),
            why: Why::MissingRow,
        },
    }
}

/// Repairs the rows of a table in place, and answers how many were not right before; or else the
/// fault of the first row that cannot be repaired.
pub(crate) fn repair_table(
    cells: &mut [u64],
    text: &BoundedText,
    table: Table,
) -> Result<u32, Fault>
    requires { let scale = scale_in text.now.text table in
        cells.old ≡ given_cells text.now.text table scale (row_length text.now.text table) }
    ensures few { IfOk result (λ repaired. repaired ≤ 2 ^ 16) }
    ensures is { let scale = scale_in text.now.text table in
        let rows = table_rows text.now.text table scale (row_length text.now.text table) in
        Repairs (repair_all text.now.end rows) cells.new result }
{
    let len = text.row_len(table);
    let rows = text.joint_actions() * text.states();
    match repair_rows(cells, rows, len, text.scale(table)) {
        Ok(repaired) => Ok(repaired),
        Err(row) => Err(fault_of_row(text, table, row, len)),
    }
}
