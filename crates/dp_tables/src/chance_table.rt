//! The chances of a table, as the statements of a text give them.
ghost use Rattle.std.specs.Prelude.{◌≡◌, ◌*◌, ◌⊎◌, ◌<◌, ◌≤◌, false, length, drop, IfOk, OnOk};
ghost use Rattle.dp_spec.specs.JointNumbers.{product};
ghost use Rattle.dp_meaning.specs.Statements.{is_reward_table};
ghost use Rattle.dp_meaning.specs.Text.{states_in, joint_actions_in};
ghost use Rattle.dp_tables.specs.Blocks as blocks;
ghost use Rattle.dp_tables.specs.Blocks.{IsChanceValue};
ghost use Rattle.dp_tables.specs.Tables.{given_cells, row_length, scale_in};
ghost use Rattle.dp_tables.specs.Writing as spec;
ghost use Rattle.dp_tables.specs.Writing.{ArePartsWithin, AreWritten};

use crate::BoundedText;
use crate::blocks::chance_block;
use crate::lists::{list_parts, list_sizes};
use crate::writing::write_block;
use dp_base::Memory;
use dp_meaning::{Statement, Table};
use std::alloc::Global;

/// The chances of a table over its scale, as the statements of the text give them: by joint action,
/// by state, and by next state or joint observation.
pub(crate) fn table_chances(
    alloc: Global,
    text: &BoundedText,
    table: Table,
) -> Result<Vec<u64>, Memory>
    requires { is_reward_table table ≡ false }
    ensures { let scale = scale_in text.now.text table in
        let len = row_length text.now.text table in
        IfOk result (λ cells. cells.items ≡ given_cells text.now.text table scale len) }
{
    text.invariant();
    let len = text.row_len(table);
    let scale = text.scale(table);
    let sizes = list_sizes(alloc, text.header(), table)?;
    let mut cells = vec![in alloc; 0; cells_in(text, len)]?;
    for statement in text.statements() {
        if table.is_same(statement.table) {
            write_chances(alloc, &mut cells, &sizes, scale, len, statement)?;
        }
    }
    Ok(cells)
}

/// Writes what a statement gives to the chances that it covers.
fn write_chances(
    alloc: Global,
    cells: &mut [u64],
    sizes: &[u32],
    scale: u64,
    len: u32,
    statement: &Statement,
) -> Result<(), Memory>
    requires some_len { 0 < len }
    requires len_limit { len ≤ 256 }
    requires chances { IsChanceValue statement.now.value }
    requires cells { length cells.old ≡ product sizes.now }
    requires some { 0 < product sizes.now }
    requires parts { ArePartsWithin sizes.now (spec.list_parts statement.now.fields) }
    requires block { let block = blocks.chance_block scale len statement.now.value in
        (length block ≡ 1)
        ⊎ (length block ≡ product (drop (length (spec.list_parts statement.now.fields)) sizes.now)) }
    ensures { let block = blocks.chance_block scale len statement.now.value in
        OnOk result (AreWritten sizes.now (spec.list_parts statement.now.fields) block cells.old cells.new) }
{
    let block = chance_block(alloc, scale, len, &statement.value)?;
    let parts = list_parts(alloc, statement.fields.as_slice())?;
    write_block(cells, sizes, &parts, &block);
    Ok(())
}

/// How many cells a table of chances has, whose rows have so many.
fn cells_in(text: &BoundedText, len: u32) -> usize
    requires { len ≤ 256 }
    ensures { result ≡ joint_actions_in text.now.text * states_in text.now.text * len }
{
    text.joint_actions() as usize * text.states() as usize * len as usize
}
