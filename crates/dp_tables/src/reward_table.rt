//! The rewards, as the statements of a text give them.
ghost use Rattle.std.specs.Prelude.{◌≡◌, ◌*◌, ◌^◌, ◌<◌, ◌≤◌, IfOk, OnOk, length, drop};
ghost use Rattle.dp_spec.specs.JointNumbers.{product};
ghost use Rattle.dp_meaning.specs.Meaning.{rewards_of};
ghost use Rattle.dp_meaning.specs.Text.{states_in, joint_actions_in, joint_observations_in};
ghost use Rattle.dp_tables.specs.Blocks as blocks;
ghost use Rattle.dp_tables.specs.Blocks.{IsRewardValue};
ghost use Rattle.dp_tables.specs.Writing as spec;
ghost use Rattle.dp_tables.specs.Writing.{ArePartsWithin, AreWritten};

use crate::BoundedText;
use crate::blocks::reward_block;
use crate::lists::{list_parts, list_sizes};
use crate::writing::write_block;
use dp_base::Memory;
use dp_meaning::{Statement, Table};
use std::alloc::Global;

/// The rewards over their scale, as the statements of the text give them: by joint action, state,
/// next state and joint observation. Costs are negated.
pub fn rewards(alloc: Global, text: &BoundedText) -> Result<Vec<i64>, Memory>
    ensures { IfOk result (λ cells. cells.items ≡ rewards_of text.now.text) }
{
    text.invariant();
    let scale = text.scale(Table::Reward);
    let header = text.header();
    let sizes = list_sizes(alloc, header, Table::Reward)?;
    let mut cells = vec![in alloc; 0; reward_cells(text)]?;
    for statement in text.statements() {
        if Table::Reward.is_same(statement.table) {
            write_rewards(alloc, &mut cells, &sizes, header.cost, scale, statement)?;
        }
    }
    Ok(cells)
}

/// Writes what a statement gives to the rewards that it covers.
fn write_rewards(
    alloc: Global,
    cells: &mut [i64],
    sizes: &[u32],
    cost: bool,
    scale: u64,
    statement: &Statement,
) -> Result<(), Memory>
    requires scale { scale ≤ 10 ^ 9 }
    requires rewards { IsRewardValue statement.now.value }
    requires cells { length cells.old ≡ product sizes.now }
    requires some { 0 < product sizes.now }
    requires parts { ArePartsWithin sizes.now (spec.list_parts statement.now.fields) }
    requires block { let block = blocks.reward_block cost scale statement.now.value in
        length block ≡ product (drop (length (spec.list_parts statement.now.fields)) sizes.now) }
    ensures { let block = blocks.reward_block cost scale statement.now.value in
        OnOk result (AreWritten sizes.now (spec.list_parts statement.now.fields) block cells.old cells.new) }
{
    let block = reward_block(alloc, cost, scale, &statement.value)?;
    let parts = list_parts(alloc, statement.fields.as_slice())?;
    write_block(cells, sizes, &parts, &block);
    Ok(())
}

/// How many rewards a model has.
fn reward_cells(text: &BoundedText) -> usize
    ensures { let states = states_in text.now.text in
        result ≡ joint_actions_in text.now.text * states * states * joint_observations_in text.now.text }
{
    let states = text.states() as usize;
    text.joint_actions() as usize * states * states * text.joint_observations() as usize
}
