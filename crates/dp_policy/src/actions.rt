//! Policy trees by their actions, stage by stage.
ghost use Rattle.std.specs.Prelude.{◌≡◌, ℕ, ◌+◌, ◌-◌, ◌^◌, ◌<◌, ◌≤◌, ◌++◌, [], List, length, get_or, map, IfOk, OnOk};
ghost use Rattle.dp_spec.specs.FullPolicy.{tree_doing_after};
ghost use Rattle.dp_spec.specs.Mode.{IsWithinLimits};
ghost use Rattle.dp_policy.specs.ActionRows.{AreActionRows, AreAgentsRows, action_in, actions_below, trees_of_rows};
ghost use Rattle.dp_policy.specs.Reading.{agents_of, rows_of};
ghost use Rattle.dp_policy.specs.TreeValue.{policy_tree};

use crate::PTree;
use crate::policy_text::PolicyRows;
use dp_base::Memory;
use dp_model::Model;
use std::alloc::Global;

// The joint policy that does the actions of these rows.
pub(crate) fn joint_trees(
    alloc: Global,
    rows: &PolicyRows,
    model: &Model,
) -> Result<Vec<PTree>, Memory>
    requires within { IsWithinLimits model.now.model rows.now.horizon }
    requires rows { AreAgentsRows rows.now.horizon model.now.model.actions model.now.model.observations
        (agents_of rows.now.agents) }
    ensures { IfOk result (λ trees. map policy_tree trees.items
        ≡ trees_of_rows rows.now.horizon model.now.model.observations (agents_of rows.now.agents)) }
{
    model.invariant();
    let mut trees = Vec::new(alloc);
    for agent in 0..model.agents() {
        let stages: &[Vec<u32>] = &rows.agents[agent as usize];
        trees.push(tree_after(alloc, stages, model.observations(agent), 0, 0)?)?;
    }
    Ok(trees)
}

// What remains of the tree of these rows after the own history of this number at a stage.
fn tree_after(
    alloc: Global,
    rows: &[Vec<u32>],
    observations: u32,
    stage: u32,
    history: u32,
) -> Result<PTree, Memory>
    requires stage { stage < length rows.now }
    requires history { history < observations ^ stage }
    requires histories { (t : ℕ) → t < length rows.now →
        length (get_or (map (λ row. row.items) rows.now) t []) ≡ observations ^ t }
    requires few { (t : ℕ) → t < length rows.now → observations ^ t ≤ 2048 }
    requires steps { length rows.now ≤ 16 }
    ensures { IfOk result (λ tree. policy_tree tree ≡ tree_doing_after observations
        (action_in (map (λ row. row.items) rows.now)) (length rows.now - stage) stage history) }
{
    let mut kids = Vec::new(alloc);
    if ((stage + 1) as usize) < rows.len() {
        for seen in 0..observations {
            let kid = tree_after(
                alloc,
                rows,
                observations,
                stage + 1,
                history * observations + seen,
            )?;
            kids.push(kid)?;
        }
    }
    Ok(PTree {
        action: rows[stage as usize][history as usize],
        kids,
    })
}

// Appends the actions of a tree so many steps below its root, from the first to the last.
pub(crate) fn push_actions(row: &mut Vec<u32>, tree: &PTree, steps: u32) -> Result<(), Memory>
    ensures { OnOk result (row.new.items ≡ row.old.items ++ actions_below steps (policy_tree tree.now)) }
{
    if steps == 0 {
        row.push(tree.action)?;
        return Ok(());
    }
    for kid in &tree.kids {
        push_actions(row, kid, steps - 1)?;
    }
    Ok(())
}
