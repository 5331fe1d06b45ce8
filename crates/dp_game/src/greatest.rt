// The greatest entries of the joint classes among the joint actions that agree with an extended joint action.
ghost use Rattle.std.specs.Prelude.{◌≡◌, ◌<◌, ◌≤◌, ◌+◌, ◌*◌, ◌^◌, ◌++◌, ℕ, pos, map, length, get_or, All, IfOk};
ghost use Rattle.std.specs.List.{range_with_len};
ghost use Rattle.dp_base.specs.Sums.{greatest};
ghost use Rattle.dp_spec.specs.JointNumbers.{product};
ghost use Rattle.dp_game.specs.Extended.{choice_counts, choices_at, greatest_at, greatest_table};
ghost use Rattle.dp_game.specs.Games.{allowed_actions};

use crate::actions::{JointActions, entry_at, greater};
use dp_base::Memory;
use std::alloc::Global;

// For each extended joint action the row of the joint classes' greatest entries, from a table that has a row of
// joint actions for each joint class.
pub(crate) fn greatest_table(
    alloc: Global,
    actions: &JointActions,
    table: &[i128],
    joints: usize,
) -> Result<Vec<i128>, Memory>
    requires few { joints ≤ 2 ^ 24 }
    requires table { length table.now ≡ joints * product actions.now }
    ensures { IfOk result (λ v. v.items ≡ greatest_table actions.now table.now joints) }
{
    let mut best = Vec::with_capacity(alloc, actions.extended_from(0) * joints)?;
    for extended in 0..actions.extended_from(0) {
        push_row(alloc, actions, table, joints, extended, &mut best)?;
    }
    Ok(best)
}

// Adds the row of an extended joint action.
fn push_row(
    alloc: Global,
    actions: &JointActions,
    table: &[i128],
    joints: usize,
    extended: usize,
    best: &mut Vec<i128>,
) -> Result<(), Memory>
    requires few { joints ≤ 2 ^ 24 }
    requires table { length table.now ≡ joints * product actions.now }
    requires extended { extended < product (choice_counts actions.now) }
    ensures { IfOk result (λ _. best.new.items ≡ best.old.items
        ++ map (greatest_at actions.now table.now extended) (range_with_len 0 joints)) }
{
    let allowed = actions.allowed(alloc, extended)?;
    for joint in 0..joints {
        best.push(greatest_of(table, joint * actions.count(), &allowed))?;
    }
    Ok(())
}

// The greatest of the entries from `first` on with these numbers; 0 where there are none.
#[inline]
fn greatest_of(table: &[i128], first: usize, numbers: &[usize]) -> i128
    requires { (j : ℕ) → j < length numbers.now → first + get_or numbers.now j 0 < length table.now }
    ensures { result ≡ greatest (λ a. get_or table.now (first + a) (pos 0)) numbers.now }
{
    let mut best = 0;
    for step in 0..numbers.len() {
        let at = numbers.len() - 1 - step;
        best = greater(true, 0 < step, best, entry_at(table, first + numbers[at]));
    }
    best
}
