// Joint classes: their number, and the choices for the classes in one.
ghost use Rattle.std.specs.Prelude.{◌≡◌, ◌<◌, ◌≤◌, ◌^◌, ◌++◌, length, drop, IfOk};
ghost use Rattle.dp_spec.specs.JointNumbers.{product};
ghost use Rattle.dp_game.specs.Games.{choices_in, own_counts};
ghost use Rattle.dp_game.specs.Kept.{rows_of};

use crate::choices::AgentChoices;
use dp_base::Memory;
use std::alloc::Global;

// How many joint classes there are.
pub(crate) fn joint_count(choices: &[AgentChoices]) -> usize
    requires some { 0 < product (own_counts choices.now) }
    requires few { product (own_counts choices.now) ≤ 2 ^ 24 }
    ensures { result ≡ product (own_counts choices.now) }
{
    width_from(choices, 0)
}

// How many joint classes the agents from `first` on have.
pub(crate) fn width_from(choices: &[AgentChoices], first: usize) -> usize
    requires first { first ≤ length choices.now }
    requires some { 0 < product (own_counts choices.now) }
    requires few { product (own_counts choices.now) ≤ 2 ^ 24 }
    ensures { result ≡ product (drop first (own_counts choices.now)) }
{
    let mut width = 1;
    for agent in first..choices.len() {
        width *= choices[agent].count();
    }
    width
}

// Joint class by joint class, the choice of each agent's class.
pub(crate) fn wanted_choices(
    alloc: Global,
    choices: &[AgentChoices],
    count: usize,
) -> Result<Vec<Option<u8>>, Memory>
    requires count { count ≡ product (own_counts choices.now) }
    requires few { count ≤ 2 ^ 24 }
    ensures { IfOk result (λ v. v.items ≡ rows_of (choices_in choices.now) count) }
{
    let mut wanted = Vec::new(alloc);
    for joint in 0..count {
        push_wanted(choices, count, joint, &mut wanted)?;
    }
    Ok(wanted)
}

// Those of one joint class.
fn push_wanted(
    choices: &[AgentChoices],
    count: usize,
    joint: usize,
    wanted: &mut Vec<Option<u8>>,
) -> Result<(), Memory>
    requires count { count ≡ product (own_counts choices.now) }
    requires few { count ≤ 2 ^ 24 }
    requires joint { joint < count }
    ensures { IfOk result (λ _. wanted.new.items ≡ wanted.old.items ++ choices_in choices.now joint) }
{
    let mut left = count;
    let mut rest = joint;
    for own in choices {
        left = left / own.count();
        wanted.push(own.at(rest / left))?;
        rest = rest % left;
    }
    Ok(())
}
