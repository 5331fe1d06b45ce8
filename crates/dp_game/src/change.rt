// The bound of a game from its parts, and what becomes of them where a choice changes.
ghost use Rattle.std.specs.Prelude.{◌≡◌, ◌<◌, ◌≤◌, ◌+◌, ◌-◌, ◌*◌, ◌/◌, ◌%◌, ◌^◌, ℕ, suc, ℤ, pos, ◌+ℤ◌, ◌-ℤ◌, []};
ghost use Rattle.std.specs.Prelude.{set, length, get_or, drop, take, unsigned_abs};
ghost use Rattle.dp_base.specs.Sums.{int_sum};
ghost use Rattle.dp_spec.specs.JointNumbers.{product};
ghost use Rattle.dp_spec.specs.Merge.{placed_number, without};
ghost use Rattle.dp_game.specs.Extended.{AreNumbersOf, choice_counts, choice_number, game_kept, greatest_table};
ghost use Rattle.dp_game.specs.Extended.{whole_table};
ghost use Rattle.dp_game.specs.Games.{best_entry, own_counts, with_own_choice};
ghost use Rattle.dp_game.specs.Kept.{IsOfSomeFront};

use crate::actions::{JointActions, entry_at};
use crate::choices::AgentChoices;
use crate::numbers::number_of;
use crate::places::width_from;

// The choices that are kept for a joint class, of so many agents.
#[inline]
pub(crate) fn choices_kept(wanted: &[Option<u8>], joint: usize, agents: usize) -> &[Option<u8>]
    requires few { joint < 2 ^ 24 }
    requires agents { agents ≤ 6 }
    requires room { joint * agents + agents ≤ length wanted.now }
    ensures { result.now ≡ take agents (drop (joint * agents) wanted.now) }
{
    &wanted[joint * agents..joint * agents + agents]
}

// A number, and the greatest entries with it.
pub(crate) fn bound_with(earned: i128, greatest: &[i128]) -> i128
    requires { (k : ℕ) → k ≤ length greatest.now → unsigned_abs
        (earned +ℤ int_sum k (λ C. get_or greatest.now C (pos 0))) < 2 ^ 127 }
    ensures { result ≡ earned +ℤ int_sum (length greatest.now) (λ C. get_or greatest.now C (pos 0)) }
{
    let mut bound = earned;
    for joint in 0..greatest.len() {
        bound += entry_at(greatest, joint);
    }
    bound
}

// A number, and the greatest entries of all joint classes with it, each with its extended joint action.
pub(crate) fn bound_of(earned: i128, best: &[i128], numbers: &[u16]) -> i128
    requires places { (C : ℕ) → C < length numbers.now →
        get_or numbers.now C 0 * length numbers.now + C < length best.now }
    requires fits { (k : ℕ) → k ≤ length numbers.now → unsigned_abs (earned +ℤ int_sum k
        (λ C. get_or best.now (get_or numbers.now C 0 * length numbers.now + C) (pos 0))) < 2 ^ 127 }
    ensures { result ≡ earned +ℤ int_sum (length numbers.now)
        (λ C. get_or best.now (get_or numbers.now C 0 * length numbers.now + C) (pos 0)) }
{
    let joints = numbers.len();
    let mut bound = earned;
    for joint in 0..joints {
        bound += entry_at(best, numbers[joint] as usize * joints + joint);
    }
    bound
}

// How the extended joint action of a joint class changes where a choice for one of its classes does.
#[derive(Clone, Copy)]
pub(crate) struct Step {
    up: usize,
    down: usize,
}

// That for an agent's choice that becomes another one.
fn step_of(actions: &JointActions, agent: usize, old: Option<u8>, new: Option<u8>) -> Step
    requires agent { agent < length actions.now }
    ensures up { result.up ≡ choice_number new * product (drop (suc agent) (choice_counts actions.now)) }
    ensures down { result.down ≡ choice_number old * product (drop (suc agent) (choice_counts actions.now)) }
{
    actions.invariant();
    let width = actions.extended_from(agent + 1);
    Step {
        up: number_of(new) * width,
        down: number_of(old) * width,
    }
}

// By what a sum of greatest entries changes: what is taken from it, and what is added.
#[derive(Clone, Copy)]
pub(crate) struct Change {
    pub gone: i128,
    pub come: i128,
}

// Makes a choice for a class in the extended joint action of each joint class that holds it.
pub(crate) fn change_class(
    actions: &JointActions,
    choices: &[AgentChoices],
    best: &[i128],
    agent: usize,
    class: usize,
    choice: Option<u8>,
    numbers: &mut [u16],
) -> Change
    requires of_front { (e : ℤ) × IsOfSomeFront (game_kept actions.now choices.now best.now e) }
    requires after { (e : ℤ) × IsOfSomeFront (with_own_choice (game_kept actions.now choices.now best.now e) agent
        class choice) }
    requires agent { agent < length choices.now }
    requires class { class < length (get_or choices.now agent []) }
    requires best { best.now ≡ greatest_table actions.now (whole_table actions.now
        (product (own_counts choices.now)) best.now) (product (own_counts choices.now)) }
    requires before { AreNumbersOf actions.now choices.now numbers.old }
    ensures after { AreNumbersOf actions.now (with_own_choice (game_kept actions.now choices.now best.now (pos 0))
        agent class choice).choices numbers.new }
    ensures gone { result.gone ≡ int_sum (product (without agent (own_counts choices.now))) (λ x.
        best_entry (game_kept actions.now choices.now best.now (pos 0))
        (placed_number agent (own_counts choices.now) class x)) }
    ensures come { result.come ≡ int_sum (product (without agent (own_counts choices.now))) (λ x.
        best_entry (with_own_choice (game_kept actions.now choices.now best.now (pos 0)) agent class choice)
        (placed_number agent (own_counts choices.now) class x)) }
{
    let count = choices[agent].count();
    let width = width_from(choices, agent + 1);
    let step = step_of(actions, agent, choices[agent].at(class), choice);
    let mut change = Change { gone: 0, come: 0 };
    for other in 0..numbers.len() / count {
        let joint = place_of(other, count, class, width);
        change = added(change, change_place(best, joint, step, numbers));
    }
    change
}

// The joint class in place `other` of those that hold a class: they stand in rows of `width`, one in each block
// of `count` rows. The first agent and the last one need no division.
#[inline]
fn place_of(other: usize, count: usize, class: usize, width: usize) -> usize
    requires some { 0 < width }
    requires room { (other / width * count + class) * width + other % width < 2 ^ 24 }
    ensures { result ≡ (other / width * count + class) * width + other % width }
{
    if other < width {
        class * width + other
    } else if width == 1 {
        other * count + class
    } else {
        (other / width * count + class) * width + other % width
    }
}

// The same in the extended joint action of one joint class.
#[inline]
fn change_place(best: &[i128], joint: usize, step: Step, numbers: &mut [u16]) -> Change
    requires joint { joint < length numbers.old }
    requires few { length numbers.old ≤ 2 ^ 24 }
    requires down { step.down ≤ get_or numbers.old joint 0 }
    requires up { get_or numbers.old joint 0 - step.down + step.up < 2 ^ 16 }
    requires gone { get_or numbers.old joint 0 * length numbers.old + joint < length best.now }
    requires come { (get_or numbers.old joint 0 - step.down + step.up) * length numbers.old + joint
        < length best.now }
    ensures numbers { numbers.new ≡ set numbers.old joint (get_or numbers.old joint 0 - step.down + step.up) }
    ensures gone { result.gone ≡ get_or best.now (get_or numbers.old joint 0 * length numbers.old + joint) (pos 0) }
    ensures come { result.come ≡ get_or best.now ((get_or numbers.old joint 0 - step.down + step.up)
        * length numbers.old + joint) (pos 0) }
{
    let joints = numbers.len();
    let old = numbers[joint] as usize;
    let new = old - step.down + step.up;
    numbers[joint] = new as u16;
    Change {
        gone: entry_at(best, old * joints + joint),
        come: entry_at(best, new * joints + joint),
    }
}

// Two changes, one after the other.
#[inline]
fn added(first: Change, second: Change) -> Change
    requires gone { unsigned_abs (first.gone +ℤ second.gone) < 2 ^ 127 }
    requires come { unsigned_abs (first.come +ℤ second.come) < 2 ^ 127 }
    ensures gone { result.gone ≡ first.gone +ℤ second.gone }
    ensures come { result.come ≡ first.come +ℤ second.come }
{
    Change {
        gone: first.gone + second.gone,
        come: first.come + second.come,
    }
}

// A sum after a change.
#[inline]
pub(crate) fn moved(sum: i128, gone: i128, come: i128) -> i128
    requires less { unsigned_abs (sum -ℤ gone) < 2 ^ 127 }
    requires after { unsigned_abs ((sum -ℤ gone) +ℤ come) < 2 ^ 127 }
    ensures { result ≡ (sum -ℤ gone) +ℤ come }
{
    sum - gone + come
}
