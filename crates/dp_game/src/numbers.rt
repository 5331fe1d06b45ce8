// The extended joint actions of the joint classes.
ghost use Rattle.std.specs.Prelude.{◌≡◌, ◌<◌, ◌≤◌, ◌+◌, ◌*◌, ◌^◌, ◌++◌, ℕ, [], Some, None, map, length, get_or, IfOk};
ghost use Rattle.std.specs.List.{range_with_len};
ghost use Rattle.dp_spec.specs.JointNumbers.{product};
ghost use Rattle.dp_game.specs.Extended.{AreNumbersOf, choice_number};
ghost use Rattle.dp_game.specs.Kept.{rows_of};

use crate::actions::JointActions;
use crate::choices::AgentChoices;
use dp_base::Memory;
use std::alloc::Global;

// Joint class by joint class, the extended joint action of the choices for its classes.
pub(crate) fn class_numbers(
    alloc: Global,
    actions: &JointActions,
    choices: &[AgentChoices],
) -> Result<Vec<u16>, Memory>
    requires agents { length actions.now ≡ length choices.now }
    requires below { (i c a : ℕ) → i < length choices.now → get_or (get_or choices.now i []) c None ≡ Some a →
        a < get_or actions.now i 0 }
    ensures { IfOk result (λ v. AreNumbersOf actions.now choices.now v.items) }
{
    actions.invariant();
    let mut numbers = Vec::new(alloc);
    numbers.push(0)?;
    for step in 0..choices.len() {
        let agent = choices.len() - 1 - step;
        let width = actions.extended_from(agent + 1);
        numbers = numbers_with(alloc, &choices[agent], width, &numbers)?;
    }
    Ok(numbers)
}

// The same with one agent more before the others, of which there are `width` extended joint actions.
fn numbers_with(
    alloc: Global,
    own: &AgentChoices,
    width: usize,
    later: &[u16],
) -> Result<Vec<u16>, Memory>
    requires width { width ≤ 2 ^ 14 }
    requires small { (c C : ℕ) → c < length own.now → C < length later.now →
        choice_number (get_or own.now c None) * width + get_or later.now C 0 < 2 ^ 16 }
    ensures { IfOk result (λ v. v.items ≡ rows_of (λ c. map (λ C. choice_number (get_or own.now c None) * width
        + get_or later.now C 0) (range_with_len 0 (length later.now))) (length own.now)) }
{
    let mut numbers = Vec::with_capacity(alloc, own.count().saturating_mul(later.len()))?;
    for class in 0..own.count() {
        push_from(number_of(own.at(class)) * width, later, &mut numbers)?;
    }
    Ok(numbers)
}

// Adds numbers, each with `first` added.
fn push_from(first: usize, later: &[u16], numbers: &mut Vec<u16>) -> Result<(), Memory>
    requires { (C : ℕ) → C < length later.now → first + get_or later.now C 0 < 2 ^ 16 }
    ensures { IfOk result (λ _. numbers.new.items ≡ numbers.old.items
        ++ map (λ C. first + get_or later.now C 0) (range_with_len 0 (length later.now))) }
{
    for joint in 0..later.len() {
        numbers.push((first + later[joint] as usize) as u16)?;
    }
    Ok(())
}

// The number of a choice: 0 for none.
#[inline]
pub(crate) fn number_of(choice: Option<u8>) -> usize
    ensures is { result ≡ choice_number choice }
    ensures limit { result < 2 ^ 9 }
{
    match choice {
        None => 0,
        Some(action) => action as usize + 1,
    }
}
