// The joint actions of a model, with the part of each agent.
ghost use Rattle.std.specs.Prelude.{◌≡◌, ◌<◌, ◌≤◌, ◌^◌, ◌∷◌, ◌++◌, [], length, get_or, drop, pos, IfOk};
ghost use Rattle.std.specs.Prelude.{cond, ◌||◌};
ghost use Rattle.std.specs.Int.{int_max};
ghost use Rattle.dp_spec.specs.Bound.{agrees};
ghost use Rattle.dp_spec.specs.JointNumbers.{parts_of, product};
ghost use Rattle.dp_spec.specs.Model.{joint_actions};
ghost use Rattle.dp_game.specs.Extended.{choice_counts, choice_of, choices_at};
ghost use Rattle.dp_game.specs.Games.{allowed_actions, each_agrees};
ghost use Rattle.dp_game.specs.Kept.{rows_of};

use dp_base::Memory;
use dp_model::Model;
use std::alloc::Global;

// The joint actions. Contracts see how many actions each agent has.
#[derive(Drop)]
pub(crate) struct JointActions {
    sizes: Vec<u32>,
    count: u32,
    // Joint action by joint action, the part of each agent.
    parts: Vec<u8>,
}

impl std::marker::Model for JointActions {
    ghost use Rattle.std.specs.Prelude.{List, ℕ};
    ghost use Rattle.dp_game.specs.Kept.{AreActionParts};

    ghost Value = { List ℕ };

    ghost view = { λ j. j.sizes.items };

    ghost invariant = { λ j. AreActionParts j.sizes.items j.count j.parts.items };
}

impl JointActions {
    // Those of a model.
    pub(crate) fn of(alloc: Global, model: &Model) -> Result<JointActions, Memory>
        ensures { IfOk result (λ j. j ≡ model.now.model.actions) }
    {
        model.invariant();
        let mut sizes = Vec::new(alloc);
        for agent in 0..model.agents() {
            sizes.push(model.actions(agent))?;
        }
        Ok(JointActions {
            sizes,
            count: model.joint_actions(),
            parts: action_parts(alloc, model)?,
        })
    }

    // How many there are.
    #[inline]
    pub(crate) fn count(&self) -> usize
        ensures is { result ≡ product self.now }
        ensures limit { result ≤ 256 }
    {
        self.count as usize
    }

    // How many agents there are.
    #[inline]
    pub(crate) fn agents(&self) -> usize
        ensures is { result ≡ length self.now }
        ensures limit { result ≤ 6 }
    {
        self.sizes.len()
    }

    // Whether a joint action agrees with one choice or none for each agent.
    #[inline]
    pub(crate) fn agrees(&self, action: usize, wanted: &[Option<u8>]) -> bool
        requires action { action < product self.now }
        requires one_each { length wanted.now ≡ length self.now }
        ensures { result ≡ each_agrees wanted.now (parts_of self.now action) }
    {
        let agents = self.agents();
        let parts: &[u8] = &self.parts;
        let first = action * agents;
        for agent in 0..agents {
            if !is_allowed(wanted[agent], parts[first + agent]) {
                return false;
            }
        }
        true
    }

    // What holds of them. It does nothing.
    #[inline]
    pub(crate) fn invariant(&self)
        ensures agents { length self.now ≤ 6 }
        ensures some { 0 < product self.now }
        ensures few { product self.now ≤ 256 }
    {
        let _ = &self.sizes;
    }

    // How many actions an agent has.
    #[inline]
    pub(crate) fn size(&self, agent: usize) -> usize
        requires { agent < length self.now }
        ensures { result ≡ get_or self.now agent 0 }
    {
        self.sizes[agent] as usize
    }

    // How many extended joint actions the agents from `first` on have: each has one of its actions or none.
    pub(crate) fn extended_from(&self, first: usize) -> usize
        requires first { first ≤ length self.now }
        ensures is { result ≡ product (drop first (choice_counts self.now)) }
        ensures some { 0 < result }
        ensures limit { result ≤ 2 ^ 14 }
    {
        self.invariant();
        let mut count = 1;
        for agent in first..self.agents() {
            count *= self.size(agent) + 1;
        }
        count
    }

    // The joint actions that agree with an extended joint action, the greatest first.
    pub(crate) fn allowed(&self, alloc: Global, extended: usize) -> Result<Vec<usize>, Memory>
        requires { extended < product (choice_counts self.now) }
        ensures { IfOk result (λ v. v.items ≡ allowed_actions self.now (choices_at self.now extended)) }
    {
        let wanted = self.choices_at(alloc, extended)?;
        let mut allowed = Vec::new(alloc);
        for step in 0..self.count() {
            let action = self.count() - 1 - step;
            push_where(self.agrees(action, &wanted), action, &mut allowed)?;
        }
        Ok(allowed)
    }

    // The choice of each agent in an extended joint action.
    fn choices_at(&self, alloc: Global, extended: usize) -> Result<Vec<Option<u8>>, Memory>
        requires { extended < product (choice_counts self.now) }
        ensures { IfOk result (λ v. v.items ≡ choices_at self.now extended) }
    {
        let mut wanted = Vec::new(alloc);
        for agent in 0..self.agents() {
            wanted.push(choice_of(self.part(extended, agent)))?;
        }
        Ok(wanted)
    }

    // The number of an agent's choice in an extended joint action.
    fn part(&self, extended: usize, agent: usize) -> usize
        requires extended { extended < product (choice_counts self.now) }
        requires agent { agent < length self.now }
        ensures is { result ≡ get_or (parts_of (choice_counts self.now) extended) agent 0 }
        ensures limit { result ≤ 256 }
    {
        self.invariant();
        extended / self.extended_from(agent + 1) % (self.size(agent) + 1)
    }
}

// The choice with a number: none for 0.
#[inline]
fn choice_of(number: usize) -> Option<u8>
    requires { number ≤ 256 }
    ensures { result ≡ choice_of number }
{
    if number == 0 {
        None
    } else {
        Some((number - 1) as u8)
    }
}

// Adds a joint action where it counts.
#[inline]
fn push_where(counts: bool, action: usize, actions: &mut Vec<usize>) -> Result<(), Memory>
    ensures { IfOk result (λ _. actions.new.items ≡ actions.old.items ++ cond counts (action ∷ []) []) }
{
    if counts {
        actions.push(action)?;
    }
    Ok(())
}

// The entry of a joint action.
#[inline]
pub(crate) fn entry_at(row: &[i128], action: usize) -> i128
    requires { action < length row.now }
    ensures { result ≡ get_or row.now action (pos 0) }
{
    row[action]
}

// The greatest so far: where an entry counts, the greater of it and of those before it, if there are some.
#[inline]
pub(crate) fn greater(counts: bool, some: bool, best: i128, entry: i128) -> i128
    ensures { result ≡ cond counts (cond some (int_max entry best) entry) best }
{
    if !counts {
        best
    } else if some {
        entry.max(best)
    } else {
        entry
    }
}

// Whether one of two facts holds.
#[inline]
pub(crate) fn either(one: bool, other: bool) -> bool
    ensures { result ≡ (one || other) }
{
    one || other
}

// Whether a choice is none or this action.
#[inline]
fn is_allowed(choice: Option<u8>, action: u8) -> bool
    ensures { result ≡ agrees choice action }
{
    match choice {
        None => true,
        Some(chosen) => chosen == action,
    }
}

// Joint action by joint action, the part of each agent.
fn action_parts(alloc: Global, model: &Model) -> Result<Vec<u8>, Memory>
    ensures { IfOk result (λ v. v.items ≡ rows_of (parts_of model.now.model.actions)
        (joint_actions model.now.model)) }
{
    let mut parts = Vec::new(alloc);
    for action in 0..model.joint_actions() {
        push_parts(model, action, &mut parts)?;
    }
    Ok(parts)
}

// Those of one joint action.
fn push_parts(model: &Model, action: u32, parts: &mut Vec<u8>) -> Result<(), Memory>
    requires action { action < joint_actions model.now.model }
    ensures { IfOk result (λ _. parts.new.items ≡ parts.old.items ++ parts_of model.now.model.actions action) }
{
    model.invariant();
    for agent in 0..model.agents() {
        parts.push(model.local_action(action, agent) as u8)?;
    }
    Ok(())
}
