//! Which states follow which, and what may be seen.
ghost use Rattle.std.specs.Prelude.{◌≡◌, ◌≢◌, ◌<◌, Bool, true, false, IfOk};
ghost use Rattle.dp_spec.specs.Model.{joint_actions, joint_observations};
ghost use Rattle.dp_links.specs.Links.{AreLinked, AreLinksOf, AreSeen, IsLinkedRow, linked, seen_after, seen_chance};
ghost use Rattle.dp_links.specs.Links.{step_chance};

use dp_base::Memory;
use dp_model::{Model, Sequence};
use std::alloc::Global;

/// For each joint action and state the states that may follow by a chance above 0 and those that may come
/// before, and for each joint action the joint observations that may be seen after it.
#[derive(Drop)]
pub struct Links {
    after: Sequence<Sequence<Sequence<u32>>>,
    before: Sequence<Sequence<Sequence<u32>>>,
    seen: Sequence<Sequence<u32>>,
}

impl std::marker::Model for Links {
    ghost use Rattle.dp_links.specs.Links.{LinkLists};

    ghost Value = { LinkLists };

    ghost view = { λ l. record { after = l.after; before = l.before; seen = l.seen } };
}

impl Links {
    /// Those of a model. The only error is want of memory.
    pub fn new(alloc: Global, model: &Model) -> Result<Links, Memory>
        ensures of_model { IfOk result (λ links. AreLinksOf model.now.model links) }
    {
        Ok(Links {
            after: linked_rows(alloc, model, false)?,
            before: linked_rows(alloc, model, true)?,
            seen: seen_rows(alloc, model)?,
        })
    }

    /// The states that may follow a state, in order.
    #[inline]
    pub fn after(&self, model: &Model, action: u32, state: u32) -> &[u32]
        requires links { AreLinksOf model.now.model self.now }
        requires action { action < joint_actions model.now.model }
        requires state { state < model.now.model.states }
        ensures states { result.now ≡ linked model.now.model false action state }
    {
        self.after.as_slice()[action as usize].as_slice()[state as usize].as_slice()
    }

    /// The states that may come before a state, in order.
    #[inline]
    pub fn before(&self, model: &Model, action: u32, state: u32) -> &[u32]
        requires links { AreLinksOf model.now.model self.now }
        requires action { action < joint_actions model.now.model }
        requires state { state < model.now.model.states }
        ensures states { result.now ≡ linked model.now.model true action state }
    {
        self.before.as_slice()[action as usize].as_slice()[state as usize].as_slice()
    }

    /// The joint observations that may be seen after a joint action, in some state, in order.
    #[inline]
    pub fn seen(&self, model: &Model, action: u32) -> &[u32]
        requires links { AreLinksOf model.now.model self.now }
        requires action { action < joint_actions model.now.model }
        ensures seen { result.now ≡ seen_after model.now.model action }
    {
        self.seen.as_slice()[action as usize].as_slice()
    }
}

// The lists of all joint actions, of one direction.
fn linked_rows(
    alloc: Global,
    model: &Model,
    backwards: bool,
) -> Result<Sequence<Sequence<Sequence<u32>>>, Memory>
    ensures { IfOk result (λ rows. AreLinked model.now.model backwards rows) }
{
    let mut rows = Vec::new(alloc);
    for action in 0..model.joint_actions() {
        rows.push(linked_row(alloc, model, backwards, action)?)?;
    }
    Ok(Sequence::of(rows))
}

// The lists of a joint action.
fn linked_row(
    alloc: Global,
    model: &Model,
    backwards: bool,
    action: u32,
) -> Result<Sequence<Sequence<u32>>, Memory>
    requires action { action < joint_actions model.now.model }
    ensures { IfOk result (λ row. IsLinkedRow model.now.model backwards action row) }
{
    let mut row = Vec::new(alloc);
    for state in 0..model.states() {
        row.push(linked_states(alloc, model, backwards, action, state)?)?;
    }
    Ok(Sequence::of(row))
}

// The list of a state.
fn linked_states(
    alloc: Global,
    model: &Model,
    backwards: bool,
    action: u32,
    state: u32,
) -> Result<Sequence<u32>, Memory>
    requires action { action < joint_actions model.now.model }
    requires state { state < model.now.model.states }
    ensures { IfOk result (λ states. states ≡ linked model.now.model backwards action state) }
{
    let mut states = Vec::new(alloc);
    for other in 0..model.states() {
        if step_chance(model, backwards, action, state, other) != 0 {
            states.push(other)?;
        }
    }
    Ok(Sequence::of(states))
}

// The chance of a step from a state to another, or backwards.
#[inline]
fn step_chance(model: &Model, backwards: bool, action: u32, state: u32, other: u32) -> u64
    requires action { action < joint_actions model.now.model }
    requires state { state < model.now.model.states }
    requires other { other < model.now.model.states }
    ensures { result ≡ step_chance model.now.model backwards action state other }
{
    if backwards {
        model.trans(action, other, state)
    } else {
        model.trans(action, state, other)
    }
}

// The lists of what may be seen, of all joint actions.
fn seen_rows(alloc: Global, model: &Model) -> Result<Sequence<Sequence<u32>>, Memory>
    ensures { IfOk result (λ rows. AreSeen model.now.model rows) }
{
    let mut rows = Vec::new(alloc);
    for action in 0..model.joint_actions() {
        rows.push(seen_row(alloc, model, action)?)?;
    }
    Ok(Sequence::of(rows))
}

// The list of a joint action.
fn seen_row(alloc: Global, model: &Model, action: u32) -> Result<Sequence<u32>, Memory>
    requires action { action < joint_actions model.now.model }
    ensures { IfOk result (λ seen. seen ≡ seen_after model.now.model action) }
{
    let mut seen = Vec::new(alloc);
    for joint in 0..model.joint_observations() {
        if may_be_seen(model, action, joint) {
            seen.push(joint)?;
        }
    }
    Ok(Sequence::of(seen))
}

// Whether a joint observation has a chance above 0 in some state.
fn may_be_seen(model: &Model, action: u32, joint: u32) -> bool
    requires action { action < joint_actions model.now.model }
    requires joint { joint < joint_observations model.now.model }
    ensures yes { result ≡ true → seen_chance model.now.model action joint ≢ 0 }
    ensures no { result ≡ false → seen_chance model.now.model action joint ≡ 0 }
{
    for state in 0..model.states() {
        if model.obs(action, state, joint) != 0 {
            return true;
        }
    }
    false
}
