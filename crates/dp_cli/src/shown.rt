// The text of a policy in names.
ghost use Rattle.std.specs.Prelude.{◌≡◌, ℕ, ◌^◌, ◌<◌, ◌≤◌, ◌++◌, [], IfOk, OnOk, length, get_or, option_copied};
ghost use Rattle.std.specs.Prelude.{replicate, slice_index, unwrap_or, decimal, true};
ghost use Rattle.dp_spec.specs.JointNumbers.{parts_of};
ghost use Rattle.dp_spec.specs.Mode.{own_history_count};
ghost use Rattle.dp_spec.specs.SharedPolicy.{IsSharedOf, unfolded, unfolded_tree};
ghost use Rattle.dp_cli.specs.ShownPolicies.{agent_text, history_text, names_text, numbered_text, policy_text};
ghost use Rattle.dp_cli.specs.ShownPolicies.{stage_text};
ghost use Rattle.dp_model.specs.Names.{names_of};

use dp_base::Memory;
use dp_model::{Model, Names};
use dp_policy::Shared;
use itoa::Buffer;
use std::alloc::Global;

// The text of a shared policy in the names of a model, agent by agent.
pub fn policy_text(alloc: Global, model: &Model, policy: &Shared) -> Result<Vec<u8>, Memory>
    requires policy { IsSharedOf model.now.model policy.now.horizon policy.now.rows }
    requires few { own_history_count model.now.model.observations policy.now.horizon ≤ 2048 }
    ensures { IfOk result (λ text. text.items ≡ policy_text model.now.names model.now.model.observations
        (unfolded policy.now.rows) policy.now.horizon) }
{
    let mut text = Vec::new(alloc);
    let mut history = vec![in alloc; 0; policy.horizon() as usize]?;
    push_agents(&mut text, model, policy, &mut history)?;
    Ok(text)
}

// Appends the lines of all agents. The list has a place for each step of the horizon.
fn push_agents(
    text: &mut Vec<u8>,
    model: &Model,
    policy: &Shared,
    history: &mut [u32],
) -> Result<(), Memory>
    requires policy { IsSharedOf model.now.model policy.now.horizon policy.now.rows }
    requires few { own_history_count model.now.model.observations policy.now.horizon ≤ 2048 }
    requires room { length history.old ≡ policy.now.horizon }
    ensures { OnOk result (text.new.items ≡ text.old.items ++ policy_text model.now.names
        model.now.model.observations (unfolded policy.now.rows) policy.now.horizon) }
{
    model.invariant();
    for agent in 0..model.agents() {
        push_agent(text, model, policy, agent, history)?;
    }
    Ok(())
}

// Appends the lines of an agent, stage by stage. The list has a place for each step.
#[tactic(auto, unfolding(crate::specs::ShownPolicies::agent_text))]
fn push_agent(
    text: &mut Vec<u8>,
    model: &Model,
    policy: &Shared,
    agent: u32,
    history: &mut [u32],
) -> Result<(), Memory>
    requires policy { IsSharedOf model.now.model policy.now.horizon policy.now.rows }
    requires few { own_history_count model.now.model.observations policy.now.horizon ≤ 2048 }
    requires agent { agent < length model.now.model.actions }
    requires room { length history.old ≡ policy.now.horizon }
    ensures { OnOk result (text.new.items ≡ text.old.items ++ agent_text model.now.names agent
        (slice_index model.now.model.observations agent) (unfolded_tree (get_or policy.now.rows agent []) 0)
        policy.now.horizon) }
{
    model.invariant();
    for stage in 0..history.len() {
        push_stage(text, model, policy, agent, &mut history[..stage])?;
    }
    Ok(())
}

// Appends the lines of an agent's own histories that are as long as the list, each of which is written
// there.
#[tactic(auto, unfolding(crate::specs::ShownPolicies::stage_text))]
fn push_stage(
    text: &mut Vec<u8>,
    model: &Model,
    policy: &Shared,
    agent: u32,
    history: &mut [u32],
) -> Result<(), Memory>
    requires policy { IsSharedOf model.now.model policy.now.horizon policy.now.rows }
    requires agent { agent < length model.now.model.actions }
    requires early { length history.old < policy.now.horizon }
    requires few { slice_index model.now.model.observations agent ^ length history.old ≤ 2048 }
    ensures { OnOk result (text.new.items ≡ text.old.items ++ stage_text model.now.names agent
        (slice_index model.now.model.observations agent) (unfolded_tree (get_or policy.now.rows agent []) 0)
        (length history.old)) }
{
    model.invariant();
    policy.invariant();
    let count = model.observations(agent).pow(history.len() as u32);
    for number in 0..count {
        push_numbered(text, model, policy, agent, history, number, count)?;
    }
    Ok(())
}

// Appends the line of the own history of a number, of `count` as long as the list, where it is written.
fn push_numbered(
    text: &mut Vec<u8>,
    model: &Model,
    policy: &Shared,
    agent: u32,
    history: &mut [u32],
    number: u32,
    count: u32,
) -> Result<(), Memory>
    requires policy { IsSharedOf model.now.model policy.now.horizon policy.now.rows }
    requires agent { agent < length model.now.model.actions }
    requires early { length history.old < policy.now.horizon }
    requires number { number < count }
    requires count { count ≡ slice_index model.now.model.observations agent ^ length history.old }
    ensures { OnOk result (text.new.items ≡ text.old.items ++ numbered_text model.now.names agent
        (slice_index model.now.model.observations agent) (unfolded_tree (get_or policy.now.rows agent []) 0)
        (length history.old) number) }
{
    model.invariant();
    write_parts(history, model.observations(agent), number, count);
    let action = policy.action_at(agent, history);
    push_history(text, model.names(), agent, history, action)
}

// Writes the digits of a number in a base, the first most significant. There are `count` numbers of so
// many digits.
fn write_parts(parts: &mut [u32], base: u32, number: u32, count: u32)
    requires number { number < count }
    requires count { count ≡ base ^ length parts.old }
    ensures { parts.new ≡ parts_of (replicate (length parts.old) base) number }
{
    let mut rest = number;
    let mut step = count;
    for part in parts.iter_mut() {
        step /= base;
        *part = rest / step;
        rest %= step;
    }
}

// Appends the line of an own history and of the action after it.
#[tactic(auto, unfolding(crate::specs::ShownPolicies::history_text))]
fn push_history(
    text: &mut Vec<u8>,
    names: &Names,
    agent: u32,
    history: &[u32],
    action: u32,
) -> Result<(), Memory>
    requires agents { 0 < length names.now.agents → agent < length names.now.agents }
    requires observations { agent < length names.now.observations }
    requires actions { agent < length names.now.actions }
    requires seen { (t : ℕ) → t < length history.now → 0 < length (names_of names.now.observations agent) →
        get_or history.now t 0 < length (names_of names.now.observations agent) }
    requires action { 0 < length (names_of names.now.actions agent) →
        action < length (names_of names.now.actions agent) }
    ensures { OnOk result (text.new.items ≡ text.old.items ++ history_text names.now agent history.now action) }
{
    push_name(text, names.agent(agent), agent)?;
    text.extend_from_slice(b" [")?;
    push_seen(text, names, agent, history)?;
    text.extend_from_slice(b"] ")?;
    push_name(text, names.action(agent, action), action)?;
    text.push(b'\n')?;
    Ok(())
}

// Appends the names of an agent's observations, with a space between two.
fn push_seen(text: &mut Vec<u8>, names: &Names, agent: u32, history: &[u32]) -> Result<(), Memory>
    requires observations { agent < length names.now.observations }
    requires seen { (t : ℕ) → t < length history.now → 0 < length (names_of names.now.observations agent) →
        get_or history.now t 0 < length (names_of names.now.observations agent) }
    ensures { OnOk result (text.new.items ≡
        text.old.items ++ names_text (names_of names.now.observations agent) true history.now) }
{
    for (place, seen) in history.iter().enumerate() {
        if place > 0 {
            text.push(b' ')?;
        }
        push_name(text, names.observation(agent, *seen), *seen)?;
    }
    Ok(())
}

// Appends a name, or a number where there is none.
fn push_name(text: &mut Vec<u8>, name: Option<&str>, number: u32) -> Result<(), Memory>
    ensures { OnOk result (text.new.items ≡
        text.old.items ++ unwrap_or (option_copied name.entry) (decimal number)) }
{
    match name {
        Some(name) => text.extend_from_slice(name.as_bytes())?,
        None => text.extend_from_slice(Buffer::new().format(number).as_bytes())?,
    }
    Ok(())
}
