//! Policy texts read.
ghost use Rattle.std.specs.Prelude.{◌≡◌, ℕ, List, [], ◌∷◌, ◌+◌, ◌-◌, ◌*◌, ◌^◌, ◌<◌, ◌≤◌, length, map, pos};
ghost use Rattle.std.specs.Prelude.{slice_index, Ok, IfOk, IfErr};
ghost use Rattle.std.specs.List.{join_with_byte};
ghost use Rattle.dp_spec.specs.Mode.{IsWithinLimits};
ghost use Rattle.dp_policy.specs.declared.fault.PolicyFault.TheVariants.{Memory};
ghost use Rattle.dp_lines.specs.Scanning.{front_of, text_from};
ghost use Rattle.dp_policy.specs.PolicyAnswers.{EachPolicyTextHasOneAnswer, HasPolicyFault, IsPolicyAnswer, said_by};
ghost use Rattle.dp_lines.specs.Steps.{the_words, the_numbers};
ghost use Rattle.dp_policy.specs.PolicyGrammar.{agent_words, stage_rows, agent_rows, policy_grammar};
ghost use Rattle.dp_policy.specs.Reading.{Gives, rows_of, agents_of};
ghost use Rattle.dp_lines.specs.Reading.{rest_at};

use crate::actions::joint_trees;
use crate::lines::{Lines, numbers, row, words};
use crate::{Policy, PolicyFault};
use dp_lines::{FileWhy, PlainRange};
use dp_model::{Model, fits};
use itoa::Buffer;
use std::alloc::Global;

const HORIZON: PlainRange = PlainRange {
    low: 1,
    high: u32::MAX,
};

// A joint policy by its actions: for each agent and each stage those after the own histories.
#[derive(Drop)]
pub(crate) struct PolicyRows {
    pub horizon: u32,
    pub agents: Vec<Vec<Vec<u32>>>,
}

/// The joint policy of a policy text for a model, of at most `2^28` bytes. It comes exactly where the
/// bytes are the text of a joint policy of the model, and the horizon keeps its limits. Else the fault is
/// the first line that is not as required, or the limit that the horizon passes, where that comes before
/// such a line.
pub fn read_policy(alloc: Global, bytes: &[u8], model: &Model) -> Result<Policy, PolicyFault>
    requires { length bytes.now ≤ 2 ^ 28 }
    ensures ok { IfOk result (λ policy. IsPolicyAnswer model.now.model bytes.now (Ok (said_by policy))) }
    ensures within { IfOk result (λ policy. IsWithinLimits model.now.model policy.horizon) }
    ensures err { IfErr result (λ fault. HasPolicyFault model.now.model bytes.now fault) }
{
    model.invariant();
    let rows = read_rows(alloc, bytes, model)?;
    let trees = joint_trees(alloc, &rows, model)?;
    Ok(Policy::of(trees, rows.horizon))
}

// What is computed of the bytes.
fn read_rows(alloc: Global, bytes: &[u8], model: &Model) -> Result<PolicyRows, PolicyFault>
    requires { length bytes.now ≤ 2 ^ 28 }
    ensures within { IfOk result (λ p. IsWithinLimits model.now.model p.horizon) }
    ensures gives { Gives (λ p. record { horizon = p.horizon; agents = agents_of p.agents }) result
        (text_from (policy_grammar model.now.model) 1 bytes.now) }
{
    let start = Lines {
        line: 1,
        rest: bytes,
    };
    let titled = words(start, b"decplan policy 1")?;
    let (horizons, at) = numbers(alloc, titled, b"horizon", &[HORIZON])?;
    let horizon = horizons[0];
    if let Err(passed) = fits(model, horizon) {
        return Err(PolicyFault::TooLarge(passed));
    }
    let (agents, at) = agents(alloc, at, model, horizon)?;
    let end = words(at, b"end")?;
    if !end.rest.is_empty() {
        return Err(PolicyFault::At {
            line: end.line,
            why: FileWhy::Shape,
        });
    }
    Ok(PolicyRows { horizon, agents })
}

// The rows of all agents.
fn agents<'a>(
    alloc: Global,
    from: Lines<'a>,
    model: &Model,
    horizon: u32,
) -> Result<(Vec<Vec<Vec<u32>>>, Lines<'a>), PolicyFault>
    requires { IsWithinLimits model.now.model horizon }
    ensures { Gives (λ x. rest_at (agents_of x.0) x.1.line x.1.rest.now) result
        (front_of (agent_rows horizon 0 model.now.model.actions model.now.model.observations)
        from.entry.line from.entry.rest.now) }
{
    model.invariant();
    let mut agents = Vec::new(alloc);
    let mut at = from;
    for agent in 0..model.agents() {
        let line = agent_line(alloc, agent)?;
        let named = words(at, line.as_slice())?;
        let (rows, behind) = stages(
            alloc,
            named,
            model.actions(agent),
            model.observations(agent),
            horizon,
        )?;
        agents.push(rows)?;
        at = behind;
    }
    Ok((agents, at))
}

// The line before the rows of an agent.
fn agent_line(alloc: Global, agent: u32) -> Result<Vec<u8>, PolicyFault>
    ensures ok { IfOk result (λ text. text.items ≡ join_with_byte 32 (agent_words agent)) }
    ensures err { IfErr result (λ fault. fault ≡ Memory) }
{
    let mut text = Vec::from_slice(alloc, b"agent ")?;
    let mut buffer = Buffer::new();
    text.extend_from_slice(buffer.format(agent).as_bytes())?;
    Ok(text)
}

// The rows of the stages of an agent.
fn stages<'a>(
    alloc: Global,
    from: Lines<'a>,
    actions: u32,
    observations: u32,
    horizon: u32,
) -> Result<(Vec<Vec<u32>>, Lines<'a>), PolicyFault>
    requires some { 0 < actions }
    requires few { (t : ℕ) → t < horizon → observations ^ t ≤ 2048 }
    ensures { Gives (λ x. rest_at (rows_of x.0) x.1.line x.1.rest.now) result
        (front_of (stage_rows actions observations 0 horizon) from.entry.line from.entry.rest.now) }
{
    let mut rows = Vec::new(alloc);
    let mut at = from;
    for stage in 0..horizon {
        let (row, behind) = row(alloc, at, histories(observations, stage), actions - 1)?;
        rows.push(row)?;
        at = behind;
    }
    Ok((rows, at))
}

// How many own histories of this length there are.
fn histories(observations: u32, length: u32) -> usize
    requires { observations ^ length ≤ 2048 }
    ensures { result ≡ observations ^ length }
{
    (observations as usize).pow(length)
}

/// For each model, all bytes are the text of one joint policy, or have one first bad line, or pass one
/// limit, and no two of these.
pub fn policy_texts_have_one_answer()
    ensures { EachPolicyTextHasOneAnswer }
{}
