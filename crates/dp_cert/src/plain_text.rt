//! The policy of a certificate text of version 1: for each own history an action.
ghost use Rattle.std.specs.Prelude.{◌≡◌, ℕ, ◌+◌, ◌*◌, ◌^◌, ◌<◌, ◌≤◌, map, replicate, length, get_or, suc, cond};
ghost use Rattle.std.specs.Prelude.{nat_lt, IfOk, IfErr};
ghost use Rattle.std.specs.List.{join_with_byte, range_with_len};
ghost use Rattle.dp_spec.specs.Mode.{IsWithinLimits};
ghost use Rattle.dp_spec.specs.TextLines.{plain};
ghost use Rattle.dp_lines.specs.Lines.{plain_form};
ghost use Rattle.dp_lines.specs.Scanning.{front_of};
ghost use Rattle.dp_cert.specs.declared.fault.CertFault.TheVariants as faults;
ghost use Rattle.dp_policy.specs.PolicyGrammar.{agent_words};
ghost use Rattle.dp_cert.specs.PolicyGrammar.{plain_agent, plain_agents, plain_stage, plain_stages, rows_from};
ghost use Rattle.dp_cert.specs.Reading.{Gives};
ghost use Rattle.dp_lines.specs.Reading.{rest_at};
ghost use Rattle.dp_lines.specs.Steps.{the_words};

use crate::CertFault;
use crate::lines::{Lines, row, words};
use crate::ranges::and_alike;
use dp_lines::PlainRange;
use dp_model::{Model, Sequence};
use dp_policy::Row;
use itoa::Buffer;
use std::alloc::Global;

/// The rows of all agents.
pub(crate) fn plain_agents<'a>(
    alloc: Global,
    from: Lines<'a>,
    model: &Model,
    horizon: u32,
) -> Result<(Vec<Vec<Vec<Row>>>, Lines<'a>), CertFault>
    requires { IsWithinLimits model.now.model horizon }
    ensures { Gives (λ x. rest_at (map (λ s. map (λ r. r.items) s.items) x.0.items) x.1.line x.1.rest.now) result
        (front_of (plain_agents horizon 0 model.now.model.actions model.now.model.observations)
        from.entry.line from.entry.rest.now) }
{
    model.invariant();
    let mut agents = Vec::new(alloc);
    let mut at = from;
    for agent in 0..model.agents() {
        let (stages, behind) = plain_agent(alloc, at, model, agent, horizon)?;
        agents.push(stages)?;
        at = behind;
    }
    Ok((agents, at))
}

// The rows of an agent.
fn plain_agent<'a>(
    alloc: Global,
    from: Lines<'a>,
    model: &Model,
    agent: u32,
    horizon: u32,
) -> Result<(Vec<Vec<Row>>, Lines<'a>), CertFault>
    requires agent { agent < length model.now.model.actions }
    requires within { IsWithinLimits model.now.model horizon }
    ensures { Gives (λ x. rest_at (map (λ r. r.items) x.0.items) x.1.line x.1.rest.now) result
        (front_of (plain_agent horizon agent (get_or model.now.model.actions agent 0)
        (get_or model.now.model.observations agent 0)) from.entry.line from.entry.rest.now) }
{
    model.invariant();
    let named = agent_line(alloc, from, agent)?;
    plain_stages(
        alloc,
        named,
        model.actions(agent),
        model.observations(agent),
        horizon,
    )
}

/// The lines after the one before the rows of an agent.
pub(crate) fn agent_line<'a>(
    alloc: Global,
    from: Lines<'a>,
    agent: u32,
) -> Result<Lines<'a>, CertFault>
    ensures { Gives (λ to. rest_at tt to.line to.rest.now) result
        (front_of (the_words (agent_words agent)) from.entry.line from.entry.rest.now) }
{
    let text = agent_text(alloc, agent)?;
    words(from, text.as_slice())
}

// The text of that line.
fn agent_text(alloc: Global, agent: u32) -> Result<Vec<u8>, CertFault>
    ensures ok { IfOk result (λ text. text.items ≡ join_with_byte 32 (agent_words agent)) }
    ensures err { IfErr result (λ fault. fault ≡ faults.Memory) }
{
    let mut text = Vec::from_slice(alloc, b"agent ")?;
    let mut buffer = Buffer::new();
    text.extend_from_slice(buffer.format(agent).as_bytes())?;
    Ok(text)
}

// The rows of the stages of an agent.
fn plain_stages<'a>(
    alloc: Global,
    from: Lines<'a>,
    actions: u32,
    observations: u32,
    horizon: u32,
) -> Result<(Vec<Vec<Row>>, Lines<'a>), CertFault>
    requires actions { 0 < actions }
    requires observations { observations ≤ 256 }
    requires few { (t : ℕ) → t < horizon → observations ^ t ≤ 2048 }
    ensures { Gives (λ x. rest_at (map (λ r. r.items) x.0.items) x.1.line x.1.rest.now) result
        (front_of (plain_stages actions observations horizon 0 horizon) from.entry.line from.entry.rest.now) }
{
    let mut stages = Vec::new(alloc);
    let mut at = from;
    for stage in 0..horizon {
        let (rows, behind) = plain_stage(alloc, at, actions, observations, horizon, stage)?;
        stages.push(rows)?;
        at = behind;
    }
    Ok((stages, at))
}

// The rows of a stage.
fn plain_stage<'a>(
    alloc: Global,
    from: Lines<'a>,
    actions: u32,
    observations: u32,
    horizon: u32,
    stage: u32,
) -> Result<(Vec<Row>, Lines<'a>), CertFault>
    requires actions { 0 < actions }
    requires observations { observations ≤ 256 }
    requires stage { stage < horizon }
    requires few { observations ^ stage ≤ 2048 }
    ensures { Gives (λ x. rest_at x.0.items x.1.line x.1.rest.now) result
        (front_of (plain_stage actions observations horizon stage) from.entry.line from.entry.rest.now) }
{
    let range = PlainRange {
        low: 0,
        high: actions - 1,
    };
    let ranges = and_alike(Vec::new(alloc), histories(observations, stage), range)?;
    let (numbers, to) = row(alloc, from, ranges.as_slice())?;
    let nexts = nexts_at(stage, horizon, observations);
    let rows = plain_rows(alloc, numbers.as_slice(), observations, nexts)?;
    Ok((rows, to))
}

// After how many observations a row of a stage goes on.
fn nexts_at(stage: u32, horizon: u32, observations: u32) -> u32
    requires { stage < horizon }
    ensures { result ≡ cond (nat_lt (suc stage) horizon) observations 0 }
{
    if stage + 1 < horizon { observations } else { 0 }
}

// How many own histories of this length there are.
fn histories(observations: u32, length: u32) -> u32
    requires { observations ^ length ≤ 2048 }
    ensures { result ≡ observations ^ length }
{
    observations.pow(length)
}

// The rows of own histories that do these actions, each going on after so many observations.
fn plain_rows(
    alloc: Global,
    actions: &[u32],
    observations: u32,
    nexts: u32,
) -> Result<Vec<Row>, CertFault>
    requires few { length actions.now ≤ 2048 }
    requires observations { observations ≤ 256 }
    requires nexts { nexts ≤ 256 }
    ensures ok { IfOk result
        (λ rows. rows.items ≡ rows_from observations (range_with_len 0 nexts) 0 actions.now) }
    ensures err { IfErr result (λ fault. fault ≡ faults.Memory) }
{
    let mut rows = Vec::new(alloc);
    let mut first = 0;
    for action in actions {
        let next = counted_from(alloc, first, nexts)?;
        rows.push(Row {
            action: *action,
            next,
        })?;
        first += observations;
    }
    Ok(rows)
}

// So many numbers from the first one on.
fn counted_from(alloc: Global, first: u32, count: u32) -> Result<Sequence<u32>, CertFault>
    requires first { first ≤ 2 ^ 31 }
    requires count { count ≤ 256 }
    ensures ok { IfOk result (λ numbers. numbers ≡ map (λ o. first + o) (range_with_len 0 count)) }
    ensures err { IfErr result (λ fault. fault ≡ faults.Memory) }
{
    let mut numbers = Vec::new(alloc);
    for place in 0..count {
        numbers.push(first + place)?;
    }
    Ok(Sequence::of(numbers))
}
