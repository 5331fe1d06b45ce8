// The text of episodes.
ghost use Rattle.std.specs.Prelude.{◌≡◌, ◌++◌, IfOk, OnOk};
ghost use Rattle.dp_spec.specs.SharedPolicy.{IsSharedOf, unfolded};
ghost use Rattle.dp_sim.specs.Acting.{AnswerPolicy};
ghost use Rattle.dp_writer.specs.Draws.{seed_stream};
ghost use Rattle.dp_cli.specs.EpisodeTexts.{episode_text, episodes_text, step_text, steps_text};

use crate::number::{push_number, push_signed};
use dp_base::Memory;
use dp_model::Model;
use dp_policy::Shared;
use dp_sim::{Actor, SimStep, Trace, episode};
use rand_core::Rng;
use rand_pcg::Lcg128Xsl64;
use std::alloc::Global;

// The text of episodes of a shared policy, each of whose actors walks its agent's rows.
pub fn episodes_of(
    alloc: Global,
    model: &Model,
    policy: &Shared,
    seed: u64,
    episodes: u32,
) -> Result<Vec<u8>, Memory>
    requires { IsSharedOf model.now.model policy.now.horizon policy.now.rows }
    ensures { IfOk result (λ text. text.items ≡ episodes_text model.now.model policy.now.horizon
        (unfolded policy.now.rows) 0 episodes (seed_stream seed)) }
{
    let mut actors = Vec::new(alloc);
    for agent in 0..policy.agents() {
        let actor = Actor::new(
            agent,
            move |history: &[u32]| policy.action_at(agent, history),
        );
        actors.push(actor)?;
    }
    let mut rng = Lcg128Xsl64::new(u128::from(seed), 0);
    played(alloc, model, policy, &actors, &mut rng, episodes)
}

// The text of episodes of a shared policy, whose trees the actors answer, one after the other from one
// generator.
fn played<R: Rng, F: Fn(&[u32]) -> u32>(
    alloc: Global,
    model: &Model,
    policy: &Shared,
    actors: &[Actor<F>],
    rng: &mut R,
    episodes: u32,
) -> Result<Vec<u8>, Memory>
    requires { AnswerPolicy F.Fn model.now.model policy.now.horizon actors.now (unfolded policy.now.rows) }
    ensures { IfOk result (λ text. text.items ≡ episodes_text model.now.model policy.now.horizon
        (unfolded policy.now.rows) 0 episodes (R.stream rng.old)) }
{
    let mut text = Vec::new(alloc);
    for number in 0..episodes {
        let trace = episode(alloc, model, policy.horizon(), actors, rng)?;
        push_episode(&mut text, number, &trace)?;
    }
    Ok(text)
}

// Appends the lines of an episode.
fn push_episode(text: &mut Vec<u8>, number: u32, trace: &Trace) -> Result<(), Memory>
    ensures { OnOk result (text.new.items ≡ text.old.items ++ episode_text number trace.now) }
{
    push_number(text, b"episode ", u64::from(number))?;
    push_number(text, b" start ", u64::from(trace.start))?;
    text.push(b'\n')?;
    push_steps(text, trace.steps.as_slice())?;
    push_signed(text, b"total ", trace.total)?;
    text.push(b'\n')?;
    Ok(())
}

// Appends the lines of steps.
fn push_steps(text: &mut Vec<u8>, steps: &[SimStep]) -> Result<(), Memory>
    ensures { OnOk result (text.new.items ≡ text.old.items ++ steps_text 0 steps.now) }
{
    for (time, step) in steps.iter().enumerate() {
        push_step(text, time as u64, *step)?;
    }
    Ok(())
}

// Appends the line of the step at a time.
fn push_step(text: &mut Vec<u8>, time: u64, step: SimStep) -> Result<(), Memory>
    ensures { OnOk result (text.new.items ≡ text.old.items ++ step_text time step) }
{
    push_number(text, b"step ", time)?;
    push_number(text, b" action ", u64::from(step.action))?;
    push_number(text, b" next ", u64::from(step.next))?;
    push_number(text, b" seen ", u64::from(step.seen))?;
    push_signed(text, b" reward ", i128::from(step.reward))?;
    text.push(b'\n')?;
    Ok(())
}
