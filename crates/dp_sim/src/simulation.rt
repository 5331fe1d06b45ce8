//! An episode of a joint policy in a model.
ghost use Rattle.std.specs.Prelude.{◌≡◌, ◌+◌, ◌*◌, ◌<◌, IfOk, OnOk, OnErr, List, length, vec_len};
ghost use Rattle.rand_core.specs.Stream.{next_u64};
ghost use Rattle.dp_spec.specs.Model.{joint_actions, joint_observations, obs_at, trans_at};
ghost use Rattle.dp_spec.specs.PolicyTree.{PolicyTree};
ghost use Rattle.dp_sim.specs.Acting.{AnswerPolicy};
ghost use Rattle.dp_sim.specs.Along.{ActOnOwnHistories};
ghost use Rattle.dp_sim.specs.Episode.{episode_drawn, step_drawn, steps_drawn};
ghost use Rattle.dp_sim.specs.Traces.{ArePossible, IsPossible, total_reward};
ghost use Rattle.dp_sim.specs.Words.{left_after, words_of};

use crate::actor::Actor;
use crate::draw::{next_drawn, seen_drawn, start_drawn};
use crate::joint::joint_action;
use crate::step::{SimStep, Trace};
use dp_base::Memory;
use dp_model::{Model, Sequence};
use rand_core::Rng;
use std::alloc::Global;

/// An episode of `horizon` steps in a model, drawn by the words of a generator.
///
/// There is one actor for each agent, in order, and they answer a joint policy of the model over the
/// horizon. A first word draws the state to start in; then, at each step, each actor is handed its
/// agent's own history alone, the joint action of their answers is done, and two words draw the next
/// state and the joint observation there. An index is drawn from a row of chances as the first whose
/// running sum is more than the word times the scale over 2^64, rounded down.
pub fn episode<R: Rng, F: Fn(&[u32]) -> u32>(
    alloc: Global,
    model: &Model,
    horizon: u32,
    actors: &[Actor<F>],
    rng: &mut R,
) -> Result<Trace, Memory>
    requires policy { (qs : List PolicyTree) × AnswerPolicy F.Fn model.now.model horizon actors.now qs }

    // Where the actors answer a joint policy, this is its episode by the next words, of which the generator
    // gave one and two for each step.
    ensures drawn { (qs : List PolicyTree) → AnswerPolicy F.Fn model.now.model horizon actors.now qs →
        IfOk result (λ trace. trace ≡ episode_drawn model.now.model horizon qs
        (words_of (1 + 2 * horizon) (R.stream rng.old))) }
    ensures left { OnOk result (R.stream rng.new ≡ left_after (1 + 2 * horizon) (R.stream rng.old)) }

    ensures steps { IfOk result (λ trace. length trace.steps ≡ horizon) }
    ensures possible { IfOk result (λ trace. IsPossible model.now.model trace) }
    ensures acted { (qs : List PolicyTree) → AnswerPolicy F.Fn model.now.model horizon actors.now qs →
        IfOk result (λ trace. ActOnOwnHistories model.now.model qs trace.steps) }

    // Memory is taken before the first word.
    ensures unchanged { OnErr result (R.stream rng.new ≡ R.stream rng.old) }
{
    let steps = vec![in alloc; SimStep::default(); horizon as usize]?;
    let history = vec![in alloc; 0; horizon as usize]?;
    Ok(trace(model, actors, steps, history, rng))
}

// The trace of as many steps as the list has places. It takes no memory.
fn trace<R: Rng, F: Fn(&[u32]) -> u32>(
    model: &Model,
    actors: &[Actor<F>],
    mut steps: Vec<SimStep>,
    mut history: Vec<u32>,
    rng: &mut R,
) -> Trace
    requires policy { (qs : List PolicyTree) ×
        AnswerPolicy F.Fn model.now.model (vec_len steps) actors.now qs }
    requires room { vec_len history ≡ vec_len steps }
    ensures drawn { (qs : List PolicyTree) → AnswerPolicy F.Fn model.now.model (vec_len steps) actors.now qs →
        result ≡ episode_drawn model.now.model (vec_len steps) qs
        (words_of (1 + 2 * vec_len steps) (R.stream rng.old)) }
    ensures left { R.stream rng.new ≡ left_after (1 + 2 * vec_len steps) (R.stream rng.old) }
    ensures steps { length result.steps ≡ vec_len steps }
    ensures possible { IsPossible model.now.model result }
    ensures acted { (qs : List PolicyTree) → AnswerPolicy F.Fn model.now.model (vec_len steps) actors.now qs →
        ActOnOwnHistories model.now.model qs result.steps }
{
    let start = start_drawn(model, rng.next_u64());
    play(model, actors, start, &mut steps, &mut history, rng);
    let total = total_reward(&steps);
    Trace {
        start,
        steps: Sequence::of(steps),
        total,
    }
}

// Plays as many steps as the list has places, from a state on.
fn play<R: Rng, F: Fn(&[u32]) -> u32>(
    model: &Model,
    actors: &[Actor<F>],
    start: u32,
    steps: &mut [SimStep],
    history: &mut [u32],
    rng: &mut R,
)
    requires policy { (qs : List PolicyTree) ×
        AnswerPolicy F.Fn model.now.model (length steps.old) actors.now qs }
    requires room { length history.old ≡ length steps.old }
    requires start { start < model.now.model.states }
    ensures drawn { (qs : List PolicyTree) → AnswerPolicy F.Fn model.now.model (length steps.old) actors.now qs →
        steps.new ≡ steps_drawn model.now.model (length steps.old) qs start
        (words_of (2 * length steps.old) (R.stream rng.old)) }
    ensures left { R.stream rng.new ≡ left_after (2 * length steps.old) (R.stream rng.old) }
    ensures possible { ArePossible model.now.model start steps.new }
    ensures acted { (qs : List PolicyTree) → AnswerPolicy F.Fn model.now.model (length steps.old) actors.now qs →
        ActOnOwnHistories model.now.model qs steps.new }
{
    let mut state = start;
    for time in 0..steps.len() {
        let action = joint_action(model, actors, &steps[..time], history);
        let step = step_drawn(model, action, state, rng);
        steps[time] = step;
        state = step.next;
    }
}

// The step that two words draw for a joint action in a state.
fn step_drawn<R: Rng>(model: &Model, action: u32, state: u32, rng: &mut R) -> SimStep
    requires action { action < joint_actions model.now.model }
    requires state { state < model.now.model.states }
    ensures drawn { result ≡ step_drawn model.now.model action state (next_u64 (R.stream rng.old)).0
        (next_u64 (next_u64 (R.stream rng.old)).1).0 }
    ensures left { R.stream rng.new ≡ left_after 2 (R.stream rng.old) }
    ensures next { result.next < model.now.model.states }
    ensures seen { result.seen < joint_observations model.now.model }
    ensures next_possible { 0 < trans_at model.now.model action state result.next }
    ensures seen_possible { 0 < obs_at model.now.model action result.next result.seen }
    ensures action { result.action ≡ action }
{
    let next = next_drawn(model, action, state, rng.next_u64());
    let seen = seen_drawn(model, action, next, rng.next_u64());
    SimStep {
        action,
        next,
        seen,
        reward: model.reward(action, state, next, seen),
    }
}

// The sum of the rewards of steps.
fn total_reward(steps: &[SimStep]) -> i128
    ensures { result ≡ total_reward steps.now }
{
    let mut total = 0;
    for step in steps {
        total += i128::from(step.reward);
    }
    total
}
