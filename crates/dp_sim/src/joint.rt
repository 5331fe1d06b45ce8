//! The joint action of actors at their own histories.
ghost use Rattle.std.specs.Prelude.{◌≡◌, ◌<◌, ◌≤◌, List, length, take};
ghost use Rattle.dp_spec.specs.Model.{joint_actions};
ghost use Rattle.dp_spec.specs.PolicyTree.{PolicyTree};
ghost use Rattle.dp_spec.specs.Value.{joint_root_action};
ghost use Rattle.dp_sim.specs.Acting.{AnswerPolicy};
ghost use Rattle.dp_sim.specs.Along.{ActsAfter, AreSeen, own_history, seen_over, trees_along};

use crate::actor::Actor;
use crate::step::SimStep;
use dp_model::Model;

// The most agents.
const MOST_AGENTS: usize = 6;

// The joint action that the actors do after some steps. Each is handed its own history over these steps,
// which is written to the list; that has a place for each step of the horizon.
pub(crate) fn joint_action<F: Fn(&[u32]) -> u32>(
    model: &Model,
    actors: &[Actor<F>],
    past: &[SimStep],
    history: &mut [u32],
) -> u32
    requires policy { (qs : List PolicyTree) ×
        AnswerPolicy F.Fn model.now.model (length history.old) actors.now qs }
    requires early { length past.now < length history.old }
    requires seen { AreSeen model.now.model past.now }
    ensures is { (qs : List PolicyTree) → AnswerPolicy F.Fn model.now.model (length history.old) actors.now qs →
        result ≡ joint_root_action model.now.model (trees_along model.now.model qs (seen_over past.now)) }
    ensures acted { (qs : List PolicyTree) →
        AnswerPolicy F.Fn model.now.model (length history.old) actors.now qs →
        ActsAfter model.now.model qs past.now result }
    ensures below { result < joint_actions model.now.model }
{
    model.invariant();
    let mut actions = [0; MOST_AGENTS];
    for agent in 0..model.agents() {
        write_history(model, past, agent, history);
        actions[agent as usize] = actors[agent as usize].act(&history[..past.len()]);
    }
    model.joint_action_of(&actions[..model.agents() as usize])
}

// Writes an agent's own history over some steps to the front of a list.
fn write_history(model: &Model, past: &[SimStep], agent: u32, history: &mut [u32])
    requires agent { agent < length model.now.model.observations }
    requires room { length past.now ≤ length history.old }
    requires seen { AreSeen model.now.model past.now }
    ensures { take (length past.now) history.new ≡ own_history model.now.model agent past.now }
{
    for (place, step) in past.iter().enumerate() {
        history[place] = model.local_obs(step.seen, agent);
    }
}
