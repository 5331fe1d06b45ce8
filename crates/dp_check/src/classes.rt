//! Where a branch or a merge may stand: classes without an action, and pairs of equivalent classes.
ghost use Rattle.std.specs.Prelude.{◌≡◌, ◌<◌, ◌&&◌, IfOk};
ghost use Rattle.dp_spec.specs.Reasons.{is_unassigned};
ghost use Rattle.dp_cluster.specs.KeptFronts.{IsFrontOf};
ghost use Rattle.dp_check.specs.Walks.{has_no_pairs};

use dp_base::Memory;
use dp_cluster::Front;
use dp_model::Model;
use std::alloc::Global;

/// Whether a class of an agent exists and has no action.
pub fn is_unassigned(front: &Front, agent: u32, class: u32) -> bool
    ensures { result ≡ is_unassigned agent class front.now.front.agents }
{
    if agent >= front.agents() {
        return false;
    }
    if class >= front.classes(agent) {
        return false;
    }
    front.action(agent, class).is_none()
}

/// Whether no two classes of an agent could be merged, in exact mode.
pub fn has_no_pairs(alloc: Global, m: &Model, front: &Front) -> Result<bool, Memory>
    requires of_model { IsFrontOf m.now.model front.now }
    requires stage { front.now.front.stage < front.now.horizon }
    ensures { IfOk result (λ none. none ≡ (front.now.is_exact && has_no_pairs m.now.model front.now.front)) }
{
    let _states = m.states();
    if !front.is_exact() {
        return Ok(false);
    }
    for agent in 0..front.agents() {
        if let Some(_pair) = front.next_equal(alloc, agent)? {
            return Ok(false);
        }
    }
    Ok(true)
}
