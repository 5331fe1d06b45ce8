//! The key of a joint class that holds one joint history.
ghost use Rattle.std.specs.Prelude.{◌≡◌, ◌<◌, ◌≤◌, ◌↔◌, ℕ, List, true, false, length, get_or, IfOk, IfSome, IsSome};
ghost use Rattle.dp_spec.specs.Front.{class_counts, fixed_actions, fixed_joint_action, own_histories};
ghost use Rattle.dp_spec.specs.JointHistory.{IsJointHistory};
ghost use Rattle.dp_spec.specs.JointNumbers.{joint_number};
ghost use Rattle.dp_spec.specs.Model.{joint_observations};
ghost use Rattle.dp_spec.specs.WellFormed.{KeepsHistoriesApart};
ghost use Rattle.dp_model.specs.Parts.{AreParts};
ghost use Rattle.dp_cluster.specs.Keys.{HasNumbersOf, IsKeyOf, last_seen, pairs_along, without_last};
ghost use Rattle.dp_cluster.specs.KeptFronts.{IsFrontOf};

use crate::Front;
use dp_base::Memory;
use dp_model::Model;
use std::alloc::Global;

impl Front {
    /// The key of a joint class, one class for each agent, before the horizon: the joint action and the
    /// joint observation of each step of its one joint history, the earliest step first. `None` exactly
    /// where some class of some agent holds more than one own history. The error is want of memory.
    pub fn key(&self, alloc: Global, m: &Model, classes: &[u32]) -> Result<Option<Vec<u32>>, Memory>
        requires of_model { IsFrontOf m.now.model self.now }
        requires stage { self.now.front.stage < self.now.horizon }
        requires classes { AreParts (class_counts self.now.front.agents) classes.now }
        ensures apart { IfOk result (λ o. IsSome o ↔ KeepsHistoriesApart m.now.model self.now.front) }
        ensures key { IfOk result (λ o. IfSome o (λ v. IsKeyOf m.now.model self.now.front
            (joint_number (class_counts self.now.front.agents) classes.now) v.items)) }
    {
        if self.has_own_numbers(m) {
            let pairs = self.pairs(alloc, m, self.stage(), classes)?;
            Ok(Some(pairs))
        } else {
            Ok(None)
        }
    }

    // Whether each own history has its own number for its class: no classes were joined.
    fn has_own_numbers(&self, m: &Model) -> bool
        requires of_model { IsFrontOf m.now.model self.now }
        ensures yes { result ≡ true → HasNumbersOf m.now.model self.now }
        ensures no { result ≡ false → ¬ KeepsHistoriesApart m.now.model self.now.front }
    {
        let _agents = m.agents();
        for agent in 0..self.agents() {
            if !self.part(agent).has_own_numbers() {
                return false;
            }
        }
        true
    }

    // The pairs along the joint history of length `time` with these own histories.
    fn pairs(&self, alloc: Global, m: &Model, time: u32, own: &[u32]) -> Result<Vec<u32>, Memory>
        requires of_model { IsFrontOf m.now.model self.now }
        requires numbers { HasNumbersOf m.now.model self.now }
        requires time { time ≤ self.now.front.stage }
        requires history { (H : List ℕ) × IsJointHistory (joint_observations m.now.model) time H ×
            (own_histories m.now.model.observations H ≡ own.now) }
        ensures { IfOk result (λ v. (H : List ℕ) → IsJointHistory (joint_observations m.now.model) time H →
            own_histories m.now.model.observations H ≡ own.now →
            v.items ≡ pairs_along (fixed_joint_action m.now.model self.now.front) H) }
    {
        if time == 0 {
            return Ok(Vec::new(alloc));
        }
        let before = without_last(alloc, m, own)?;
        let action = self.fixed_action(alloc, m, time - 1, &before)?;
        let seen = last_seen(alloc, m, own)?;
        let mut pairs = self.pairs(alloc, m, time - 1, &before)?;
        pairs.push(action)?;
        pairs.push(seen)?;
        Ok(pairs)
    }

    // The joint action that is fixed after own histories of length `time`.
    fn fixed_action(&self, alloc: Global, m: &Model, time: u32, own: &[u32]) -> Result<u32, Memory>
        requires of_model { IsFrontOf m.now.model self.now }
        requires numbers { HasNumbersOf m.now.model self.now }
        requires time { time < self.now.front.stage }
        requires history { (H : List ℕ) × IsJointHistory (joint_observations m.now.model) time H ×
            (own_histories m.now.model.observations H ≡ own.now) }
        ensures { IfOk result (λ a. a ≡
            joint_number m.now.model.actions (fixed_actions self.now.front.agents time own.now)) }
    {
        m.invariant();
        let mut actions = Vec::new(alloc);
        for agent in 0..self.agents() {
            actions.push(self.part(agent).fixed(time, own[agent as usize]))?;
        }
        Ok(m.joint_action_of(&actions))
    }
}

// Own histories without their last observations.
fn without_last(alloc: Global, m: &Model, own: &[u32]) -> Result<Vec<u32>, Memory>
    requires { length own.now ≡ length m.now.model.observations }
    ensures { IfOk result (λ v. v.items ≡ without_last m.now.model.observations own.now) }
{
    m.invariant();
    let mut before = Vec::new(alloc);
    for agent in 0..m.agents() {
        before.push(own[agent as usize] / m.observations(agent))?;
    }
    Ok(before)
}

// The joint observation that own histories end with.
fn last_seen(alloc: Global, m: &Model, own: &[u32]) -> Result<u32, Memory>
    requires { length own.now ≡ length m.now.model.observations }
    ensures { IfOk result (λ o. o ≡
        joint_number m.now.model.observations (last_seen m.now.model.observations own.now)) }
{
    m.invariant();
    let mut seen = Vec::new(alloc);
    for agent in 0..m.agents() {
        seen.push(own[agent as usize] % m.observations(agent))?;
    }
    Ok(m.joint_obs_of(&seen))
}
