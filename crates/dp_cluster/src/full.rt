//! The joint policy that a full front fixes.
ghost use Rattle.std.specs.Prelude.{◌≡◌, ◌<◌, ℕ, List, [], true, map, length, get_or, IfOk};
ghost use Rattle.dp_spec.specs.Arithmetic.{point};
ghost use Rattle.dp_spec.specs.FullPolicy.{full_policy};
ghost use Rattle.dp_spec.specs.Keeping.{KeepsFront};
ghost use Rattle.dp_spec.specs.Mode.{IsWithinLimits};
ghost use Rattle.dp_spec.specs.PolicyTree.{IsPolicyOf, PolicyTree};
ghost use Rattle.dp_spec.specs.Value.{policy_value};
ghost use Rattle.dp_policy.specs.Trees.{joint_policy};
ghost use Rattle.dp_spec.specs.SharedPolicy.{IsSharedOf, unfolded};
ghost use Rattle.dp_cluster.specs.FullRows.{AreFullRows};
ghost use Rattle.dp_cluster.specs.KeptFronts.{IsFrontOf};
ghost use Rattle.dp_cluster.specs.PastClasses.{HasRowEachClass, no_classes};

use crate::Front;
use dp_base::Memory;
use dp_model::Model;
use dp_policy::{Policy, Row, Shared, join, join_rows};
use std::alloc::Global;

impl Front {
    /// The joint policy that a full front fixes, over a horizon that keeps the limits: after each own
    /// history it does what the front has fixed. It alone keeps the front, and in exact mode its value is
    /// what the front has earned.
    pub fn full_policy(&self, alloc: Global, m: &Model) -> Result<Policy, Memory>
        requires of_model { IsFrontOf m.now.model self.now }
        requires full { self.now.front.stage ≡ self.now.horizon }
        requires limits { IsWithinLimits m.now.model self.now.horizon }
        ensures policy { IfOk result (λ p. joint_policy p ≡ full_policy m.now.model self.now.front) }
        ensures horizon { IfOk result (λ p. p.horizon ≡ self.now.horizon) }
        ensures of_model { IfOk result (λ p. IsPolicyOf m.now.model self.now.horizon (joint_policy p)) }
        ensures keeps { IfOk result (λ p. KeepsFront m.now.model self.now.front (joint_policy p)) }
        ensures alone { IfOk result (λ p. (qs : List PolicyTree) → IsPolicyOf m.now.model self.now.horizon qs →
            KeepsFront m.now.model self.now.front qs → qs ≡ joint_policy p) }
        ensures value { IfOk result (λ p. self.now.is_exact ≡ true →
            self.now.earned ≡ point (policy_value m.now.model self.now.horizon (joint_policy p))) }
    {
        m.invariant();
        let mut trees = Vec::new(alloc);
        for agent in 0..self.agents() {
            trees.push(self.part(agent).tree(alloc)?)?;
        }
        Ok(join(trees, m, self.horizon()).unwrap())
    }

    /// The joint policy that a full front fixes as shared rows, over a horizon up to 24: at each stage a row
    /// for each class that the agent had there, in the order of the classes, which goes on to the classes
    /// that it leads to. The error is want of memory.
    pub fn full_rows(&self, alloc: Global, m: &Model) -> Result<Shared, Memory>
        requires of_model { IsFrontOf m.now.model self.now }
        requires full { self.now.front.stage ≡ self.now.horizon }
        ensures horizon { IfOk result (λ p. p.horizon ≡ self.now.horizon) }
        ensures of_model { IfOk result (λ p. IsSharedOf m.now.model self.now.horizon p.rows) }
        ensures policy { IfOk result (λ p. unfolded p.rows ≡ full_policy m.now.model self.now.front) }
        ensures classes { IfOk result (λ p. (i t : ℕ) → i < length self.now.past → t < self.now.horizon →
            HasRowEachClass (get_or m.now.model.observations i 0) (get_or p.rows i []) t
            (get_or (get_or self.now.past i []) t no_classes)) }
    {
        m.invariant();
        self.invariant();
        let mut rows = Vec::new(alloc);
        for agent in 0..self.agents() {
            rows.push(self.rows_of(alloc, m, agent)?)?;
        }
        Ok(join_rows(rows, m, self.horizon()).unwrap())
    }

    // The rows of an agent.
    fn rows_of(&self, alloc: Global, m: &Model, agent: u32) -> Result<Vec<Vec<Row>>, Memory>
        requires of_model { IsFrontOf m.now.model self.now }
        requires full { self.now.front.stage ≡ self.now.horizon }
        requires agent { agent < length self.now.front.agents }
        ensures { IfOk result (λ v. AreFullRows m.now.model self.now agent (map (λ r. r.items) v.items)) }
    {
        m.invariant();
        let rows = self.part(agent).rows(alloc)?;
        Ok(rows)
    }
}
