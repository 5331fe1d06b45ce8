//! The merging of two classes.
ghost use Rattle.std.specs.Prelude.{◌≡◌, ◌<◌, ◌≤◌, true, length, get_or, IfOk, IfErr};
ghost use Rattle.dp_spec.specs.Front.{class_counts};
ghost use Rattle.dp_spec.specs.Merge.{merged_front};
ghost use Rattle.dp_spec.specs.Model.{Model as PlainModel};
ghost use Rattle.dp_spec.specs.UnequalPlaces.{first_unequal};
ghost use Rattle.dp_cluster.specs.KeepingPolicies.{KeepsToo, LosesNothing};
ghost use Rattle.dp_cluster.specs.KeptFronts.{IsFrontOf};
ghost use Rattle.dp_cluster.specs.Merging.{AreMerged, IsMergeFault};

use crate::Front;
use dp_base::Memory;
use std::alloc::Global;

/// Why two classes are not merged.
#[derive(Clone, Copy, Debug, PartialEq, Eq)]
pub enum MergeFault {
    /// The mode is outward, where nothing is merged.
    Rounded,
    /// The two are one class.
    Same,
    /// One of them has an action.
    Assigned,
    /// They are not equivalent: their weights are not in the proportion of their totals first at this place.
    Unequal { place: u32 },
    /// There was not enough memory.
    Memory,
}

impl Front {
    /// The front after class `second` of an agent was joined into class `first`, where both are unassigned
    /// and equivalent, in exact mode. Each class after `second` has a number less. The first fault, in the
    /// order of `MergeFault`, is what is answered. Nothing is lost: each joint policy that keeps this front
    /// has one that keeps the merged front and is worth at least as much (lossless clustering of histories,
    /// JAIR 46, 2013).
    pub fn merge(
        &self,
        alloc: Global,
        agent: u32,
        first: u32,
        second: u32,
    ) -> Result<Front, MergeFault>
        requires of_model { (m : PlainModel) × (IsFrontOf m self.now) }
        requires stage { self.now.front.stage < self.now.horizon }
        requires agent { agent < length self.now.front.agents }
        requires order { first ≤ second }
        requires class { second < get_or (class_counts self.now.front.agents) agent 0 }
        ensures fault { IfErr result (λ e.
            (m : PlainModel) → IsFrontOf m self.now → IsMergeFault m self.now agent first second e) }
        ensures merged { IfOk result (λ _.
            (m : PlainModel) → IsFrontOf m self.now → AreMerged m self.now agent first second) }
        ensures front { IfOk result (λ f. f.front ≡ merged_front self.now.front agent first second) }
        ensures horizon { IfOk result (λ f. f.horizon ≡ self.now.horizon) }
        ensures past { IfOk result (λ f. f.past ≡ self.now.past) }
        ensures of_model { IfOk result (λ f. (m : PlainModel) → IsFrontOf m self.now → IsFrontOf m f) }
        ensures loses_nothing { IfOk result (λ f.
            (m : PlainModel) → IsFrontOf m self.now → LosesNothing m self.now.horizon self.now.front f.front) }
        ensures keeps { IfOk result (λ f.
            (m : PlainModel) → IsFrontOf m self.now → KeepsToo m f.front self.now.front) }
    {
        if !self.is_exact() {
            return Err(MergeFault::Rounded);
        }
        if first == second {
            return Err(MergeFault::Same);
        }
        if self.action(agent, first).is_some() || self.action(agent, second).is_some() {
            return Err(MergeFault::Assigned);
        }
        if let Some(place) = self.first_unequal(agent, first, second) {
            return Err(MergeFault::Unequal { place });
        }
        match self.joined(alloc, agent, first, second) {
            Ok(front) => Ok(front),
            Err(Memory) => Err(MergeFault::Memory),
        }
    }

    // The first place at which two classes differ, in exact mode.
    fn first_unequal(&self, agent: u32, first: u32, second: u32) -> Option<u32>
        requires of_model { (m : PlainModel) × (IsFrontOf m self.now) }
        requires exact { self.now.is_exact ≡ true }
        requires stage { self.now.front.stage < self.now.horizon }
        requires agent { agent < length self.now.front.agents }
        requires first { first < get_or (class_counts self.now.front.agents) agent 0 }
        requires second { second < get_or (class_counts self.now.front.agents) agent 0 }
        ensures { (m : PlainModel) → IsFrontOf m self.now →
            result ≡ first_unequal m self.now.front agent first second }
    {
        self.first_difference(self.places(agent), first, second)
    }
}
