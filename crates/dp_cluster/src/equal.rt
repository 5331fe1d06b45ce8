//! Equivalent classes.
ghost use Rattle.std.specs.Prelude.{◌≡◌, ℕ, suc, ◌^◌, ◌<◌, true, false, List, length, get_or, IfOk, IfSome};
ghost use Rattle.std.specs.Prelude.{None};
ghost use Rattle.dp_spec.specs.Front.{class_counts};
ghost use Rattle.dp_spec.specs.Model.{Model as PlainModel};
ghost use Rattle.dp_spec.specs.Pairs.{HasNoPair, IsLeastPair};
ghost use Rattle.dp_cluster.specs.EqualClasses.{AlikeAt, AreVectorsOf, IsFirstFrom, IsFoundFrom, IsLaterOf};
ghost use Rattle.dp_cluster.specs.EqualClasses.{IsVectorOf, earlier, vector_at};
ghost use Rattle.dp_cluster.specs.Joins.{own_count};
ghost use Rattle.dp_cluster.specs.KeptFronts.{IsFrontOf};
ghost use Rattle.dp_cluster.specs.OwnPlaces.{ArePlacesOf};

use crate::Front;
use crate::runs::Places;
use dp_base::Memory;
use dp_divisor::primitive;
use std::alloc::Global;
use std::collections::BTreeMap;

// What is kept of a class to tell its equivalent classes.
#[derive(Drop)]
enum OwnVector {
    // It has an action.
    Assigned,
    // It has none, and no weight.
    Weightless,
    // It has none: its weights at all places, divided by their greatest common divisor.
    Weighted(Vec<i128>),
}

impl Front {
    /// The least pair of unassigned equivalent classes of an agent, by the first number and then by the
    /// second: these two can be merged. `None` comes exactly where there is none, and always in outward mode.
    pub fn next_equal(&self, alloc: Global, agent: u32) -> Result<Option<(u32, u32)>, Memory>
        requires of_model { (m : PlainModel) × (IsFrontOf m self.now) }
        requires stage { self.now.front.stage < self.now.horizon }
        requires agent { agent < length self.now.front.agents }
        ensures outward { self.now.is_exact ≡ false → IfOk result (λ o. o ≡ None) }
        ensures pair { IfOk result (λ o. IfSome o (λ (p : ℕ × ℕ).
            (m : PlainModel) → IsFrontOf m self.now → IsLeastPair m self.now.front agent p.0 p.1)) }
        ensures none { IfOk result (λ o. o ≡ None → self.now.is_exact ≡ true →
            (m : PlainModel) → IsFrontOf m self.now → HasNoPair m self.now.front agent) }
    {
        if !self.is_exact() {
            return Ok(None);
        }
        let vectors = self.own_vectors(alloc, agent)?;
        least_alike(alloc, vectors)
    }

    // What is kept of each class of an agent, in exact mode.
    fn own_vectors(&self, alloc: Global, agent: u32) -> Result<Vec<OwnVector>, Memory>
        requires of_model { (m : PlainModel) × (IsFrontOf m self.now) }
        requires exact { self.now.is_exact ≡ true }
        requires stage { self.now.front.stage < self.now.horizon }
        requires agent { agent < length self.now.front.agents }
        ensures vectors { IfOk result (λ v.
            (m : PlainModel) → IsFrontOf m self.now →
            AreVectorsOf m self.now.front agent (own_count self.now agent) v.items) }
        ensures few { IfOk result (λ v. length v.items < 2 ^ 32) }
    {
        let places = self.places(agent);
        let mut vectors = Vec::new(alloc);
        for class in 0..self.classes(agent) {
            vectors.push(self.own_vector(alloc, agent, places, class)?)?;
        }
        Ok(vectors)
    }

    // What is kept of a class, in exact mode.
    fn own_vector(
        &self,
        alloc: Global,
        agent: u32,
        places: Places,
        class: u32,
    ) -> Result<OwnVector, Memory>
        requires of_model { (m : PlainModel) × (IsFrontOf m self.now) }
        requires exact { self.now.is_exact ≡ true }
        requires stage { self.now.front.stage < self.now.horizon }
        requires agent { agent < length self.now.front.agents }
        requires class { class < own_count self.now agent }
        requires places { ArePlacesOf self.now agent places }
        ensures { IfOk result (λ v. (m : PlainModel) → IsFrontOf m self.now →
            IsVectorOf m self.now.front agent class v) }
    {
        if self.action(agent, class).is_some() {
            return Ok(OwnVector::Assigned);
        }
        if self.total(places, class) == 0 {
            return Ok(OwnVector::Weightless);
        }
        let mut weights = self.own_weights(alloc, places, class)?;
        primitive(&mut weights);
        Ok(OwnVector::Weighted(weights))
    }
}

// What is known of the classes from one on: the first that has no action, the first of these that has no
// weight, and the first with each vector.
#[derive(Drop)]
struct Later {
    unassigned: Option<u32>,
    weightless: Option<u32>,
    weighted: BTreeMap<Vec<i128>, u32>,
}

impl Later {
    // Takes the class before them, and finds the first of them that is alike.
    fn add(&mut self, class: u32, vector: OwnVector) -> Result<Option<u32>, Memory>
        ensures later { IfOk result (λ _. (vs : List OwnVector) → class < length vs →
            vector_at vs class ≡ vector → IsLaterOf vs (suc class) self.old → IsLaterOf vs class self.new) }
        ensures alike { IfOk result (λ o. (vs : List OwnVector) → class < length vs →
            vector_at vs class ≡ vector → IsLaterOf vs (suc class) self.old →
            IsFirstFrom (AlikeAt vs class) (suc class) (length vs) o) }
    {
        match vector {
            OwnVector::Assigned => Ok(None),
            OwnVector::Weightless => {
                let alike = self.unassigned;
                self.unassigned = Some(class);
                self.weightless = Some(class);
                Ok(alike)
            }
            OwnVector::Weighted(weights) => {
                let same = self.weighted.insert(weights, class)?;
                self.unassigned = Some(class);
                Ok(earlier(same, self.weightless))
            }
        }
    }
}

// The lesser of two numbers that may not be there.
fn earlier(one: Option<u32>, other: Option<u32>) -> Option<u32>
    ensures { result ≡ earlier one other }
{
    match (one, other) {
        (Some(x), Some(y)) => Some(if x <= y { x } else { y }),
        (None, found) | (found, None) => found,
    }
}

// The least two places with items that are alike, by the first and then by the second. Each item is looked
// at once.
fn least_alike(alloc: Global, vectors: Vec<OwnVector>) -> Result<Option<(u32, u32)>, Memory>
    requires { length vectors.items < 2 ^ 32 }
    ensures { IfOk result (IsFoundFrom vectors.items 0) }
{
    let mut rest = vectors;
    let mut later = Later {
        unassigned: None,
        weightless: None,
        weighted: BTreeMap::new(alloc),
    };
    let mut found = None;
    while let Some(vector) = rest.pop() {
        let class = rest.len() as u32;
        if let Some(other) = later.add(class, vector)? {
            found = Some((class, other));
        }
    }
    Ok(found)
}
