// The weights of one agent's classes, in exact mode: their totals, and where two classes differ.
ghost use Rattle.std.specs.Prelude.{◌≡◌, ℕ, ◌+◌, ◌*◌, ◌^◌, ◌<◌, ◌++◌, map, length, take, MatchOption, IfOk};
ghost use Rattle.std.specs.List.{range_with_len};
ghost use Rattle.dp_base.specs.Sums.{nat_sum};
ghost use Rattle.dp_spec.specs.Front.{class_counts};
ghost use Rattle.dp_spec.specs.JointNumbers.{product};
ghost use Rattle.dp_value.specs.WeightUpdates.{weights_of};
ghost use Rattle.dp_cluster.specs.OwnPlaces.{ArePlacesOf};
ghost use Rattle.dp_cluster.specs.OwnWeights.{AreInProportion, AreOwnRuns, IsFirstWithout, low_at, low_end, own_low};
ghost use Rattle.dp_cluster.specs.OwnWeights.{own_total};

use crate::Front;
use crate::join::width_behind;
use crate::proportion::Proportion;
use dp_base::Memory;
use dp_spec::Span;
use std::alloc::Global;

// Where the weights of an agent's classes stand among all weights: in each of `rows` rows each class has a
// run of `width` weights, so that the run of class `c` in row `r` begins at `(r * classes + c) * width`.
#[derive(Clone, Copy)]
pub(crate) struct Places {
    pub(crate) rows: usize,
    pub(crate) classes: usize,
    pub(crate) width: usize,
}

impl Front {
    // Where the weights of an agent's classes stand.
    pub(crate) fn places(&self, agent: u32) -> Places
        requires stage { self.now.front.stage < self.now.horizon }
        requires some { 0 < self.now.states }
        requires some_class { 0 < product (class_counts self.now.front.agents) }
        requires agent { agent < length self.now.front.agents }
        ensures { ArePlacesOf self.now agent result }
    {
        self.invariant();
        let classes = self.classes(agent) as usize;
        let width = width_behind(self, agent);
        Places {
            rows: self.joint_classes() / (classes * width),
            classes,
            width: width * self.states() as usize,
        }
    }

    // The weights of a class in a row.
    #[inline]
    pub(crate) fn run(&self, places: Places, class: u32, row: usize) -> &[Span]
        requires runs { AreOwnRuns self.now.weights places.rows places.classes places.width }
        requires class { class < places.classes }
        requires row { row < places.rows }
        ensures width { length result.now ≡ places.width }
        ensures are { (j : ℕ) → j < places.width →
            low_end result.now j ≡ low_end self.now.weights ((row * places.classes + class) * places.width + j) }
        ensures spans { (j : ℕ) → j < places.width →
            weights_of result.now j ≡ weights_of self.now.weights ((row * places.classes + class) * places.width
            + j) }
    {
        let weights = self.weights();
        let start = (row * places.classes + class as usize) * places.width;
        &weights[start..start + places.width]
    }

    // The weights of a class at all places together.
    pub(crate) fn total(&self, places: Places, class: u32) -> u128
        requires runs { AreOwnRuns self.now.weights places.rows places.classes places.width }
        requires class { class < places.classes }
        requires room { own_total self.now.weights places.classes places.width
            (places.rows * places.width) class < 2 ^ 127 }
        ensures { result ≡ own_total self.now.weights places.classes places.width (places.rows * places.width) class }
    {
        let mut total = 0;
        for row in 0..places.rows {
            total += run_total(self.run(places, class, row));
        }
        total
    }

    // The weights of a class at all places, in order.
    pub(crate) fn own_weights(
        &self,
        alloc: Global,
        places: Places,
        class: u32,
    ) -> Result<Vec<i128>, Memory>
        requires runs { AreOwnRuns self.now.weights places.rows places.classes places.width }
        requires class { class < places.classes }
        ensures { IfOk result (λ v. v.items ≡
            map (own_low self.now.weights places.classes places.width class) (range_with_len 0
            (places.rows * places.width))) }
    {
        let mut weights = Vec::new(alloc);
        for row in 0..places.rows {
            push_run(self.run(places, class, row), &mut weights)?;
        }
        Ok(weights)
    }

    // The first place at which the weights of two classes are not in the proportion of their totals.
    pub(crate) fn first_difference(&self, places: Places, first: u32, second: u32) -> Option<u32>
        requires runs { AreOwnRuns self.now.weights places.rows places.classes places.width }
        requires first { first < places.classes }
        requires second { second < places.classes }
        requires first_room { own_total self.now.weights places.classes places.width
            (places.rows * places.width) first < 2 ^ 127 }
        requires second_room { own_total self.now.weights places.classes places.width
            (places.rows * places.width) second < 2 ^ 127 }
        ensures { MatchOption result
            ((p : ℕ) → p < places.rows * places.width →
            AreInProportion self.now.weights places.classes places.width (places.rows * places.width) first second p)
            (IsFirstWithout
            (AreInProportion self.now.weights places.classes places.width (places.rows * places.width) first second)
            (places.rows * places.width)) }
    {
        let t = self.total(places, first);
        let u = self.total(places, second);
        if t == 0 || u == 0 {
            return None;
        }
        let totals = Proportion::of(t, u);
        for row in 0..places.rows {
            let one = self.run(places, first, row);
            let other = self.run(places, second, row);
            if let Some(at) = first_apart(one, other, &totals) {
                return Some((row * places.width + at) as u32);
            }
        }
        None
    }
}

// Adds the weights of a run.
fn push_run(run: &[Span], weights: &mut Vec<i128>) -> Result<(), Memory>
    ensures { IfOk result (λ _.
        weights.new.items ≡ weights.old.items ++ map (low_end run.now) (range_with_len 0 (length run.now))) }
{
    for weight in run {
        weights.push(weight.low)?;
    }
    Ok(())
}

// The weights of a run together.
fn run_total(run: &[Span]) -> u128
    requires { nat_sum (length run.now) (low_at run.now) < 2 ^ 127 }
    ensures { result ≡ nat_sum (length run.now) (low_at run.now) }
{
    let mut total = 0;
    for weight in run {
        total += weight.low.unsigned_abs();
    }
    total
}

// The first place at which the weights of two runs are not in the proportion of their totals.
fn first_apart(one: &[Span], other: &[Span], totals: &Proportion) -> Option<usize>
    requires alike { length other.now ≡ length one.now }
    ensures { MatchOption result
        ((j : ℕ) → j < length one.now → low_at one.now j * totals.now.second ≡ low_at other.now j * totals.now.first)
        (IsFirstWithout (λ j. low_at one.now j * totals.now.second ≡ low_at other.now j * totals.now.first)
        (length one.now)) }
{
    for at in 0..one.len() {
        if !totals.holds(one[at].low.unsigned_abs(), other[at].low.unsigned_abs()) {
            return Some(at);
        }
    }
    None
}
