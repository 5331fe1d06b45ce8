// The joining of two classes.
ghost use Rattle.std.specs.Prelude.{◌≡◌, ℕ, suc, ◌+◌, ◌-◌, ◌*◌, ◌^◌, ◌<◌, ◌≤◌, ◌++◌, true, map, length, drop, take};
ghost use Rattle.std.specs.Prelude.{get_or, IfOk};
ghost use Rattle.std.specs.List.{range_with_len};
ghost use Rattle.dp_spec.specs.Arithmetic.{span_add};
ghost use Rattle.dp_spec.specs.Calls.{size};
ghost use Rattle.dp_spec.specs.Front.{class_counts};
ghost use Rattle.dp_spec.specs.JointNumbers.{product};
ghost use Rattle.dp_spec.specs.Model.{Model as PlainModel};
ghost use Rattle.dp_spec.specs.Steps.{IsUnassigned};
ghost use Rattle.dp_cluster.specs.Advances.{weight_rows};
ghost use Rattle.dp_value.specs.WeightUpdates.{weights_of};
ghost use Rattle.dp_cluster.specs.Joins.{behind, merged_at, merged_weight, own_count};
ghost use Rattle.dp_cluster.specs.KeptFronts.{IsFrontOf};
ghost use Rattle.dp_cluster.specs.OwnPlaces.{ArePlacesOf};

use crate::Front;
use crate::part::kept_class;
use crate::runs::Places;
use dp_base::Memory;
use dp_num::add_spans;
use dp_spec::Span;
use std::alloc::Global;

// The weights of the joint classes after class `second` of an agent was joined into class `first`, in exact
// mode: row by row, and in each row run by run.
pub(crate) fn joined_weights(
    alloc: Global,
    front: &Front,
    agent: u32,
    first: u32,
    second: u32,
) -> Result<Vec<Span>, Memory>
    requires of_model { (m : PlainModel) × (IsFrontOf m front.now) }
    requires exact { front.now.is_exact ≡ true }
    requires stage { front.now.front.stage < front.now.horizon }
    requires order { first < second }
    requires first { IsUnassigned agent first front.now.front.agents }
    requires second { IsUnassigned agent second front.now.front.agents }
    ensures { IfOk result (λ v. v.items ≡ weight_rows (merged_weight front.now agent first second) front.now.states
        (product (take agent (class_counts front.now.front.agents)) *
        (own_count front.now agent - 1) * behind front.now agent)) }
{
    let places = front.places(agent);
    let mut weights = Vec::new(alloc);
    for row in 0..places.rows {
        push_row(front, agent, first, second, places, row, &mut weights)?;
    }
    Ok(weights)
}

// Adds the weights of a row.
fn push_row(
    front: &Front,
    agent: u32,
    first: u32,
    second: u32,
    places: Places,
    row: usize,
    weights: &mut Vec<Span>,
) -> Result<(), Memory>
    requires of_model { (m : PlainModel) × (IsFrontOf m front.now) }
    requires exact { front.now.is_exact ≡ true }
    requires stage { front.now.front.stage < front.now.horizon }
    requires order { first < second }
    requires first { IsUnassigned agent first front.now.front.agents }
    requires second { IsUnassigned agent second front.now.front.agents }
    requires places { ArePlacesOf front.now agent places }
    requires row { row < places.rows }
    ensures { IfOk result (λ _. weights.new.items ≡ weights.old.items ++
        map (λ j. merged_at front.now agent first second (row * ((places.classes - 1) * places.width) + j))
        (range_with_len 0 ((places.classes - 1) * places.width))) }
{
    for class in 0..front.classes(agent) - 1 {
        push_run(front, agent, first, second, places, row, class, weights)?;
    }
    Ok(())
}

// Adds the weights of a class of the agent in a row: those of the class that has become it, together with
// those of class `second` where it is class `first`.
fn push_run(
    front: &Front,
    agent: u32,
    first: u32,
    second: u32,
    places: Places,
    row: usize,
    class: u32,
    weights: &mut Vec<Span>,
) -> Result<(), Memory>
    requires of_model { (m : PlainModel) × (IsFrontOf m front.now) }
    requires exact { front.now.is_exact ≡ true }
    requires stage { front.now.front.stage < front.now.horizon }
    requires order { first < second }
    requires first { IsUnassigned agent first front.now.front.agents }
    requires second { IsUnassigned agent second front.now.front.agents }
    requires places { ArePlacesOf front.now agent places }
    requires row { row < places.rows }
    requires class { class < places.classes - 1 }
    ensures { IfOk result (λ _. weights.new.items ≡ weights.old.items ++
        map (λ j. merged_at front.now agent first second
        ((row * (places.classes - 1) + class) * places.width + j)) (range_with_len 0 places.width)) }
{
    let kept = front.run(places, kept_class(second, class), row);
    if class == first {
        return push_sums(kept, front.run(places, second, row), weights);
    }
    weights.extend_from_slice(kept)?;
    Ok(())
}

// Adds the sums of the weights of two runs.
fn push_sums(one: &[Span], other: &[Span], weights: &mut Vec<Span>) -> Result<(), Memory>
    requires alike { length other.now ≡ length one.now }
    requires room { (j : ℕ) → j < length one.now →
        size (span_add (weights_of one.now j) (weights_of other.now j)) < 2 ^ 127 }
    ensures { IfOk result (λ _. weights.new.items ≡ weights.old.items ++
        map (λ j. span_add (weights_of one.now j) (weights_of other.now j)) (range_with_len 0 (length one.now))) }
{
    for at in 0..one.len() {
        weights.push(add_spans(one[at], other[at]))?;
    }
    Ok(())
}

// How many joint classes the agents behind an agent have.
pub(crate) fn width_behind(front: &Front, agent: u32) -> usize
    requires stage { front.now.front.stage < front.now.horizon }
    requires some { 0 < front.now.states }
    requires classes { 0 < product (class_counts front.now.front.agents) }
    requires agent { agent < length front.now.front.agents }
    ensures { result ≡ behind front.now agent }
{
    front.invariant();
    let mut width = front.joint_classes();
    for before in 0..agent + 1 {
        width = width / front.classes(before) as usize;
    }
    width
}
