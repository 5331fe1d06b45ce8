//! The places where a branch may stand.
ghost use Rattle.std.specs.Prelude.{◌≡◌, ◌<◌, ◌≤◌, ◌+◌, ◌*◌, ◌/◌, ◌%◌, ◌^◌, ◌++◌, ℕ, ℤ, pos, ◌+ℤ◌, neg_ℤ, ◌≤ℤ◌, unsigned_abs};
ghost use Rattle.std.specs.Prelude.{true, false, None, length, get_or, map, IfOk, OnOk};
ghost use Rattle.std.specs.Int.{int_min};
ghost use Rattle.dp_base.specs.Sums.{int_sum, nat_sum};
ghost use Rattle.dp_spec.specs.Arithmetic.{arithmetic};
ghost use Rattle.dp_spec.specs.Front.{class_counts};
ghost use Rattle.dp_spec.specs.JointNumbers.{product};
ghost use Rattle.dp_spec.specs.Qualities.{places_of, spread_of, upper_weight};
ghost use Rattle.dp_spec.specs.Wide.{has_room};
ghost use Rattle.dp_value.specs.WeightUpdates.{weights_of};
ghost use Rattle.dp_cluster.specs.Joins.{behind, own_count};
ghost use Rattle.dp_cluster.specs.KeptFronts.{IsFrontOf, choice_at};
ghost use Rattle.dp_game.specs.Games.{IsGameOf};
ghost use Rattle.dp_search.specs.FrontPlaces.{agent_places_of, kept_upper_weight, spread_told, upper_size};
ghost use Rattle.dp_search.specs.Rules.{place_of, told_places};

use crate::place::Place;
use dp_base::Memory;
use dp_cluster::Front;
use dp_game::Game;
use dp_model::Model;
use dp_spec::Span;
use std::alloc::Global;

/// The places of a front with room before the horizon, by agent and then by class: each unassigned class
/// with its weight and its spread. `game` is the game of the front with the look, and is left as it was.
/// Weights and bounds are in the units of the front's mode. The only error is want of memory.
pub fn places(
    alloc: Global,
    model: &Model,
    front: &Front,
    game: &mut Game,
    look: u32,
) -> Result<Vec<Place>, Memory>
    requires of_model { IsFrontOf model.now.model front.now }
    requires stage { front.now.front.stage < front.now.horizon }
    requires room { has_room model.now.model front.now.horizon front.now.front ≡ true }
    requires game { IsGameOf model.now.model front.now.horizon look front.now.front game.old }
    ensures places { IfOk result (λ v. map place_of v.items
        ≡ places_of (arithmetic front.now.is_exact model.now.model.scales) model.now.model front.now.horizon
        look front.now.front) }
    ensures game { OnOk result (game.new ≡ game.old) }
    ensures few { IfOk result (λ v. length v.items ≤ 2 ^ 26) }
{
    told_places(alloc, model, front, game, look, true)
}

// The same, with 0 for each spread where spreads are not told.
pub(crate) fn told_places(
    alloc: Global,
    model: &Model,
    front: &Front,
    game: &mut Game,
    look: u32,
    spreads: bool,
) -> Result<Vec<Place>, Memory>
    requires of_model { IsFrontOf model.now.model front.now }
    requires stage { front.now.front.stage < front.now.horizon }
    requires game { IsGameOf model.now.model front.now.horizon look front.now.front game.old }
    ensures places { IfOk result (λ v. map place_of v.items
        ≡ told_places spreads (places_of (arithmetic front.now.is_exact model.now.model.scales) model.now.model
        front.now.horizon look front.now.front)) }
    ensures game { OnOk result (game.new ≡ game.old) }
    ensures few { IfOk result (λ v. length v.items ≤ 2 ^ 26) }
{
    front.invariant();
    let mut places = Vec::new(alloc);
    for agent in 0..front.agents() {
        push_places(alloc, model, front, game, look, spreads, agent, &mut places)?;
    }
    Ok(places)
}

// Adds the places of an agent.
fn push_places(
    alloc: Global,
    model: &Model,
    front: &Front,
    game: &mut Game,
    look: u32,
    spreads: bool,
    agent: u32,
    places: &mut Vec<Place>,
) -> Result<(), Memory>
    requires of_model { IsFrontOf model.now.model front.now }
    requires stage { front.now.front.stage < front.now.horizon }
    requires game { IsGameOf model.now.model front.now.horizon look front.now.front game.old }
    requires agent { agent < length front.now.front.agents }
    ensures places { IfOk result (λ _. map place_of places.new.items ≡ map place_of places.old.items
        ++ told_places spreads (agent_places_of (arithmetic front.now.is_exact model.now.model.scales)
        model.now.model front.now.horizon look front.now.front agent)) }
    ensures game { OnOk result (game.new ≡ game.old) }
    ensures few { IfOk result (λ _. length places.new.items ≤ length places.old.items + own_count front.now agent) }
{
    model.invariant();
    front.invariant();
    let weights = class_weights_of(alloc, front, agent)?;
    for class in 0..front.classes(agent) {
        if front.action(agent, class).is_none() {
            let weight = weights[class as usize];
            let spread = told_spread(model, front, game, look, spreads, agent, class);
            places.push(Place {
                agent,
                class,
                weight,
                spread,
            })?;
        }
    }
    Ok(())
}

// For each class of an agent the upper weights of the joint classes in which it takes part.
fn class_weights_of(alloc: Global, front: &Front, agent: u32) -> Result<Vec<i128>, Memory>
    requires stage { front.now.front.stage < front.now.horizon }
    requires some_state { 0 < front.now.states }
    requires some_class { 0 < product (class_counts front.now.front.agents) }
    requires agent { agent < length front.now.front.agents }
    requires small { nat_sum (product (class_counts front.now.front.agents)) (upper_size front.now) < 2 ^ 127 }
    ensures one_each { IfOk result (λ v. length v.items ≡ own_count front.now agent) }
    ensures are { IfOk result (λ v. (c : ℕ) → c < own_count front.now agent → get_or v.items c (pos 0)
        ≡ kept_upper_weight front.now agent c (product (class_counts front.now.front.agents))) }
{
    let count = front.classes(agent) as usize;
    let width = width_behind(front, agent);
    let mut weights = Vec::from_elem(alloc, 0i128, count)?;
    let mut place = ClassPlace {
        class: 0,
        inside: 0,
    };
    for joint in 0..front.joint_classes() {
        weights[place.class] += upper_sum(front.class_weights(joint));
        place = next_place(place, count, width);
    }
    Ok(weights)
}

// The class of an agent in a joint class, and how many joint classes stand before this one in its run: those with
// one class of the agent stand in runs.
#[derive(Clone, Copy)]
struct ClassPlace {
    class: usize,
    inside: usize,
}

// The same for the next joint class, where runs are `width` long and the agent has `count` classes.
#[inline]
fn next_place(place: ClassPlace, count: usize, width: usize) -> ClassPlace
    requires class { place.class < count }
    requires inside { place.inside < width }
    ensures { (C : ℕ) → place.class ≡ C / width % count → place.inside ≡ C % width →
        (result.class ≡ (C + 1) / width % count) × (result.inside ≡ (C + 1) % width) }
{
    let ClassPlace { class, inside } = place;
    if inside + 1 < width {
        return ClassPlace {
            class,
            inside: inside + 1,
        };
    }
    let next = if class + 1 < count { class + 1 } else { 0 };
    ClassPlace {
        class: next,
        inside: 0,
    }
}

// How many joint classes the agents behind an agent have.
fn width_behind(front: &Front, agent: u32) -> usize
    requires stage { front.now.front.stage < front.now.horizon }
    requires some_state { 0 < front.now.states }
    requires some_class { 0 < product (class_counts front.now.front.agents) }
    requires agent { agent < length front.now.front.agents }
    ensures { result ≡ behind front.now agent }
{
    front.invariant();
    let mut width = front.joint_classes();
    for before in 0..agent + 1 {
        width = width / front.classes(before) as usize;
    }
    width
}

// The upper ends of weights together.
fn upper_sum(weights: &[Span]) -> i128
    requires small { nat_sum (length weights.now) (λ s. unsigned_abs (weights_of weights.now s).high) < 2 ^ 127 }
    ensures { result ≡ int_sum (length weights.now) (λ s. (weights_of weights.now s).high) }
{
    let mut total = 0i128;
    for weight in weights {
        total += weight.high;
    }
    total
}

// How far a choice for an unassigned class may lower the bound, where spreads are told, else 0. The game is
// left as it was.
fn told_spread(
    model: &Model,
    front: &Front,
    game: &mut Game,
    look: u32,
    spreads: bool,
    agent: u32,
    class: u32,
) -> u128
    requires of_model { IsFrontOf model.now.model front.now }
    requires stage { front.now.front.stage < front.now.horizon }
    requires game { IsGameOf model.now.model front.now.horizon look front.now.front game.old }
    requires agent { agent < length front.now.front.agents }
    requires class { class < own_count front.now agent }
    requires unassigned { choice_at front.now.front.agents agent class ≡ None }
    ensures is { pos result ≡ spread_told spreads (spread_of (arithmetic front.now.is_exact model.now.model.scales)
        model.now.model front.now.horizon look front.now.front agent class) }
    ensures game { game.new ≡ game.old }
{
    if spreads {
        spread_of_class(model, front, game, look, agent, class)
    } else {
        0
    }
}

// How far a choice for an unassigned class may lower the bound. The game is left as it was.
fn spread_of_class(
    model: &Model,
    front: &Front,
    game: &mut Game,
    look: u32,
    agent: u32,
    class: u32,
) -> u128
    requires of_model { IsFrontOf model.now.model front.now }
    requires stage { front.now.front.stage < front.now.horizon }
    requires game { IsGameOf model.now.model front.now.horizon look front.now.front game.old }
    requires agent { agent < length front.now.front.agents }
    requires class { class < own_count front.now agent }
    requires unassigned { choice_at front.now.front.agents agent class ≡ None }
    ensures is { pos result ≡ spread_of (arithmetic front.now.is_exact model.now.model.scales) model.now.model
        front.now.horizon look front.now.front agent class }
    ensures game { game.new ≡ game.old }
{
    let bound = game.bound();
    let mut least = bound;
    for action in 0..model.actions(agent) {
        game.choose(agent, class, action);
        least = lesser(least, game.bound());
        game.unchoose(agent, class);
    }
    distance(bound, least)
}

// The lesser of two bounds.
fn lesser(a: i128, b: i128) -> i128
    ensures { result ≡ int_min a b }
{
    if a <= b { a } else { b }
}

// How far a bound is above another.
fn distance(bound: i128, least: i128) -> u128
    requires { least ≤ℤ bound }
    ensures { pos result ≡ bound +ℤ neg_ℤ least }
{
    if least < 0 && 0 <= bound {
        bound.unsigned_abs() + least.unsigned_abs()
    } else {
        (bound - least).unsigned_abs()
    }
}
