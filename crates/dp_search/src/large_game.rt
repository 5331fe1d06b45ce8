//! A large game: a choice, and taking it back, scan only the joint classes that take part in it.
//!
//! The game keeps `9 * 2^18` entries, of which a choice reads `2^10`. A game that scanned the joint classes
//! at each choice would be some hundred times slower.
ghost use Rattle.std.specs.Prelude.{◌≡◌, ◌<◌, ◌≤◌, true, [], length, get_or, slice_index, IfOk, IfSome};
ghost use Rattle.dp_spec.specs.Front.{class_counts};
ghost use Rattle.dp_spec.specs.Mode.{IsTrueFit};
ghost use Rattle.dp_spec.specs.Steps.{IsUnassigned};
ghost use Rattle.dp_search.specs.FrontPlanners.{IsPlannerFront};

use crate::bounding::after_choice;
use crate::expansion::chosen_bound;
use dp_base::Memory;
use dp_cluster::Front;
use dp_game::{Bounder, Game};
use dp_model::{Cells, Fit, Model, Names, Sequence, Sizes, fits_two};
use dp_spec::Scales;
use std::alloc::Global;
use std::test::Fail;

// The classes of each agent at the last stage.
const CLASSES: u32 = 512;

const ROUNDS: u32 = 100_000;

// What is earned before the last stage, `9 * 2^20`, and 12 for each of its `2^18` joint classes. With action 0
// for a class, the `2^9` joint classes that it takes part in have 4 each.
const WHOLE: i128 = 12_582_912;

const FALLEN: i128 = 12_578_816;

#[test]
fn a_choice_scans_what_it_touches(rt: HostRuntime) -> Result<(), Fail> {
    let holds = crowd_has_bounds(rt.alloc())?;
    assert!(rt; holds);
    Ok(())
}

// Whether over ten steps, which are exact, the bounds of the large game are as they should.
fn crowd_has_bounds(alloc: Global) -> Result<bool, Memory> {
    let model = crowd(alloc)?;
    match fits_two(&model, 10) {
        Ok(fit) if fit.exact => model_has_bounds(alloc, &model, fit),
        _ => Ok(false),
    }
}

// The same for a model over a horizon.
fn model_has_bounds(alloc: Global, model: &Model, fit: Fit) -> Result<bool, Memory>
    requires { IsTrueFit model.now.model fit.horizon fit.exact fit.unit }
{
    match reached(alloc, model, fit)? {
        Some(front) => front_has_bounds(alloc, model, fit, &front),
        None => Ok(false),
    }
}

// One state, and two agents with two actions and two observations each. Every joint observation is as
// likely as another. Action 0 of both is worth 1, action 1 of both 3, and else nothing.
fn crowd(alloc: Global) -> Result<Model, Memory> {
    let sizes = Sizes {
        states: 1,
        actions: Sequence::of(vec![in alloc; 2, 2]?),
        observations: Sequence::of(vec![in alloc; 2, 2]?),
    };
    let scales = Scales {
        start: 1,
        trans: 1,
        obs: 4,
        reward: 1,
        discount: 1,
        gain: 1,
    };
    let cells = Cells {
        start: Sequence::of(vec![in alloc; 1]?),
        trans: Sequence::of(vec![in alloc; 1, 1, 1, 1]?),
        obs: Sequence::of(vec![in alloc; 1, 1, 1, 1, 1, 1, 1, 1, 1, 1, 1, 1, 1, 1, 1, 1]?),
        reward: Sequence::of(vec![in alloc; 1, 1, 1, 1, 0, 0, 0, 0, 0, 0, 0, 0, 3, 3, 3, 3]?),
    };
    let names = Names::counts(alloc, 2)?;
    Ok(Model::build(sizes, names, scales, cells))
}

// The front after all choices before the last stage, each of action 0; none where one cannot be made.
fn reached(alloc: Global, model: &Model, fit: Fit) -> Result<Option<Front>, Memory>
    requires { IsTrueFit model.now.model fit.horizon fit.exact fit.unit }
    ensures { IfOk result (λ o. IfSome o (IsPlannerFront model.now.model fit.horizon)) }
{
    let mut front = Front::root(alloc, model, fit)?;
    for _choice in 0..1022 {
        front = match after_first(alloc, model, &front)? {
            Some(next) => next,
            None => return Ok(None),
        };
    }
    Ok(Some(front))
}

// The front after action 0 for the first class that has none.
fn after_first(alloc: Global, model: &Model, front: &Front) -> Result<Option<Front>, Memory>
    requires { IsPlannerFront model.now.model front.now.horizon front.now }
    ensures { IfOk result (λ o. IfSome o (IsPlannerFront model.now.model front.now.horizon)) }
{
    for agent in 0..front.agents() {
        if let Some(class) = free_class(front, agent) {
            return after_zero(alloc, model, front, agent, class);
        }
    }
    Ok(None)
}

// The first class of an agent that has no action.
fn free_class(front: &Front, agent: u32) -> Option<u32>
    requires { agent < length front.now.front.agents }
    ensures { IfSome result (λ c. IsUnassigned agent c front.now.front.agents) }
{
    for class in 0..front.classes(agent) {
        if front.action(agent, class).is_none() {
            return Some(class);
        }
    }
    None
}

// The front after action 0 for a class that has none.
fn after_zero(
    alloc: Global,
    model: &Model,
    front: &Front,
    agent: u32,
    class: u32,
) -> Result<Option<Front>, Memory>
    requires front { IsPlannerFront model.now.model front.now.horizon front.now }
    requires unassigned { IsUnassigned agent class front.now.front.agents }
    ensures { IfOk result (λ o. IfSome o (IsPlannerFront model.now.model front.now.horizon)) }
{
    if front.stage() >= front.horizon() || front.is_wide(model, 0) {
        return Ok(None);
    }
    let next = after_choice(alloc, model, front, agent, class, 0)?;
    Ok(Some(next))
}

// Whether the front is at the last stage of ten, and both agents have so many classes there.
fn is_large(front: &Front) -> bool
    ensures stage { result ≡ true → front.now.front.stage < front.now.horizon }
    ensures agents { result ≡ true → length front.now.front.agents ≡ 2 }
    ensures first { result ≡ true → 512 ≤ get_or (class_counts front.now.front.agents) 0 0 }
    ensures second { result ≡ true → 512 ≤ get_or (class_counts front.now.front.agents) 1 0 }
{
    if front.stage() != 9 || front.horizon() != 10 || front.agents() != 2 {
        return false;
    }
    front.classes(0) == CLASSES && front.classes(1) == CLASSES
}

// The same for the front of the last stage.
fn front_has_bounds(alloc: Global, model: &Model, fit: Fit, front: &Front) -> Result<bool, Memory>
    requires fit { IsTrueFit model.now.model fit.horizon fit.exact fit.unit }
    requires front { IsPlannerFront model.now.model fit.horizon front.now }
{
    if !is_large(front) {
        return Ok(false);
    }
    let bounder = Bounder::new(alloc, model, fit, 1)?;
    let mut game = Game::of(alloc, model, front, &bounder)?;
    if game.bound() != WHOLE {
        return Ok(false);
    }
    let first = falls_each_time(&mut game, 0);
    let second = falls_each_time(&mut game, 1);
    Ok(first && second)
}

// Whether the bound falls with each choice for a class of an agent, and is again what it was after it is taken back.
fn falls_each_time(game: &mut Game, agent: u32) -> bool
    requires agent { agent < length game.old.choices }
    requires classes { 512 ≤ length (get_or game.old.choices agent []) }
    requires action { 0 < slice_index game.old.actions agent }
    ensures { game.new ≡ game.old }
{
    for round in 0..ROUNDS {
        if !falls(game, agent, round % CLASSES) {
            return false;
        }
    }
    true
}

// The same for one class.
fn falls(game: &mut Game, agent: u32, class: u32) -> bool
    requires agent { agent < length game.old.choices }
    requires class { class < length (get_or game.old.choices agent []) }
    requires action { 0 < slice_index game.old.actions agent }
    ensures { game.new ≡ game.old }
{
    if game.choice(agent, class).is_some() {
        return false;
    }
    chosen_bound(game, agent, class, 0) == FALLEN && game.bound() == WHOLE
}
