//! The step that is made at a front, with the fronts after it and their bounds.
ghost use Rattle.std.specs.Prelude.{◌≡◌, ◌<◌, ◌∷◌, [], ℕ, Bool, true, false, All, None, length, map, get_or};
ghost use Rattle.std.specs.Prelude.{IfOk, IfSome, OnOk, slice_index};
ghost use Rattle.std.specs.List.{range_with_len};
ghost use Rattle.dp_spec.specs.Front.{Front as PlainFront};
ghost use Rattle.dp_spec.specs.Merge.{merged_front};
ghost use Rattle.dp_spec.specs.Mode.{is_exact_mode};
ghost use Rattle.dp_spec.specs.Model.{Model as PlainModel};
ghost use Rattle.dp_spec.specs.Pairs.{IsPair};
ghost use Rattle.dp_spec.specs.Qualities.{HasNoEquivalent};
ghost use Rattle.dp_spec.specs.Steps.{IsUnassigned, chosen_front, front_after_choice, is_complete};
ghost use Rattle.dp_spec.specs.Wide.{is_wide, unassigned_count};
ghost use Rattle.dp_spec.specs.declared.step.Step.TheVariants.{Merge};
ghost use Rattle.dp_model.specs.Horizons.{fit_of};
ghost use Rattle.dp_cluster.specs.KeptFronts.{IsFrontOf};
ghost use Rattle.dp_pomdp.specs.Rooms.{IsRoomFor};
ghost use Rattle.dp_game.specs.Bounders.{IsBounderOf};
ghost use Rattle.dp_game.specs.Games.{IsGameOf, own_choice};
ghost use Rattle.dp_search.specs.declared.planner.Child.{Child as SpecChild};
ghost use Rattle.dp_search.specs.Completions.{bound_after};
ghost use Rattle.dp_search.specs.Expansions.{IsChild, mode_bound};
ghost use Rattle.dp_search.specs.FrontPlanners.{IsPlannerFront, planner_space, widest};
ghost use Rattle.dp_search.specs.FrontPlanning.{IsSearchFront};
ghost use Rattle.dp_search.specs.HeldFronts.{IsExpansion, IsHeldChild, IsHeldFront, front_meant};
ghost use Rattle.dp_search.specs.MadeFronts.{AreMade, IsSearchRoom, IsStart};
ghost use Rattle.dp_search.specs.Paths.{IsPath, path_front};
ghost use Rattle.dp_search.specs.declared.held_front.HeldFront.{HeldFront as SpecHeld};
ghost use Rattle.dp_search.specs.Rules.{IsBranchingRule, MayAnswer};

use crate::bounding::{after_choice, own_bound};
use crate::chooser::Chooser;
use crate::front_places::told_places;
use crate::held_front::HeldFront;
use crate::last_choice::{is_last_step, last_children};
use crate::look::copied;
use crate::made_fronts::{MadeFront, MadeFronts};
use crate::making::{Start, start_at};
use crate::options::PlanOpts;
use crate::path::{Choice, Pair, Path};
use crate::place::Place;
use crate::planner::{Child, Expanded};
use crate::room::SearchRoom;
use dp_base::Memory;
use dp_cluster::{Front, MergeFault};
use dp_game::{Bounder, Game};
use dp_model::Model;
use dp_pomdp::LookRoom;
use dp_spec::Step;
use std::alloc::Global;
use std::rc::Rc;

/// The step that is made at a held front before the horizon that is not wide, with the fronts after it
/// and their bounds. Where classes are merged and two of an agent can be, it merges the least pair of the
/// first such agent; else it branches on the place that the rule answers. The only error is want of
/// memory.
pub(crate) fn expanded<F: Fn(&[Place]) -> usize>(
    alloc: Global,
    model: &Model,
    bounder: &Bounder,
    options: PlanOpts,
    rule: &Chooser<F>,
    held: &HeldFront,
    room: &mut SearchRoom,
) -> Result<Expanded<HeldFront>, Memory>
    requires bounder { IsBounderOf model.now.model bounder.now }
    requires look { bounder.now.look ≡ options.look }
    requires held { IsHeldFront model.now.model bounder.now.horizon options.look options.merge held.now }
    requires stage { (front_meant model.now.model held.now).stage < bounder.now.horizon }
    requires narrow { (above : ℕ) ×
        (is_wide model.now.model bounder.now.horizon above (front_meant model.now.model held.now) ≡ false) }
    requires rule { IsBranchingRule F.Fn rule.now.rule }
    requires room { IsSearchRoom bounder.now.is_exact model.now.model bounder.now.horizon bounder.now.look
        options.merge room.old }
    ensures is { IfOk result (IsExpansion
        (planner_space model.now.model (fit_of model.now.model bounder.now.horizon) options
        (MayAnswer F.Fn rule.now))
        model.now.model bounder.now.horizon options.look (widest model.now.model.actions) options.merge
        (front_meant model.now.model held.now)) }
    ensures room { OnOk result (IsSearchRoom bounder.now.is_exact model.now.model bounder.now.horizon
        bounder.now.look options.merge room.new) }
{
    let path = &held.path;
    let start = start_at(alloc, model, bounder, options.merge, path, room)?;
    let bound = copied(&held.bound);
    expanded_at(
        alloc, model, bounder, options, rule, path, start, bound, room,
    )
}

// The same at the front that a path leads to, with its bound.
fn expanded_at<F: Fn(&[Place]) -> usize>(
    alloc: Global,
    model: &Model,
    bounder: &Bounder,
    options: PlanOpts,
    rule: &Chooser<F>,
    path: &Rc<Path>,
    start: Start,
    bound: i128,
    room: &mut SearchRoom,
) -> Result<Expanded<HeldFront>, Memory>
    requires bounder { IsBounderOf model.now.model bounder.now }
    requires look { bounder.now.look ≡ options.look }
    requires path { IsPath model.now.model bounder.now.horizon options.merge path.now.value }
    requires start { IsStart model.now.model bounder.now.horizon bounder.now.look options.merge
        (path_front model.now.model path.now.value) start }
    requires unfinished { is_complete start.front.value.front.agents ≡ false }
    requires stage { start.front.value.front.stage < bounder.now.horizon }
    requires narrow { (above : ℕ) ×
        (is_wide model.now.model bounder.now.horizon above start.front.value.front ≡ false) }
    requires bound { bound ≡ mode_bound model.now.model bounder.now.horizon options.look
        start.front.value.front }
    requires rule { IsBranchingRule F.Fn rule.now.rule }
    requires room { IsSearchRoom bounder.now.is_exact model.now.model bounder.now.horizon bounder.now.look
        options.merge room.old }
    ensures is { IfOk result (IsExpansion
        (planner_space model.now.model (fit_of model.now.model bounder.now.horizon) options
        (MayAnswer F.Fn rule.now))
        model.now.model bounder.now.horizon options.look (widest model.now.model.actions) options.merge
        start.front.value.front) }
    ensures room { OnOk result (IsSearchRoom bounder.now.is_exact model.now.model bounder.now.horizon
        bounder.now.look options.merge room.new) }
{
    let front = start.front.as_ref();
    match pair_at(alloc, front, options.merge, start.settled)? {
        Some(pair) => merged(alloc, model, path, front, pair, bound, &mut room.made),
        None => branched(alloc, model, bounder, options, rule, path, start, room),
    }
}

// The pair that is merged, if it is not known that there is none.
fn pair_at(
    alloc: Global,
    front: &Front,
    merging: bool,
    settled: bool,
) -> Result<Option<Pair>, Memory>
    requires of_model { (m : PlainModel) × (IsFrontOf m front.now) }
    requires stage { front.now.front.stage < front.now.horizon }
    ensures merging { IfOk result (λ o. IfSome o (λ _. merging ≡ true)) }
    ensures pair { IfOk result (λ o. IfSome o (λ p. (m : PlainModel) → IsFrontOf m front.now →
        IsPair m front.now.front p.agent p.first p.second)) }
    ensures exact { IfOk result (λ o. IfSome o (λ _. front.now.is_exact ≡ true)) }
    ensures none { IfOk result (λ o. o ≡ None → settled ≡ false → merging ≡ true →
        front.now.is_exact ≡ true → (m : PlainModel) → IsFrontOf m front.now →
        HasNoEquivalent m front.now.front) }
{
    if settled {
        Ok(None)
    } else {
        pair_to_merge(alloc, front, merging)
    }
}

/// The pair that is merged: where classes are merged, the least pair of the first agent that has one.
pub(crate) fn pair_to_merge(
    alloc: Global,
    front: &Front,
    merging: bool,
) -> Result<Option<Pair>, Memory>
    requires of_model { (m : PlainModel) × (IsFrontOf m front.now) }
    requires stage { front.now.front.stage < front.now.horizon }
    ensures merging { IfOk result (λ o. IfSome o (λ _. merging ≡ true)) }
    ensures pair { IfOk result (λ o. IfSome o (λ p. (m : PlainModel) → IsFrontOf m front.now →
        IsPair m front.now.front p.agent p.first p.second)) }
    ensures exact { IfOk result (λ o. IfSome o (λ _. front.now.is_exact ≡ true)) }
    ensures none { IfOk result (λ o. o ≡ None → merging ≡ true → front.now.is_exact ≡ true →
        (m : PlainModel) → IsFrontOf m front.now → HasNoEquivalent m front.now.front) }
{
    if merging {
        next_pair(alloc, front)
    } else {
        Ok(None)
    }
}

// The least pair of equivalent classes of the first agent that has one.
fn next_pair(alloc: Global, front: &Front) -> Result<Option<Pair>, Memory>
    requires of_model { (m : PlainModel) × (IsFrontOf m front.now) }
    requires stage { front.now.front.stage < front.now.horizon }
    ensures pair { IfOk result (λ o. IfSome o (λ p. (m : PlainModel) → IsFrontOf m front.now →
        IsPair m front.now.front p.agent p.first p.second)) }
    ensures exact { IfOk result (λ o. IfSome o (λ _. front.now.is_exact ≡ true)) }
    ensures none { IfOk result (λ o. o ≡ None → front.now.is_exact ≡ true →
        (m : PlainModel) → IsFrontOf m front.now → HasNoEquivalent m front.now.front) }
{
    for agent in 0..front.agents() {
        if let Some((first, second)) = front.next_equal(alloc, agent)? {
            return Ok(Some(Pair {
                agent,
                first,
                second,
            }));
        }
    }
    Ok(None)
}

/// The front after the merge of two classes that can be merged. The only fault is want of memory.
pub(crate) fn joined(alloc: Global, front: &Front, pair: Pair) -> Result<Front, Memory>
    requires pair { (m : PlainModel) × (IsFrontOf m front.now × IsPair m front.now.front pair.agent pair.first
        pair.second) }
    requires exact { front.now.is_exact ≡ true }
    requires stage { front.now.front.stage < front.now.horizon }
    ensures front { IfOk result (λ f.
        f.front ≡ merged_front front.now.front pair.agent pair.first pair.second) }
    ensures horizon { IfOk result (λ f. f.horizon ≡ front.now.horizon) }
    ensures of_model { IfOk result (λ f. (m : PlainModel) → IsFrontOf m front.now → IsFrontOf m f) }
{
    match front.merge(alloc, pair.agent, pair.first, pair.second) {
        Ok(next) => Ok(next),
        Err(fault) => match fault {
            MergeFault::Memory => Err(Memory),
            _ => unreachable!(),
        },
    }
}

// The merge of two classes of the front that a path leads to, with the front after it, which has the same
// bound. Nothing else comes from the front before it, which is not kept any more.
fn merged(
    alloc: Global,
    model: &Model,
    path: &Rc<Path>,
    front: &Front,
    pair: Pair,
    bound: i128,
    made: &mut MadeFronts,
) -> Result<Expanded<HeldFront>, Memory>
    requires of_model { IsFrontOf model.now.model front.now }
    requires path { path_front model.now.model path.now.value ≡ front.now.front }
    requires stage { front.now.front.stage < front.now.horizon }
    requires pair { IsPair model.now.model front.now.front pair.agent pair.first pair.second }
    requires exact { front.now.is_exact ≡ true }
    ensures step { IfOk result (λ x. x.step ≡ Merge pair.agent pair.first pair.second) }
    ensures fronts { IfOk result (λ x. map (λ (c : SpecChild SpecHeld). front_meant model.now.model c.front)
        x.children.items ≡ merged_front front.now.front pair.agent pair.first pair.second ∷ []) }
    ensures children { IfOk result (λ x. (h look : ℕ) (merging : Bool) →
        IsPlannerFront model.now.model h front.now → IsPath model.now.model h merging path.now.value →
        bound ≡ mode_bound model.now.model h look front.now.front →
        All (IsHeldChild model.now.model h look merging) x.children.items) }
    ensures made { OnOk result ((h look : ℕ) (merging : Bool) → IsPlannerFront model.now.model h front.now →
        AreMade model.now.model h look merging made.old → AreMade model.now.model h look merging made.new) }
{
    let next = joined(alloc, front, pair)?;
    let next = Rc::new(alloc, next)?;
    let after = Path::merged(path, pair)?;
    let after = Rc::new(alloc, after)?;
    let kept = MadeFront {
        front: next.clone()?,
        game: None,
        settled: false,
    };
    made.forget(path.as_ref());
    made.keep(model, &after, kept)?;
    let held = HeldFront::of(model, after, next, bound);
    let mut children = Vec::new(alloc);
    children.push(Child { front: held, bound })?;
    Ok(Expanded {
        step: Step::Merge {
            agent: pair.agent,
            first: pair.first,
            second: pair.second,
        },
        children,
    })
}

// The branch on the place that the rule answers, with the fronts after it. The first front of a stage is kept with
// its game: the others of the stage follow from it.
fn branched<F: Fn(&[Place]) -> usize>(
    alloc: Global,
    model: &Model,
    bounder: &Bounder,
    options: PlanOpts,
    rule: &Chooser<F>,
    path: &Rc<Path>,
    start: Start,
    room: &mut SearchRoom,
) -> Result<Expanded<HeldFront>, Memory>
    requires bounder { IsBounderOf model.now.model bounder.now }
    requires look { bounder.now.look ≡ options.look }
    requires path { IsPath model.now.model bounder.now.horizon options.merge path.now.value }
    requires start { IsStart model.now.model bounder.now.horizon bounder.now.look options.merge
        (path_front model.now.model path.now.value) start }
    requires stage { start.front.value.front.stage < bounder.now.horizon }
    requires unfinished { is_complete start.front.value.front.agents ≡ false }
    requires narrow { (above : ℕ) ×
        (is_wide model.now.model bounder.now.horizon above start.front.value.front ≡ false) }
    requires rule { IsBranchingRule F.Fn rule.now.rule }
    requires no_pair { options.merge ≡ true → is_exact_mode model.now.model bounder.now.horizon ≡ true →
        HasNoEquivalent model.now.model start.front.value.front }
    requires room { IsSearchRoom bounder.now.is_exact model.now.model bounder.now.horizon bounder.now.look
        options.merge room.old }
    ensures is { IfOk result (IsExpansion
        (planner_space model.now.model (fit_of model.now.model bounder.now.horizon) options
        (MayAnswer F.Fn rule.now))
        model.now.model bounder.now.horizon options.look (widest model.now.model.actions) options.merge
        start.front.value.front) }
    ensures room { OnOk result (IsSearchRoom bounder.now.is_exact model.now.model bounder.now.horizon
        bounder.now.look options.merge room.new) }
{
    let Start {
        front,
        game,
        settled,
    } = start;
    let mut game = own_game(alloc, model, bounder, front.as_ref(), game, &mut room.look)?;
    let expanded = branched_at(
        alloc,
        model,
        bounder,
        options,
        rule,
        path,
        front.as_ref(),
        &mut game,
        &mut room.look,
    )?;
    if settled {
        return Ok(expanded);
    }
    let made = MadeFront {
        front,
        game: Some(Rc::new(alloc, game)?),
        settled,
    };
    room.made.keep(model, path, made)?;
    Ok(expanded)
}

/// The game of a front: the one that is given, or one that is made.
pub(crate) fn own_game(
    alloc: Global,
    model: &Model,
    bounder: &Bounder,
    front: &Front,
    game: Option<Game>,
    room: &mut LookRoom,
) -> Result<Game, Memory>
    requires bounder { IsBounderOf model.now.model bounder.now }
    requires front { IsPlannerFront model.now.model bounder.now.horizon front.now }
    requires stage { front.now.front.stage < bounder.now.horizon }
    requires game { IfSome game (IsGameOf model.now.model bounder.now.horizon bounder.now.look front.now.front) }
    requires look_room { IsRoomFor bounder.now.is_exact model.now.model bounder.now.look room.old }
    ensures is { IfOk result (IsGameOf model.now.model bounder.now.horizon bounder.now.look front.now.front) }
    ensures look_room { IsRoomFor bounder.now.is_exact model.now.model bounder.now.look room.new }
{
    match game {
        Some(game) => Ok(game),
        None => {
            let made = Game::with_room(alloc, model, front, bounder, room)?;
            Ok(made)
        }
    }
}

// The branch at a front that a path leads to, on the place that the rule answers. `game` is the game of the
// front, and is left as it was.
fn branched_at<F: Fn(&[Place]) -> usize>(
    alloc: Global,
    model: &Model,
    bounder: &Bounder,
    options: PlanOpts,
    rule: &Chooser<F>,
    path: &Rc<Path>,
    front: &Front,
    game: &mut Game,
    room: &mut LookRoom,
) -> Result<Expanded<HeldFront>, Memory>
    requires bounder { IsBounderOf model.now.model bounder.now }
    requires look { bounder.now.look ≡ options.look }
    requires path { IsPath model.now.model bounder.now.horizon options.merge path.now.value }
    requires at { path_front model.now.model path.now.value ≡ front.now.front }
    requires front { IsPlannerFront model.now.model bounder.now.horizon front.now }
    requires stage { front.now.front.stage < bounder.now.horizon }
    requires unfinished { is_complete front.now.front.agents ≡ false }
    requires narrow { (above : ℕ) ×
        (is_wide model.now.model bounder.now.horizon above front.now.front ≡ false) }
    requires game { IsGameOf model.now.model bounder.now.horizon bounder.now.look front.now.front game.old }
    requires rule { IsBranchingRule F.Fn rule.now.rule }
    requires no_pair { options.merge ≡ true → is_exact_mode model.now.model bounder.now.horizon ≡ true →
        HasNoEquivalent model.now.model front.now.front }
    requires look_room { IsRoomFor bounder.now.is_exact model.now.model bounder.now.look room.old }
    ensures is { IfOk result (IsExpansion
        (planner_space model.now.model (fit_of model.now.model bounder.now.horizon) options
        (MayAnswer F.Fn rule.now))
        model.now.model bounder.now.horizon options.look (widest model.now.model.actions) options.merge
        front.now.front) }
    ensures game { OnOk result (game.new ≡ game.old) }
    ensures look_room { IsRoomFor bounder.now.is_exact model.now.model bounder.now.look room.new }
{
    let all = told_places(alloc, model, front, game, options.look, rule.spreads())?;
    let place = all[rule.pick(&all)];
    let one = all.len() == 1;
    let children = children_at(
        alloc,
        model,
        bounder,
        path,
        front,
        game,
        place.agent,
        place.class,
        one,
        room,
    )?;
    Ok(Expanded {
        step: Step::Branch {
            agent: place.agent,
            class: place.class,
        },
        children,
    })
}

// The fronts after the actions for a class, in order, with their bounds. `game` is the game of the front.
// `one` says whether the class is the only one without an action.
fn children_at(
    alloc: Global,
    model: &Model,
    bounder: &Bounder,
    path: &Rc<Path>,
    front: &Front,
    game: &mut Game,
    agent: u32,
    class: u32,
    one: bool,
    room: &mut LookRoom,
) -> Result<Vec<Child<HeldFront>>, Memory>
    requires bounder { IsBounderOf model.now.model bounder.now }
    requires path { path_front model.now.model path.now.value ≡ front.now.front }
    requires front { IsPlannerFront model.now.model bounder.now.horizon front.now }
    requires stage { front.now.front.stage < bounder.now.horizon }
    requires narrow { (above : ℕ) ×
        (is_wide model.now.model bounder.now.horizon above front.now.front ≡ false) }
    requires game { IsGameOf model.now.model bounder.now.horizon bounder.now.look front.now.front game.old }
    requires unassigned { IsUnassigned agent class front.now.front.agents }
    requires one { one ≡ true → unassigned_count front.now.front.agents ≡ 1 }
    requires look_room { IsRoomFor bounder.now.is_exact model.now.model bounder.now.look room.old }
    ensures fronts { IfOk result (λ v. map (λ (c : SpecChild SpecHeld). front_meant model.now.model c.front) v.items
        ≡ map (front_after_choice model.now.model front.now.front agent class)
        (range_with_len 0 (get_or model.now.model.actions agent 0))) }
    ensures children { IfOk result (λ v. (merging : Bool) →
        IsPath model.now.model bounder.now.horizon merging path.now.value → (merging ≡ true →
        is_exact_mode model.now.model bounder.now.horizon ≡ true →
        HasNoEquivalent model.now.model front.now.front) →
        All (IsHeldChild model.now.model bounder.now.horizon bounder.now.look merging) v.items) }
    ensures game { OnOk result (game.new ≡ game.old) }
    ensures look_room { IsRoomFor bounder.now.is_exact model.now.model bounder.now.look room.new }
{
    if is_last_step(bounder, front, one) {
        last_children(alloc, model, bounder, path, front, agent, class, room)
    } else {
        children_of(alloc, model, bounder, path, front, game, agent, class, room)
    }
}

// The fronts after the actions for a class, in order, with their bounds. `game` is the game of the front,
// and is left as it was.
fn children_of(
    alloc: Global,
    model: &Model,
    bounder: &Bounder,
    path: &Rc<Path>,
    front: &Front,
    game: &mut Game,
    agent: u32,
    class: u32,
    room: &mut LookRoom,
) -> Result<Vec<Child<HeldFront>>, Memory>
    requires bounder { IsBounderOf model.now.model bounder.now }
    requires path { path_front model.now.model path.now.value ≡ front.now.front }
    requires front { IsPlannerFront model.now.model bounder.now.horizon front.now }
    requires stage { front.now.front.stage < bounder.now.horizon }
    requires narrow { (above : ℕ) ×
        (is_wide model.now.model bounder.now.horizon above front.now.front ≡ false) }
    requires game { IsGameOf model.now.model bounder.now.horizon bounder.now.look front.now.front game.old }
    requires unassigned { IsUnassigned agent class front.now.front.agents }
    requires look_room { IsRoomFor bounder.now.is_exact model.now.model bounder.now.look room.old }
    ensures fronts { IfOk result (λ v. map (λ (c : SpecChild SpecHeld). front_meant model.now.model c.front) v.items
        ≡ map (front_after_choice model.now.model front.now.front agent class)
        (range_with_len 0 (get_or model.now.model.actions agent 0))) }
    ensures children { IfOk result (λ v. (merging : Bool) →
        IsPath model.now.model bounder.now.horizon merging path.now.value → (merging ≡ true →
        is_exact_mode model.now.model bounder.now.horizon ≡ true →
        HasNoEquivalent model.now.model front.now.front) →
        All (IsHeldChild model.now.model bounder.now.horizon bounder.now.look merging) v.items) }
    ensures game { OnOk result (game.new ≡ game.old) }
    ensures look_room { IsRoomFor bounder.now.is_exact model.now.model bounder.now.look room.new }
{
    let mut children = Vec::new(alloc);
    for action in 0..model.actions(agent) {
        let choice = Choice {
            agent,
            class,
            action,
        };
        let child = held_child_of(alloc, model, bounder, path, front, game, choice, room)?;
        children.push(child)?;
    }
    Ok(children)
}

// The front after a choice, held, with its bound. `game` is the game of the front before, and is left as it
// was.
fn held_child_of(
    alloc: Global,
    model: &Model,
    bounder: &Bounder,
    path: &Rc<Path>,
    front: &Front,
    game: &mut Game,
    choice: Choice,
    room: &mut LookRoom,
) -> Result<Child<HeldFront>, Memory>
    requires bounder { IsBounderOf model.now.model bounder.now }
    requires path { path_front model.now.model path.now.value ≡ front.now.front }
    requires front { IsPlannerFront model.now.model bounder.now.horizon front.now }
    requires stage { front.now.front.stage < bounder.now.horizon }
    requires narrow { (above : ℕ) ×
        (is_wide model.now.model bounder.now.horizon above front.now.front ≡ false) }
    requires game { IsGameOf model.now.model bounder.now.horizon bounder.now.look front.now.front game.old }
    requires unassigned { IsUnassigned choice.agent choice.class front.now.front.agents }
    requires action { choice.action < get_or model.now.model.actions choice.agent 0 }
    requires look_room { IsRoomFor bounder.now.is_exact model.now.model bounder.now.look room.old }
    ensures front { IfOk result (λ c. front_meant model.now.model c.front ≡
        front_after_choice model.now.model front.now.front choice.agent choice.class choice.action) }
    ensures child { IfOk result (λ c. (merging : Bool) →
        IsPath model.now.model bounder.now.horizon merging path.now.value → (merging ≡ true →
        is_exact_mode model.now.model bounder.now.horizon ≡ true →
        HasNoEquivalent model.now.model front.now.front) →
        IsHeldChild model.now.model bounder.now.horizon bounder.now.look merging c) }
    ensures game { OnOk result (game.new ≡ game.old) }
    ensures look_room { IsRoomFor bounder.now.is_exact model.now.model bounder.now.look room.new }
{
    let child = child_of(
        alloc,
        model,
        bounder,
        front,
        game,
        choice.agent,
        choice.class,
        choice.action,
        room,
    )?;
    let bound = copied(&child.bound);
    let after = Path::chosen(path, choice)?;
    let after = Rc::new(alloc, after)?;
    let next = Rc::new(alloc, child.front)?;
    let held = HeldFront::of(model, after, next, bound);
    Ok(Child { front: held, bound })
}

// The front after an action for a class, with its bound. `game` is the game of the front before, and is
// left as it was: it gives the bound where the stage is the same.
fn child_of(
    alloc: Global,
    model: &Model,
    bounder: &Bounder,
    front: &Front,
    game: &mut Game,
    agent: u32,
    class: u32,
    action: u32,
    room: &mut LookRoom,
) -> Result<Child<Front>, Memory>
    requires bounder { IsBounderOf model.now.model bounder.now }
    requires front { IsPlannerFront model.now.model bounder.now.horizon front.now }
    requires stage { front.now.front.stage < bounder.now.horizon }
    requires narrow { (above : ℕ) ×
        (is_wide model.now.model bounder.now.horizon above front.now.front ≡ false) }
    requires game { IsGameOf model.now.model bounder.now.horizon bounder.now.look front.now.front game.old }
    requires unassigned { IsUnassigned agent class front.now.front.agents }
    requires action { action < get_or model.now.model.actions agent 0 }
    requires look_room { IsRoomFor bounder.now.is_exact model.now.model bounder.now.look room.old }
    ensures front { IfOk result (λ c.
        c.front.front ≡ front_after_choice model.now.model front.now.front agent class action) }
    ensures child { IfOk result (IsChild model.now.model bounder.now.horizon bounder.now.look) }
    ensures game { OnOk result (game.new ≡ game.old) }
    ensures look_room { IsRoomFor bounder.now.is_exact model.now.model bounder.now.look room.new }
{
    let next = after_choice(alloc, model, front, agent, class, action)?;
    if next.stage() == front.stage() {
        let bound = chosen_bound(game, agent, class, action);
        Ok(Child { front: next, bound })
    } else {
        let bound = own_bound(alloc, model, bounder, &next, room)?;
        Ok(Child { front: next, bound })
    }
}

/// The bound after an action for a class that has none, at the same stage. The game is left as it was.
pub(crate) fn chosen_bound(game: &mut Game, agent: u32, class: u32, action: u32) -> i128
    requires agent { agent < length game.old.choices }
    requires class { class < length (get_or game.old.choices agent []) }
    requires unassigned { own_choice game.old agent class ≡ None }
    requires action { action < slice_index game.old.actions agent }
    ensures is { result ≡ bound_after game.old agent class action }
    ensures bound { (m : PlainModel) (h look : ℕ) (F : PlainFront) → IsGameOf m h look F game.old →
        result ≡ mode_bound m h look (chosen_front F agent class action) }
    ensures game { game.new ≡ game.old }
{
    game.choose(agent, class, action);
    let bound = game.bound();
    game.unchoose(agent, class);
    bound
}
