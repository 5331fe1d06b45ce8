//! The fronts after the choice that is the last one of its stage.
ghost use Rattle.std.specs.Prelude.{◌≡◌, ◌<◌, ℕ, Bool, true, false, All, map, get_or, IfOk};
ghost use Rattle.std.specs.List.{range_with_len};
ghost use Rattle.dp_spec.specs.Mode.{is_exact_mode};
ghost use Rattle.dp_spec.specs.Model.{Model as PlainModel};
ghost use Rattle.dp_spec.specs.Qualities.{HasNoEquivalent};
ghost use Rattle.dp_spec.specs.Steps.{IsUnassigned, front_after_choice};
ghost use Rattle.dp_spec.specs.Wide.{is_wide, unassigned_count};
ghost use Rattle.dp_cluster.specs.KeptFronts.{IsFrontOf};
ghost use Rattle.dp_pomdp.specs.Rooms.{IsRoomFor};
ghost use Rattle.dp_game.specs.Bounders.{IsBounderOf};
ghost use Rattle.dp_game.specs.DeeperLooks.{AreDeeperLooksOf};
ghost use Rattle.dp_search.specs.declared.held_front.HeldFront.{HeldFront as SpecHeld};
ghost use Rattle.dp_search.specs.declared.planner.Child.{Child as SpecChild};
ghost use Rattle.dp_search.specs.FrontPlanners.{IsPlannerFront};
ghost use Rattle.dp_search.specs.Expansions.{mode_bound};
ghost use Rattle.dp_search.specs.HeldFronts.{IsHeldChild, front_meant};
ghost use Rattle.dp_search.specs.LastChoices.{IsLastStep};
ghost use Rattle.dp_search.specs.Paths.{IsPath, path_front};

use crate::held_front::HeldFront;
use crate::look::copied;
use crate::path::{Choice, Path};
use crate::planner::Child;
use dp_base::Memory;
use dp_cluster::Front;
use dp_game::{Bounder, DeeperLooks};
use dp_model::Model;
use dp_pomdp::LookRoom;
use std::alloc::Global;
use std::rc::Rc;

/// Whether a look of one step more bounds the fronts after a choice without making them: in exact mode, where
/// the choice is the last one of a stage that another one follows. `one` says that one class has no action.
/// With two agents or more the next stage has more than one such class, so that its fronts are not wide.
pub(crate) fn is_last_step(bounder: &Bounder, front: &Front, one: bool) -> bool
    requires of_model { (m : PlainModel) × (IsFrontOf m front.now) }
    requires one { one ≡ true → unassigned_count front.now.front.agents ≡ 1 }
    ensures { result ≡ true → IsLastStep bounder.now.look front.now }
{
    front.invariant();
    one && front.is_exact()
        && front.agents() >= 2
        && front.stage() + 1 < front.horizon()
        && bounder.look() < 16
}

/// The fronts after the actions for the one class without an action, in order, with their bounds. The joint classes
/// that do not hold the class are looked at once for all of them.
pub(crate) fn last_children(
    alloc: Global,
    model: &Model,
    bounder: &Bounder,
    path: &Rc<Path>,
    front: &Front,
    agent: u32,
    class: u32,
    room: &mut LookRoom,
) -> Result<Vec<Child<HeldFront>>, Memory>
    requires bounder { IsBounderOf model.now.model bounder.now }
    requires path { path_front model.now.model path.now.value ≡ front.now.front }
    requires front { IsPlannerFront model.now.model bounder.now.horizon front.now }
    requires last { IsLastStep bounder.now.look front.now }
    requires narrow { (above : ℕ) ×
        (is_wide model.now.model bounder.now.horizon above front.now.front ≡ false) }
    requires unassigned { IsUnassigned agent class front.now.front.agents }
    requires look_room { IsRoomFor bounder.now.is_exact model.now.model bounder.now.look room.old }
    ensures fronts { IfOk result (λ v. map (λ (c : SpecChild SpecHeld). front_meant model.now.model c.front) v.items
        ≡ map (front_after_choice model.now.model front.now.front agent class)
        (range_with_len 0 (get_or model.now.model.actions agent 0))) }
    ensures children { IfOk result (λ v. (merging : Bool) →
        IsPath model.now.model bounder.now.horizon merging path.now.value → (merging ≡ true →
        is_exact_mode model.now.model bounder.now.horizon ≡ true →
        HasNoEquivalent model.now.model front.now.front) →
        All (IsHeldChild model.now.model bounder.now.horizon bounder.now.look merging) v.items) }
    ensures look_room { IsRoomFor bounder.now.is_exact model.now.model bounder.now.look room.new }
{
    let before = bounder.deeper_looks(alloc, model, front, room)?;
    let mut children = Vec::new(alloc);
    for action in 0..model.actions(agent) {
        let choice = Choice {
            agent,
            class,
            action,
        };
        let child = last_child(alloc, model, bounder, path, front, &before, choice, room)?;
        children.push(child)?;
    }
    Ok(children)
}

// The front after a choice for the one class without an action, with its bound, from the looks of the front
// before. It is held without being made.
fn last_child(
    alloc: Global,
    model: &Model,
    bounder: &Bounder,
    path: &Rc<Path>,
    front: &Front,
    before: &DeeperLooks,
    choice: Choice,
    room: &mut LookRoom,
) -> Result<Child<HeldFront>, Memory>
    requires bounder { IsBounderOf model.now.model bounder.now }
    requires path { path_front model.now.model path.now.value ≡ front.now.front }
    requires front { IsPlannerFront model.now.model bounder.now.horizon front.now }
    requires last { IsLastStep bounder.now.look front.now }
    requires narrow { (above : ℕ) ×
        (is_wide model.now.model bounder.now.horizon above front.now.front ≡ false) }
    requires before { AreDeeperLooksOf model.now.model bounder.now front.now.front before.now }
    requires unassigned { IsUnassigned choice.agent choice.class front.now.front.agents }
    requires action { choice.action < get_or model.now.model.actions choice.agent 0 }
    requires look_room { IsRoomFor bounder.now.is_exact model.now.model bounder.now.look room.old }
    ensures front { IfOk result (λ c. front_meant model.now.model c.front ≡
        front_after_choice model.now.model front.now.front choice.agent choice.class choice.action) }
    ensures child { IfOk result (λ c. (merging : Bool) →
        IsPath model.now.model bounder.now.horizon merging path.now.value → (merging ≡ true →
        is_exact_mode model.now.model bounder.now.horizon ≡ true →
        HasNoEquivalent model.now.model front.now.front) →
        IsHeldChild model.now.model bounder.now.horizon bounder.now.look merging c) }
    ensures look_room { IsRoomFor bounder.now.is_exact model.now.model bounder.now.look room.new }
{
    let bound = last_bound(alloc, model, bounder, front, before, choice, room)?;
    let after = Path::chosen(path, choice)?;
    let held = HeldFront {
        path: Rc::new(alloc, after)?,
        full: None,
        wide: false,
        bound: copied(&bound),
    };
    Ok(Child { front: held, bound })
}

// The bound of the front after a choice for the one class without an action, and after the advance.
fn last_bound(
    alloc: Global,
    model: &Model,
    bounder: &Bounder,
    front: &Front,
    before: &DeeperLooks,
    choice: Choice,
    room: &mut LookRoom,
) -> Result<i128, Memory>
    requires bounder { IsBounderOf model.now.model bounder.now }
    requires front { IsPlannerFront model.now.model bounder.now.horizon front.now }
    requires last { IsLastStep bounder.now.look front.now }
    requires before { AreDeeperLooksOf model.now.model bounder.now front.now.front before.now }
    requires unassigned { IsUnassigned choice.agent choice.class front.now.front.agents }
    requires action { choice.action < get_or model.now.model.actions choice.agent 0 }
    requires look_room { IsRoomFor bounder.now.is_exact model.now.model bounder.now.look room.old }
    ensures bound { IfOk result (λ x. x ≡ mode_bound model.now.model bounder.now.horizon bounder.now.look
        (front_after_choice model.now.model front.now.front choice.agent choice.class choice.action)) }
    ensures look_room { IsRoomFor bounder.now.is_exact model.now.model bounder.now.look room.new }
{
    let chosen = front.assign(alloc, choice.agent, choice.class, choice.action)?;
    let bound = bounder.deeper_bound(alloc, model, &chosen, before, room)?;
    Ok(bound)
}
