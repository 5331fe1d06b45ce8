//! Bounds of fronts with a look of one step more.
ghost use Rattle.std.specs.Prelude.{◌≡◌, ◌<◌, ◌≤◌, ◌-◌, ◌*◌, ◌+◌, ◌^◌, ℤ, suc, map, length, IfOk, cond, true};
ghost use Rattle.std.specs.Int.{int_max};
ghost use Rattle.std.specs.List.{range_with_len};
ghost use Rattle.dp_base.specs.Sums.{greatest};
ghost use Rattle.dp_spec.specs.Arithmetic.{arithmetic};
ghost use Rattle.dp_spec.specs.Fitting.{front_bound};
ghost use Rattle.dp_spec.specs.Front.{class_counts};
ghost use Rattle.dp_spec.specs.JointNumbers.{product};
ghost use Rattle.dp_spec.specs.Mode.{is_exact_mode};
ghost use Rattle.dp_spec.specs.Model.{joint_actions};
ghost use Rattle.dp_spec.specs.Quantities.{action_look_ahead_in};
ghost use Rattle.dp_spec.specs.Sizes.{AreWeights};
ghost use Rattle.dp_spec.specs.Wide.{has_room};
ghost use Rattle.dp_cluster.specs.KeptFronts.{IsFrontOf};
ghost use Rattle.dp_pomdp.specs.Looking.{weights_of};
ghost use Rattle.dp_pomdp.specs.Rooms.{IsRoomFor};
ghost use Rattle.dp_game.specs.Bounders.{IsBounderOf};
ghost use Rattle.dp_game.specs.DeeperLooks.{AreLooksBefore, AreLooksFor};
ghost use Rattle.dp_game.specs.Games.{allowed_actions};
ghost use Rattle.dp_game.specs.Kept.{IsWithinCells, greatest_look_in};

use crate::Bounder;
use crate::actions::{JointActions, either, greater};
use crate::change::{bound_with, choices_kept};
use crate::choices::choices_of;
use crate::deeper_looks::DeeperLooks;
use crate::places::{joint_count, wanted_choices};
use dp_base::Memory;
use dp_cluster::Front;
use dp_model::Model;
use dp_pomdp::LookRoom;
use dp_spec::Span;
use std::alloc::Global;

impl Bounder {
    /// The bound of a front before the horizon, with room, with a look of one step more than the bounder's,
    /// which is less than 16. Only joint actions that agree with the choices are looked at, and those of a joint
    /// class only where the looks of the front before the last choice (`Bounder::deeper_looks`) have none for
    /// its choices. The only error is want of memory.
    pub fn deeper_bound(
        &self,
        alloc: Global,
        model: &Model,
        front: &Front,
        before: &DeeperLooks,
        room: &mut LookRoom,
    ) -> Result<i128, Memory>
        requires bounder { IsBounderOf model.now.model self.now }
        requires look { self.now.look < 16 }
        requires of_model { IsFrontOf model.now.model front.now }
        requires horizon { front.now.horizon ≡ self.now.horizon }
        requires stage { front.now.front.stage < front.now.horizon }
        requires room { has_room model.now.model front.now.horizon front.now.front ≡ true }
        requires before { AreLooksBefore model.now.model self.now front.now.front before.now }
        requires look_room { IsRoomFor self.now.is_exact model.now.model self.now.look room.old }
        ensures is { IfOk result (λ x. x ≡ front_bound
            (arithmetic (is_exact_mode model.now.model front.now.horizon) model.now.model.scales) model.now.model
            front.now.horizon (suc self.now.look) front.now.front) }
        ensures look_room { IsRoomFor self.now.is_exact model.now.model self.now.look room.new }
    {
        let look = self.look() + 1;
        room.reach(alloc, model, look)?;
        let bound = bound_of(alloc, model, front, self, look, before, room)?;
        Ok(bound)
    }
}

// The bound of a front with this look.
fn bound_of(
    alloc: Global,
    model: &Model,
    front: &Front,
    bounder: &Bounder,
    look: u32,
    before: &DeeperLooks,
    room: &mut LookRoom,
) -> Result<i128, Memory>
    requires of_model { IsFrontOf model.now.model front.now }
    requires bounder { IsBounderOf model.now.model bounder.now }
    requires horizon { front.now.horizon ≡ bounder.now.horizon }
    requires stage { front.now.front.stage < front.now.horizon }
    requires room { has_room model.now.model front.now.horizon front.now.front ≡ true }
    requires some_look { 0 < look }
    requires look { look ≤ 16 }
    requires before { AreLooksFor model.now.model bounder.now front.now.front look before.now }
    requires look_room { IsRoomFor bounder.now.is_exact model.now.model look room.old }
    ensures is { IfOk result (λ x. x ≡ front_bound
        (arithmetic (is_exact_mode model.now.model front.now.horizon) model.now.model.scales) model.now.model
        front.now.horizon look front.now.front) }
    ensures look_room { IsRoomFor bounder.now.is_exact model.now.model look room.new }
{
    let actions = JointActions::of(alloc, model)?;
    let choices = choices_of(alloc, front, model.agents())?;
    let count = joint_count(&choices);
    let wanted = wanted_choices(alloc, &choices, count)?;
    let greatest = greatest_looks(
        alloc, model, front, bounder, look, &actions, &wanted, count, before, room,
    )?;
    let bound = bound_with(front.earned().high, &greatest);
    Ok(bound)
}

// Joint class by joint class, the greatest look-ahead of the joint actions that agree with the choices that are
// kept for it.
fn greatest_looks(
    alloc: Global,
    model: &Model,
    front: &Front,
    bounder: &Bounder,
    look: u32,
    actions: &JointActions,
    wanted: &[Option<u8>],
    count: usize,
    before: &DeeperLooks,
    room: &mut LookRoom,
) -> Result<Vec<i128>, Memory>
    requires of_model { IsFrontOf model.now.model front.now }
    requires bounder { IsBounderOf model.now.model bounder.now }
    requires horizon { front.now.horizon ≡ bounder.now.horizon }
    requires stage { front.now.front.stage < front.now.horizon }
    requires cells { IsWithinCells model.now.model front.now }
    requires actions { actions.now ≡ model.now.model.actions }
    requires count { count ≡ product (class_counts front.now.front.agents) }
    requires few { count ≤ 2 ^ 24 }
    requires wanted { length wanted.now ≡ count * length actions.now }
    requires some_look { 0 < look }
    requires look { look ≤ 16 }
    requires before { AreLooksFor model.now.model bounder.now front.now.front look before.now }
    requires room { IsRoomFor bounder.now.is_exact model.now.model look room.old }
    ensures is { IfOk result (λ v. v.items ≡ map (greatest_look_in
        (arithmetic bounder.now.is_exact model.now.model.scales) model.now.model
        (bounder.now.horizon - front.now.front.stage - 1) front.now.front look actions.now wanted.now)
        (range_with_len 0 count)) }
    ensures room { IsRoomFor bounder.now.is_exact model.now.model look room.new }
{
    let mut greatest = Vec::new(alloc);
    for joint in 0..count {
        let value = look_at(
            model, front, bounder, look, actions, wanted, joint, before, room,
        )?;
        greatest.push(value)?;
    }
    Ok(greatest)
}

// That of one joint class, which need not be computed where it is among those before.
fn look_at(
    model: &Model,
    front: &Front,
    bounder: &Bounder,
    look: u32,
    actions: &JointActions,
    wanted: &[Option<u8>],
    joint: usize,
    before: &DeeperLooks,
    room: &mut LookRoom,
) -> Result<i128, Memory>
    requires of_model { IsFrontOf model.now.model front.now }
    requires bounder { IsBounderOf model.now.model bounder.now }
    requires horizon { front.now.horizon ≡ bounder.now.horizon }
    requires stage { front.now.front.stage < front.now.horizon }
    requires cells { IsWithinCells model.now.model front.now }
    requires actions { actions.now ≡ model.now.model.actions }
    requires joint { joint < product (class_counts front.now.front.agents) }
    requires few { joint < 2 ^ 24 }
    requires wanted { joint * length actions.now + length actions.now ≤ length wanted.now }
    requires some_look { 0 < look }
    requires look { look ≤ 16 }
    requires before { AreLooksFor model.now.model bounder.now front.now.front look before.now }
    requires room { IsRoomFor bounder.now.is_exact model.now.model look room.old }
    ensures is { IfOk result (λ x. x ≡ greatest_look_in (arithmetic bounder.now.is_exact model.now.model.scales)
        model.now.model (bounder.now.horizon - front.now.front.stage - 1) front.now.front look actions.now
        wanted.now joint) }
    ensures room { IsRoomFor bounder.now.is_exact model.now.model look room.new }
{
    let own = choices_kept(wanted, joint, actions.agents());
    if let Some(value) = before.look_for(joint, own) {
        return Ok(value);
    }
    let value = greatest_look(model, front, bounder, look, actions, wanted, joint, room)?;
    Ok(value)
}

// The greatest look-ahead of one joint class.
pub(crate) fn greatest_look(
    model: &Model,
    front: &Front,
    bounder: &Bounder,
    look: u32,
    actions: &JointActions,
    wanted: &[Option<u8>],
    joint: usize,
    room: &mut LookRoom,
) -> Result<i128, Memory>
    requires of_model { IsFrontOf model.now.model front.now }
    requires bounder { IsBounderOf model.now.model bounder.now }
    requires horizon { front.now.horizon ≡ bounder.now.horizon }
    requires stage { front.now.front.stage < front.now.horizon }
    requires cells { IsWithinCells model.now.model front.now }
    requires actions { actions.now ≡ model.now.model.actions }
    requires joint { joint < product (class_counts front.now.front.agents) }
    requires few { joint < 2 ^ 24 }
    requires wanted { joint * length actions.now + length actions.now ≤ length wanted.now }
    requires some_look { 0 < look }
    requires look { look ≤ 16 }
    requires room { IsRoomFor bounder.now.is_exact model.now.model look room.old }
    ensures is { IfOk result (λ x. x ≡ greatest_look_in (arithmetic bounder.now.is_exact model.now.model.scales)
        model.now.model (bounder.now.horizon - front.now.front.stage - 1) front.now.front look actions.now
        wanted.now joint) }
    ensures room { IsRoomFor bounder.now.is_exact model.now.model look room.new }
{
    let own = choices_kept(wanted, joint, actions.agents());
    let weights = front.class_weights(joint);
    let best = look_of_best(
        model,
        front.stage(),
        bounder,
        look,
        weights,
        actions,
        own,
        room,
    )?;
    Ok(best)
}

// The greatest look-ahead from weights of the joint actions that agree with one choice or none for each
// agent; 0 where none agrees.
fn look_of_best(
    model: &Model,
    stage: u32,
    bounder: &Bounder,
    look: u32,
    weights: &[Span],
    actions: &JointActions,
    wanted: &[Option<u8>],
    room: &mut LookRoom,
) -> Result<i128, Memory>
    requires bounder { IsBounderOf model.now.model bounder.now }
    requires time { stage < bounder.now.horizon }
    requires one_each { length weights.now ≡ model.now.model.states }
    requires weights { AreWeights bounder.now.is_exact model.now.model stage (weights_of weights.now) }
    requires actions { actions.now ≡ model.now.model.actions }
    requires wanted { length wanted.now ≡ length actions.now }
    requires some_look { 0 < look }
    requires look { look ≤ 16 }
    requires room { IsRoomFor bounder.now.is_exact model.now.model look room.old }
    ensures is { IfOk result (λ x. x ≡ greatest (λ a. action_look_ahead_in
        (arithmetic bounder.now.is_exact model.now.model.scales) model.now.model
        (bounder.now.horizon - stage - 1) (weights_of weights.now) a look)
        (allowed_actions actions.now wanted.now)) }
    ensures room { IsRoomFor bounder.now.is_exact model.now.model look room.new }
{
    let mut some = false;
    let mut best = 0;
    for action in 0..actions.count() {
        let agrees = actions.agrees(action, wanted);
        best = look_of_greater(
            model,
            stage,
            bounder,
            look,
            weights,
            action as u32,
            agrees,
            some,
            best,
            room,
        )?;
        some = either(some, agrees);
    }
    Ok(best)
}

// The greatest so far: where a joint action counts, the greater of its look-ahead and of those before it, if
// there are some.
fn look_of_greater(
    model: &Model,
    stage: u32,
    bounder: &Bounder,
    look: u32,
    weights: &[Span],
    action: u32,
    counts: bool,
    some: bool,
    best: i128,
    room: &mut LookRoom,
) -> Result<i128, Memory>
    requires bounder { IsBounderOf model.now.model bounder.now }
    requires time { stage < bounder.now.horizon }
    requires one_each { length weights.now ≡ model.now.model.states }
    requires weights { AreWeights bounder.now.is_exact model.now.model stage (weights_of weights.now) }
    requires action { action < joint_actions model.now.model }
    requires some_look { 0 < look }
    requires look { look ≤ 16 }
    requires room { IsRoomFor bounder.now.is_exact model.now.model look room.old }
    ensures is { IfOk result (λ y. (x : ℤ) →
        x ≡ action_look_ahead_in (arithmetic bounder.now.is_exact model.now.model.scales) model.now.model
        (bounder.now.horizon - stage - 1) (weights_of weights.now) action look →
        y ≡ cond counts (cond some (int_max x best) x) best) }
    ensures room { IsRoomFor bounder.now.is_exact model.now.model look room.new }
{
    if !counts {
        return Ok(best);
    }
    let value = room.kept_action_bound(
        model,
        bounder.fit(),
        bounder.table(),
        weights,
        stage,
        action,
        look,
    )?;
    Ok(greater(true, some, best, value))
}
