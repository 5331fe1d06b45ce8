//! Looks of one step more that the bounds of the fronts after a choice have in common.
ghost use Rattle.std.specs.Prelude.{◌≡◌, ◌<◌, ◌≤◌, ◌-◌, ◌*◌, ◌+◌, ◌^◌, ℤ, Some, None, suc, map, length, get_or};
ghost use Rattle.std.specs.Prelude.{take, drop, is_some, true, IfOk, IfSome};
ghost use Rattle.std.specs.List.{list_all, range_with_len};
ghost use Rattle.dp_spec.specs.Arithmetic.{arithmetic};
ghost use Rattle.dp_spec.specs.Front.{class_counts};
ghost use Rattle.dp_spec.specs.JointNumbers.{product};
ghost use Rattle.dp_spec.specs.Wide.{has_room};
ghost use Rattle.dp_cluster.specs.KeptFronts.{IsFrontOf};
ghost use Rattle.dp_pomdp.specs.Rooms.{IsRoomFor};
ghost use Rattle.dp_game.specs.Bounders.{IsBounderOf};
ghost use Rattle.dp_game.specs.DeeperLooks.{AreDeeperLooksOf, chosen_look_in};
ghost use Rattle.dp_game.specs.Kept.{IsWithinCells};

use crate::Bounder;
use crate::actions::JointActions;
use crate::change::choices_kept;
use crate::choices::choices_of;
use crate::deeper::greatest_look;
use crate::places::{joint_count, wanted_choices};
use dp_base::Memory;
use dp_cluster::Front;
use dp_model::Model;
use dp_pomdp::LookRoom;
use std::alloc::Global;

/// Of a front: for each joint class in which every class has an action, the look-ahead of the joint action of
/// these, with a look of one step more than a bounder's. Contracts see the looks, and the choices for them.
#[derive(Drop)]
pub struct DeeperLooks {
    // Joint class by joint class, the choice of each agent's class.
    wanted: Vec<Option<u8>>,
    looks: Vec<Option<i128>>,
}

impl std::marker::Model for DeeperLooks {
    ghost use Rattle.dp_game.specs.DeeperLooks.{KeptLooks};

    ghost Value = { KeptLooks };

    ghost view = { λ d. record { wanted = d.wanted.items; looks = d.looks.items } };
}

impl DeeperLooks {
    // The look of a joint class, if there is one and it is for these choices.
    pub(crate) fn look_for(&self, joint: usize, choices: &[Option<u8>]) -> Option<i128>
        requires few { joint < 2 ^ 24 }
        requires agents { length choices.now ≤ 6 }
        requires look { joint < length self.now.looks }
        requires wanted { joint * length choices.now + length choices.now ≤ length self.now.wanted }
        ensures look { IfSome result (λ x. get_or self.now.looks joint None ≡ Some x) }
        ensures choices { IfSome result (λ _. take (length choices.now)
            (drop (joint * length choices.now) self.now.wanted) ≡ choices.now) }
    {
        if choices_kept(&self.wanted, joint, choices.len()) != choices {
            return None;
        }
        self.looks[joint]
    }
}

impl Bounder {
    /// What the bounds of all fronts that come from a front by one choice have in common
    /// (`Bounder::deeper_bound`), where the bounder's look is less than 16. The only error is want of memory.
    pub fn deeper_looks(
        &self,
        alloc: Global,
        model: &Model,
        front: &Front,
        room: &mut LookRoom,
    ) -> Result<DeeperLooks, Memory>
        requires bounder { IsBounderOf model.now.model self.now }
        requires look { self.now.look < 16 }
        requires of_model { IsFrontOf model.now.model front.now }
        requires horizon { front.now.horizon ≡ self.now.horizon }
        requires stage { front.now.front.stage < front.now.horizon }
        requires room { has_room model.now.model front.now.horizon front.now.front ≡ true }
        requires look_room { IsRoomFor self.now.is_exact model.now.model self.now.look room.old }
        ensures are { IfOk result (AreDeeperLooksOf model.now.model self.now front.now.front) }
        ensures look_room { IsRoomFor self.now.is_exact model.now.model self.now.look room.new }
    {
        room.reach(alloc, model, self.look() + 1)?;
        let looks = looks_of(alloc, model, front, self, room)?;
        Ok(looks)
    }
}

// The looks of a front, with room for them.
fn looks_of(
    alloc: Global,
    model: &Model,
    front: &Front,
    bounder: &Bounder,
    room: &mut LookRoom,
) -> Result<DeeperLooks, Memory>
    requires of_model { IsFrontOf model.now.model front.now }
    requires bounder { IsBounderOf model.now.model bounder.now }
    requires look { bounder.now.look < 16 }
    requires horizon { front.now.horizon ≡ bounder.now.horizon }
    requires stage { front.now.front.stage < front.now.horizon }
    requires room { has_room model.now.model front.now.horizon front.now.front ≡ true }
    requires look_room { IsRoomFor bounder.now.is_exact model.now.model (suc bounder.now.look) room.old }
    ensures are { IfOk result (AreDeeperLooksOf model.now.model bounder.now front.now.front) }
    ensures look_room { IsRoomFor bounder.now.is_exact model.now.model (suc bounder.now.look) room.new }
{
    let actions = JointActions::of(alloc, model)?;
    let choices = choices_of(alloc, front, model.agents())?;
    let count = joint_count(&choices);
    let wanted = wanted_choices(alloc, &choices, count)?;
    let look = bounder.look() + 1;
    let looks = chosen_looks(
        alloc, model, front, bounder, look, &actions, &wanted, count, room,
    )?;
    Ok(DeeperLooks { wanted, looks })
}

// Joint class by joint class, the look-ahead of the joint action that is chosen, if one is.
fn chosen_looks(
    alloc: Global,
    model: &Model,
    front: &Front,
    bounder: &Bounder,
    look: u32,
    actions: &JointActions,
    wanted: &[Option<u8>],
    count: usize,
    room: &mut LookRoom,
) -> Result<Vec<Option<i128>>, Memory>
    requires of_model { IsFrontOf model.now.model front.now }
    requires bounder { IsBounderOf model.now.model bounder.now }
    requires horizon { front.now.horizon ≡ bounder.now.horizon }
    requires stage { front.now.front.stage < front.now.horizon }
    requires cells { IsWithinCells model.now.model front.now }
    requires actions { actions.now ≡ model.now.model.actions }
    requires count { count ≡ product (class_counts front.now.front.agents) }
    requires few { count ≤ 2 ^ 24 }
    requires wanted { length wanted.now ≡ count * length actions.now }
    requires some_look { 0 < look }
    requires look { look ≤ 16 }
    requires room { IsRoomFor bounder.now.is_exact model.now.model look room.old }
    ensures are { IfOk result (λ v. v.items ≡ map (chosen_look_in
        (arithmetic bounder.now.is_exact model.now.model.scales) model.now.model
        (bounder.now.horizon - front.now.front.stage - 1) front.now.front look actions.now wanted.now)
        (range_with_len 0 count)) }
    ensures room { IsRoomFor bounder.now.is_exact model.now.model look room.new }
{
    let mut looks = Vec::new(alloc);
    for joint in 0..count {
        let value = chosen_look(model, front, bounder, look, actions, wanted, joint, room)?;
        looks.push(value)?;
    }
    Ok(looks)
}

// That of one joint class.
fn chosen_look(
    model: &Model,
    front: &Front,
    bounder: &Bounder,
    look: u32,
    actions: &JointActions,
    wanted: &[Option<u8>],
    joint: usize,
    room: &mut LookRoom,
) -> Result<Option<i128>, Memory>
    requires of_model { IsFrontOf model.now.model front.now }
    requires bounder { IsBounderOf model.now.model bounder.now }
    requires horizon { front.now.horizon ≡ bounder.now.horizon }
    requires stage { front.now.front.stage < front.now.horizon }
    requires cells { IsWithinCells model.now.model front.now }
    requires actions { actions.now ≡ model.now.model.actions }
    requires joint { joint < product (class_counts front.now.front.agents) }
    requires few { joint < 2 ^ 24 }
    requires wanted { joint * length actions.now + length actions.now ≤ length wanted.now }
    requires some_look { 0 < look }
    requires look { look ≤ 16 }
    requires room { IsRoomFor bounder.now.is_exact model.now.model look room.old }
    ensures is { IfOk result (λ x. x ≡ chosen_look_in (arithmetic bounder.now.is_exact model.now.model.scales)
        model.now.model (bounder.now.horizon - front.now.front.stage - 1) front.now.front look actions.now
        wanted.now joint) }
    ensures room { IsRoomFor bounder.now.is_exact model.now.model look room.new }
{
    if !are_chosen(choices_kept(wanted, joint, actions.agents())) {
        return Ok(None);
    }
    let value = greatest_look(model, front, bounder, look, actions, wanted, joint, room)?;
    Ok(Some(value))
}

// Whether each choice is an action.
#[inline]
fn are_chosen(choices: &[Option<u8>]) -> bool
    ensures { result ≡ list_all (λ o. is_some o) choices.now }
{
    choices.iter().all(|choice| choice.is_some())
}
