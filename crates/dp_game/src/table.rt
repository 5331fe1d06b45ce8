// What each joint class of a front can earn by each joint action.
ghost use Rattle.std.specs.Prelude.{◌≡◌, ◌<◌, ◌≤◌, ◌-◌, ◌++◌, map, length, IfOk};
ghost use Rattle.std.specs.List.{range_with_len};
ghost use Rattle.dp_spec.specs.Arithmetic.{arithmetic};
ghost use Rattle.dp_spec.specs.Front.{class_counts};
ghost use Rattle.dp_spec.specs.JointNumbers.{product};
ghost use Rattle.dp_spec.specs.Model.{joint_actions};
ghost use Rattle.dp_spec.specs.Quantities.{action_look_ahead_in};
ghost use Rattle.dp_spec.specs.Sizes.{AreWeights};
ghost use Rattle.dp_cluster.specs.KeptFronts.{IsFrontOf};
ghost use Rattle.dp_pomdp.specs.Looking.{weights_of};
ghost use Rattle.dp_pomdp.specs.Rooms.{IsRoomFor};
ghost use Rattle.dp_game.specs.Bounders.{IsBounderOf};
ghost use Rattle.dp_game.specs.Kept.{IsWithinCells, class_row, rows_of};

use crate::Bounder;
use dp_base::Memory;
use dp_cluster::Front;
use dp_model::Model;
use dp_pomdp::LookRoom;
use dp_spec::Span;
use std::alloc::Global;

// Joint class by joint class, the look-ahead of each joint action, for the `count` joint classes of the front.
pub(crate) fn look_ahead_table(
    alloc: Global,
    model: &Model,
    front: &Front,
    bounder: &Bounder,
    count: usize,
    room: &mut LookRoom,
) -> Result<Vec<i128>, Memory>
    requires of_model { IsFrontOf model.now.model front.now }
    requires bounder { IsBounderOf model.now.model bounder.now }
    requires horizon { front.now.horizon ≡ bounder.now.horizon }
    requires stage { front.now.front.stage < front.now.horizon }
    requires cells { IsWithinCells model.now.model front.now }
    requires count { count ≡ product (class_counts front.now.front.agents) }
    requires room { IsRoomFor bounder.now.is_exact model.now.model bounder.now.look room.old }
    ensures rows { IfOk result (λ v. v.items ≡ rows_of (class_row model.now.model front.now bounder.now) count) }
    ensures room { IsRoomFor bounder.now.is_exact model.now.model bounder.now.look room.new }
{
    let mut table = Vec::with_capacity(
        alloc,
        count.saturating_mul(model.joint_actions() as usize),
    )?;
    for joint in 0..count {
        push_class(model, front, bounder, joint, room, &mut table)?;
    }
    Ok(table)
}

// Adds the row of a joint class.
fn push_class(
    model: &Model,
    front: &Front,
    bounder: &Bounder,
    joint: usize,
    room: &mut LookRoom,
    table: &mut Vec<i128>,
) -> Result<(), Memory>
    requires of_model { IsFrontOf model.now.model front.now }
    requires bounder { IsBounderOf model.now.model bounder.now }
    requires horizon { front.now.horizon ≡ bounder.now.horizon }
    requires stage { front.now.front.stage < front.now.horizon }
    requires cells { IsWithinCells model.now.model front.now }
    requires joint { joint < product (class_counts front.now.front.agents) }
    requires room { IsRoomFor bounder.now.is_exact model.now.model bounder.now.look room.old }
    ensures row { IfOk result (λ _. table.new.items ≡ table.old.items ++ class_row model.now.model front.now
        bounder.now joint) }
    ensures room { IsRoomFor bounder.now.is_exact model.now.model bounder.now.look room.new }
{
    let weights = front.class_weights(joint);
    push_row(model, front.stage(), bounder, weights, room, table)?;
    Ok(())
}

// Adds the row of a joint class with these weights.
fn push_row(
    model: &Model,
    stage: u32,
    bounder: &Bounder,
    weights: &[Span],
    room: &mut LookRoom,
    table: &mut Vec<i128>,
) -> Result<(), Memory>
    requires bounder { IsBounderOf model.now.model bounder.now }
    requires time { stage < bounder.now.horizon }
    requires one_each { length weights.now ≡ model.now.model.states }
    requires weights { AreWeights bounder.now.is_exact model.now.model stage (weights_of weights.now) }
    requires room { IsRoomFor bounder.now.is_exact model.now.model bounder.now.look room.old }
    ensures row { IfOk result (λ _. table.new.items ≡ table.old.items ++ map
        (λ a. action_look_ahead_in (arithmetic bounder.now.is_exact model.now.model.scales)
        model.now.model (bounder.now.horizon - stage - 1) (weights_of weights.now) a bounder.now.look)
        (range_with_len 0 (joint_actions model.now.model))) }
    ensures room { IsRoomFor bounder.now.is_exact model.now.model bounder.now.look room.new }
{
    room.push_row(
        model,
        bounder.fit(),
        bounder.table(),
        weights,
        stage,
        bounder.look(),
        table,
    )
}
