// The bounds and the steps of a planner's fronts.
ghost use Rattle.std.specs.Prelude.{◌≡◌, ◌<◌, ◌≤◌, ℕ, false, get_or, IfOk};
ghost use Rattle.dp_spec.specs.Arithmetic.{arithmetic};
ghost use Rattle.dp_spec.specs.Fitting.{front_bound};
ghost use Rattle.dp_spec.specs.Steps.{IsUnassigned, front_after_choice};
ghost use Rattle.dp_spec.specs.Wide.{is_wide};
ghost use Rattle.dp_pomdp.specs.Rooms.{IsRoomFor};
ghost use Rattle.dp_game.specs.Bounders.{IsBounderOf};
ghost use Rattle.dp_search.specs.FrontPlanners.{IsPlannerFront};

use crate::look::copied;
use dp_base::Memory;
use dp_cluster::Front;
use dp_game::{Bounder, Game};
use dp_model::Model;
use dp_pomdp::LookRoom;
use std::alloc::Global;

// The bound of a front: what it has earned at the horizon, and before it the bound of its game.
pub(crate) fn own_bound(
    alloc: Global,
    model: &Model,
    bounder: &Bounder,
    front: &Front,
    room: &mut LookRoom,
) -> Result<i128, Memory>
    requires bounder { IsBounderOf model.now.model bounder.now }
    requires front { IsPlannerFront model.now.model bounder.now.horizon front.now }
    requires look_room { IsRoomFor bounder.now.is_exact model.now.model bounder.now.look room.old }
    ensures is { IfOk result (λ x. x ≡ front_bound (arithmetic front.now.is_exact model.now.model.scales)
        model.now.model front.now.horizon bounder.now.look front.now.front) }
    ensures look_room { IsRoomFor bounder.now.is_exact model.now.model bounder.now.look room.new }
{
    if front.stage() == front.horizon() {
        return Ok(copied(&front.earned().high));
    }
    let game = Game::with_room(alloc, model, front, bounder, room)?;
    let bound = game.bound();
    Ok(bound)
}

// The front after an action is chosen for an unassigned class at a front that is not wide, and after the
// advance where that follows.
pub(crate) fn after_choice(
    alloc: Global,
    model: &Model,
    front: &Front,
    agent: u32,
    class: u32,
    action: u32,
) -> Result<Front, Memory>
    requires front { IsPlannerFront model.now.model front.now.horizon front.now }
    requires stage { front.now.front.stage < front.now.horizon }
    requires unassigned { IsUnassigned agent class front.now.front.agents }
    requires action { action < get_or model.now.model.actions agent 0 }
    requires narrow { (above : ℕ) × (is_wide model.now.model front.now.horizon above front.now.front ≡ false) }
    ensures of_planner { IfOk result (IsPlannerFront model.now.model front.now.horizon) }
    ensures front { IfOk result (λ f.
        f.front ≡ front_after_choice model.now.model front.now.front agent class action) }
{
    let chosen = front.assign(alloc, agent, class, action)?;
    if chosen.complete() {
        let next = chosen.advance(alloc, model)?;
        Ok(next)
    } else {
        Ok(chosen)
    }
}
