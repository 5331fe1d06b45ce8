//! Look-ahead after the first joint actions and joint observations of a run.
ghost use Rattle.std.specs.Prelude.{◌≡◌, ◌+◌, ◌*◌, ◌-◌, ◌<◌, ◌≤◌, ℕ, Bool, true, false, pos, length, get_or, IfOk};
ghost use Rattle.std.specs.Prelude.{MatchOption};
ghost use Rattle.dp_spec.specs.Arithmetic.{arithmetic};
ghost use Rattle.dp_spec.specs.Mode.{IsTrueFit};
ghost use Rattle.dp_spec.specs.Model.{Model as PlainModel};
ghost use Rattle.dp_spec.specs.Quantities.{look_ahead_in};
ghost use Rattle.dp_spec.specs.Sizes.{AreWeights};
ghost use Rattle.dp_mdp.specs.TableRows.{IsTable};
ghost use Rattle.dp_pomdp.specs.Keys.{AreKeyWeights, IsAmongFirst, IsFoundFrom, IsKeyTable, key_look, keys_below};
ghost use Rattle.dp_pomdp.specs.Keys.{no_key_weights, pairs_of};
ghost use Rattle.dp_pomdp.specs.Looking.{weights_of};
ghost use Rattle.dp_pomdp.specs.Rooms.{IsRoomFor};

use crate::bounds::LookRoom;
use crate::key_rows::{KeyRow, kept_count, key_rows};
use dp_base::Memory;
use dp_mdp::MdpTable;
use dp_model::{Fit, Model};
use std::alloc::Global;

/// The look of each row.
const LOOK: u32 = 16;

/// What can be earned after the first keys, looked ahead once.
///
/// A key is what is done and seen from the start on: for each step its joint action and its joint
/// observation, the earliest step first, for fewer steps than the horizon. Keys are ordered by their
/// length, and those of one length by their numbers from the left.
#[derive(Drop)]
pub struct PomdpTable {
    actions: u32,
    observations: u32,
    horizon: u32,
    // In the order of the keys.
    values: Vec<i128>,
}

impl std::marker::Model for PomdpTable {
    ghost use Rattle.dp_pomdp.specs.Keys.{KeptKeys};

    ghost Value = { KeptKeys };

    ghost view = { λ t. record {
      actions = t.actions;
      observations = t.observations;
      horizon = t.horizon;
      values = t.values.items;
    } };
}

impl PomdpTable {
    /// The table of the first `most_rows` keys of a model, or of all if there are fewer, with a look of 16
    /// and in the arithmetic of the fit's mode. The only error is want of memory.
    pub fn build(
        alloc: Global,
        model: &Model,
        fit: Fit,
        most_rows: u32,
    ) -> Result<PomdpTable, Memory>
        requires fit { IsTrueFit model.now.model fit.horizon fit.exact fit.unit }
        ensures { IfOk result (IsKeyTable fit.exact model.now.model fit.horizon most_rows) }
    {
        model.invariant();
        let actions = model.joint_actions();
        let observations = model.joint_observations();
        let count = kept_count(actions * observations, fit.horizon, most_rows);
        let table = MdpTable::build(alloc, model, fit)?;
        let rows = key_rows(alloc, model, fit, &table, count)?;
        let values = look_aheads(alloc, model, fit, &table, &rows)?;
        Ok(PomdpTable {
            actions,
            observations,
            horizon: fit.horizon,
            values,
        })
    }

    /// What can be earned after a key, in the fit's unit: the look-ahead from its weights with a look of
    /// 16. `None` exactly where the list is no key, or not one of those that are kept.
    pub fn find(&self, key: &[u32]) -> Option<i128>
        ensures { (e : Bool) (m : PlainModel) (h most : ℕ) → IsKeyTable e m h most self.now →
            MatchOption result (¬ IsAmongFirst m h most key.now)
            (λ x. IsAmongFirst m h most key.now × (x ≡ key_look e m h key.now)) }
    {
        if key.len() / 2 >= self.horizon as usize {
            return None;
        }
        self.find_from(0, key)
    }

    // The same where `row` is the place of what stands to the left of the key.
    fn find_from(&self, row: u128, key: &[u32]) -> Option<i128>
        ensures { IsFoundFrom self.now.actions self.now.observations self.now.values row key.now result }
    {
        if !self.is_kept(row) {
            return None;
        }
        match key {
            [] => Some(self.values[row as usize]),
            [action, seen, later @ ..] if *action < self.actions && *seen < self.observations => {
                let next = self.row_after(row, *action, *seen);
                self.find_from(next, later)
            }
            _ => None,
        }
    }

    // Whether a place is one of a key that is kept.
    #[inline]
    fn is_kept(&self, row: u128) -> bool
        ensures yes { result ≡ true → row < length self.now.values }
        ensures no { result ≡ false → length self.now.values ≤ row }
    {
        row < self.values.len() as u128
    }

    // The place of a key of one step more.
    #[inline]
    fn row_after(&self, row: u128, action: u32, seen: u32) -> u128
        requires row { row < length self.now.values }
        requires action { action < self.now.actions }
        requires seen { seen < self.now.observations }
        ensures { result ≡ row * (self.now.actions * self.now.observations) + 1
            + (action * self.now.observations + seen) }
    {
        let observations = u128::from(self.observations);
        let pairs = u128::from(self.actions) * observations;
        row * pairs + 1 + (u128::from(action) * observations + u128::from(seen))
    }
}

// What can be earned after each of the first keys, from their weights.
fn look_aheads(
    alloc: Global,
    model: &Model,
    fit: Fit,
    table: &MdpTable,
    rows: &[KeyRow],
) -> Result<Vec<i128>, Memory>
    requires fit { IsTrueFit model.now.model fit.horizon fit.exact fit.unit }
    requires table { IsTable (arithmetic fit.exact model.now.model.scales) model.now.model fit.horizon table.now }
    requires count { length rows.now ≤ keys_below (pairs_of model.now.model) fit.horizon }
    requires rows { (p : ℕ) → p < length rows.now →
        AreKeyWeights fit.exact model.now.model p (get_or rows.now p no_key_weights) }
    ensures count { IfOk result (λ v. length v.items ≡ length rows.now) }
    ensures values { IfOk result (λ v. (p : ℕ) → p < length rows.now → get_or v.items p (pos 0)
        ≡ look_ahead_in (arithmetic fit.exact model.now.model.scales) model.now.model
        (fit.horizon - (get_or rows.now p no_key_weights).time)
        (weights_of (get_or rows.now p no_key_weights).weights) 16) }
{
    model.invariant();
    let mut room = LookRoom::new(alloc, model, LOOK)?;
    let mut values = Vec::new(alloc);
    for place in 0..rows.len() {
        values.push(look_at(model, fit, table, &rows[place], &mut room))?;
    }
    Ok(values)
}

// The same of one of them.
fn look_at(model: &Model, fit: Fit, table: &MdpTable, row: &KeyRow, room: &mut LookRoom) -> i128
    requires fit { IsTrueFit model.now.model fit.horizon fit.exact fit.unit }
    requires table { IsTable (arithmetic fit.exact model.now.model.scales) model.now.model fit.horizon table.now }
    requires time { row.now.time ≤ fit.horizon }
    requires one_each { length row.now.weights ≡ model.now.model.states }
    requires weights { AreWeights fit.exact model.now.model row.now.time (weights_of row.now.weights) }
    requires room { IsRoomFor fit.exact model.now.model 16 room.old }
    ensures is { result ≡ look_ahead_in (arithmetic fit.exact model.now.model.scales) model.now.model
        (fit.horizon - row.now.time) (weights_of row.now.weights) 16 }
    ensures room { IsRoomFor fit.exact model.now.model 16 room.new }
{
    room.tail_bound(model, fit, table, &row.weights, row.time, LOOK)
}
