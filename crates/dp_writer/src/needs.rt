//! Which models can be written.
ghost use Rattle.std.specs.Prelude.{◌≡◌, ◌<◌, ◌≤◌, ◌∷◌, ◌^◌, [], false, nat_le, MatchOption};
ghost use Rattle.std.specs.List.{list_all};
ghost use Rattle.dp_spec.specs.Model.{joint_actions};
ghost use Rattle.dp_meaning.specs.Scales.{scale_of};
ghost use Rattle.dp_writer.specs.ChanceRows.{IsRowOf, cells_of, scale_of_row};
ghost use Rattle.dp_writer.specs.ModelRows.{action_rows, scale_of_table, start_row};
ghost use Rattle.dp_writer.specs.NeededScales.{HasDigits, IsNeeded};
ghost use Rattle.dp_writer.specs.Writable.{are_writable_rows, is_decimal_cell, is_writable, is_writable_table};

use crate::decimals::magnitude_over;
use crate::rows::{ChanceRow, ChanceTable};
use dp_base::lcm;
use dp_model::Model;

/// What the scale of rows depends on: the greatest number of fraction digits, and whether a row is uniform.
#[derive(Clone, Copy)]
struct RowNeeds {
    digits: u32,
    uniform: bool,
}

/// Whether a model can be written: each row of chances has equal cells alone or only whole multiples of `10^-18`, and
/// the scales that reading gives to the text are at most `2^62`. It takes no memory.
#[tactic(auto, unfolding(crate::specs::Writable::is_writable))]
pub fn writable(model: &Model) -> bool
    ensures { result ≡ is_writable model.now.model }
{
    if !has_writable_start(model) {
        return false;
    }
    if !has_writable_rows(model, ChanceTable::Next) {
        return false;
    }
    has_writable_rows(model, ChanceTable::Seen)
}

// Whether the row of the start can be written.
fn has_writable_start(model: &Model) -> bool
    ensures { result ≡
        are_writable_rows model.now.model.scales.start model.now.model.states (start_row model.now.model ∷ []) }
{
    model.invariant();
    let none = RowNeeds {
        digits: 0,
        uniform: false,
    };
    match with_row(model, ChanceRow::Start, none) {
        Some(needs) => has_scale(needs, model.states()),
        None => false,
    }
}

// Whether the rows of a table can be written.
fn has_writable_rows(model: &Model, table: ChanceTable) -> bool
    ensures { result ≡ is_writable_table model.now.model table }
{
    model.invariant();
    let mut needs = RowNeeds {
        digits: 0,
        uniform: false,
    };
    for action in 0..model.joint_actions() {
        let Some(more) = with_rows(model, table, action, needs) else {
            return false;
        };
        needs = more;
    }
    has_scale(needs, table.row_length(model))
}

// What is needed with the rows of a joint action, or none where one of them cannot be written.
fn with_rows(model: &Model, table: ChanceTable, action: u32, before: RowNeeds) -> Option<RowNeeds>
    requires action { action < joint_actions model.now.model }
    requires digits { before.digits ≤ 18 }
    ensures { IsNeeded (scale_of_table model.now.model table)
        (action_rows model.now.model table action) before result }
{
    let mut needs = before;
    for state in 0..model.states() {
        let row = ChanceRow::Of {
            table,
            action,
            state,
        };
        match with_row(model, row, needs) {
            Some(more) => needs = more,
            None => return None,
        }
    }
    Some(needs)
}

// What is needed with a row, or none where it cannot be written.
fn with_row(model: &Model, row: ChanceRow, before: RowNeeds) -> Option<RowNeeds>
    requires row { IsRowOf model.now.model row }
    requires digits { before.digits ≤ 18 }
    ensures { IsNeeded (scale_of_row model.now.model row) (cells_of model.now.model row ∷ []) before result }
{
    if row.has_equal_cells(model) {
        return Some(RowNeeds {
            digits: before.digits,
            uniform: true,
        });
    }
    match most_digits(model, row) {
        Some(digits) => Some(RowNeeds {
            digits: before.digits.max(digits),
            uniform: before.uniform,
        }),
        None => None,
    }
}

// The greatest number of fraction digits of the cells, or none where one of them is no multiple of `10^-18`.
fn most_digits(model: &Model, row: ChanceRow) -> Option<u32>
    requires { IsRowOf model.now.model row }
    ensures { MatchOption result
        (list_all (is_decimal_cell (scale_of_row model.now.model row)) (cells_of model.now.model row) ≡ false)
        (λ digits. HasDigits (scale_of_row model.now.model row) (cells_of model.now.model row) digits) }
{
    model.invariant();
    let scale = row.scale(model);
    let mut most = 0;
    for place in 0..row.len(model) {
        match cell_digits(row.cell(model, place), scale) {
            Some(digits) => most = most.max(digits),
            None => return None,
        }
    }
    Some(most)
}

// How many fraction digits a chance has, or none where it is no multiple of `10^-18`.
fn cell_digits(n: u64, scale: u64) -> Option<u32>
    requires some { 0 < scale }
    requires within { n ≤ scale }
    ensures { MatchOption result (is_decimal_cell scale n ≡ false) (λ digits. HasDigits scale (n ∷ []) digits) }
{
    if u128::from(n) * 1_000_000_000_000_000_000 % u128::from(scale) != 0 {
        return None;
    }
    Some(magnitude_over(n, scale, 18).digits)
}

// Whether the scale of rows is one that a model may have.
fn has_scale(needs: RowNeeds, len: u32) -> bool
    requires digits { needs.digits ≤ 18 }
    requires len { 0 < len }
    ensures { result ≡ nat_le (scale_of needs.digits needs.uniform len) (2 ^ 62) }
{
    let tens = 10u128.pow(needs.digits);
    if needs.uniform {
        lcm(tens, u128::from(len)).is_some()
    } else {
        tens <= 1 << 62
    }
}
