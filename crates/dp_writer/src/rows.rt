//! The rows of chances of a model.
ghost use Rattle.std.specs.Prelude.{◌≡◌, ◌<◌, ◌≤◌, length, slice_index};
ghost use Rattle.dp_writer.specs.ModelRows.{row_length, scale_of_table, cell_at};
ghost use Rattle.dp_writer.specs.ChanceRows.{IsRowOf, cells_of, scale_of_row};
ghost use Rattle.dp_writer.specs.WrittenModel.{are_equal};
ghost use Rattle.dp_spec.specs.Model.{joint_actions};

use dp_model::Model;

/// The tables of chances with a row for each joint action and state.
#[derive(Clone, Copy)]
pub(crate) enum ChanceTable {
    /// Of the next states.
    Next,
    /// Of the joint observations.
    Seen,
}

impl ChanceTable {
    /// How many cells a row has.
    pub(crate) fn row_length(self, model: &Model) -> u32
        ensures { result ≡ row_length model.now.model self }
    {
        match self {
            ChanceTable::Next => model.states(),
            ChanceTable::Seen => model.joint_observations(),
        }
    }

    /// The scale of its chances.
    fn scale(self, model: &Model) -> u64
        ensures { result ≡ scale_of_table model.now.model self }
    {
        match self {
            ChanceTable::Next => model.scales().trans,
            ChanceTable::Seen => model.scales().obs,
        }
    }

    /// The chance at a place of the row of a joint action and a state.
    fn cell(self, model: &Model, action: u32, state: u32, place: u32) -> u64
        requires action { action < joint_actions model.now.model }
        requires state { state < model.now.model.states }
        requires place { place < row_length model.now.model self }
        ensures { result ≡ cell_at model.now.model self action state place }
    {
        match self {
            ChanceTable::Next => model.trans(action, state, place),
            ChanceTable::Seen => model.obs(action, state, place),
        }
    }
}

/// A row of chances.
#[derive(Clone, Copy)]
pub(crate) enum ChanceRow {
    /// That of the start.
    Start,
    /// That of a joint action and a state in a table.
    Of {
        table: ChanceTable,
        action: u32,
        state: u32,
    },
}

impl ChanceRow {
    /// How many cells it has.
    pub(crate) fn len(self, model: &Model) -> u32
        ensures { result ≡ length (cells_of model.now.model self) }
    {
        match self {
            ChanceRow::Start => model.states(),
            ChanceRow::Of { table, .. } => table.row_length(model),
        }
    }

    /// The scale of its chances.
    pub(crate) fn scale(self, model: &Model) -> u64
        ensures { result ≡ scale_of_row model.now.model self }
    {
        match self {
            ChanceRow::Start => model.scales().start,
            ChanceRow::Of { table, .. } => table.scale(model),
        }
    }

    /// The chance at a place.
    pub(crate) fn cell(self, model: &Model, place: u32) -> u64
        requires row { IsRowOf model.now.model self }
        requires place { place < length (cells_of model.now.model self) }
        ensures { result ≡ slice_index (cells_of model.now.model self) place }
    {
        match self {
            ChanceRow::Start => model.start(place),
            ChanceRow::Of {
                table,
                action,
                state,
            } => table.cell(model, action, state, place),
        }
    }

    /// Whether all its cells are equal.
    pub(crate) fn has_equal_cells(self, model: &Model) -> bool
        requires { IsRowOf model.now.model self }
        ensures { result ≡ are_equal (cells_of model.now.model self) }
    {
        model.invariant();
        let first = self.cell(model, 0);
        for place in 0..self.len(model) {
            if self.cell(model, place) != first {
                return false;
            }
        }
        true
    }
}
