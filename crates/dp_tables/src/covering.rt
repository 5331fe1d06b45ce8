//! Which statements cover a row of a table of chances.
ghost use Rattle.std.specs.Prelude.{◌≡◌, ◌<◌, ◌≤◌, [], ◌∷◌, get_or, map};
ghost use Rattle.std.specs.List.{list_any, range_with_len};
ghost use Rattle.dp_meaning.specs.Cells as cells;
ghost use Rattle.dp_meaning.specs.Cells.{covers, statements_for};
ghost use Rattle.dp_meaning.specs.NameLists.{size_of};
ghost use Rattle.dp_meaning.specs.Rows.{last_of_row, row_cells, statement_at};
ghost use Rattle.dp_meaning.specs.Statements.{axes_of};
ghost use Rattle.dp_tables.specs.Covering.{is_row_allowed};
ghost use Rattle.dp_spec.specs.JointNumbers.{parts_of, product};

use crate::BoundedText;
use dp_meaning::{GivenList, Header, Part, Table};
use dp_model::Sequence;
use std::slice::from_ref;

fn allows(part: Part, number: u32) -> bool
    ensures { result ≡ cells.allows part number }
{
    match part {
        Part::Any => true,
        Part::Only(only) => only == number,
    }
}

/// How many joint numbers the lists have.
fn joint_count(lists: &[GivenList]) -> u32
    requires some { 0 < product (map size_of lists.now) }
    requires limit { product (map size_of lists.now) ≤ 256 }
    ensures { result ≡ product (map size_of lists.now) }
{
    match lists {
        [] => 1,
        [list, others @ ..] => list.size() * joint_count(others),
    }
}

/// Whether the parts, one for each list, allow a joint number of the lists.
#[tactic(auto, using(crate::proofs::CoveringLemmas::small_others, crate::proofs::CoveringLemmas::allow_no_lists))]
fn allow(lists: &[GivenList], parts: &[Part], number: u32) -> bool
    requires some { 0 < product (map size_of lists.now) }
    requires limit { product (map size_of lists.now) ≤ 256 }
    ensures { result ≡ cells.allow parts.now (parts_of (map size_of lists.now) number) }
{
    let [_, lists @ ..] = lists else {
        return true;
    };
    let [part, parts @ ..] = parts else {
        return true;
    };
    let step = joint_count(lists);
    allows(*part, number / step) && allow(lists, parts, number % step)
}

/// Whether the parts allow one of the joint numbers below `count`.
fn allow_some(lists: &[GivenList], parts: &[Part], count: u32) -> bool
    requires some { 0 < product (map size_of lists.now) }
    requires limit { product (map size_of lists.now) ≤ 256 }
    ensures { result
        ≡ list_any (λ n. cells.allow parts.now (parts_of (map size_of lists.now) n)) (range_with_len 0 count) }
{
    for number in 0..count {
        if allow(lists, parts, number) {
            return true;
        }
    }
    false
}

/// The parts along an axis, of which a field that is not given has none.
fn field(fields: &[Sequence<Part>], axis: usize) -> &[Part]
    ensures { result.now ≡ get_or fields.now axis [] }
{
    match fields.get(axis) {
        Some(parts) => parts.as_slice(),
        None => &[],
    }
}

/// The axis of a row's cells in a table of chances.
fn last_axis(header: &Header, table: Table) -> &[GivenList]
    ensures { result.now ≡ get_or (axes_of header.now table) 2 [] }
{
    match table {
        Table::Obs => header.observations.as_slice(),
        _ => from_ref(&header.states),
    }
}

/// A row of a table: a joint action, and the state in which it is done or to which it leads.
#[derive(Clone, Copy)]
pub(crate) struct RowNumber {
    pub action: u32,
    pub state: u32,
}

/// Whether the fields of a statement allow the row, along its own two axes.
#[tactic(auto, using(crate::proofs::CoveringLemmas::small_axes))]
fn allow_row(text: &BoundedText, fields: &[Sequence<Part>], row: RowNumber) -> bool
    ensures { result ≡ is_row_allowed text.now.text.header fields.now row.action row.state }
{
    text.invariant();
    let header = text.header();
    allow(header.actions.as_slice(), field(fields, 0), row.action)
        && allow(from_ref(&header.states), field(fields, 1), row.state)
}

/// Whether the fields of a statement allow one of the first `len` cells of the row.
#[tactic(auto, using(crate::proofs::CoveringLemmas::small_axes))]
fn covers_row(
    text: &BoundedText,
    table: Table,
    fields: &[Sequence<Part>],
    row: RowNumber,
    len: u32,
) -> bool
    ensures { let cells_of_row = row_cells (row.action ∷ row.state ∷ []) len in
        result ≡ list_any (covers (axes_of text.now.text.header table) fields.now) cells_of_row }
{
    if !allow_row(text, fields, row) {
        return false;
    }
    text.invariant();
    allow_some(last_axis(text.header(), table), field(fields, 2), len)
}

/// Where the last statement of a table begins that covers one of the first `len` cells of the row.
pub(crate) fn last_of_row(text: &BoundedText, table: Table, row: RowNumber, len: u32) -> Option<u32>
    ensures { let statements = statements_for table text.now.text.statements in
        let cells_of_row = row_cells (row.action ∷ row.state ∷ []) len in
        result ≡ statement_at (last_of_row (axes_of text.now.text.header table) statements cells_of_row) }
{
    let mut last = None;
    for statement in text.statements() {
        if table.is_same(statement.table)
            && covers_row(text, table, statement.fields.as_slice(), row, len)
        {
            last = Some(statement.at);
        }
    }
    last
}
