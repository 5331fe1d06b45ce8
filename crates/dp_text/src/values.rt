//! What a statement gives to the cells that it covers.
ghost use Rattle.std.specs.Prelude.{◌≡◌, ◌==◌, ◌&&◌, ◌≤◌, codes, drop, length, nat_lt, not};
ghost use Rattle.dp_meaning.specs.NameLists as lists;
ghost use Rattle.dp_meaning.specs.Numbers as numbers_spec;
ghost use Rattle.dp_meaning.specs.Statements as spec;
ghost use Rattle.dp_text.specs.GivenNumbers.{given_numbers};
ghost use Rattle.dp_text.specs.Ranges.{is_in};
ghost use Rattle.dp_text.specs.Reading.{Reads};

use crate::axes::{axis_count, sizes_from};
use crate::fault::{TextFault, fault};
use crate::numbers::{Range, ended, numbers};
use crate::words::says;
use dp_items::{Piece, Pieces};
use dp_meaning::{Header, Table, Value, Why};
use std::alloc::Global;

/// The range of a table's numbers.
fn range_of(table: Table) -> Range
    ensures { is_in result ≡ spec.is_number_of table }
{
    match table {
        Table::Reward => Range::Reward,
        _ => Range::Chance,
    }
}

/// Whether a value is `uniform`, which fills rows of chances, where so many axes have no field.
fn is_uniform(table: Table, left: usize, first: &Piece) -> bool
    ensures { result
        ≡ (not (spec.is_reward_table table) && (nat_lt 0 left && lists.says (codes "uniform") first.now)) }
{
    !matches!(table, Table::Reward) && (left > 0 && says(b"uniform", first))
}

/// Whether a value is `identity`, which fills the matrix of a joint action's next states, where so
/// many axes have no field.
fn is_identity(table: Table, left: usize, first: &Piece) -> bool
    ensures { result ≡ (spec.is_trans table && (left == 2 && lists.says (codes "identity") first.now)) }
{
    matches!(table, Table::Trans) && (left == 2 && says(b"identity", first))
}

/// A value behind which nothing more may stand.
fn alone(value: Value, pieces: &Pieces) -> Result<Value, TextFault>
    ensures { Reads (numbers_spec.ended value pieces.now) result }
{
    ended(pieces)?;
    Ok(value)
}

/// A value of exactly so many Numbers.
fn given(
    alloc: Global,
    table: Table,
    count: u64,
    next: u32,
    pieces: &Pieces,
) -> Result<Value, TextFault>
    ensures { Reads (given_numbers table next count pieces.now) result }
{
    let values = numbers(alloc, range_of(table), next, count, pieces)?;
    Ok(Value::Numbers(values))
}

/// The value of a statement with so many fields.
pub(crate) fn value_of(
    alloc: Global,
    header: &Header,
    table: Table,
    fields: usize,
    next: u32,
    pieces: &Pieces,
) -> Result<Value, TextFault>
    requires { fields ≤ length (spec.axes_of header.now table) }
    ensures { Reads (spec.value_of table (drop fields (spec.axes_of header.now table)) next pieces.now) result }
{
    let (first, others) = match pieces.split_first() {
        Some(parts) => parts,
        None => return Err(TextFault::At(fault(Why::Expected, next))),
    };
    let left = axis_count(table) - fields;
    if is_uniform(table, left, &first) {
        return alone(Value::Uniform, &others);
    }
    if is_identity(table, left, &first) {
        return alone(Value::Identity, &others);
    }
    // One Number too many is as wrong as any more.
    let count = sizes_from(header, table, fields, pieces.len() as u64 + 1);
    given(alloc, table, count, next, pieces)
}
