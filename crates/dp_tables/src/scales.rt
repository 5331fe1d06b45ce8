//! The scales of the tables, which are what their numbers are counted in.
ghost use Rattle.std.specs.Prelude.{◌≡◌, ◌≤◌, ◌^◌, unsigned_abs};
ghost use Rattle.dp_meaning.specs.Cells.{statements_for};
ghost use Rattle.dp_meaning.specs.Meaning.{IsSaid};
ghost use Rattle.dp_meaning.specs.Scales as spec;
ghost use Rattle.dp_meaning.specs.Scales.{digits_of_statements, scale_of};

use crate::statements::{digits_in_numbers, has_uniform, most_digits_of};
use dp_base::least_common_multiple;
use dp_meaning::{Start, Table, Text};

/// The scale of the start chances of so many states.
pub(crate) fn start_scale(text: &Text, states: u32) -> u128
    requires { IsSaid text.now }
    ensures { result ≡ spec.start_scale text.now.header.start states }
{
    match &text.header.start {
        Start::AnyState => scale(0, true, states),
        Start::OneState(_) => scale(0, false, states),
        Start::StartRow(_, row) => scale(digits_in_numbers(row.as_slice()), false, states),
    }
}

/// The scale of a table of chances whose rows have so many cells.
pub(crate) fn table_scale(text: &Text, table: Table, len: u32) -> u128
    requires { IsSaid text.now }
    ensures { result ≡ spec.table_scale (statements_for table text.now.statements) len }
{
    let statements = text.statements.as_slice();
    scale(
        most_digits_of(table, statements),
        has_uniform(table, statements),
        len,
    )
}

/// The scale of the rewards.
pub(crate) fn reward_scale(text: &Text) -> u64
    requires { IsSaid text.now }
    ensures { result ≡ 10 ^ digits_of_statements (statements_for Table.Reward text.now.statements) }
{
    let digits = most_digits_of(Table::Reward, text.statements.as_slice());
    10u64.pow(u32::from(digits))
}

/// The scale of the discount.
pub(crate) fn discount_scale(text: &Text) -> u64
    requires { IsSaid text.now }
    ensures { result ≡ 10 ^ text.now.header.discount.digits }
{
    10u64.pow(u32::from(text.header.discount.digits))
}

/// The discount over its scale.
pub(crate) fn gain(text: &Text) -> u64
    requires { IsSaid text.now }
    ensures { result ≡ unsigned_abs text.now.header.discount.units }
{
    text.header.discount.units.unsigned_abs() as u64
}

/// Ten to the number of fraction digits, made a multiple of the row's length where a row is uniform.
fn scale(digits: u8, uniform: bool, len: u32) -> u128
    requires { digits ≤ 18 }
    ensures { result ≡ scale_of digits uniform len }
{
    let tens = 10u128.pow(u32::from(digits));
    if uniform {
        least_common_multiple(tens, u128::from(len))
    } else {
        tens
    }
}
