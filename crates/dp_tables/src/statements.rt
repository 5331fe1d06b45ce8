//! What the statements of one table have together.
ghost use Rattle.std.specs.Prelude.{◌≡◌, length};
ghost use Rattle.std.specs.List.{list_any};
ghost use Rattle.dp_meaning.specs.Cells.{statements_for};
ghost use Rattle.dp_meaning.specs.Scales.{digits_of_statements, digits_of_value, is_uniform, most_digits};

use dp_base::Decimal;
use dp_meaning::{Statement, Table, Value};

/// How many of the statements fill the table.
pub(crate) fn count_of(table: Table, statements: &[Statement]) -> usize
    ensures { result ≡ length (statements_for table statements.now) }
{
    let mut count = 0;
    for statement in statements {
        if table.is_same(statement.table) {
            count += 1;
        }
    }
    count
}

/// Whether one of the table's statements makes rows uniform, also where later ones replace it.
pub(crate) fn has_uniform(table: Table, statements: &[Statement]) -> bool
    ensures { result ≡ list_any (λ s. is_uniform s.value) (statements_for table statements.now) }
{
    for statement in statements {
        if table.is_same(statement.table) && matches!(statement.value, Value::Uniform) {
            return true;
        }
    }
    false
}

/// The greatest number of fraction digits in the table's statements.
pub(crate) fn most_digits_of(table: Table, statements: &[Statement]) -> u8
    ensures { result ≡ digits_of_statements (statements_for table statements.now) }
{
    let mut most = 0;
    for statement in statements {
        if table.is_same(statement.table) {
            most = most.max(digits_in_value(&statement.value));
        }
    }
    most
}

/// The greatest number of fraction digits in a value, which is 0 where it has no Numbers.
fn digits_in_value(value: &Value) -> u8
    ensures { result ≡ digits_of_value value.now }
{
    match value {
        Value::Uniform | Value::Identity => 0,
        Value::Numbers(numbers) => digits_in_numbers(numbers.as_slice()),
    }
}

/// The greatest number of fraction digits.
pub(crate) fn digits_in_numbers(numbers: &[Decimal]) -> u8
    ensures { result ≡ most_digits numbers.now }
{
    let mut most = 0;
    for number in numbers {
        most = most.max(number.digits);
    }
    most
}
