//! The greatest common divisor of numbers, one by one.
ghost use Rattle.std.specs.Int.{IsGcd};
ghost use Rattle.dp_divisor.specs.CommonDivisors.{number_of};

use crate::Divisor;

/// The greatest common divisor of what was seen so far and of one number more: `None` where all are 0.
pub fn common_with(common: Option<Divisor>, number: u128) -> Option<Divisor>
    ensures { IsGcd (number_of common) number (number_of result) }
{
    match common {
        Some(divisor) => Some(divisor.common_with(number)),
        None if number == 0 => None,
        None => Some(Divisor::of(number)),
    }
}
