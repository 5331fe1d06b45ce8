//! Primitive vectors, without a division for each of their numbers.
ghost use Rattle.std.specs.Prelude.{◌≡◌, ℕ, ◌/◌, ◌<◌, List, map, pos, unsigned_abs};
ghost use Rattle.std.specs.Int.{◌∣◌};
ghost use Rattle.dp_spec.specs.Primitive.{IsGcdOf, IsPrimitiveOf};
ghost use Rattle.dp_divisor.specs.CommonDivisors.{number_of};

use crate::{Divisor, common_with};

/// Divides each of the numbers, which are at least 0, by the greatest common divisor of all, where that
/// is above 0. It takes no memory.
pub fn primitive(values: &mut [i128])
    requires { (xs : List ℕ) × (values.old ≡ map pos xs) }
    ensures { (xs : List ℕ) → values.old ≡ map pos xs →
        (us : List ℕ) × (IsPrimitiveOf xs us) × (values.new ≡ map pos us) }
{
    if let Some(common) = common_divisor(values) {
        if common.number() > 1 {
            for at in 0..values.len() {
                values[at] = divided(values[at], &common);
            }
        }
    }
}

// The greatest common divisor of all, without their signs.
fn common_divisor(values: &[i128]) -> Option<Divisor>
    ensures { IsGcdOf (map unsigned_abs values.now) (number_of result) }
{
    let mut common = None;
    for value in values {
        common = common_with(common, value.unsigned_abs());
    }
    common
}

// A number, which is at least 0, divided by a divisor of it.
#[inline]
fn divided(value: i128, divisor: &Divisor) -> i128
    requires some { 1 < divisor.now }
    requires multiple { divisor.now ∣ unsigned_abs value }
    ensures { result ≡ pos (unsigned_abs value / divisor.now) }
{
    divisor.quotient(value.unsigned_abs()) as i128
}
