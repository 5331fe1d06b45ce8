//! Primitive vectors.
ghost use Rattle.std.specs.Prelude.{◌≡◌, ℕ, ◌/◌, ◌<◌, List, map, pos, unsigned_abs};
ghost use Rattle.dp_spec.specs.Primitive.{IsGcdOf, IsPrimitiveOf};

use dp_base::{gcd, quotient};

/// Divides each of the numbers, which are at least 0, by the greatest common divisor of all, where that
/// is above 0. It takes no memory.
pub fn primitive(values: &mut [i128])
    requires { (xs : List ℕ) × (values.old ≡ map pos xs) }
    ensures { (xs : List ℕ) → values.old ≡ map pos xs →
        (us : List ℕ) × (IsPrimitiveOf xs us) × (values.new ≡ map pos us) }
{
    let common = common_divisor(values);
    if common > 1 {
        for at in 0..values.len() {
            values[at] = divided(values[at], common);
        }
    }
}

// The greatest common divisor of all, without their signs.
fn common_divisor(values: &[i128]) -> u128
    ensures { IsGcdOf (map unsigned_abs values.now) result }
{
    let mut common = 0;
    for value in values {
        common = gcd(common, value.unsigned_abs());
        if common == 1 {
            return 1;
        }
    }
    common
}

// A number, which is at least 0, divided by another.
#[inline]
fn divided(value: i128, divisor: u128) -> i128
    requires { 1 < divisor }
    ensures { result ≡ pos (unsigned_abs value / divisor) }
{
    quotient(value.unsigned_abs(), divisor) as i128
}
