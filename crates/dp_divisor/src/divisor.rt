//! Numbers to divide by many times.
ghost use Rattle.std.specs.Prelude.{◌≡◌, ℕ, ◌*◌, ◌/◌, ◌%◌, ◌^◌, ◌<◌};
ghost use Rattle.std.specs.Int.{◌∣◌, IsGcd};
ghost use Rattle.std.specs.Option.{SomeIff};
ghost use Rattle.dp_divisor.specs.Inverses.{IsInverted};

use dp_base::gcd;
use std::marker::Model;

/// A number above 0 to divide by many times. A multiple of it is divided by a multiplication, which gives
/// the quotient modulo 2^128; so it is asked for a multiple, or the product of both is compared.
#[derive(Drop)]
pub struct Divisor {
    number: u128,
    // how often the number can be halved
    halvings: u32,
    // what gives 1 modulo 2^128 when it is multiplied with the odd number that is left then
    inverse: u128,
}

impl Model for Divisor {
    ghost Value = { ℕ };

    ghost view = { λ d. d.number };

    ghost invariant = { λ d. IsInverted d.number d.halvings d.inverse };
}

impl Divisor {
    /// The divisor of a number above 0.
    pub fn of(number: u128) -> Divisor
        requires some { 0 < number }
        ensures { result ≡ number }
    {
        let halvings = number.trailing_zeros();
        Divisor {
            number,
            halvings,
            inverse: inverse_of(number >> halvings),
        }
    }

    /// The number.
    #[inline]
    pub fn number(&self) -> u128
        ensures number { result ≡ self.now }
        ensures some { 0 < result }
    {
        self.number
    }

    /// A multiple of the number, divided by it.
    #[inline]
    pub fn quotient(&self, multiple: u128) -> u128
        requires multiple { self.now ∣ multiple }
        ensures { result ≡ multiple / self.now }
    {
        (multiple >> self.halvings).wrapping_mul(self.inverse)
    }

    /// The same of any number, which is `None` exactly where it is not a multiple.
    #[inline]
    pub fn quotient_of(&self, number: u128) -> Option<u128>
        ensures { SomeIff result (self.now ∣ number) (number / self.now) }
    {
        let quotient = (number >> self.halvings).wrapping_mul(self.inverse);
        if quotient.checked_mul(self.number) == Some(number) {
            Some(quotient)
        } else {
            None
        }
    }

    /// The greatest common divisor of this and a number: most often this, and then nothing is divided.
    pub fn common_with(self, number: u128) -> Divisor
        ensures { IsGcd self number result }
    {
        if self.quotient_of(number).is_some() {
            return self;
        }
        Divisor::of(gcd(self.number, number))
    }
}

// What gives 1 modulo 2^128 when it is multiplied with an odd number, by Newton's iteration: each step
// doubles the number of the low bits that are right.
fn inverse_of(odd: u128) -> u128
    requires odd { odd % 2 ≡ 1 }
    ensures { odd * result % 2 ^ 128 ≡ 1 }
{
    let mut inverse: u128 = 1;
    for _step in 0..7u32 {
        inverse = inverse.wrapping_mul(2u128.wrapping_sub(odd.wrapping_mul(inverse)));
    }
    inverse
}
