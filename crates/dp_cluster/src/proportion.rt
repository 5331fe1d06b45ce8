// The proportion of two totals, in which weights are told to be without a division.
ghost use Rattle.std.specs.Prelude.{◌≡◌, ℕ, ◌*◌, ◌<◌, ◌↔◌, IsTrue};
ghost use Rattle.dp_base.specs.Divisors.{gcd_of};

use dp_base::{gcd, quotient};
use dp_divisor::Divisor;

// A proportion of two numbers above 0, in lowest terms.
#[derive(Drop)]
pub(crate) struct Proportion {
    pub(crate) first: Divisor,
    pub(crate) second: u128,
    ghost some_first: { 0 < first },
    ghost lowest: { gcd_of first second ≡ 1 },
}

impl Proportion {
    // The proportion of two totals above 0.
    pub(crate) fn of(first: u128, second: u128) -> Proportion
        requires some_first { 0 < first }
        requires some_second { 0 < second }
        ensures { (a b : ℕ) → (a * result.second ≡ b * result.first) ↔ (a * second ≡ b * first) }
    {
        let common = gcd(first, second);
        Proportion {
            first: Divisor::of(quotient(first, common)),
            second: quotient(second, common),
        }
    }

    // Whether `a` and `b` are in this proportion: they are the two numbers of it, each as many times.
    #[inline]
    pub(crate) fn holds(&self, a: u128, b: u128) -> bool
        ensures { IsTrue result ↔ (a * self.now.second ≡ b * self.now.first) }
    {
        match self.first.quotient_of(a) {
            Some(times) => times.checked_mul(self.second) == Some(b),
            None => false,
        }
    }
}
