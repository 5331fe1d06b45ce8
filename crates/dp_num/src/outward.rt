//! The arithmetic that rounds outward.
ghost use Rattle.std.specs.Prelude.{◌≡◌, ◌*◌, ◌^◌, ◌<◌, ◌≤◌, pos, ◌≤ℤ◌, unsigned_abs};
ghost use Rattle.dp_spec.specs.Arithmetic.{outward};
ghost use Rattle.dp_spec.specs.Calls.{AreInRange, outward_calls};
ghost use Rattle.dp_base.specs.Rounding.{mul_down as down_of, mul_up as up_of};
ghost use Rattle.dp_laws.proofs.SoundOverScales.{outward_holds};

use crate::arith::Arith;
use dp_base::{mul_down, mul_up};
use dp_spec::{Scales, Span};

/// The weight 1.
const ONE: i128 = 1_000_000_000_000;

/// The arithmetic that divides each product at once and rounds it outward: weights in `10^-12`,
/// values in `10^-9`. The true number lies between the ends of each span, and at or below each
/// number that is from above.
#[derive(Drop)]
pub struct Outward {
    scales: Scales,
}

impl std::marker::Model for Outward {
    ghost use Rattle.dp_spec.specs.declared.scales.Scales.{Scales};
    ghost use Rattle.dp_spec.specs.Calls.{AreInRange};

    ghost Value = { Scales };

    ghost view = { λ o. o.scales };

    ghost invariant = { λ o. AreInRange o.scales };
}

impl Outward {
    /// The outward arithmetic over these scales: start, trans, obs, reward and discount from 1 to
    /// `2^62`, and a gain of at most the discount.
    pub fn of(scales: Scales) -> Outward
        requires range { AreInRange scales }
        ensures { result ≡ scales }
    {
        Outward { scales }
    }
}

/// A part of a weight, rounded down.
#[inline]
#[tactic(auto, unfolding(dp_base::specs::Rounding::mul_down))]
fn part_down(weight: i128, part: u64, whole: u64) -> i128
    requires from { pos 0 ≤ℤ weight }
    requires to { weight ≤ℤ pos (2 ^ 64) }
    requires part { part ≤ whole }
    requires some { 0 < whole }
    requires most { whole ≤ 2 ^ 62 }
    ensures is { result ≡ down_of weight (pos part) whole }
    ensures from { pos 0 ≤ℤ result }
    ensures to { result ≤ℤ pos (2 ^ 64) }
{
    mul_down(weight, i128::from(part), i128::from(whole))
}

/// A part of a weight, rounded up.
#[inline]
#[tactic(auto, unfolding(dp_base::specs::Rounding::mul_up))]
fn part_up(weight: i128, part: u64, whole: u64) -> i128
    requires from { pos 0 ≤ℤ weight }
    requires to { weight ≤ℤ pos (2 ^ 64) }
    requires part { part ≤ whole }
    requires some { 0 < whole }
    requires most { whole ≤ 2 ^ 62 }
    ensures is { result ≡ up_of weight (pos part) whole }
    ensures from { pos 0 ≤ℤ result }
    ensures to { result ≤ℤ pos (2 ^ 64) }
{
    mul_up(weight, i128::from(part), i128::from(whole))
}

/// A part of a value, rounded up.
#[inline]
#[tactic(auto, unfolding(dp_base::specs::Rounding::mul_up))]
fn value_part_up(value: i128, part: u64, whole: u64) -> i128
    requires size { unsigned_abs value ≤ 2 ^ 62 }
    requires part { part ≤ whole }
    requires some { 0 < whole }
    requires most { whole ≤ 2 ^ 62 }
    ensures is { result ≡ up_of value (pos part) whole }
    ensures size { unsigned_abs result ≤ 2 ^ 62 }
{
    mul_up(value, i128::from(part), i128::from(whole))
}

/// A weight times a reward, in the unit of values, rounded down.
#[inline]
#[tactic(auto, unfolding(dp_base::specs::Rounding::mul_down))]
fn gain_down(weight: i128, reward: i64, scale: u64) -> i128
    requires from { pos 0 ≤ℤ weight }
    requires to { weight ≤ℤ pos (2 ^ 64) }
    requires reward { unsigned_abs reward ≤ 10 ^ 17 }
    requires some { 0 < scale }
    ensures { result ≡ down_of weight reward (1000 * scale) }
{
    mul_down(weight, i128::from(reward), 1000 * i128::from(scale))
}

/// A weight times a reward, in the unit of values, rounded up.
#[inline]
#[tactic(auto, unfolding(dp_base::specs::Rounding::mul_up))]
fn gain_up(weight: i128, reward: i64, scale: u64) -> i128
    requires from { pos 0 ≤ℤ weight }
    requires to { weight ≤ℤ pos (2 ^ 64) }
    requires reward { unsigned_abs reward ≤ 10 ^ 17 }
    requires some { 0 < scale }
    ensures { result ≡ up_of weight reward (1000 * scale) }
{
    mul_up(weight, i128::from(reward), 1000 * i128::from(scale))
}

/// A weight times a value, in the unit of values, rounded up.
#[inline]
#[tactic(auto, unfolding(dp_base::specs::Rounding::mul_up))]
fn weighted_up(weight: i128, value: i128) -> i128
    requires from { pos 0 ≤ℤ weight }
    requires to { weight ≤ℤ pos (2 ^ 64) }
    requires value { unsigned_abs value ≤ 2 ^ 62 }
    ensures { result ≡ up_of weight value (10 ^ 12) }
{
    mul_up(weight, value, ONE)
}

impl Arith for Outward {
    ghost scales_of = { λ a. a };

    ghost operations = { λ a. outward a };

    ghost calls = { λ a. outward_calls a };

    #[inline]
    #[tactic(auto, unfolding(dp_spec::specs::Arithmetic::outward, dp_base::specs::Rounding::mul_down, dp_base::specs::Rounding::mul_up))]
    fn start(&self, b: u64) -> Span {
        let scale = i128::from(self.scales.start);
        Span {
            low: mul_down(i128::from(b), ONE, scale),
            high: mul_up(i128::from(b), ONE, scale),
        }
    }

    #[inline]
    #[tactic(auto, unfolding(dp_spec::specs::Arithmetic::outward))]
    fn one(&self) -> Span {
        Span {
            low: ONE,
            high: ONE,
        }
    }

    #[inline]
    #[tactic(auto, unfolding(dp_spec::specs::Arithmetic::outward))]
    fn chance(&self, w: Span, p: u64, z: u64) -> Span {
        Span {
            low: part_down(part_down(w.low, p, self.scales.trans), z, self.scales.obs),
            high: part_up(part_up(w.high, p, self.scales.trans), z, self.scales.obs),
        }
    }

    #[inline]
    #[tactic(auto, unfolding(dp_spec::specs::Arithmetic::outward))]
    fn later(&self, c: Span) -> Span {
        Span {
            low: part_down(c.low, self.scales.gain, self.scales.discount),
            high: part_up(c.high, self.scales.gain, self.scales.discount),
        }
    }

    #[inline]
    #[tactic(auto, unfolding(dp_spec::specs::Arithmetic::outward))]
    fn gain(&self, c: Span, r: i64, _rest: u32) -> Span {
        if r >= 0 {
            Span {
                low: gain_down(c.low, r, self.scales.reward),
                high: gain_up(c.high, r, self.scales.reward),
            }
        } else {
            Span {
                low: gain_down(c.high, r, self.scales.reward),
                high: gain_up(c.low, r, self.scales.reward),
            }
        }
    }

    #[inline]
    #[tactic(auto, unfolding(dp_spec::specs::Arithmetic::outward))]
    fn carry(&self, v: i128, p: u64) -> i128 {
        value_part_up(
            value_part_up(v, p, self.scales.trans),
            self.scales.gain,
            self.scales.discount,
        )
    }

    #[inline]
    #[tactic(auto, unfolding(dp_spec::specs::Arithmetic::outward))]
    fn tail(&self, w: Span, v: i128) -> i128 {
        if v >= 0 {
            weighted_up(w.high, v)
        } else {
            weighted_up(w.low, v)
        }
    }

    ghost holds = { λ a range. outward_holds a range };
}
