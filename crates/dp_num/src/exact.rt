//! The exact arithmetic.
ghost use Rattle.std.specs.Prelude.{ℕ, ◌≡◌, ◌*◌, ◌^◌, ◌<◌, ◌%◌, pos, ◌*ℤ◌, unsigned_abs};
ghost use Rattle.dp_spec.specs.Arithmetic.{exact, point, reward_factor};
ghost use Rattle.dp_spec.specs.Calls.{AreInRange, exact_calls};
ghost use Rattle.dp_num.specs.RewardFactors.{HoldsFactors};
ghost use Rattle.dp_laws.proofs.SoundOverScales.{exact_holds};

use crate::arith::Arith;
use dp_spec::{Scales, Span};

/// For how many numbers of steps left the factors of rewards are kept. Where more are left, a
/// factor of at most 127 bits is that of fewer steps, since the scale of a step is 1.
const FACTORS: usize = 127;

/// The arithmetic that rounds nothing: each number is the true one.
#[derive(Drop)]
pub struct Exact {
    scales: Scales,
    factors: [u128; FACTORS],
}

impl std::marker::Model for Exact {
    ghost use Rattle.dp_spec.specs.declared.scales.Scales.{Scales};
    ghost use Rattle.dp_spec.specs.Calls.{AreInRange};
    ghost use Rattle.dp_num.specs.RewardFactors.{HoldsFactors};

    ghost Value = { Scales };

    ghost view = { λ e. e.scales };

    ghost invariant = { λ e. AreInRange e.scales × HoldsFactors e.scales 127 e.factors };
}

impl Exact {
    /// The exact arithmetic over these scales: start, trans, obs, reward and discount from 1 to
    /// `2^62`, and a gain of at most the discount.
    pub fn of(scales: Scales) -> Exact
        requires range { AreInRange scales }
        ensures { result ≡ scales }
    {
        let factors = reward_factors(&scales);
        Exact { scales, factors }
    }

    /// What a reward is multiplied by where `rest` steps are left.
    #[inline]
    fn factor(&self, rest: u32) -> u128
        requires room { reward_factor self.now rest < 2 ^ 127 }
        ensures is { result ≡ reward_factor self.now rest }
        ensures some { 0 < result }
    {
        self.factors[(rest as usize).min(FACTORS - 1)]
    }
}

fn reward_factors(scales: &Scales) -> [u128; FACTORS]
    requires range { AreInRange scales.now }
    ensures { HoldsFactors scales.now 127 result }
{
    let chances = u128::from(scales.trans) * u128::from(scales.obs);
    let step = chances.wrapping_mul(u128::from(scales.discount));
    let mut factors = [0; FACTORS];
    let mut factor = u128::from(scales.discount);
    for i in 0..FACTORS {
        factors[i] = factor;
        factor = factor.wrapping_mul(step);
    }
    factors
}

#[inline]
fn both(x: i128) -> Span
    ensures { result ≡ point x }
{
    Span { low: x, high: x }
}

#[inline]
fn times(x: i128, y: i128) -> i128
    requires room { unsigned_abs (x *ℤ y) < 2 ^ 127 }
    ensures { result ≡ x *ℤ y }
{
    x * y
}

/// `x` times a factor, which may have more than 127 bits where `x` is 0.
#[inline]
fn scaled(x: i128, factor: u128) -> i128
    requires room { unsigned_abs (x *ℤ pos factor) < 2 ^ 127 }
    ensures { result ≡ x *ℤ pos factor }
{
    if x == 0 { 0 } else { x * factor as i128 }
}

/// A weight times a reward and its factor.
#[inline]
fn gained(c: i128, r: i128, factor: u128) -> i128
    requires some { 0 < factor }
    requires room { unsigned_abs (c *ℤ (r *ℤ pos factor)) < 2 ^ 127 }
    ensures { result ≡ c *ℤ (r *ℤ pos factor) }
{
    scaled(times(c, r), factor)
}

/// A value times a chance, the scale of the observation chances and the gain.
#[inline]
fn carried(v: i128, p: u64, obs: u64, gain: u64) -> i128
    requires some { 0 < obs }
    requires room { unsigned_abs (v *ℤ pos (p * obs * gain)) < 2 ^ 127 }
    ensures { result ≡ v *ℤ pos (p * obs * gain) }
{
    times(scaled(v, product(p, gain)), i128::from(obs))
}

#[inline]
fn product(x: u64, y: u64) -> u128
    ensures { result ≡ x * y }
{
    u128::from(x) * u128::from(y)
}

impl Arith for Exact {
    ghost scales_of = { λ a. a };

    ghost operations = { λ a. exact a };

    ghost calls = { λ a. exact_calls a };

    #[inline]
    #[tactic(auto, unfolding(dp_spec::specs::Arithmetic::exact))]
    fn start(&self, b: u64) -> Span {
        both(i128::from(b))
    }

    #[inline]
    #[tactic(auto, unfolding(dp_spec::specs::Arithmetic::exact))]
    fn one(&self) -> Span {
        both(1)
    }

    #[inline]
    #[tactic(auto, unfolding(dp_spec::specs::Arithmetic::exact))]
    fn chance(&self, w: Span, p: u64, z: u64) -> Span {
        both(scaled(w.low, product(p, z)))
    }

    #[inline]
    #[tactic(auto, unfolding(dp_spec::specs::Arithmetic::exact))]
    fn later(&self, c: Span) -> Span {
        both(times(c.low, i128::from(self.scales.gain)))
    }

    #[inline]
    #[tactic(auto, unfolding(dp_spec::specs::Arithmetic::exact))]
    fn gain(&self, c: Span, r: i64, rest: u32) -> Span {
        both(gained(c.low, i128::from(r), self.factor(rest)))
    }

    #[inline]
    #[tactic(auto, unfolding(dp_spec::specs::Arithmetic::exact))]
    fn carry(&self, v: i128, p: u64) -> i128 {
        carried(v, p, self.scales.obs, self.scales.gain)
    }

    #[inline]
    #[tactic(auto, unfolding(dp_spec::specs::Arithmetic::exact))]
    fn tail(&self, w: Span, v: i128) -> i128 {
        times(w.low, v)
    }

    ghost holds = { λ a range. exact_holds a };
}
