// Weights divided by their greatest common divisor.
ghost use Rattle.std.specs.Prelude.{◌≡◌, ◌<◌, ◌≤◌, ◌^◌, ℕ, pos, true, false, length, unsigned_abs, ◌/◌, IfOk};
ghost use Rattle.std.specs.Int.{◌∣◌};
ghost use Rattle.dp_spec.specs.Arithmetic.{point};
ghost use Rattle.dp_pomdp.specs.Looking.{AreZero, weights_of};
ghost use Rattle.dp_pomdp.specs.Multiples.{AreNumbers, AreTimes, IsDivisorOf};

use dp_base::{Memory, gcd, quotient};
use dp_spec::Span;

/// In exact mode weights with a look of at least 2 are divided by their greatest common divisor, which
/// is the result. Else they stay, and the result is 1.
pub fn reduced(exact: bool, look: u32, weights: &mut [Span]) -> i128
    requires numbers { exact ≡ true → AreNumbers weights.old }
    ensures times { (k : ℕ) × (result ≡ pos k) × (AreTimes k weights.new weights.old) }
    ensures greatest { exact ≡ true → 2 ≤ look → (AreZero weights.old → ⊥) →
        (d : ℕ) → IsDivisorOf d weights.old → d ∣ unsigned_abs result }
    ensures outward { exact ≡ false → result ≡ pos 1 }
    ensures outward_stay { exact ≡ false → weights.new ≡ weights.old }
{
    if !exact || look < 2 {
        return 1;
    }
    match i128::try_from(common_divisor(weights)) {
        Ok(common) if common > 1 => {
            divide(weights, common.unsigned_abs());
            common
        }
        _ => 1,
    }
}

/// Makes `base` these weights, in exact mode divided by their greatest common divisor, which is the
/// result. Else it is 1. The only error is want of memory.
pub fn base_of(exact: bool, weights: &[Span], base: &mut Vec<Span>) -> Result<i128, Memory>
    requires numbers { exact ≡ true → AreNumbers weights.now }
    ensures times { IfOk result (λ factor. (k : ℕ) × (factor ≡ pos k) × (AreTimes k base.new.items weights.now)) }
    ensures outward { IfOk result (λ factor. exact ≡ false → factor ≡ pos 1) }
    ensures outward_stay { IfOk result (λ _. exact ≡ false → base.new.items ≡ weights.now) }
{
    base.clear();
    base.extend_from_slice(weights)?;
    Ok(reduced(exact, 2, base))
}

// The greatest common divisor of the upper ends.
fn common_divisor(weights: &[Span]) -> u128
    requires numbers { AreNumbers weights.now }
    ensures small { result < 2 ^ 127 }
    ensures divides { IsDivisorOf result weights.now }
    ensures greatest { (d : ℕ) → IsDivisorOf d weights.now → d ∣ result }
{
    let mut common = 0;
    for weight in weights {
        common = gcd(common, weight.high.unsigned_abs());
        if common == 1 {
            return 1;
        }
    }
    common
}

// Divides weights by a common divisor.
fn divide(weights: &mut [Span], common: u128)
    requires some { 1 < common }
    requires numbers { AreNumbers weights.old }
    requires divisor { IsDivisorOf common weights.old }
    ensures { AreTimes common weights.new weights.old }
{
    for at in 0..weights.len() {
        weights[at] = divided(weights[at], common);
    }
}

// One number divided by another.
#[inline]
fn divided(weight: Span, common: u128) -> Span
    requires some { 1 < common }
    ensures { result ≡ point (pos (unsigned_abs weight.high / common)) }
{
    let number = quotient(weight.high.unsigned_abs(), common) as i128;
    Span {
        low: number,
        high: number,
    }
}
