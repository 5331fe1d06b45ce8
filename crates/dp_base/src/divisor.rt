//! Greatest common divisors and least common multiples.
ghost use Rattle.std.specs.Prelude.{◌≡◌, ℕ, ◌*◌, ◌/◌, ◌^◌, ◌<◌, ◌≤◌, ◌↔◌, IsNone, IfSome, nat_le, if◌then◌else◌};
ghost use Rattle.std.specs.Int.{IsGcd};
ghost use Rattle.dp_base.specs.Divisors.{IsLcm, gcd_of, lcm_of};

/// The greatest common divisor of `a` and `b`, by Euclid's algorithm. That of 0 and `b` is `b`. Numbers
/// of at most 64 bits are divided as such, which is many times as fast.
pub fn gcd(a: u128, b: u128) -> u128
    ensures greatest { IsGcd a b result }
    ensures computed { result ≡ gcd_of a b }
{
    let mut divided = a;
    let mut divisor = b;
    while divisor != 0 {
        if let (Ok(short), Ok(shorter)) = (u64::try_from(divided), u64::try_from(divisor)) {
            return short_gcd(short, shorter) as u128;
        }
        let rest = divided % divisor;
        divided = divisor;
        divisor = rest;
    }
    divided
}

// The same of numbers of at most 64 bits.
fn short_gcd(a: u64, b: u64) -> u64
    ensures { IsGcd a b result }
{
    let (mut divided, mut divisor) = (a, b);
    while 0 < divisor {
        (divided, divisor) = (divisor, divided % divisor);
    }
    divided
}

/// The whole part of a number divided by another, which is above 0. Numbers of at most 64 bits are
/// divided as such.
pub fn quotient(number: u128, divisor: u128) -> u128
    requires some { 1 ≤ divisor }
    ensures { result ≡ number / divisor }
{
    match (u64::try_from(number), u64::try_from(divisor)) {
        (Ok(short), Ok(by)) => (short / by) as u128,
        _ => number / divisor,
    }
}

/// The least common multiple of two numbers, of which the first is at least 1. It asks that their
/// product fits in 128 bits.
pub fn least_common_multiple(a: u128, b: u128) -> u128
    requires some { 1 ≤ a }
    requires room { a * b < 2 ^ 128 }
    ensures least { IsLcm a b result }
    ensures computed { result ≡ lcm_of a b }
{
    a / gcd(a, b) * b
}

/// The greatest scale that a model may have.
const MOST: u128 = 1 << 62;

/// The least common multiple of two numbers of at least 1, or `None` where it is more than `2^62`, the
/// greatest scale that a model may have.
pub fn lcm(a: u128, b: u128) -> Option<u128>
    requires some_left { 1 ≤ a }
    requires some_right { 1 ≤ b }
    ensures least { IfSome result (λ m. IsLcm a b m) }
    ensures most { IfSome result (λ m. m ≤ 2 ^ 62) }
    ensures none { IsNone result ↔ ((m : ℕ) × (IsLcm a b m × (2 ^ 62 < m))) }
    ensures computed { result ≡ (if nat_le (lcm_of a b) (2 ^ 62) then Some (lcm_of a b) else None) }
{
    if a > MOST || b > MOST {
        return None;
    }
    let multiple = least_common_multiple(a, b);
    if multiple <= MOST {
        Some(multiple)
    } else {
        None
    }
}
