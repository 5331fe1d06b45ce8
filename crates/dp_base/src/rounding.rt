//! Products divided and rounded.
ghost use Rattle.std.specs.Prelude.{ℕ, ◌≡◌, ◌*◌, ◌^◌, ◌<◌, ℤ, pos, neg_ℤ, ◌+ℤ◌, ◌*ℤ◌, ◌≤ℤ◌, ◌<ℤ◌};
ghost use Rattle.std.specs.Prelude.{unsigned_abs};
ghost use Rattle.dp_base.specs.Rounding.{floor_of, ceiling_of};

/// The floor of `a * b / d`. It asks for `d >= 1` and that `a * b` fits in 127 bits with a sign.
pub fn mul_down(a: i128, b: i128, d: i128) -> i128
    requires divisor { pos 1 ≤ℤ d }
    requires room { unsigned_abs a * unsigned_abs b < 2 ^ 127 }
    ensures floor { result ≡ floor_of (a *ℤ b) (unsigned_abs d) }
    ensures not_above { (result *ℤ d) ≤ℤ (a *ℤ b) }
    ensures close { (a *ℤ b) <ℤ (result *ℤ d +ℤ d) }
{
    floor(a * b, d)
}

/// The ceiling of `a * b / d`. It asks for `d >= 1` and that `a * b` fits in 127 bits with a sign.
pub fn mul_up(a: i128, b: i128, d: i128) -> i128
    requires divisor { pos 1 ≤ℤ d }
    requires room { unsigned_abs a * unsigned_abs b < 2 ^ 127 }
    ensures ceiling { result ≡ ceiling_of (a *ℤ b) (unsigned_abs d) }
    ensures not_below { (a *ℤ b) ≤ℤ (result *ℤ d) }
    ensures close { (result *ℤ d) <ℤ (a *ℤ b +ℤ d) }
{
    ceiling(a * b, d)
}

fn floor(a: i128, d: i128) -> i128
    requires divisor { pos 1 ≤ℤ d }
    requires room { unsigned_abs a < 2 ^ 127 }
    ensures floor { result ≡ floor_of a (unsigned_abs d) }
    ensures room { unsigned_abs result < 2 ^ 127 }
{
    a.div_euclid(d)
}

#[tactic(auto, unfolding(crate::specs::Rounding::ceiling_of))]
fn ceiling(a: i128, d: i128) -> i128
    requires divisor { pos 1 ≤ℤ d }
    requires room { unsigned_abs a < 2 ^ 127 }
    ensures { result ≡ ceiling_of a (unsigned_abs d) }
{
    negated(floor(negated(a), d))
}

fn negated(a: i128) -> i128
    requires { unsigned_abs a < 2 ^ 127 }
    ensures is { result ≡ neg_ℤ a }
    ensures room { unsigned_abs result < 2 ^ 127 }
{
    -a
}
