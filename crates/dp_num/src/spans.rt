//! Sums of spans.
ghost use Rattle.std.specs.Prelude.{◌≡◌, ◌^◌, ◌<◌, ◌+ℤ◌, unsigned_abs};
ghost use Rattle.dp_spec.specs.Arithmetic.{span_add};
ghost use Rattle.dp_spec.specs.Calls.{size};

use dp_spec::Span;

/// The sum of two spans, end by end. It asks that each end of the sum fits in 127 bits with a sign.
#[inline]
pub fn add_spans(a: Span, b: Span) -> Span
    requires room { size (span_add a b) < 2 ^ 127 }
    ensures { result ≡ span_add a b }
{
    Span {
        low: plus(a.low, b.low),
        high: plus(a.high, b.high),
    }
}

#[inline]
fn plus(x: i128, y: i128) -> i128
    requires room { unsigned_abs (x +ℤ y) < 2 ^ 127 }
    ensures { result ≡ x +ℤ y }
{
    x + y
}
