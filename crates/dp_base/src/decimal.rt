//! Decimal numbers.
ghost use Rattle.std.specs.Prelude.{◌≡◌, ◌↔◌, ℕ, List, ◌+◌, ◌*◌, ◌^◌, ◌<◌, ◌≤◌, length, slice_index, true};
ghost use Rattle.std.specs.Prelude.{false, IfOk, IsTrue};
ghost use Rattle.std.specs.Str.Parse.{digits_value};
ghost use Rattle.std.specs.Char.{is_ascii_digit};
ghost use Rattle.dp_base.specs.DecimalShape.{is_decimal};
ghost use Rattle.dp_base.specs.DecimalShape as spec;
ghost use Rattle.dp_base.specs.Decimals.{decimal_of, IsRead, IsLarge, HasTooManyDigits, magnitude_where};
ghost use Rattle.dp_base.specs.Decimals.{judged, shortest, signed, tens_more, tens_less};
ghost use Rattle.dp_base.specs.Significands.{IsSeen};

use crate::shape::{byte_at, is_exponent, skip_one, unsigned};
use crate::significand::Significand;

/// The number `units / 10^digits`.
#[derive(Clone, Copy, Debug, PartialEq, Eq)]
pub struct Decimal {
    pub units: i128,
    pub digits: u8,
}

/// Why a text is not read as a number.
#[derive(Clone, Copy, Debug, PartialEq, Eq)]
pub enum NumFault {
    /// It is not of the decimal shape.
    Shape,
    /// Its magnitude is at least `10^18`.
    Large,
    /// It has that many fraction digits, trailing zeros not counted, and these are more than 18.
    Digits(u32),
}

/// The number that a text writes, as `units / 10^digits` with the least `digits`. It asks for at
/// most `2^26` bytes. The fault is `Shape` where the text is not of the decimal shape; else `Large`
/// where the magnitude is at least `10^18`; else `Digits` where the least number of fraction digits
/// is more than 18.
pub fn read_decimal(text: &[u8]) -> Result<Decimal, NumFault>
    requires { length text.now ≤ 2 ^ 26 }
    ensures computed { result ≡ decimal_of text.now }
    ensures read { IfOk result (IsRead text.now) }

    // The faults in the order in which they are tried.
    ensures shape { (result ≡ Err NumFault.Shape) ↔ (is_decimal text.now ≡ false) }
    ensures large { (result ≡ Err NumFault.Large) ↔ (IsTrue (is_decimal text.now) × IsLarge text.now) }
    ensures digits { (k : ℕ) →
        (result ≡ Err (NumFault.Digits k)) ↔ (IsTrue (is_decimal text.now) × HasTooManyDigits text.now k) }
{
    read_magnitude(byte_at(text, 0) == b'-', unsigned(text))
}

/// The number that a text without a sign writes, with that sign.
fn read_magnitude(negative: bool, number: &[u8]) -> Result<Decimal, NumFault>
    requires { length number.now ≤ 2 ^ 26 }
    ensures { result ≡ magnitude_where (spec.is_magnitude number.now) negative number.now }
{
    let (seen, whole) = Significand::new().scan(number);
    let (_, rest) = number.split_at(whole);
    if byte_at(rest, 0) == b'.' {
        let after = skip_one(rest);
        let (seen, fraction) = seen.scan(after);
        let (_, exponent) = after.split_at(fraction);
        if whole + fraction == 0 || !is_exponent(exponent) {
            return Err(NumFault::Shape);
        }
        scaled(negative, seen, fraction as u32, exponent)
    } else {
        if whole == 0 || !is_exponent(rest) {
            return Err(NumFault::Shape);
        }
        scaled(negative, seen, 0, rest)
    }
}

/// The number of a significand, so many of whose digits are fraction digits, with an exponent.
fn scaled(
    negative: bool,
    seen: Significand,
    fraction: u32,
    exponent: &[u8],
) -> Result<Decimal, NumFault>
    requires exponent { spec.is_exponent exponent.now ≡ true }
    requires room { seen.len + seen.zeros ≤ 2 ^ 27 }
    requires fraction { fraction ≤ 2 ^ 27 }
    ensures { (ds : List ℕ) → IsSeen ds seen →
        result ≡ judged (shortest negative
        (digits_value 10 ds * 10 ^ tens_more exponent.now) (fraction + tens_less exponent.now)) }
{
    let power = power_of(unsigned(skip_one(exponent)));
    if byte_at(exponent, 1) == b'-' {
        judge(negative, seen, 0, fraction + power)
    } else {
        judge(negative, seen, power, fraction)
    }
}

/// The number that at most three digits write.
fn power_of(digits: &[u8]) -> u32
    requires digits { (k : ℕ) → k < length digits.now → is_ascii_digit (slice_index digits.now k) ≡ true }
    requires short { length digits.now ≤ 3 }
    ensures is { result ≡ digits_value 10 digits.now }
    ensures below { result < 1000 }
{
    let mut power: u32 = 0;
    for digit in digits {
        power = power * 10 + u32::from(*digit - b'0');
    }
    power
}

/// A significand times ten to the power `numerator_tens`, divided by ten to the power `denominator_tens`, in the
/// least fraction digits.
fn judge(
    negative: bool,
    seen: Significand,
    numerator_tens: u32,
    denominator_tens: u32,
) -> Result<Decimal, NumFault>
    requires room { seen.len + seen.zeros + numerator_tens < 2 ^ 31 }
    requires denominator_tens { denominator_tens < 2 ^ 31 }
    ensures { (ds : List ℕ) → IsSeen ds seen →
        result ≡ judged (shortest negative (digits_value 10 ds * 10 ^ numerator_tens) denominator_tens) }
{
    if seen.len == 0 {
        return Ok(Decimal {
            units: 0,
            digits: 0,
        });
    }
    let tens = seen.zeros + numerator_tens;
    if tens >= denominator_tens {
        let more = tens - denominator_tens;
        if seen.len + more > 18 {
            return Err(NumFault::Large);
        }
        return Ok(Decimal {
            units: with_sign(negative, seen.number * 10u128.pow(more)),
            digits: 0,
        });
    }
    let digits = denominator_tens - tens;
    if seen.len > 18 + digits {
        return Err(NumFault::Large);
    }
    if digits > 18 {
        return Err(NumFault::Digits(digits));
    }
    Ok(Decimal {
        units: with_sign(negative, seen.number),
        digits: digits as u8,
    })
}

fn with_sign(negative: bool, magnitude: u128) -> i128
    requires { magnitude < 2 ^ 127 }
    ensures { result ≡ signed negative magnitude }
{
    if negative {
        -(magnitude as i128)
    } else {
        magnitude as i128
    }
}
