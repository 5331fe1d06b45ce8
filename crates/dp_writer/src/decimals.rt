//! Decimals, written with the least number of fraction digits.
ghost use Rattle.std.specs.Prelude.{◌≡◌, ◌<◌, ◌≤◌, ◌*◌, ◌/◌, ◌^◌, OnOk, Bool, drop, length, unsigned_abs};
ghost use Rattle.std.specs.Fmt.{decimal};
ghost use Rattle.dp_base.specs.Decimals.{shortest, signed};
ghost use Rattle.dp_writer.specs.LimitedTexts.{added};
ghost use Rattle.dp_writer.specs.WrittenModel.{chance_word, reward_word};
ghost use Rattle.dp_writer.specs.WrittenNumbers.{last_digits, magnitude_text};

use crate::limited::LimitedText;
use dp_base::Memory;
use itoa::Buffer;

// The most fraction digits of a chance or a discount, and of a reward.
const CHANCE_DIGITS: u32 = 18;

const REWARD_DIGITS: u32 = 9;

/// The number `units / 10^digits`, which is not negative.
#[derive(Clone, Copy)]
pub(crate) struct Magnitude {
    pub(crate) units: u64,
    pub(crate) digits: u32,
}

/// The number `n / scale` in the least fraction digits, where `most` are enough, and at most 18.
pub(crate) fn magnitude_over(n: u64, scale: u64, most: u32) -> Magnitude
    requires some { 0 < scale }
    requires most { most ≤ 18 }
    requires room { n * 10 ^ most ≤ scale * 10 ^ 18 }
    ensures is { (negative : Bool) →
        shortest negative (n * 10 ^ most / scale) most
        ≡ record { units = signed negative result.units; digits = result.digits } }
    ensures digits { result.digits ≤ most }
    ensures some { 0 < n → scale ≤ 10 ^ most → 0 < result.units }
{
    let units = u128::from(n) * 10u128.pow(most) / u128::from(scale);
    shortened(units as u64, most)
}

// The same number without the zeros at the end of its fraction digits.
fn shortened(units: u64, digits: u32) -> Magnitude
    ensures is { (negative : Bool) → shortest negative units digits
        ≡ record { units = signed negative result.units; digits = result.digits } }
    ensures digits { result.digits ≤ digits }
    ensures some { 0 < units → 0 < result.units }
{
    let mut left = units;
    let mut count = digits;
    while count > 0 && left % 10 == 0 {
        left /= 10;
        count -= 1;
    }
    Magnitude {
        units: left,
        digits: count,
    }
}

/// Appends a chance, or the discount: `n / scale`.
pub(crate) fn push_chance(text: &mut LimitedText, n: u64, scale: u64) -> Result<(), Memory>
    requires some { 0 < scale }
    requires within { n ≤ scale }
    ensures { OnOk result (text.new ≡ added text.old (chance_word scale n)) }
{
    push_magnitude(text, magnitude_over(n, scale, CHANCE_DIGITS))
}

/// Appends a reward: `r / scale`.
pub(crate) fn push_reward(text: &mut LimitedText, r: i64, scale: u64) -> Result<(), Memory>
    requires some { 0 < scale }
    requires scale { scale ≤ 10 ^ 9 }
    requires within { unsigned_abs r ≤ 10 ^ 8 * scale }
    ensures { OnOk result (text.new ≡ added text.old (reward_word scale r)) }
{
    if r < 0 {
        text.push(b"-")?;
    }
    push_magnitude(text, magnitude_over(r.unsigned_abs(), scale, REWARD_DIGITS))
}

// Appends a number that is not negative: its whole part, and behind a point its fraction digits where it has some.
fn push_magnitude(text: &mut LimitedText, number: Magnitude) -> Result<(), Memory>
    requires { number.digits ≤ 18 }
    ensures { OnOk result (text.new ≡ added text.old (magnitude_text number.units number.digits)) }
{
    let one = 10u64.pow(number.digits);
    push_number(text, number.units / one)?;
    if number.digits == 0 {
        return Ok(());
    }
    text.push(b".")?;
    push_last_digits(text, number.digits, number.units % one)
}

// Appends so many digits of a number that has no more.
fn push_last_digits(text: &mut LimitedText, digits: u32, number: u64) -> Result<(), Memory>
    requires digits { digits ≤ 18 }
    requires below { number < 10 ^ digits }
    ensures { OnOk result (text.new ≡ added text.old (last_digits digits number)) }
{
    let mut buffer = Buffer::new();
    let with_one = buffer.format(10u64.pow(digits) + number).as_bytes();
    text.push(behind_first(with_one))
}

// What stands behind the first byte.
fn behind_first(bytes: &[u8]) -> &[u8]
    requires { 0 < length bytes.now }
    ensures { result.now ≡ drop 1 bytes.now }
{
    &bytes[1..]
}

/// Appends a whole number.
pub(crate) fn push_number(text: &mut LimitedText, number: u64) -> Result<(), Memory>
    ensures { OnOk result (text.new ≡ added text.old (decimal number)) }
{
    let mut buffer = Buffer::new();
    text.push(buffer.format(number).as_bytes())
}
