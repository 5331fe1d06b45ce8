//! The text of a fraction.
ghost use Rattle.std.specs.Prelude.{◌≡◌, ◌^◌, ◌<◌, ◌≤◌, ◌+◌, ◌*◌, ◌++◌, ℕ, Bool, pos, ◌≤ℤ◌, unsigned_abs};
ghost use Rattle.std.specs.Prelude.{string_bytes, IfOk, OnOk, IsTrue, ◌↔◌};
ghost use Rattle.dp_num.specs.FractionTexts.{fraction_text, millionths, millionths_text};

use dp_base::Memory;
use itoa::Buffer;
use std::alloc::Global;

/// `num / den` with six digits behind the point, rounded down, or up. A number that rounds to 0
/// has no sign. It asks for `1 <= den <= 2^126` and `|num| <= 2^126`.
pub fn fraction_text(alloc: Global, num: i128, den: i128, up: bool) -> Result<String, Memory>
    requires numerator { unsigned_abs num ≤ 2 ^ 126 }
    requires positive { pos 1 ≤ℤ den }
    requires denominator { den ≤ℤ pos (2 ^ 126) }
    ensures { IfOk result (λ text. string_bytes text ≡ fraction_text num (unsigned_abs den) up) }
{
    let below = num.is_negative();
    let number = Millionths::of(num.unsigned_abs(), den.unsigned_abs(), up != below);
    let mut text = String::new(alloc);
    if below && !number.is_zero() {
        text.push_str("-")?;
    }
    number.push(&mut text)?;
    Ok(text)
}

// A number that is not negative, in millionths: their count may pass 128 bits.
#[derive(Clone, Copy)]
struct Millionths {
    whole: u128,
    part: u32,
}

impl Millionths {
    // The fraction `num / den`, rounded down, or up.
    fn of(num: u128, den: u128, up: bool) -> Millionths
        requires numerator { num ≤ 2 ^ 126 }
        requires positive { 0 < den }
        requires denominator { den ≤ 2 ^ 126 }
        ensures count { pos (result.whole * 10 ^ 6 + result.part) ≡ millionths (pos num) den up }
        ensures part { result.part < 10 ^ 6 }
        ensures whole { result.whole ≤ 2 ^ 126 + 1 }
    {
        let whole = num / den;
        let mut part = 0;
        let mut rest = num % den;
        for place in 0..6_u32 {
            let digit = Digit::after(rest, den);
            part = part * 10 + digit.value;
            rest = digit.rest;
        }
        let down = Millionths { whole, part };
        if up && rest > 0 { down.next() } else { down }
    }

    // One millionth more.
    fn next(self) -> Millionths
        requires part { self.part < 10 ^ 6 }
        requires whole { self.whole ≤ 2 ^ 126 }
        ensures count { result.whole * 10 ^ 6 + result.part ≡ self.whole * 10 ^ 6 + self.part + 1 }
        ensures part { result.part < 10 ^ 6 }
        ensures whole { result.whole ≤ self.whole + 1 }
    {
        if self.part == 999_999 {
            Millionths {
                whole: self.whole + 1,
                part: 0,
            }
        } else {
            Millionths {
                whole: self.whole,
                part: self.part + 1,
            }
        }
    }

    fn is_zero(&self) -> bool
        ensures { IsTrue result ↔ (self.now.whole * 10 ^ 6 + self.now.part ≡ 0) }
    {
        self.whole == 0 && self.part == 0
    }

    // Appends its text: six digits stand behind the point.
    fn push(&self, text: &mut String) -> Result<(), Memory>
        requires part { self.now.part < 10 ^ 6 }
        ensures { OnOk result (string_bytes text.new
            ≡ string_bytes text.old ++ millionths_text (self.now.whole * 10 ^ 6 + self.now.part)) }
    {
        let mut buffer = Buffer::new();
        text.push_str(buffer.format(self.whole))?;
        text.push_str(".")?;
        // a one before the six digits keeps their zeros
        let digits = buffer.format(1_000_000 + self.part);
        text.push_str(&digits[1..])?;
        Ok(())
    }
}

// A digit of a quotient, and what is left of the number that was divided.
#[derive(Clone, Copy)]
struct Digit {
    value: u32,
    rest: u128,
}

impl Digit {
    // The digit after `rest`: ten times `rest` divided by `den`. Ten times `rest` may pass 128 bits,
    // so four times and twice it are divided in its place.
    fn after(rest: u128, den: u128) -> Digit
        requires rest { rest < den }
        requires denominator { den ≤ 2 ^ 126 }
        ensures is { result.value * den + result.rest ≡ 10 * rest }
        ensures rest { result.rest < den }
        ensures value { result.value < 10 }
    {
        let four = 4 * rest;
        let two = 2 * rest;
        let left = 2 * (four % den) + two % den;
        let value = 2 * (four / den) + two / den + left / den;
        Digit {
            value: value as u32,
            rest: left % den,
        }
    }
}
