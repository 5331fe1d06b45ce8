//! The significant digits of a decimal number, of which only as many are kept as can matter.
ghost use Rattle.std.specs.Prelude.{◌≡◌, ℕ, List, ◌+◌, ◌++◌, ◌∷◌, [], ◌<◌, ◌≤◌, ◌^◌, length};
ghost use Rattle.std.specs.List.{take_while};
ghost use Rattle.std.specs.Char.{is_ascii_digit};
ghost use Rattle.dp_base.specs.DecimalShape.{digit_count};

/// The most digits that a number within the limits has: 18 before the point and 18 behind it.
pub(crate) const MOST_DIGITS: u32 = 36;

/// The digits seen so far: a number that does not end in 0, its length and the zeros behind it. No
/// digit was seen but 0 where the length is 0. A number of more than [`MOST_DIGITS`] digits is not
/// kept.
#[derive(Clone, Copy)]
pub(crate) struct Significand {
    pub(crate) number: u128,
    pub(crate) len: u32,
    pub(crate) zeros: u32,
    ghost short: { number < 10 ^ len },
}

impl Significand {
    ghost use Rattle.dp_base.specs.Significands.{IsSeen};

    pub(crate) fn new() -> Significand
        ensures seen { IsSeen [] result }
        ensures room { result.len + result.zeros ≡ 0 }
    {
        Significand {
            number: 0,
            len: 0,
            zeros: 0,
        }
    }

    /// One more digit.
    fn push(self, digit: u8) -> Significand
        requires digit { digit < 10 }
        requires room { self.len + self.zeros < 2 ^ 30 }
        ensures seen { (ds : List ℕ) → IsSeen ds self → IsSeen (ds ++ (48 + digit) ∷ []) result }
        ensures room { result.len + result.zeros ≤ self.len + self.zeros + 1 }
    {
        if digit == 0 {
            return Significand {
                number: self.number,
                len: self.len,
                zeros: self.zeros + 1,
            };
        }
        if self.len == 0 {
            return Significand {
                number: u128::from(digit),
                len: 1,
                zeros: 0,
            };
        }
        let len = self.len + self.zeros + 1;
        if len > MOST_DIGITS {
            return Significand {
                number: 0,
                len,
                zeros: 0,
            };
        }
        Significand {
            number: self.number * 10u128.pow(self.zeros + 1) + u128::from(digit),
            len,
            zeros: 0,
        }
    }

    /// The digits with which the text begins, and how many they are.
    pub(crate) fn scan(self, text: &[u8]) -> (Significand, usize)
        requires room { self.len + self.zeros + length text.now < 2 ^ 30 }
        ensures seen { (ds : List ℕ) → IsSeen ds self →
            IsSeen (ds ++ take_while is_ascii_digit text.now) result.0 }
        ensures count { result.1 ≡ digit_count text.now }
        ensures within { result.1 ≤ length text.now }
        ensures room { result.0.len + result.0.zeros ≤ self.len + self.zeros + result.1 }
    {
        let mut seen = self;
        for (count, byte) in text.iter().enumerate() {
            if !byte.is_ascii_digit() {
                return (seen, count);
            }
            seen = seen.push(*byte - b'0');
        }
        (seen, text.len())
    }
}
