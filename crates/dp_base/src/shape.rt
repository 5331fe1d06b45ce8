//! The decimal shape.
ghost use Rattle.std.specs.Prelude.{◌≡◌, ◌≤◌, ◌↔◌, IsTrue, drop, slice_index, length};
ghost use Rattle.std.specs.List.{list_all};
ghost use Rattle.std.specs.Char.{is_ascii_digit};
ghost use Rattle.dp_base.specs.DecimalShape as spec;
ghost use Rattle.dp_base.specs.DecimalGrammar.{HasDecimalShape};

/// The byte at `index`, or 0 past the end.
pub(crate) fn byte_at(text: &[u8], index: usize) -> u8
    ensures { result ≡ slice_index text.now index }
{
    text.get(index).copied().unwrap_or(0)
}

/// What stands after the first byte, where there is one.
pub(crate) fn skip_one(text: &[u8]) -> &[u8]
    ensures { result.now ≡ drop 1 text.now }
{
    if text.is_empty() { text } else { &text[1..] }
}

/// What stands after a sign, where there is one.
pub(crate) fn unsigned(text: &[u8]) -> &[u8]
    ensures { result.now ≡ spec.unsigned text.now }
{
    let sign = byte_at(text, 0);
    if sign == b'+' || sign == b'-' {
        skip_one(text)
    } else {
        text
    }
}

/// How many digits stand at the front.
fn digit_count(text: &[u8]) -> usize
    ensures is { result ≡ spec.digit_count text.now }
    ensures within { result ≤ length text.now }
{
    text.iter().take_while(|b| b.is_ascii_digit()).count()
}

fn all_digits(text: &[u8]) -> bool
    ensures { result ≡ list_all is_ascii_digit text.now }
{
    text.iter().all(|b| b.is_ascii_digit())
}

/// Whether a text is an index: digits alone, and at least one.
#[tactic(auto, unfolding(crate::specs::DecimalShape::is_index))]
pub fn is_index(text: &[u8]) -> bool
    ensures { result ≡ spec.is_index text.now }
{
    !text.is_empty() && all_digits(text)
}

/// One to three digits.
fn is_power(text: &[u8]) -> bool
    ensures { result ≡ spec.is_power text.now }
{
    if text.is_empty() || text.len() > 3 {
        return false;
    }
    all_digits(text)
}

/// Nothing, or `e` or `E`, an optional sign and one to three digits.
pub(crate) fn is_exponent(text: &[u8]) -> bool
    ensures { result ≡ spec.is_exponent text.now }
{
    if text.is_empty() {
        return true;
    }
    let letter = byte_at(text, 0);
    if letter == b'e' || letter == b'E' {
        is_power(unsigned(skip_one(text)))
    } else {
        false
    }
}

/// Whether a text is of the decimal shape: an optional sign; digits with at most one point before,
/// among or after them, and at least one digit; optionally `e` or `E`, an optional sign and one to
/// three digits.
pub fn is_decimal(text: &[u8]) -> bool
    ensures computed { result ≡ spec.is_decimal text.now }
    ensures shape { IsTrue result ↔ HasDecimalShape text.now }
{
    is_magnitude(unsigned(text))
}

/// Whether a text is of that shape and has no sign.
fn is_magnitude(number: &[u8]) -> bool
    ensures { result ≡ spec.is_magnitude number.now }
{
    let whole = digit_count(number);
    let rest = &number[whole..];
    if byte_at(rest, 0) == b'.' {
        let after = skip_one(rest);
        let fraction = digit_count(after);
        (0 < whole || 0 < fraction) && is_exponent(&after[fraction..])
    } else {
        0 < whole && is_exponent(rest)
    }
}
