// Numbers as the command line writes them.
ghost use Rattle.std.specs.Prelude.{◌≡◌};
ghost use Rattle.dp_words.specs.Words.{is_number, number_of};

use dp_base::is_index;

// Whether a word is digits that do not begin with 0, or 0 alone.
fn is_number(word: &[u8]) -> bool
    ensures { result ≡ is_number word.now }
{
    is_index(word) && (word.len() == 1 || !word.starts_with(b"0"))
}

// The number that a word writes, where it is in the range.
#[tactic(auto)]
pub fn number(word: &str, least: u64, most: u64) -> Option<u64>
    ensures { result ≡ number_of least most word.now }
{
    if !is_number(word.as_bytes()) {
        return None;
    }
    match word.parse::<u64>() {
        Ok(number) if least <= number && number <= most => Some(number),
        _ => None,
    }
}
