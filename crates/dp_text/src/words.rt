//! Tokens as words: names, indices and the words of the format.
ghost use Rattle.std.specs.Prelude.{◌≡◌, ◌<◌, ◌^◌, ◌||◌, SomeIff, codes, true};
ghost use Rattle.std.specs.Str.{bytes_eq};
ghost use Rattle.dp_base.specs.DecimalShape.{is_index};
ghost use Rattle.dp_base.specs.Names.{is_name, is_word};
ghost use Rattle.dp_meaning.specs.NameLists.{index, says};

use dp_items::Piece;
use dp_lexer::Kind;
use std::str;

/// The text of a token, whose bytes are ASCII.
pub(crate) fn text_of<'a>(piece: &Piece<'a>) -> &'a str
    ensures { result.now ≡ piece.now.text }
{
    piece.invariant();
    match str::from_utf8(piece.text()) {
        Ok(text) => text,
        Err(_) => unreachable!(),
    }
}

/// Whether a token consists of these bytes.
pub(crate) fn says(word: &[u8], piece: &Piece) -> bool
    ensures { result ≡ says word.now piece.now }
{
    word == piece.text()
}

/// Whether a token is a name.
#[tactic(auto, unfolding(dp_base::specs::Names::is_name))]
pub(crate) fn is_name(piece: &Piece) -> bool
    ensures { result ≡ is_name piece.now.text }
{
    is_word(piece) && !is_reserved(piece.text())
}

fn is_word(piece: &Piece) -> bool
    ensures { result ≡ is_word piece.now.text }
{
    piece.invariant();
    matches!(piece.kind(), Kind::Word)
}

fn is_reserved(text: &[u8]) -> bool
    ensures { result ≡ (bytes_eq text.now (codes "uniform") || bytes_eq text.now (codes "identity")) }
{
    text == b"uniform".as_slice() || text == b"identity".as_slice()
}

/// Whether a token is an index.
pub(crate) fn is_index(piece: &Piece) -> bool
    ensures { result ≡ is_index piece.now.text }
{
    dp_base::is_index(piece.text())
}

/// The number that an index writes, where it is below `2^32`.
pub(crate) fn index(piece: &Piece) -> Option<u32>
    requires { is_index piece.now.text ≡ true }
    ensures { SomeIff result (index piece.now < 2 ^ 32) (index piece.now) }
{
    text_of(piece).parse::<u32>().ok()
}
