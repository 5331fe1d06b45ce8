//! Pieces: tokens by their bytes.
ghost use Rattle.std.specs.Prelude.{◌≡◌, [], ◌∷◌, ◌<◌, ◌≤◌, ◌^◌, MatchOption};
ghost use Rattle.std.specs.Prelude.{drop, length, slice_get, slice_range, take};
ghost use Rattle.dp_meaning.specs.Items.{first_at};
ghost use Rattle.dp_items.specs.Tokens.{ArePiecesOf, IsPiece, pieces_of_text};

use dp_lexer::{Kind, Token};

/// A token by its bytes, and the offset at which it stands.
#[derive(Drop)]
pub struct Piece<'a> {
    at: u32,
    kind: Kind,
    text: &'a [u8],
}

impl<'a> std::marker::Model for Piece<'a> {
    ghost use Rattle.dp_meaning.specs.Items as spec;
    ghost use Rattle.dp_items.specs.Tokens.{IsPiece};

    ghost Value = { spec.Piece };

    ghost view = { λ p. record { at = p.at; kind = p.kind; text = p.text.now } };

    ghost invariant = { λ p. IsPiece (record { at = p.at; kind = p.kind; text = p.text.now }) };
}

impl<'a> Piece<'a> {
    /// What holds of every piece. It does nothing.
    #[inline]
    pub fn invariant(&self)
        ensures { IsPiece self.now }
    {
        let _ = &self.at;
    }

    /// The offset at which it stands.
    #[inline]
    pub fn at(&self) -> u32
        ensures { result ≡ self.now.at }
    {
        self.at
    }

    /// The kind of its token.
    #[inline]
    pub fn kind(&self) -> Kind
        ensures { result ≡ self.now.kind }
    {
        self.kind
    }

    /// Its bytes.
    #[inline]
    pub fn text(&self) -> &'a [u8]
        ensures is { result.now ≡ self.now.text }
        ensures limit { length result.now ≤ 2 ^ 26 }
    {
        self.text
    }
}

/// Pieces of a text that stand one behind the other.
#[derive(Drop)]
pub struct Pieces<'a> {
    bytes: &'a [u8],
    tokens: &'a [Token],
}

impl<'a> std::marker::Model for Pieces<'a> {
    ghost use Rattle.std.specs.Prelude.{List};
    ghost use Rattle.dp_meaning.specs.Items as spec;
    ghost use Rattle.dp_items.specs.Tokens.{ArePiecesOf, pieces_of_text};

    ghost Value = { List spec.Piece };

    ghost view = { λ p. pieces_of_text p.bytes.now p.tokens.now };

    ghost invariant = { λ p. ArePiecesOf p.bytes.now p.tokens.now };
}

impl<'a> Pieces<'a> {
    /// The pieces of these tokens of a text.
    #[inline]
    pub fn of(bytes: &'a [u8], tokens: &'a [Token]) -> Pieces<'a>
        requires { ArePiecesOf bytes.now tokens.now }
        ensures { result ≡ pieces_of_text bytes.now tokens.now }
    {
        Pieces { bytes, tokens }
    }

    /// What holds of all pieces. It does nothing.
    #[inline]
    pub fn invariant(&self)
        ensures { length self.now ≤ 2 ^ 26 }
    {
        let _ = self.len();
    }

    /// How many there are.
    #[inline]
    pub fn len(&self) -> usize
        ensures is { result ≡ length self.now }
        ensures limit { result ≤ 2 ^ 26 }
    {
        self.tokens.len()
    }

    /// The piece at a place, where there is one.
    pub fn get(&self, place: usize) -> Option<Piece<'a>>
        ensures { result ≡ slice_get self.now place }
    {
        let token = self.tokens.get(place)?;
        Some(Piece {
            at: token.start,
            kind: token.kind,
            text: &self.bytes[token.start as usize..token.end as usize],
        })
    }

    /// The first piece, and those behind it.
    pub fn split_first(&self) -> Option<(Piece<'a>, Pieces<'a>)>
        ensures { MatchOption result (self.now ≡ []) (λ x. self.now ≡ x.0 ∷ x.1) }
    {
        match self.get(0) {
            Some(first) => Some((first, self.from(1))),
            None => None,
        }
    }

    /// The pieces from a place on.
    pub fn from(&self, place: usize) -> Pieces<'a>
        requires { place ≤ length self.now }
        ensures { result ≡ drop place self.now }
    {
        let (_, tokens) = self.tokens.split_at(place);
        Pieces {
            bytes: self.bytes,
            tokens,
        }
    }

    /// The pieces before a place.
    pub fn until(&self, place: usize) -> Pieces<'a>
        requires { place ≤ length self.now }
        ensures { result ≡ take place self.now }
    {
        let (tokens, _) = self.tokens.split_at(place);
        Pieces {
            bytes: self.bytes,
            tokens,
        }
    }

    /// The pieces from a place on, before another.
    pub fn between(&self, first: usize, past: usize) -> Pieces<'a>
        requires in_order { first ≤ past }
        requires within { past ≤ length self.now }
        ensures { result ≡ slice_range self.now first past }
    {
        self.from(first).until(past - first)
    }

    /// Where the first of them stands, or `end` where there is none.
    pub fn first_at(&self, end: u32) -> u32
        ensures is { result ≡ first_at end self.now }
        ensures limit { end ≤ 2 ^ 26 → result ≤ 2 ^ 26 }
    {
        match self.get(0) {
            Some(first) => {
                first.invariant();
                first.at()
            }
            None => end,
        }
    }
}
