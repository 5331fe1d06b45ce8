//! The fields of a statement's first line: what stands between its Colons.
ghost use Rattle.std.specs.Prelude.{◌≡◌, ◌<◌, IfSome, MatchOption, length};
ghost use Rattle.std.specs.List.{prefix_len};
ghost use Rattle.dp_text.specs.FirstFields.{HasNoField, IsFirstField, is_colon_in, is_no_colon};

use dp_items::Pieces;
use dp_lexer::Kind;

/// A field, and the offset of the Colon that closes it.
#[derive(Drop)]
pub(crate) struct Field<'a> {
    pieces: Pieces<'a>,
    colon: u32,
}

impl<'a> std::marker::Model for Field<'a> {
    ghost use Rattle.dp_meaning.specs.Fields as spec;

    ghost Value = { spec.Field };

    ghost view = { λ f. record { pieces = f.pieces; colon = f.colon } };
}

impl<'a> Field<'a> {
    /// What it consists of.
    #[inline]
    pub(crate) fn pieces(&self) -> &Pieces<'a>
        ensures { result.now ≡ self.now.pieces }
    {
        &self.pieces
    }

    /// The offset of the Colon that closes it.
    #[inline]
    pub(crate) fn colon(&self) -> u32
        ensures { result ≡ self.now.colon }
    {
        self.colon
    }
}

/// Whether a Colon stands at this place.
fn is_colon_at(line: &Pieces, place: usize) -> bool
    ensures { result ≡ is_colon_in line.now place }
{
    match line.get(place) {
        Some(piece) => matches!(piece.kind(), Kind::Colon),
        None => false,
    }
}

/// How many pieces stand before the first Colon.
#[tactic(auto, using(crate::proofs::FirstFields::steps))]
fn first_field_len(line: &Pieces) -> usize
    ensures { result ≡ prefix_len is_no_colon line.now }
{
    for place in 0..line.len() {
        if is_colon_at(line, place) {
            return place;
        }
    }
    line.len()
}

/// The first field of a line. The others stand behind its Colon.
pub(crate) fn first_field<'a>(line: &Pieces<'a>) -> Option<Field<'a>>
    ensures is { MatchOption result (HasNoField line.now) (λ field. IsFirstField field line.now) }
    ensures within { IfSome result (λ field. length field.pieces < length line.now) }
{
    let place = first_field_len(line);
    let colon = match line.get(place) {
        Some(colon) => colon,
        None => return None,
    };
    Some(Field {
        pieces: line.until(place),
        colon: colon.at(),
    })
}
