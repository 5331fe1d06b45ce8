//! What the fields of a statement say of the lists along the axes of its table.
ghost use Rattle.std.specs.Prelude.{◌≡◌, Ok, map};
ghost use Rattle.dp_meaning.specs.Fields as spec;
ghost use Rattle.dp_meaning.specs.Items.{is_star};
ghost use Rattle.dp_meaning.specs.Statements.{axes_of};
ghost use Rattle.dp_meaning.specs.declared.statement.Part.TheVariants.{Any};
ghost use Rattle.dp_text.specs.LineFields.{ReadsFields};
ghost use Rattle.dp_text.specs.Reading.{Reads};

use crate::axes::{axis_at, axis_count};
use crate::fault::{TextFault, fault};
use crate::fields::{Field, first_field};
use crate::name_lists::find_in;
use dp_items::{Piece, Pieces};
use dp_lexer::Kind;
use dp_meaning::{Fault, GivenList, Header, Part, Table, Why};
use dp_model::Sequence;
use std::alloc::Global;

fn is_star(piece: &Piece) -> bool
    ensures { result ≡ is_star piece.now.kind }
{
    matches!(piece.kind(), Kind::Star)
}

/// What a token of a field says of one list.
#[tactic(auto, unfolding(dp_meaning::specs::Fields::part_of))]
pub(crate) fn part_of(list: &GivenList, piece: &Piece) -> Result<Part, Fault>
    ensures { result ≡ spec.part_of list.now piece.now }
{
    if is_star(piece) {
        return Ok(Part::Any);
    }
    let place = find_in(list, piece)?;
    Ok(Part::Only(place))
}

/// Whether a field consists of one `*`.
fn is_one_star(pieces: &Pieces) -> bool
    ensures { result ≡ spec.is_one_star pieces.now }
{
    match pieces.split_first() {
        Some((piece, others)) => others.len() == 0 && is_star(&piece),
        None => false,
    }
}

/// All of each list along an axis.
fn any_parts(alloc: Global, axis: &[GivenList]) -> Result<Sequence<Part>, TextFault>
    ensures { Reads (Ok (map (λ _. Any) axis.now)) result }
{
    let mut parts = Vec::new(alloc);
    for _list in axis {
        parts.push(Part::Any)?;
    }
    Ok(Sequence::of(parts))
}

/// One part per list of an axis.
fn parts_in(alloc: Global, axis: &[GivenList], field: &Field) -> Result<Sequence<Part>, TextFault>
    ensures { Reads (spec.parts_in axis.now field.now field.now.pieces) result }
{
    let mut parts = Vec::new(alloc);
    for (place, list) in axis.iter().enumerate() {
        let piece = match field.pieces().get(place) {
            Some(piece) => piece,
            None => return Err(TextFault::At(fault(Why::Expected, field.colon()))),
        };
        let part = part_of(list, &piece)?;
        parts.push(part)?;
    }
    match field.pieces().get(axis.len()) {
        None => Ok(Sequence::of(parts)),
        Some(piece) => Err(TextFault::At(fault(Why::Expected, piece.at()))),
    }
}

/// What a field says of the lists along an axis: one `*` for all of each, or one part per list.
fn field_parts(
    alloc: Global,
    axis: &[GivenList],
    field: &Field,
) -> Result<Sequence<Part>, TextFault>
    ensures { Reads (spec.field_parts axis.now field.now) result }
{
    if is_one_star(field.pieces()) {
        any_parts(alloc, axis)
    } else {
        parts_in(alloc, axis, field)
    }
}

/// The fields of a line along the axes of a table.
#[derive(Drop)]
pub(crate) struct LineFields {
    /// For each field, one part for each list of its axis.
    pub parts: Sequence<Sequence<Part>>,
    /// How many pieces of the line they take, with their Colons.
    pub taken: usize,
}

/// The fields of a line along the axes of a table. Where there are too many, the Colon that closes
/// the first of these is wrong.
pub(crate) fn line_fields(
    alloc: Global,
    header: &Header,
    table: Table,
    line: &Pieces,
) -> Result<LineFields, TextFault>
    ensures { ReadsFields (axes_of header.now table) line.now result }
{
    let mut parts = Vec::new(alloc);
    let mut rest = line.from(0);
    while let Some(field) = first_field(&rest) {
        if parts.len() == axis_count(table) {
            return Err(TextFault::At(fault(Why::Expected, field.colon())));
        }
        let of_field = field_parts(alloc, axis_at(header, table, parts.len()), &field)?;
        parts.push(of_field)?;
        rest = rest.from(field.pieces().len() + 1);
    }
    Ok(LineFields {
        parts: Sequence::of(parts),
        taken: line.len() - rest.len(),
    })
}
