//! The lines of a text that have tokens.
ghost use Rattle.std.specs.Prelude.{◌≡◌, ◌++◌, ◌^◌, ◌≤◌, filter, IfOk};
ghost use Rattle.dp_items.specs.Lines.{is_no_line_end, unless_empty, AreLinesOf};

use crate::pieces::Pieces;
use dp_base::Memory;
use dp_lexer::{Kind, Token};
use std::alloc::{AllocError, Global};

/// The pieces from `first` up to `past`, line ends aside, and where the line's end stands, or the
/// text's.
#[derive(Clone, Copy)]
pub(crate) struct LineRange {
    pub first: usize,
    pub past: usize,
    pub ends: u32,
}

/// The tokens that are no line ends.
pub(crate) fn without_line_ends(alloc: Global, tokens: &[Token]) -> Result<Vec<Token>, AllocError>
    ensures { IfOk result (λ kept. kept.items ≡ filter (λ t. is_no_line_end t.kind) tokens.now) }
{
    tokens
        .iter()
        .filter(|token| !matches!(token.kind, Kind::LineEnd))
        .copied()
        .collect(alloc)
}

fn add_unless_empty(lines: &mut Vec<LineRange>, line: LineRange) -> Result<(), Memory>
    ensures { IfOk result (λ _. lines.new.items ≡ lines.old.items ++ unless_empty line) }
{
    if line.first < line.past {
        lines.push(line)?;
    }
    Ok(())
}

/// The lines that have pieces, of the pieces of a text that ends at `end`.
pub(crate) fn lines_of(alloc: Global, end: u32, pieces: &Pieces) -> Result<Vec<LineRange>, Memory>
    requires { end ≤ 2 ^ 26 }
    ensures { IfOk result (λ lines. AreLinesOf end pieces.now lines.items) }
{
    pieces.invariant();
    let mut lines = Vec::new(alloc);
    let mut first = 0;
    let mut past = 0;
    let mut at = 0;
    while let Some(piece) = pieces.get(at) {
        if let Kind::LineEnd = piece.kind() {
            piece.invariant();
            add_unless_empty(
                &mut lines,
                LineRange {
                    first,
                    past,
                    ends: piece.at(),
                },
            )?;
            first = past;
        } else {
            past += 1;
        }
        at += 1;
    }
    add_unless_empty(
        &mut lines,
        LineRange {
            first,
            past,
            ends: end,
        },
    )?;
    Ok(lines)
}
