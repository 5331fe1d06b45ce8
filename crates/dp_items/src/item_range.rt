//! Which lines of a text belong to which item.
ghost use Rattle.std.specs.Prelude.{◌≡◌, ◌^◌, ◌≤◌, length, IfOk};
ghost use Rattle.dp_meaning.specs.Items as spec;
ghost use Rattle.dp_items.specs.Lines.{AreOneRun};
ghost use Rattle.dp_items.specs.ItemRanges.{AreItemsOf};

use crate::line::LineRange;
use crate::pieces::Pieces;
use dp_base::Memory;
use dp_lexer::Kind;
use std::alloc::Global;

/// The lines of an item: its first, and those behind it, before `lines_past`. Its pieces end before
/// the piece at `past`, and the next item begins at the offset `next`.
#[derive(Clone, Copy)]
pub(crate) struct ItemRange {
    pub line: usize,
    pub lines_past: usize,
    pub past: usize,
    pub next: u32,
}

/// How many lines stand before the first item, and the items.
#[derive(Drop)]
pub(crate) struct ItemRanges {
    pub before: usize,
    pub items: Vec<ItemRange>,
}

/// Whether an item begins at a line of these pieces.
fn begins_item(line: &Pieces) -> bool
    ensures { result ≡ spec.begins_item line.now }
{
    match line.get(1) {
        Some(second) => matches!(second.kind(), Kind::Colon),
        None => false,
    }
}

/// The items of lines, of a text that ends at `end`. The lines are one stretch of all pieces.
pub(crate) fn items_of(
    alloc: Global,
    end: u32,
    pieces: &Pieces,
    lines: &[LineRange],
) -> Result<ItemRanges, Memory>
    requires end { end ≤ 2 ^ 26 }
    requires one_run { AreOneRun 0 lines.now (length pieces.now) }
    ensures { IfOk result (λ ranges. AreItemsOf end pieces.now lines.now ranges) }
{
    let mut items = Vec::new(alloc);
    let mut at = lines.len();
    let mut before = at;
    let mut past = pieces.len();
    let mut next = end;
    while at > 0 {
        at -= 1;
        let line = lines[at];
        let own = pieces.between(line.first, line.past);
        if begins_item(&own) {
            items.push(ItemRange {
                line: at,
                lines_past: before,
                past,
                next,
            })?;
            before = at;
            past = line.first;
            next = own.first_at(end);
        }
    }
    items.reverse();
    Ok(ItemRanges { before, items })
}
