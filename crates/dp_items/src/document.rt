//! The items of a text.
ghost use Rattle.std.specs.Prelude.{◌≡◌, ◌<◌, ◌≤◌, ◌^◌, length, map, IfOk, slice_get};
ghost use Rattle.dp_lexer.specs.TokenLaws.{AreTokensOf};
ghost use Rattle.dp_meaning.specs.Items.{items_of_pieces, piece_of};
ghost use Rattle.dp_meaning.specs.Meaning.{unless_lines};
ghost use Rattle.dp_items.specs.Documents.{with_end};

use crate::item::Item;
use crate::item_range::{ItemRanges, items_of};
use crate::line::{LineRange, lines_of, without_line_ends};
use crate::pieces::Pieces;
use dp_base::Memory;
use dp_lexer::Token;
use dp_meaning::{Fault, Why};
use std::alloc::Global;

/// A text as its items, and the lines that stand before the first of them.
#[derive(Drop)]
pub struct Document<'a> {
    bytes: &'a [u8],
    // Line ends aside.
    tokens: Vec<Token>,
    lines: Vec<LineRange>,
    items: ItemRanges,
    // How many bytes the text has.
    end: u32,
}

impl<'a> std::marker::Model for Document<'a> {
    ghost use Rattle.dp_items.specs.Documents.{ItemsOfText, items_of_text, IsDocument};

    ghost Value = { ItemsOfText };

    ghost view = { λ d. items_of_text d.bytes.now d.tokens.items d.lines.items d.items d.end };

    ghost invariant = { λ d. IsDocument d.bytes.now d.tokens.items d.lines.items d.items d.end };
}

impl<'a> Document<'a> {
    /// The items of a text of these tokens. Takes time and memory linear in the tokens.
    pub fn of(alloc: Global, bytes: &'a [u8], tokens: &[Token]) -> Result<Document<'a>, Memory>
        requires tokens { AreTokensOf bytes.now tokens.now }
        requires limit { length bytes.now ≤ 2 ^ 26 }
        ensures { let end = length bytes.now in
            let pieces = map (piece_of bytes.now) tokens.now in
            IfOk result (λ document. document ≡ with_end end (items_of_pieces end pieces)) }
    {
        let end = bytes.len() as u32;
        let kept = without_line_ends(alloc, tokens)?;
        let lines = lines_of(alloc, end, &Pieces::of(bytes, tokens))?;
        let items = items_of(alloc, end, &Pieces::of(bytes, &kept), &lines)?;
        Ok(Document {
            bytes,
            tokens: kept,
            lines,
            items,
            end,
        })
    }

    /// How many bytes the text has.
    #[inline]
    pub fn end(&self) -> u32
        ensures is { result ≡ self.now.end }
        ensures limit { result ≤ 2 ^ 26 }
    {
        self.end
    }

    /// How many items there are.
    #[inline]
    pub fn len(&self) -> usize
        ensures { result ≡ length self.now.items }
    {
        self.items.items.len()
    }

    /// The item at a place.
    pub fn item(&self, place: usize) -> Item<'_>
        requires { place < length self.now.items }
        ensures { slice_get self.now.items place ≡ Some result }
    {
        let range = self.items.items[place];
        Item::of(
            Pieces::of(self.bytes, &self.tokens),
            self.lines[range.line],
            &self.lines[range.line + 1..range.lines_past],
            range.past,
            range.next,
        )
    }

    /// No tokens stand before the first item: `Expected` at the first of them otherwise.
    pub fn no_lines_before(&self) -> Result<(), Fault>
        ensures { result ≡ unless_lines self.now.end self.now.before }
    {
        if self.items.before == 0 {
            return Ok(());
        }
        let line = self.lines[0];
        let pieces = Pieces::of(self.bytes, &self.tokens).between(line.first, line.past);
        Err(Fault {
            at: pieces.first_at(self.end),
            why: Why::Expected,
        })
    }
}
