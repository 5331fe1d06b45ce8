//! An item: a line whose second token is a Colon, and the lines that follow it, up to the next item.
ghost use Rattle.std.specs.Prelude.{◌≡◌, ◌≤◌, ◌^◌, map, true, slice_get};
ghost use Rattle.dp_meaning.specs.Entries.{agent_lines};
ghost use Rattle.dp_meaning.specs.Items.{after_colon, begins_item, item_at, pieces_of, value_pieces};
ghost use Rattle.dp_items.specs.Lines.{item_of, IsItem};

use crate::line::LineRange;
use crate::pieces::Pieces;

/// An item of a text.
#[derive(Drop)]
pub struct Item<'a> {
    // Those of the whole text, line ends aside.
    pieces: Pieces<'a>,
    first: LineRange,
    more: &'a [LineRange],
    // Where the last line ends.
    past: usize,
    next: u32,
}

impl<'a> std::marker::Model for Item<'a> {
    ghost use Rattle.dp_meaning.specs.Items as spec;
    ghost use Rattle.dp_items.specs.Lines.{item_of, IsItem};

    ghost Value = { spec.Item };

    ghost view = { λ i. item_of i.pieces i.first i.more.now i.next };

    ghost invariant = { λ i. IsItem i.pieces i.first i.more.now i.past i.next };
}

impl<'a> Item<'a> {
    /// The item of a first line, of the lines that follow it, and of the place of the next item.
    #[inline]
    pub(crate) fn of(
        pieces: Pieces<'a>,
        first: LineRange,
        more: &'a [LineRange],
        past: usize,
        next: u32,
    ) -> Item<'a>
        requires { IsItem pieces first more.now past next }
        ensures { result ≡ item_of pieces.entry first more.now next }
    {
        Item {
            pieces,
            first,
            more,
            past,
            next,
        }
    }

    /// What holds of every item. It does nothing.
    #[inline]
    pub fn invariant(&self)
        ensures begins { begins_item self.now.first.pieces ≡ true }
        ensures next { self.now.next ≤ 2 ^ 26 }
        ensures ends { self.now.first.ends ≤ 2 ^ 26 }
    {
        let _ = &self.next;
    }

    /// The offset at which it begins.
    pub fn at(&self) -> u32
        ensures { result ≡ item_at self.now }
    {
        self.first_line().first_at(self.next)
    }

    /// Where the next item begins, or the text ends.
    #[inline]
    pub fn next(&self) -> u32
        ensures { result ≡ self.now.next }
    {
        self.next
    }

    /// Where its first line ends.
    #[inline]
    pub fn ends(&self) -> u32
        ensures { result ≡ self.now.first.ends }
    {
        self.first.ends
    }

    /// Its first line.
    pub fn first_line(&self) -> Pieces<'a>
        ensures { result ≡ self.now.first.pieces }
    {
        self.pieces.between(self.first.first, self.first.past)
    }

    /// What stands on its first line after the first Colon.
    pub fn after_colon(&self) -> Pieces<'a>
        ensures { result ≡ after_colon self.now }
    {
        self.invariant();
        self.first_line().from(2)
    }

    /// All that stands after its first Colon.
    pub fn value(&self) -> Pieces<'a>
        ensures { result ≡ value_pieces self.now }
    {
        self.pieces.between(self.first.first, self.past).from(2)
    }

    /// A line behind the first.
    fn line_behind(&self, i: usize) -> Option<Pieces<'a>>
        ensures { result ≡ slice_get (map pieces_of self.now.more) i }
    {
        if i < self.more.len() {
            let line = self.more[i];
            Some(self.pieces.between(line.first, line.past))
        } else {
            None
        }
    }

    /// The line of agent `i` in a list with one line for each agent, of which the first may stand
    /// on the item's own line.
    pub fn agent_line(&self, i: usize) -> Option<Pieces<'a>>
        ensures { result ≡ slice_get (agent_lines self.now) i }
    {
        let own = self.after_colon();
        if own.len() == 0 {
            return self.line_behind(i);
        }
        if i == 0 {
            Some(own)
        } else {
            self.line_behind(i - 1)
        }
    }
}
