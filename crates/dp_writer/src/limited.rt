//! Texts with a limit on their length.
ghost use Rattle.std.specs.Prelude.{◌≡◌, [], length, IfErr, IfOk, OnOk, None, Some};
ghost use Rattle.dp_model.specs.Limits.{passed_by};
ghost use Rattle.dp_writer.specs.LimitedTexts.{added};
ghost use Rattle.dp_writer.specs.WrittenLines.{space_before};

use crate::MakeFault;
use dp_base::Memory;
use dp_io::Texts;
use dp_model::{Limit, TooLarge};
use std::alloc::Global;

/// A text that grows. Up to its limit it is kept; past it, it is counted alone. Contracts see all of it.
#[derive(Drop)]
pub(crate) struct LimitedText {
    // The whole text, where its length is within the limit.
    kept: Vec<u8>,
    count: u128,
    limit: Limit,
    pieces: Texts,
}

impl std::marker::Model for LimitedText {
    ghost use Rattle.std.specs.Prelude.{◌≡◌, ◌≤◌, length};
    ghost use Rattle.std.specs.List.{concat};
    ghost use Rattle.dp_model.specs.Limits.{greatest_allowed};
    ghost use Rattle.dp_writer.specs.LimitedTexts.{LimitedTextView};

    ghost Value = { LimitedTextView };

    ghost view = { λ t. record { bytes = concat t.pieces.items; limit = t.limit } };

    ghost invariant = { λ t. (t.count ≡ length (concat t.pieces.items))
        × (t.count ≤ greatest_allowed t.limit → t.kept.items ≡ concat t.pieces.items) };
}

impl LimitedText {
    /// No text. It takes no memory.
    pub(crate) fn new(alloc: Global, limit: Limit) -> LimitedText
        ensures { result ≡ record { bytes = []; limit = limit } }
    {
        LimitedText {
            kept: Vec::new(alloc),
            count: 0,
            limit,
            pieces: Texts::new(),
        }
    }

    /// Appends bytes.
    pub(crate) fn push(&mut self, bytes: &[u8]) -> Result<(), Memory>
        ensures { OnOk result (self.new ≡ added self.old bytes.now) }
    {
        let Some(count) = self.count.checked_add(bytes.len() as u128) else {
            return Err(Memory);
        };
        if count <= self.limit.greatest_allowed() {
            self.kept.extend_from_slice(bytes)?;
        }
        self.count = count;
        self.pieces.take(bytes);
        Ok(())
    }

    /// Appends the space before the word at a place; where they begin a line, there is none before the first.
    pub(crate) fn push_space(&mut self, first: bool, place: u32) -> Result<(), Memory>
        ensures { OnOk result (self.new ≡ added self.old (space_before first place)) }
    {
        if first && place == 0 {
            return Ok(());
        }
        self.push(b" ")
    }

    /// The text, or the limit that it passes, with its length.
    pub(crate) fn finish(self) -> Result<Vec<u8>, MakeFault>
        ensures bytes { IfOk result (λ text. text.items ≡ self.bytes) }
        ensures within { IfOk result (λ text. passed_by self.limit (length self.bytes) ≡ None) }
        ensures past { IfErr result (λ e. (passed : TooLarge) → e ≡ MakeFault.TooLarge passed →
            passed_by self.limit (length self.bytes) ≡ Some passed) }
    {
        self.limit.check(self.count).map_err(MakeFault::TooLarge)?;
        Ok(self.kept)
    }
}
