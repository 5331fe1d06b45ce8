//! The items of a model file: from its tokens to lines, and from lines to items.
#![tactic(auto)]

mod document;
mod item;
mod item_range;
mod line;
mod pieces;

pub use document::Document;
pub use item::Item;
pub use pieces::{Piece, Pieces};
