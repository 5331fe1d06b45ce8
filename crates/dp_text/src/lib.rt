//! The text of a model file: from its tokens to its header and its statements.
#![tactic(auto)]

mod axes;
mod entries;
mod fault;
mod fields;
mod header;
mod name_lists;
mod numbers;
mod parts;
mod statements;
mod text;
mod values;
mod words;

pub use fault::TextFault;
pub use text::read_text;
