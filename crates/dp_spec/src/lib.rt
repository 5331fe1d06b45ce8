//! The definitions that the contracts of every crate cite, and the small types that definitions and
//! code share field by field.
#![tactic(auto)]

mod node;
mod scales;
mod span;
mod step;

pub use node::{ArenaNode, NodeKind};
pub use scales::Scales;
pub use span::Span;
pub use step::Step;
