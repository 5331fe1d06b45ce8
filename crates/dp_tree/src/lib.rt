//! Bound trees, and the arena that grows one.
#![tactic(auto)]

mod arena;
#[cfg(test)]
mod tests;
mod tree;

pub use arena::{GrowFault, NodeArena};
pub use dp_spec::Step;
pub use tree::Tree;
