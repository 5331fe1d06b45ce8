//! The checker of certificates. It stands on fronts, look-ahead and values alone, and shares neither search
//! nor game with the planner.
#![tactic(auto)]

mod bounds;
mod checking;
mod classes;
mod enter;
mod node;
mod tally;
mod verdict;
mod walk;

pub use checking::check;
pub use verdict::{Reason, Verdict};
