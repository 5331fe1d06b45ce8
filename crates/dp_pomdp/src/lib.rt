//! Look-ahead from weights over the states, as if one agent saw every joint observation.
#![tactic(auto)]

mod bounds;
mod key_rows;
mod keys;
mod memo;
mod recursion;
mod reduce;
mod rows;
mod step;

pub use bounds::{LookRoom, action_bound, tail_bound};
pub use keys::PomdpTable;
pub use step::all_zero;
