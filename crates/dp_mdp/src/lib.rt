//! The value table of the underlying Markov decision process, whose agents all see the state.
#![tactic(auto)]

mod build;
mod step_reward;
mod table;

pub use step_reward::state_reward;
pub use table::MdpTable;
